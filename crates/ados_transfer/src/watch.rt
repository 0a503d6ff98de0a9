//! What was seen of a stand-in.
ghost use Rattle.std.specs.Prelude.{◌≡◌, ◌&&◌, not};
ghost use Rattle.ados_transfer.specs.StandIns.{last_watch, next_watch};

use ados_ram::Bits;

/// What was seen so far of a stand-in.
#[derive(Clone, Copy)]
pub struct Watch {
    /// It had bit d when it was last seen.
    pub had_delete: bool,
    /// Its large file is never deleted: the stand-in had bit r at some time, so that it may have been copied as the empty file that it
    /// is, or it became another file.
    pub is_spared: bool,
    /// It is followed no longer: it was deleted, or became another file.
    pub is_over: bool,
}

impl Watch {
    /// Nothing was seen.
    pub const NEW: Watch = Watch {
        had_delete: false,
        is_spared: false,
        is_over: false,
    };

    /// What was seen after an event that left it with these bits.
    pub fn after(self, bits: Bits) -> Watch
        ensures { result ≡ next_watch self bits }
    {
        Watch {
            had_delete: bits.delete,
            is_spared: self.is_spared || bits.read,
            ..self
        }
    }

    /// What was seen after the event by which it was deleted; `is_altered`: it was not, but became another file.
    pub fn over(self, is_altered: bool) -> Watch
        ensures { result ≡ last_watch self is_altered }
    {
        Watch {
            is_spared: self.is_spared || is_altered,
            is_over: true,
            ..self
        }
    }

    /// If it was a stand-in and is gone, its file may be deleted on this machine too.
    pub fn may_delete(self) -> bool
        ensures { result ≡ (self.had_delete && not self.is_spared) }
    {
        self.had_delete && !self.is_spared
    }
}
