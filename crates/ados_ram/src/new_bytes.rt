//! The bytes that a file is to hold, before they are made.
ghost use Rattle.std.specs.Prelude.{◌≡◌, ◌+◌, length, IfOk};

use crate::file_bytes::FileBytes;
use ados_text::NoMemory;
use std::alloc::Global;
use std::marker::Model;

/// The bytes of a file that are kept, if there are some, followed by more.
#[derive(Drop)]
pub struct NewBytes<'a> {
    kept: Option<&'a FileBytes>,
    more: &'a [u8],
}

impl<'a> Model for NewBytes<'a> {
    ghost use Rattle.std.specs.{Prelude.{List, ℕ, ◌++◌}, Option.{option_copied}};
    ghost use Rattle.ados_ram.specs.Entry.{bytes_or_none};

    ghost Value = { List ℕ };

    ghost view = { λ b. bytes_or_none (option_copied b.kept) ++ b.more.now };
}

impl<'a> NewBytes<'a> {
    ghost use Rattle.std.specs.{Prelude.{◌++◌}, Option.{option_copied}};
    ghost use Rattle.ados_ram.specs.Entry.{bytes_or_none};

    /// Bytes that are kept, or none, followed by more.
    pub fn new(kept: Option<&'a FileBytes>, more: &'a [u8]) -> NewBytes<'a>
        ensures { result ≡ bytes_or_none (option_copied kept.entry) ++ more.now }
    {
        NewBytes { kept, more }
    }

    /// How many are kept, and how many follow.
    pub fn lengths(&self) -> (usize, usize)
        ensures { length self.now ≡ result.0 + result.1 }
    {
        match self.kept {
            None => (0, self.more.len()),
            Some(kept) => (kept.len(), self.more.len()),
        }
    }

    /// The bytes. Those that are kept are shared.
    pub fn joined(&self, alloc: Global) -> Result<FileBytes, NoMemory>
        ensures { IfOk result (λ bytes. bytes ≡ self.now) }
    {
        match self.kept {
            None => FileBytes::from_slice(alloc, self.more),
            Some(kept) => kept.append(self.more),
        }
    }
}
