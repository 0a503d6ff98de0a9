//! What nothing undoes in a run: whatever the script does afterwards, its folder lacks something.
ghost use Rattle.std.specs.Prelude.{◌≡◌, true, false, OnOk, is_none};

use ados_transfer::TransferFault;
use std::alloc::Global;

/// What nothing undoes: another program deleted a large file that the script had renamed, wrote another in its place, or took its new name,
/// before it had that; the script made something above the top of a disk; or what it made gave way to this machine's.
#[derive(Drop)]
pub struct Spoils {
    alloc: Global,
    // Something of that was so.
    is_spoilt: bool,
    // The first new name that was taken so.
    taken: Option<String>,
    // The path of the first object that gave way.
    overruled: Option<String>,
}

impl Spoils {
    /// Nothing was so yet.
    pub fn new(alloc: Global) -> Spoils {
        Spoils {
            alloc,
            is_spoilt: false,
            taken: None,
            overruled: None,
        }
    }

    /// Something was so.
    pub fn is_spoilt(&self) -> bool
        ensures { result ≡ self.now.is_spoilt }
    {
        self.is_spoilt
    }

    /// Notes that something was so.
    pub fn spoil(&mut self)
        ensures { self.new ≡ record self.old { is_spoilt = true } }
    {
        self.is_spoilt = true;
    }

    /// Notes that another program took a new name of a large file.
    pub fn note_taken(&mut self, new: &str) -> Result<(), TransferFault>
        ensures spoilt { self.new.is_spoilt ≡ true }
        ensures taken { OnOk result (is_none self.new.taken ≡ false) }
        ensures rest { self.new ≡ record self.old { is_spoilt = true; taken = self.new.taken } }
    {
        self.is_spoilt = true;
        if self.taken.is_none() {
            self.taken = Some(String::from_str(self.alloc, new)?);
        }
        Ok(())
    }

    /// Notes that what the script made at a path gave way to this machine's: what that held may be nowhere else by now.
    pub fn note_overruled(&mut self, path: &str) -> Result<(), TransferFault>
        ensures spoilt { self.new.is_spoilt ≡ true }
        ensures overruled { OnOk result (is_none self.new.overruled ≡ false) }
        ensures rest { self.new ≡ record self.old { is_spoilt = true; overruled = self.new.overruled } }
    {
        self.is_spoilt = true;
        if self.overruled.is_none() {
            self.overruled = Some(String::from_str(self.alloc, path)?);
        }
        Ok(())
    }

    /// The first new name that was taken so.
    pub fn taken(&self) -> Option<&str>
        ensures { is_none result ≡ is_none self.now.taken }
    {
        self.taken.as_deref()
    }

    /// The path of the first object that gave way.
    pub fn overruled(&self) -> Option<&str>
        ensures { is_none result ≡ is_none self.now.overruled }
    {
        self.overruled.as_deref()
    }
}
