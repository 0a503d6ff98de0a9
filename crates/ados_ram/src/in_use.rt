// What is in use while a call is made.
ghost use Rattle.std.specs.Prelude.{◌≡◌};
ghost use Rattle.ados_ram.specs.Place.{key_of};

use crate::places::{Place, any_at_or_below, any_same};
use ados_text::Name;
use std::alloc::Global;
use std::marker::Model;

/// What is in use while a call is made. A place is in use if it is one of these directories or outputs, or if an open
/// output is below it.
#[derive(Drop)]
pub struct Busy {
    /// The current directories of shells and the directories of assigns.
    pub dirs: Vec<Place>,
    /// The open outputs.
    pub outputs: Vec<Place>,
}

impl Model for Busy {
    ghost use Rattle.ados_ram.specs.InUse.{InUse};

    ghost Value = { InUse };

    ghost view = { λ b. record { dirs = b.dirs.items; outputs = b.outputs.items } };
}

impl Busy {
    ghost use Rattle.ados_ram.specs.InUse.{nothing, is_output, holds_output, is_in_use};

    /// Nothing is in use.
    pub fn none(alloc: Global) -> Busy
        ensures { result ≡ nothing }
    {
        Busy {
            dirs: Vec::new(alloc),
            outputs: Vec::new(alloc),
        }
    }

    /// Whether a place is an open output.
    pub fn is_output(&self, names: &[Name]) -> bool
        ensures { result ≡ is_output self.now (key_of names.now) }
    {
        any_same(&self.outputs, names)
    }

    /// Whether a place is an open output, or a directory above one.
    pub fn holds_output(&self, names: &[Name]) -> bool
        ensures { result ≡ holds_output self.now (key_of names.now) }
    {
        any_at_or_below(&self.outputs, names)
    }

    /// Whether a place is in use.
    pub fn holds(&self, names: &[Name]) -> bool
        ensures { result ≡ is_in_use self.now (key_of names.now) }
    {
        any_same(&self.dirs, names) || self.holds_output(names)
    }
}
