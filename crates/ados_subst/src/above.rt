// What the directives above a line say.
ghost use Rattle.std.specs.{Prelude.{◌≡◌}, Option.{option_copied}};

use crate::marks::Marks;
use crate::slots::{Slot, Slots};

/// What the directives above a line say.
#[derive(Drop)]
pub struct Above {
    /// The characters of directives and of references.
    pub marks: Marks,
    /// The options of the template, once there has been one.
    pub slots: Option<Slots>,
}

impl Above {
    ghost use Rattle.ados_subst.specs.Above.{initial_above, named_slot};

    /// What holds above the first line, before any directive.
    pub fn first() -> Above
        ensures { result ≡ initial_above }
    {
        Above {
            marks: Marks::first(),
            slots: None,
        }
    }

    /// The option with a name; `None` if there has been no template yet.
    pub fn slot(&self, name: &[u8]) -> Option<&Slot>
        ensures { option_copied result ≡ named_slot self.now name.now }
    {
        match &self.slots {
            None => None,
            Some(slots) => slots.get(name),
        }
    }
}
