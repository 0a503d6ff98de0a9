// What a turn sees, and what it may take.

ghost use Rattle.std.specs.{Prelude.{◌≡◌, ℕ, List}, Option.{option_copied}};
ghost use Rattle.ados_machine.specs.World.{has_input};
ghost use Rattle.ados_shell.specs.Turnings.{IsFirst, waiting_input};

use crate::commands::Commands;
use crate::shells::Shell;
use ados_find::Shared;
use ados_text::Text;
use std::alloc::Global;

/// What a turn of a shell sees, and does not change.
#[derive(Drop)]
pub struct Scene<'a> {
    /// Where memory comes from.
    pub alloc: Global,
    /// The commands' templates.
    pub commands: &'a Commands,
    /// The number of the shell whose turn it is.
    pub number: u8,
    /// That shell, as it was.
    pub shell: &'a Shell,
    /// All shells by their numbers, the first at place 0. A turn knows only what is seen of them.
    pub shells: &'a [Option<Shell>; 20],
    /// What all shells share.
    pub shared: &'a Shared,
}

/// The input of a shell: the first of the lines that wait for it, and whether no more will come.
#[derive(Drop)]
pub struct Input<'a> {
    /// The first line that waits.
    pub line: Option<&'a Text>,
    /// No more lines will come.
    pub is_ended: bool,
}

impl Input<'_> {
    /// A line waits, or no more will come.
    pub fn has_lines(&self) -> bool
        ensures { (queue : List (List ℕ)) → IsFirst (option_copied self.now.line) queue → has_input (waiting_input self.now queue) ≡ result }
    {
        match self.line {
            Some(_) => true,
            None => self.is_ended,
        }
    }
}
