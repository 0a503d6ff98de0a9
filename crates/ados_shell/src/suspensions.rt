// What keeps a shell from taking its next line.
ghost use Rattle.std.specs.Prelude.{◌≡◌, Some, IfOk};
ghost use Rattle.ados_machine.specs.{Breaks.{marked_in}, Requests.{request_of}};
ghost use Rattle.ados_shell.specs.Suspensions.{phase_of};

use ados_machine::{Parted, Request, Wait};
use ados_text::NoMemory;

/// What keeps a shell from taking its next line: a line of it that has begun and not ended. A shell without one is in the
/// phase Ready: it waits for nothing.
#[derive(Drop)]
pub enum Suspension {
    /// It continues a line whose command substitution has ended.
    GoingOn(Parted),
    /// It waits.
    Waiting(Wait),
}

impl Suspension {
    /// What the shell of a number asks a launcher for in this phase.
    ///
    /// `NoMemory` if there is none for a copy of the program that is to be started, and of its arguments.
    pub fn request(&self, number: u8) -> Result<Option<Request>, NoMemory>
        ensures { IfOk result (λ request. request ≡ request_of number (phase_of (Some self.now))) }
    {
        match self {
            Suspension::GoingOn(_) => Ok(None),
            Suspension::Waiting(wait) => wait.request(number),
        }
    }

    /// A program that is to be started, or read, is marked: nothing more is to be read of it.
    pub fn mark(&mut self)
        ensures { phase_of (Some self.new) ≡ marked_in (phase_of (Some self.old)) }
    {
        if let Suspension::Waiting(wait) = self {
            wait.mark();
        }
    }
}
