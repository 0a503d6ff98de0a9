// The state of the program of the host that a shell started.
ghost use Rattle.std.specs.Prelude.{◌≡◌};
ghost use Rattle.ados_machine.specs.Children.{child_during, child_while};

use crate::shells::Shell;
use crate::suspensions::Suspension;
use ados_machine::{ChildState, Wait};

impl Shell {
    /// The state of the program of the host that the shell started.
    pub fn child(&self) -> ChildState
        ensures { result ≡ child_during self.now.phase }
    {
        match self.phase.as_deref() {
            Some(Suspension::Waiting(wait)) => child_while(wait),
            _ => ChildState::Closed,
        }
    }
}

/// The same of a shell that waits for this.
fn child_while(wait: &Wait) -> ChildState
    ensures { result ≡ child_while wait.now }
{
    match wait {
        Wait::ForPiece(_) => ChildState::Reading,
        Wait::ForEnd(child) if child.marked => ChildState::Cut,
        Wait::ForEnd(_) => ChildState::Waiting,
        Wait::ForAnswer(_) | Wait::ForLines(_) | Wait::ForStart(_) => ChildState::Closed,
    }
}
