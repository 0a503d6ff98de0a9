// What comes next in a session.
ghost use Rattle.std.specs.Prelude.{◌≡◌, ◌<◌};
ghost use Rattle.ados_launch.specs.Schedule.{next_at, next_named};

use crate::events::shell_answered;

/// What comes next in a session, if it is no break.
#[derive(Clone, Copy, PartialEq, Eq, Debug)]
pub enum Next {
    /// A line of the input, or its end.
    Line,
    /// The turn of this shell.
    Turn(u8),
    /// The launcher's reply to the start that this shell requests.
    Start(u8),
    /// The launcher's reply to the read or the wait that this shell requests.
    Further(u8),
}

impl Next {
    // What comes at a place of a round.
    pub fn at(place: u8) -> Next
        requires { place < 61 }
        ensures { next_named result ≡ next_at place }
    {
        match place {
            0 => Next::Line,
            1..=20 => Next::Turn(place),
            21..=40 => Next::Start(shell_answered(place)),
            _ => Next::Further(shell_answered(place)),
        }
    }
}
