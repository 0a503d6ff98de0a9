//! What the next event of a run asks of this machine.
ghost use Rattle.std.specs.Prelude.{◌<◌, ◌^◌, ◌-◌};

use crate::reader::asks_for_line;
use ados_launch::{Next, Session};
use ados_machine::Request;
use ados_world::World;

/// What the next event asks for.
#[derive(Clone, Copy)]
pub enum Due {
    /// The start of a program, by this shell.
    Start(u8),
    /// A piece of the output of a program.
    Read,
    /// The end of the program of this shell.
    Wait(u8),
    /// A line of standard input.
    Input,
    /// Nothing; the Shell's files may change.
    Turn,
}

impl Due {
    /// What the next event asks for.
    pub fn next(session: &Session<'_>, world: &World) -> Due
        requires count { session.now.schedule.taken < 2 ^ 64 - 1 }
    {
        match session.next(world) {
            Some(Next::Start(number)) => Due::Start(number),
            Some(Next::Further(number)) => match world.pending(number) {
                Some(Request::Wait(child)) => Due::Wait(*child),
                _ => Due::Read,
            },
            Some(Next::Line) if asks_for_line(world) => Due::Input,
            _ => Due::Turn,
        }
    }
}
