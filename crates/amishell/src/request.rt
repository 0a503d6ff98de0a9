//! What a command line asks for.

use ados_text::Text;
use ados_world::Dialect;

/// What the program is to do.
#[derive(Drop)]
pub enum Asked<'a> {
    /// To run typed lines from the standard input.
    Run {
        /// The dialect of the world.
        dialect: Dialect,
        /// The file of the programs of the host that are commands; without one there are none.
        hosts: Option<&'a str>,
        /// The most events and long lines that are taken: 1 to 1,000,000,000.
        turns: u64,
        /// Each command is told on standard error.
        traces: bool,
    },
    /// To run a recording.
    Replay {
        /// The file that holds it.
        file: &'a str,
        /// Each command is told on standard error.
        traces: bool,
    },
}

/// Why the words ask for nothing.
#[derive(Drop)]
pub enum Refused {
    /// They are not a command line of the program.
    BadLine,
    /// They ask for help or for the version, which is this text.
    Help(Text),
    /// There was no memory to read them.
    NoMemory,
}
