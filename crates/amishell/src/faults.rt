//! Why the program ends with a line on standard error.

use ados_launch::DriveFault;
use thiserror::Error;

/// What that line says.
#[derive(Debug, Drop, Error)]
pub enum Fault {
    /// The words are not a command line of the program.
    #[error("bad command line")]
    BadLine,
    /// The file of this name cannot be read, or is longer than one of its kind may be.
    #[error("cannot read {0}")]
    CannotRead(String),
    /// The line of this number, from 1, is the first invalid one in the file of hosts.
    #[error("bad host at line {0}")]
    BadHost(usize),
    /// The line of this number, from 1, is the first invalid one in the recording.
    #[error("bad recording at line {0}")]
    BadRecording(usize),
    /// There was no memory to start.
    #[error("out of memory")]
    Memory,
    /// The help could not be written.
    #[error("write fault")]
    Write,
    /// The run stopped before its end.
    #[error("{0}")]
    Drive(#[from] DriveFault),
}
