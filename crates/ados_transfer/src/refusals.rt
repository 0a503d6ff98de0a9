//! Why an object is not taken, and the fault that says so.

use crate::faults::{TransferFault, named};
use crate::reasons::with_reason;
use crate::writing::no_memory;
use std::alloc::{AllocFailed, Global};
use std::io;
use std::io::ErrorKind;

/// Why an object is not taken.
#[derive(Drop)]
pub enum Refusal {
    /// It is the stand-in of a file that is too large for the Shell, and holds nothing of it.
    StandIn,
    /// Other words of --take wrote the file that is there.
    OtherTake,
    /// The file that is there changed since the run began.
    Changed,
    /// The system refused.
    Failure(io::Error),
}

impl From<io::Error> for Refusal {
    fn from(error: io::Error) -> Refusal {
        Refusal::Failure(error)
    }
}

impl<T: Drop> From<AllocFailed<T>> for Refusal {
    fn from(_error: AllocFailed<T>) -> Refusal {
        Refusal::Failure(no_memory())
    }
}

impl Refusal {
    /// The fault of words that name what is not taken.
    pub fn into_fault(self, alloc: Global, words: &str) -> TransferFault {
        match self {
            Refusal::StandIn => named(alloc, words, TransferFault::StandIn),
            Refusal::OtherTake => because(alloc, words, "another --take wrote it"),
            Refusal::Changed => {
                because(
                    alloc,
                    words,
                    "the file that is there changed since the run began",
                )
            }
            Refusal::Failure(error) if error.kind() == ErrorKind::OutOfMemory => {
                TransferFault::NoMemory
            }
            Refusal::Failure(error) => not_taken(alloc, words, error.kind()),
        }
    }
}

/// The fault of words that cannot be taken, with the reason of the system.
pub fn not_taken(alloc: Global, words: &str, kind: ErrorKind) -> TransferFault {
    match with_reason(alloc, words, kind) {
        Ok(words) => TransferFault::CannotTake(words),
        Err(fault) => fault,
    }
}

// The fault of words that cannot be taken, for a reason of the program's own.
fn because(alloc: Global, words: &str, reason: &str) -> TransferFault {
    match format!(in alloc; "{words}: {reason}") {
        Ok(words) => TransferFault::CannotTake(words),
        Err(_) => TransferFault::NoMemory,
    }
}
