//! Why options, or a small file of this machine, are not read.

use crate::unread::Unread;
use ados_text::NoMemory;
use std::alloc::{AllocFailed, Global};
use std::rt::Files;
use thiserror::Error;

/// Why options, or a small file, are not read.
#[derive(Debug, Drop, Error)]
pub enum OptionsFault {
    /// The words are not a command line of the program, or a line of the file is none of its options, for this reason.
    #[error("{0}")]
    BadLine(String),
    /// A file cannot be read.
    #[error("cannot read {0}")]
    CannotRead(Unread),
    /// There was no memory.
    #[error("out of memory")]
    NoMemory,
}

impl OptionsFault {
    /// The fault of what cannot be read, whose reason is not known.
    pub fn without_reason(alloc: Global, path: &str) -> OptionsFault {
        match String::from_str(alloc, path) {
            Ok(path) => OptionsFault::CannotRead(Unread { path, reason: None }),
            Err(_) => OptionsFault::NoMemory,
        }
    }

    /// The fault of a file that cannot be read, with its reason as it is found now.
    pub fn with_reason<R: AllocGlobal + Files>(rt: &R, path: &str) -> OptionsFault {
        match Unread::at(rt, path) {
            Ok(unread) => OptionsFault::CannotRead(unread),
            Err(_) => OptionsFault::NoMemory,
        }
    }
}

impl From<NoMemory> for OptionsFault {
    fn from(_e: NoMemory) -> OptionsFault {
        OptionsFault::NoMemory
    }
}

impl<T: Drop> From<AllocFailed<T>> for OptionsFault {
    fn from(_e: AllocFailed<T>) -> OptionsFault {
        OptionsFault::NoMemory
    }
}
