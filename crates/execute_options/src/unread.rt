//! A small file of this machine, and why a file or a folder can't be read.

use crate::faults::OptionsFault;
use ados_transfer::bytes_of;
use std::alloc::AllocError;
use std::io::ErrorKind;
use std::rt::Files;
use std::{fmt, fs};

/// The bytes of a file that has at most this many.
///
/// `CannotRead` if it has more, without a reason, or cannot be read.
pub fn bytes_within<R: AllocGlobal + Files>(
    rt: &R,
    file: &str,
    most: usize,
) -> Result<Vec<u8>, OptionsFault> {
    match bytes_of(rt, file, most) {
        Ok(bytes) if bytes.len() <= most => Ok(bytes),
        Ok(_) => Err(OptionsFault::without_reason(rt.alloc(), file)),
        Err(error) if error.kind() == ErrorKind::OutOfMemory => { Err(OptionsFault::NoMemory) }
        Err(_) => Err(OptionsFault::with_reason(rt, file)),
    }
}

/// What can't be read, and why, if that can be told.
#[derive(Debug, Drop)]
pub struct Unread {
    /// Its path.
    pub path: String,
    /// The reason.
    pub reason: Option<Reason>,
}

/// Why something can't be read as a file.
#[derive(Clone, Copy, PartialEq, Eq, Debug)]
pub enum Reason {
    /// Nothing is there.
    Absent,
    /// It may not be read.
    Denied,
    /// It is a folder.
    Folder,
}

impl Unread {
    /// A file that could not be read, with the reason as it is found now.
    pub fn at<R: AllocGlobal + Files>(rt: &R, path: &str) -> Result<Unread, AllocError> {
        Ok(Unread {
            path: String::from_str(rt.alloc(), path)?,
            reason: reason_at(rt, path),
        })
    }

    /// Whether nothing is there.
    pub fn is_absent(&self) -> bool {
        self.reason == Some(Reason::Absent)
    }
}

impl fmt::Display for Unread {
    fn fmt<W: fmt::Write>(&self, f: &mut fmt::Formatter<W>) -> fmt::Result {
        f.write_str(self.path.as_str())?;
        match self.reason {
            Some(Reason::Absent) => f.write_str(": no such file"),
            Some(Reason::Denied) => f.write_str(": permission denied"),
            Some(Reason::Folder) => f.write_str(": it is a folder"),
            None => Ok(()),
        }
    }
}

// Why what is at a path can't be read. Only a file is opened: a pipe would be waited for.
fn reason_at<R: Files>(rt: &R, path: &str) -> Option<Reason> {
    match fs::metadata(rt, path) {
        Ok(found) if found.is_dir() => Some(Reason::Folder),
        Ok(found) if found.is_file() => match fs::open(rt, path) {
            Ok(_) => None,
            Err(error) => reason_of(error.kind()),
        },
        Ok(_) => None,
        Err(error) => reason_of(error.kind()),
    }
}

fn reason_of(kind: ErrorKind) -> Option<Reason> {
    match kind {
        ErrorKind::NotFound | ErrorKind::NotADirectory => Some(Reason::Absent),
        ErrorKind::PermissionDenied => Some(Reason::Denied),
        _ => None,
    }
}
