//! What this machine has at the place of one object of a share.
ghost use Rattle.std.specs.Prelude.{◌≡◌};
ghost use Rattle.ados_transfer.specs.Here.{has_stamp, stamp_of};

use crate::contents::contents_of;
use crate::decision::{Decision, State, decide};
use crate::faults::TransferFault;
use crate::records::{Record, state_there};
use crate::rights::Rights;
use crate::stamps::Stamp;
use ados_ram::{Entry, FileBytes, Limits};
use std::io::ErrorKind;
use std::rt::Files;
use std::{fs, io};

/// What this machine has, with the bytes of a file that the Shell can hold.
#[derive(Drop)]
pub enum Here {
    /// Nothing.
    Absent,
    /// A folder.
    Directory(Stamp),
    /// A file, with its permissions.
    File {
        /// What it holds.
        bytes: FileBytes,
        /// Its stamp, from before it was read.
        stamp: Stamp,
        /// Its permissions, and whose it is.
        rights: Rights,
    },
    /// A file of more bytes than the Shell's may have.
    Large(Stamp),
    /// A link or a device.
    Foreign,
    /// A file that can't be read, or what can't be looked at.
    Unread,
}

impl Here {
    /// Looks at what is at a path below the folder; a link is not followed. `limits` are those of the Shell's files.
    pub fn look<R: AllocGlobal + Files>(
        rt: &R,
        limits: Limits,
        path: &str,
    ) -> Result<Here, TransferFault> {
        let found = match fs::symlink_metadata(rt, path) {
            Ok(found) => found,
            Err(error) if is_nothing(error.kind()) => return Ok(Here::Absent),
            Err(_) => return Ok(Here::Unread),
        };
        let stamp = Stamp::of(&found);
        if found.is_dir() {
            return Ok(Here::Directory(stamp));
        }
        if !found.is_file() {
            return Ok(Here::Foreign);
        }
        if found.len() > limits.file() as u64 {
            return Ok(Here::Large(stamp));
        }
        match contents_of(rt, path, limits.file()) {
            Ok(bytes) if bytes.len() <= limits.file() => Ok(Here::File {
                bytes,
                stamp,
                rights: Rights::of(&found),
            }),
            Ok(_) => Ok(Here::Large(stamp)),
            Err(error) if error.kind() == ErrorKind::OutOfMemory => Err(TransferFault::NoMemory),
            Err(error) if is_nothing(error.kind()) => Ok(Here::Absent),
            Err(_) => Ok(Here::Unread),
        }
    }

    /// Its state, given a record that may say that it has a stand-in.
    pub fn state(&self, record: Option<&Record>) -> State<'_> {
        match (self, record) {
            (Here::Absent, _) => State::Absent,
            (Here::Directory(_), _) => State::Directory,
            (Here::Foreign | Here::Unread, _) => State::Foreign,
            (Here::Large(stamp), _) => State::Large(*stamp),
            (Here::File { stamp, .. }, Some(record))
                if record.is_stand_in() && record.stamp.is_same(stamp) => { State::Large(*stamp) }
            (Here::File { bytes, .. }, _) => State::File(bytes),
        }
    }

    /// What is done with an object for which the Shell has this entry.
    pub fn decision(&self, record: Option<&Record>, entry: Option<&Entry>) -> Decision {
        let state = self.state(record);
        match record {
            Some(record) => decide(
                &record.state(),
                &state,
                &record.state_there(entry),
                record.watch.may_delete(),
            ),
            None => decide(&State::Absent, &state, &state_there(entry), false),
        }
    }

    /// The bytes of a file that the Shell can hold.
    pub fn into_bytes(self) -> Option<FileBytes> {
        match self {
            Here::File { bytes, .. } => Some(bytes),
            Here::Absent | Here::Directory(_) | Here::Large(_) | Here::Foreign | Here::Unread =>
                None,
        }
    }

    /// How many bytes a file has that the Shell can hold.
    pub fn size(&self) -> Option<usize> {
        match self {
            Here::File { bytes, .. } => Some(bytes.len()),
            Here::Absent | Here::Directory(_) | Here::Large(_) | Here::Foreign | Here::Unread =>
                None,
        }
    }

    /// The permissions of a file that the Shell can hold, and whose it is.
    pub fn rights(&self) -> Option<Rights> {
        match self {
            Here::File { rights, .. } => Some(*rights),
            Here::Absent | Here::Directory(_) | Here::Large(_) | Here::Foreign | Here::Unread =>
                None,
        }
    }

    /// It can't be read or looked at: what it is is not known.
    pub fn is_unread(&self) -> bool {
        matches!(self, Here::Unread)
    }

    /// It is a folder.
    pub fn is_directory(&self) -> bool {
        matches!(self, Here::Directory(_))
    }

    /// It had this stamp, so that nothing took its place since.
    pub fn has_stamp(&self, found: &Stamp) -> bool
        ensures { result ≡ has_stamp self.now found.now }
    {
        self.stamp().is_some_and(|stamp| stamp.is_same(found))
    }

    /// Its stamp.
    pub fn stamp(&self) -> Option<Stamp>
        ensures { result ≡ stamp_of self.now }
    {
        match self {
            Here::Absent | Here::Foreign | Here::Unread => None,
            Here::Directory(stamp) | Here::Large(stamp) | Here::File { stamp, .. } => Some(*stamp),
        }
    }
}

/// Looks at what is at a path, and opens a file: the error says why that can't be done.
pub fn check_readable<R: AllocGlobal + Files>(rt: &R, path: &str) -> io::Result<()> {
    if fs::symlink_metadata(rt, path)?.is_file() {
        drop(fs::open(rt, path)?);
    }
    Ok(())
}

/// Nothing is there, also since what would be above it is a file.
pub fn is_nothing(kind: ErrorKind) -> bool {
    matches!(kind, ErrorKind::NotFound | ErrorKind::NotADirectory)
}
