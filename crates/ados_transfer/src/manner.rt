//! The permissions that a file gets which is written, and those of a folder.
ghost use Rattle.std.specs.Prelude.{◌≡◌};
ghost use Rattle.ados_transfer.specs.Rights.{mode_of_folder};

use crate::rights::{Owner, Rights};
use std::io;
use std::io::ErrorKind;

/// The permissions of a file that is written.
#[derive(Clone, Copy)]
pub enum Manner {
    /// Those that a new file gets.
    Plain,
    /// The same, and whoever may read it may execute it.
    Executable,
    /// Those of this mode.
    Mode(u32),
    /// Those of the file that is replaced, or that had another name before, and its owner.
    Kept(Rights),
    /// Those of the file of which it is a copy, which is this user's: nobody else may write it.
    Copied(Rights),
}

impl Manner {
    /// The permissions of a file in place of one with these; one that may not be written is refused: `PermissionDenied`.
    pub fn over(rights: Rights) -> io::Result<Manner> {
        if rights.mode & 0o222 == 0 {
            return Err(io::Error::from(ErrorKind::PermissionDenied));
        }
        Ok(Manner::Kept(rights))
    }

    /// The mode of a folder that was made with this owner, if it is not that of a new one.
    pub fn folder_mode(self, own: Owner) -> Option<u32>
        ensures { result ≡ mode_of_folder self own.group }
    {
        match self {
            Manner::Plain | Manner::Executable => None,
            Manner::Mode(mode) => Some(mode),
            Manner::Kept(rights) => Some(rights.folder_mode(own, false)),
            Manner::Copied(rights) => Some(rights.folder_mode(own, true)),
        }
    }

    /// The permissions that the file has until all of it is written: a file that others may not read must not be open to them.
    pub(crate) fn first_mode(self) -> u32 {
        match self {
            Manner::Plain | Manner::Executable => 0o666,
            Manner::Mode(_) | Manner::Kept(_) | Manner::Copied(_) => 0o600,
        }
    }
}
