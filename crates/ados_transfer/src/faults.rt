use ados_ram::Limits;
use ados_text::NoMemory;
use std::alloc::{AllocFailed, Global};
use thiserror::Error;

/// Why files are not brought in or taken, or a line is not typed.
#[derive(Debug, Drop, Error)]
pub enum TransferFault {
    /// The file or folder of this name cannot be read.
    #[error("cannot read {0}")]
    CannotRead(String),
    /// The words have a byte above ASCII.
    #[error("not ASCII: {0}")]
    NotAscii(String),
    /// The words of a typed line hold a newline.
    #[error("more than one line: {0}")]
    ManyLines(String),
    /// The name cannot be a name in the Shell's files.
    #[error("bad name for the Shell: {0}")]
    BadName(String),
    /// A file or folder would have the name of another one, if case is ignored.
    #[error("name is taken twice: {0}")]
    Twice(String),
    /// The file has more bytes than this, the most that one may have.
    #[error("more than {0} bytes: {1}")]
    LargeFile(usize, String),
    /// With this file there are more bytes than this, the most that all may have.
    #[error("more than {0} bytes in all, with {1}")]
    ManyBytes(usize, String),
    /// With this object there are more files and folders than this, the most that there may be.
    #[error("more than {0} files and folders, with {1}")]
    ManyObjects(usize, String),
    /// The line that is typed for this would have more bytes than one may have.
    #[error("more than 512 bytes in the line for {0}")]
    LongLine(String),
    /// What these words name cannot be taken, with the reason if there is one.
    #[error("cannot take {0}")]
    CannotTake(String),
    /// What is to be taken is the stand-in of a file that is too large for the Shell, or such a stand-in is in it.
    #[error("cannot take what the Shell can't hold: {0}")]
    StandIn(String),
    /// The directory of a share is a file, or files are in it at the beginning.
    #[error("no empty directory for the share: {0}")]
    NoPlace(String),
    /// This device, which the Shell has, does not lead to an empty directory.
    #[error("{0} is the Shell's own: share another device, and assign that")]
    OwnDevice(String),
    /// The folder of this name that is to be shared cannot be opened.
    #[error("cannot read {0}")]
    FolderUnread(String),
    /// Of two folders that are to be shared one is the other, or is in it.
    #[error("one folder cannot be shared twice: {0}, {1}")]
    FoldersMeet(String, String),
    /// Of the directories of two shares one is the other, or is in it.
    #[error("one directory cannot have two folders: {0}, {1}")]
    DirectoriesMeet(String, String),
    /// The folders of a share have more files and folders than the Shell's files can hold; the text says how many.
    #[error("{0}")]
    DoesNotFit(String),
    /// There was no memory.
    #[error("out of memory")]
    NoMemory,
}

impl From<NoMemory> for TransferFault {
    fn from(_e: NoMemory) -> TransferFault {
        TransferFault::NoMemory
    }
}

impl<T: Drop> From<AllocFailed<T>> for TransferFault {
    fn from(_e: AllocFailed<T>) -> TransferFault {
        TransferFault::NoMemory
    }
}

/// A fault that names something.
pub fn named<F: Fn(String) -> TransferFault>(alloc: Global, name: &str, fault: F) -> TransferFault
    requires { F.IsAlwaysCallable fault }
{
    match String::from_str(alloc, name) {
        Ok(name) => fault(name),
        Err(_) => TransferFault::NoMemory,
    }
}

/// Which of the limits of the Shell's files is exceeded.
#[derive(Clone, Copy)]
pub enum Excess {
    /// The bytes of one file.
    File,
    /// The bytes of all files.
    Bytes,
    /// The number of files and folders.
    Objects,
}

/// The fault of an object with which one of the limits is exceeded.
pub fn exceeded(alloc: Global, name: &str, excess: Excess, limits: Limits) -> TransferFault {
    let Ok(name) = String::from_str(alloc, name) else {
        return TransferFault::NoMemory;
    };
    match excess {
        Excess::File => TransferFault::LargeFile(limits.file(), name),
        Excess::Bytes => TransferFault::ManyBytes(limits.bytes(), name),
        Excess::Objects => TransferFault::ManyObjects(limits.objects(), name),
    }
}
