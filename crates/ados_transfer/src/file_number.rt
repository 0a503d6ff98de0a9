//! By what the system tells a file.

use std::fs::Metadata;
use std::os::unix::fs::MetadataExt;

/// The numbers by which the system tells a file, by whatever path it is found.
#[derive(Clone, Copy, PartialEq, Eq, PartialOrd, Ord)]
pub struct FileNumber {
    device: u64,
    inode: u64,
}

impl FileNumber {
    /// Those of a file that was looked at.
    pub fn of(found: &Metadata) -> FileNumber {
        FileNumber {
            device: found.dev(),
            inode: found.ino(),
        }
    }
}

/// Two looks were at one object, by whatever path.
pub fn is_one(found: &Metadata, other: &Metadata) -> bool {
    FileNumber::of(found) == FileNumber::of(other)
}
