//! Folders of this machine that are open: each is used by its descriptor, which means this folder whatever takes its name.
//!
//! Where there is no `/proc` a folder is used by its name: then a link that takes the name between the look and the call is followed.

use crate::file_number::is_one;
use crate::writing::joined;
use std::fs::{Metadata, OpenFile};
use std::io::{Error, ErrorKind};
use std::mem::forget;
use std::rt::Files;
use std::{fs, io};

// The folder that lists what this process has open.
const DESCRIPTORS: &str = "/proc/self/fd";

// Descriptors from here are looked at, and at most so many: those before are the standard ones.
const FIRST: usize = 3;

const LAST: usize = 1024;

/// A folder that is open, and a path that leads to it.
#[derive(Drop)]
pub struct OpenFolder<F: Drop> {
    path: String,
    // The path needs it.
    open: F,
}

impl<F: OpenFile + Drop> OpenFolder<F> {
    /// Opens the folder that is at a path; a link to one is refused.
    pub fn new<R: AllocGlobal + Files<File = F>>(rt: &R, path: &str) -> io::Result<OpenFolder<F>> {
        let found = fs::symlink_metadata(rt, path)?;
        if !found.is_dir() {
            return Err(Error::from(ErrorKind::NotADirectory));
        }
        // The slash refuses a pipe, at which an opening would wait.
        let open = fs::open(rt, format!(in rt.alloc(); "{path}/")?.as_str())?;
        let opened = open.metadata()?;
        if !is_one(&found, &opened) {
            return Err(Error::from(ErrorKind::NotADirectory));
        }
        let path = match own_path(rt, &opened)? {
            Some(own) => own,
            None => String::from_str(rt.alloc(), path)?,
        };
        Ok(OpenFolder { path, open })
    }

    /// The path.
    pub fn path(&self) -> &str {
        self.path.as_str()
    }

    /// Opens a folder that is in this one.
    pub fn step_down<R: AllocGlobal + Files<File = F>>(
        &self,
        rt: &R,
        name: &str,
    ) -> io::Result<OpenFolder<F>> {
        OpenFolder::new(rt, joined(rt.alloc(), self.path(), name)?.as_str())
    }

    /// Keeps it open until this process ends, and gives the path.
    pub fn into_path(self) -> String {
        let OpenFolder { path, open } = self;
        forget(open);
        path
    }
}

// The path by which this process has a folder open: that of the first descriptor that leads to it. `Files` does not give numbers.
fn own_path<R: AllocGlobal + Files>(rt: &R, opened: &Metadata) -> io::Result<Option<String>> {
    if !fs::metadata(rt, DESCRIPTORS).is_ok_and(|found| found.is_dir()) {
        return Ok(None);
    }
    for number in FIRST..LAST {
        let path = format!(in rt.alloc(); "{DESCRIPTORS}/{number}")?;
        if fs::metadata(rt, path.as_str()).is_ok_and(|found| is_one(&found, opened)) {
            return Ok(Some(path));
        }
    }
    Ok(None)
}
