//! What is to be brought in: files and directories, within the limits of the Shell's files.

use crate::faults::{Excess, TransferFault, exceeded, named};
use crate::planned::{Content, Planned};
use crate::room::Room;
use ados_names::PATH_LIMIT;
use ados_ram::{FileBytes, Limits, Place, Ram};
use std::alloc::Global;

/// Files and directories to be brought in, each after the directory in which it is.
#[derive(Drop)]
pub struct Plan {
    alloc: Global,
    planned: Vec<Planned>,
    room: Room,
    // A line for each object that is left out.
    lines: Vec<String>,
}

impl Plan {
    /// Nothing to be brought in yet; the files that are there count.
    pub fn new(alloc: Global, limits: Limits, files: &Ram) -> Result<Plan, TransferFault> {
        Ok(Plan {
            alloc,
            planned: Vec::new(alloc),
            room: Room::new(alloc, limits, files)?,
            lines: Vec::new(alloc),
        })
    }

    /// The limits of the Shell's files.
    pub fn limits(&self) -> Limits {
        self.room.limits()
    }

    /// What is to be brought in.
    pub fn planned(&self) -> &[Planned] {
        self.planned.as_slice()
    }

    /// The lines that report what is left out.
    pub fn lines(&self) -> &[String] {
        self.lines.as_slice()
    }

    /// Leaves out an object that is neither a file nor a folder.
    pub fn leave(&mut self, path: &str) -> Result<(), TransferFault> {
        let line = format!(in self.alloc; "no file or folder, left alone: {path}")?;
        self.lines.push(line)?;
        Ok(())
    }
    /// Adds a directory, if it is not there; a fault names `path`.
    pub fn add_directory(
        &mut self,
        files: &Ram,
        place: Place,
        path: &str,
    ) -> Result<(), TransferFault> {
        for depth in 1..place.names().len() {
            let above = Place::root(self.alloc).joined(&place.names()[..depth])?;
            self.add_one(files, above, path)?;
        }
        self.add_one(files, place, path)
    }

    /// Adds a file, and the directories above it that are not there.
    pub fn add_file(
        &mut self,
        files: &Ram,
        place: Place,
        content: Content,
        path: &str,
    ) -> Result<(), TransferFault> {
        if let Some(above) = place.copy()?.parent() {
            self.add_directory(files, above, path)?;
        }
        if self.kind(files, &place).is_some() {
            return Err(named(self.alloc, path, TransferFault::Twice));
        }
        self.add(place, content, path)
    }

    // Adds a directory in one that is there.
    fn add_one(&mut self, files: &Ram, place: Place, path: &str) -> Result<(), TransferFault> {
        match self.kind(files, &place) {
            Some(true) => Ok(()),
            Some(false) => Err(named(self.alloc, path, TransferFault::Twice)),
            None => self.add(place, Content::Directory, path),
        }
    }

    // Whether a directory is at a place, or will be; `None` if nothing is.
    fn kind(&self, files: &Ram, place: &Place) -> Option<bool> {
        if let Some(entry) = files.look(place) {
            return Some(entry.is_directory());
        }
        let planned = self.planned.iter().find(|planned| planned.place == *place)?;
        Some(matches!(planned.content, Content::Directory))
    }

    fn add(&mut self, place: Place, content: Content, path: &str) -> Result<(), TransferFault> {
        let size = size_of(&content);
        if place.path(self.alloc)?.as_bytes().len() > PATH_LIMIT {
            return Err(named(self.alloc, path, TransferFault::BadName));
        }
        if size > self.limits().file() {
            return Err(exceeded(self.alloc, path, Excess::File, self.limits()));
        }
        if !self.room.fits(size, None) {
            return Err(exceeded(self.alloc, path, Excess::Bytes, self.limits()));
        }
        if !self.room.has_place() {
            return Err(exceeded(self.alloc, path, Excess::Objects, self.limits()));
        }
        self.room.put(size, None);
        let path = String::from_str(self.alloc, path)?;
        self.planned.push(Planned {
            place,
            content,
            path,
        })?;
        Ok(())
    }
}

fn size_of(content: &Content) -> usize {
    match content {
        Content::Directory => 0,
        Content::File { bytes, .. } => bytes.len(),
    }
}
