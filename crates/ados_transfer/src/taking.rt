//! What is written out at the end: files and directories of the Shell, as files and folders of this machine.

use crate::faults::TransferFault;
use crate::file_number::FileNumber;
use crate::paths::{ascii, last_piece};
use crate::refusals::{Refusal, not_taken};
use crate::stamps::Stamp;
use crate::stand_ins::own_entry;
use crate::writing::{enter, no_memory, path_of, spelled, write_whole};
use ados_assign::Assigns;
use ados_names::Path;
use ados_ram::{Entry, Place, Ram};
use ados_text::Name;
use std::alloc::Global;
use std::collections::BTreeSet;
use std::fs::Metadata;
use std::io::ErrorKind;
use std::rt::Files;
use std::time::SystemTime;
use std::{fs, io};

/// Writes out what words of `--take` name. No words replace what others wrote, or what was changed since the run began.
#[derive(Drop)]
pub struct Taker<'a, R> {
    rt: &'a R,
    files: &'a Ram,
    assigns: &'a Assigns,
    // When the run began; each file counts as changed since then if that is not known.
    begun: Option<SystemTime>,
    // The files that were written.
    written: BTreeSet<FileNumber>,
}

impl<'a, R: AllocGlobal + Files> Taker<'a, R> {
    /// Nothing was written yet. The run began at this moment, before a program of it could write; `None` if no clock told it.
    pub fn new(
        rt: &'a R,
        files: &'a Ram,
        assigns: &'a Assigns,
        begun: Option<SystemTime>,
    ) -> Taker<'a, R> {
        Taker {
            rt,
            files,
            assigns,
            begun,
            written: BTreeSet::new(rt.alloc()),
        }
    }

    /// Writes what words of `--take` name, as `NAME` or `NAME=PATH`.
    ///
    /// A file is written whole or not at all. Nothing is written outside the folder that is given. `StandIn` if an object is the
    /// stand-in of a file that is too large for the Shell, which is never written; `CannotTake` if one could not be written, or if a file
    /// of its name is there that words before these wrote, or that was changed since the run began. All others are.
    pub fn take(&mut self, words: &str) -> Result<(), TransferFault> {
        let alloc = self.rt.alloc();
        let (name, path) = parted(alloc, self.files, self.assigns, words)?;
        let Some(place) = place_of(alloc, self.files, self.assigns, name)? else {
            return Err(not_taken(alloc, words, ErrorKind::NotFound));
        };
        let Some(entry) = self.files.look(&place) else {
            return Err(not_taken(alloc, words, ErrorKind::NotFound));
        };
        let own = own_name(alloc, entry)?;
        let taken = if entry.is_directory() {
            self.take_directory(&place, path, own.as_str())
        } else {
            self.take_file(entry, path, own.as_str())
        };
        match taken {
            Ok(()) => Ok(()),
            Err(refusal) => Err(refusal.into_fault(alloc, words)),
        }
    }

    // Writes a file to a path, or into the folder that is there, or into this folder.
    fn take_file(&mut self, entry: &Entry, path: Option<&str>, own: &str) -> Result<(), Refusal> {
        let Some(path) = path else {
            return self.write(".", own, entry);
        };
        if path.ends_with('/') || is_folder(self.rt, path) {
            let folder = folder_at(self.rt, path)?;
            return self.write(folder.as_str(), own, entry);
        }
        let name = last_piece(path);
        let folder = folder_at(self.rt, path.strip_suffix(name).unwrap_or(""))?;
        self.write(folder.as_str(), name, entry)
    }

    // Writes what is in a directory to a path or under its own name. What cannot be written is left out, and the last fault is reported.
    fn take_directory(
        &mut self,
        directory: &Place,
        path: Option<&str>,
        own: &str,
    ) -> Result<(), Refusal> {
        let folder = folder_for(self.rt, path, own)?;
        let Ok(places) = self.files.contents(directory) else {
            return Err(Refusal::Failure(no_memory()));
        };
        let mut taken = Ok(());
        for place in &places {
            if let Err(refusal) = self.take_one(directory, place, folder.as_str()) {
                taken = Err(refusal);
            }
        }
        taken
    }

    // Writes an object that is below a directory into the directory's folder.
    fn take_one(&mut self, directory: &Place, place: &Place, folder: &str) -> Result<(), Refusal> {
        match (self.files.look(place), self.files.written(place)) {
            (Some(entry), Ok(place)) => {
                self.take_below(folder, place.relative_names(directory), entry)
            }
            (None, _) => Ok(()),
            (_, Err(_)) => Err(Refusal::Failure(no_memory())),
        }
    }

    // Writes an object that is below a directory, by the names that lead down to it.
    fn take_below(&mut self, folder: &str, names: &[Name], entry: &Entry) -> Result<(), Refusal> {
        let [above @ .., last] = names else {
            return Ok(());
        };
        let path = folder_below(self.rt, folder, above)?;
        if entry.is_directory() {
            enter(self.rt, path.as_str(), spelled(last)?)?;
            return Ok(());
        }
        self.write(path.as_str(), spelled(last)?, entry)
    }

    // Writes a file.
    fn write(&mut self, folder: &str, name: &str, entry: &Entry) -> Result<(), Refusal> {
        let Some(bytes) = own_entry(Some(entry)).and_then(Entry::bytes) else {
            return Err(Refusal::StandIn);
        };
        let target = path_of(self.rt.alloc(), folder, name)?;
        self.check_unchanged(target.as_str())?;
        let found = write_whole(self.rt, folder, name, bytes)?;
        self.written.insert(FileNumber::of(&found))?;
        Ok(())
    }

    // Refuses to replace a file that other words wrote, or that was changed since the run began. Links and devices are refused later.
    fn check_unchanged(&self, target: &str) -> Result<(), Refusal> {
        let Ok(found) = fs::symlink_metadata(self.rt, target) else {
            return Ok(());
        };
        if self.written.contains(&FileNumber::of(&found)) {
            return Err(Refusal::OtherTake);
        }
        if found.is_file() && self.is_changed(&found) {
            return Err(Refusal::Changed);
        }
        Ok(())
    }

    // A file was changed since the run began, or may have been.
    fn is_changed(&self, found: &Metadata) -> bool {
        match &self.begun {
            Some(begun) => Stamp::of(found).is_changed_since(begun),
            None => true,
        }
    }
}

/// The place of what words of `--take` name, as `NAME` or `NAME=PATH`, if they name one.
pub fn taken_place(
    alloc: Global,
    files: &Ram,
    assigns: &Assigns,
    words: &str,
) -> Result<Option<Place>, TransferFault> {
    let (name, _) = parted(alloc, files, assigns, words)?;
    place_of(alloc, files, assigns, name)
}

// The name and the path of `NAME=PATH`. A name that exists is taken as a whole.
fn parted<'a>(
    alloc: Global,
    files: &Ram,
    assigns: &Assigns,
    words: &'a str,
) -> Result<(&'a str, Option<&'a str>), TransferFault> {
    if let Some(place) = place_of(alloc, files, assigns, words)? {
        if files.look(&place).is_some() {
            return Ok((words, None));
        }
    }
    match words.split_once('=') {
        Some((name, path)) => Ok((name, Some(path))),
        None => Ok((words, None)),
    }
}

// The place to which a name leads from the root.
fn place_of(
    alloc: Global,
    files: &Ram,
    assigns: &Assigns,
    name: &str,
) -> Result<Option<Place>, TransferFault> {
    let text = ascii(alloc, name)?;
    let Ok(path) = Path::parse(alloc, &text) else {
        return Ok(None);
    };
    let root = Place::root(alloc);
    match assigns.resolve(&path, &root, files) {
        Ok(place) => Ok(Some(place)),
        Err(_) => Ok(None),
    }
}

// The name of an object; none for the root.
fn own_name(alloc: Global, entry: &Entry) -> Result<String, TransferFault> {
    match std::str::from_utf8(entry.name.text().as_bytes()) {
        Ok(name) => Ok(String::from_str(alloc, name)?),
        Err(_) => Ok(String::new(alloc)),
    }
}

// The folder at a path, which is made if it is not there. A name that leads elsewhere is refused, and so is a link.
fn folder_at<R: AllocGlobal + Files>(rt: &R, path: &str) -> io::Result<String> {
    let first = if path.starts_with('/') { "/" } else { "." };
    let mut folder = String::from_str(rt.alloc(), first)?;
    for name in path.split('/') {
        if !name.is_empty() {
            folder = enter(rt, folder.as_str(), name)?;
        }
    }
    Ok(folder)
}

// The folder to which names lead down from one; folders are made as needed.
fn folder_below<R: AllocGlobal + Files>(
    rt: &R,
    folder: &str,
    names: &[Name],
) -> io::Result<String> {
    let mut path = String::from_str(rt.alloc(), folder)?;
    for name in names {
        path = enter(rt, path.as_str(), spelled(name)?)?;
    }
    Ok(path)
}

fn is_folder<R: Files>(rt: &R, path: &str) -> bool {
    match fs::metadata(rt, path) {
        Ok(found) => found.is_dir(),
        Err(_) => false,
    }
}

// The folder for a directory, which is made if it is not there: that of a path, or one of the directory's own name in this folder,
// which is no link, and this folder for the root.
fn folder_for<R: AllocGlobal + Files>(rt: &R, path: Option<&str>, own: &str) -> io::Result<String> {
    match path {
        Some(path) => folder_at(rt, path),
        None => folder_at(rt, own),
    }
}
