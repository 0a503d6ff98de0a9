//! The files of a script that are gone when the Shell's memory is: the line that names them.

use crate::faults::{Fault, report};
use ados_ram::{Entry, Place, Ram};
use ados_text::{Name, NoMemory, Text};
use ados_trace::shown;
use ados_transfer::{Content, Planned};
use std::alloc::Global;
use std::io::Eprint;

// How many files the line names.
const NAMED: usize = 2;

/// What is not gone with the Shell's files, or is no loss.
#[derive(Drop)]
pub struct Kept<'a> {
    // The files as they were before the script.
    before: Ram,
    // What was brought in.
    planned: &'a [Planned],
    // The files, and the directories with files, that are written to this machine, or are not meant to stay.
    places: Vec<Place>,
}

impl<'a> Kept<'a> {
    /// The files as they are before the script, what is brought in, the script itself, and ENV:.
    pub fn new(
        alloc: Global,
        files: &Ram,
        planned: &'a [Planned],
        script: &Place,
    ) -> Result<Kept<'a>, NoMemory> {
        let mut kept = Kept {
            before: files.copy()?,
            planned,
            places: Vec::new(alloc),
        };
        kept.add(script)?;
        kept.add_top(alloc, "Env")?;
        Ok(kept)
    }

    /// What is in T: has served, as after a script that went well.
    pub fn add_temporary(&mut self, alloc: Global) -> Result<(), NoMemory> {
        self.add_top(alloc, "T")
    }

    // What is in the directory of this name at the top is kept.
    fn add_top(&mut self, alloc: Global, name: &str) -> Result<(), NoMemory> {
        let name = Name::from_bytes(alloc, name.as_bytes())?;
        self.add(&Place::root(alloc).with(name)?)
    }

    /// A file, or what is in a directory, is kept.
    pub fn add(&mut self, place: &Place) -> Result<(), NoMemory> {
        self.places.push(place.copy()?)?;
        Ok(())
    }

    // A file is kept, or is as it was.
    fn holds(&self, place: &Place, entry: &Entry) -> bool {
        let is_kept = self.places.iter().any(|kept| is_within(kept, place));
        is_kept || self.was_there(place, entry) || self.was_brought(place, entry)
    }

    // The file had the same bytes before the script.
    fn was_there(&self, place: &Place, entry: &Entry) -> bool {
        match self.before.look(place) {
            Some(before) => is_same_file(before, entry),
            None => false,
        }
    }

    // The file is one that was brought in, unchanged.
    fn was_brought(&self, place: &Place, entry: &Entry) -> bool {
        self.planned.iter().any(|one| match &one.content {
            Content::File { bytes, .. } => {
                one.place == *place && entry.bytes().is_some_and(|found| found == bytes)
            }
            Content::Directory => false,
        })
    }
}

// Both are files, with the same bytes.
fn is_same_file(entry: &Entry, other: &Entry) -> bool {
    match (entry.bytes(), other.bytes()) {
        (Some(bytes), Some(others)) => bytes == others,
        _ => false,
    }
}

// A place is that of a directory, or below it.
fn is_within(directory: &Place, place: &Place) -> bool {
    let above = directory.names();
    match place.names().get(..above.len()) {
        Some(names) => names == above,
        None => false,
    }
}

/// Tells in one line which files are gone, if any are.
pub fn tell_losses<R: AllocGlobal + Eprint>(
    rt: &R,
    files: &Ram,
    kept: &Kept<'_>,
) -> Result<(), Fault> {
    let alloc = rt.alloc();
    let mut line = String::from_str(alloc, "gone with RAM: ")?;
    let mut count = 0usize;
    for place in &files.contents(&Place::root(alloc))? {
        let Some(entry) = files.look(place) else {
            continue;
        };
        if entry.is_directory() || kept.holds(place, entry) {
            continue;
        }
        if count < NAMED {
            let sign = if count == 0 { "" } else { ", " };
            let name = short_name(alloc, &files.full_path(place)?, place)?;
            write!(line, "{sign}{name}")?;
        }
        count = count.saturating_add(1);
    }
    let more = count.saturating_sub(NAMED);
    if more > 0 {
        write!(line, " and {more} more")?;
    }
    if count > 0 {
        line.push_str(" (--take, --share)")?;
        report(rt, &line);
    }
    Ok(())
}

// The name of a file by its device, if it is below one: `C:MegaTool`.
fn short_name(alloc: Global, path: &Text, place: &Place) -> Result<String, Fault> {
    let path = shown(path);
    let below = match path.split_once('/') {
        Some((_, below)) => below,
        None => path,
    };
    match place.names().first() {
        Some(first) if first.text().is("C") => Ok(format!(in alloc; "C:{below}")?),
        Some(first) if first.text().is("S") => Ok(format!(in alloc; "S:{below}")?),
        Some(first) if first.text().is("T") => Ok(format!(in alloc; "T:{below}")?),
        _ => Ok(String::from_str(alloc, path)?),
    }
}
