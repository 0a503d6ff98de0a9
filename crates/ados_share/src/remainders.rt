//! Backups that stay at the end of a run: the names that they get, and the line that reports them.

use crate::departure::own_path;
use crate::elsewhere::Elsewhere;
use crate::failures::with_more;
use crate::mirror::Mirror;
use ados_names::is_name;
use ados_text::Text;
use ados_transfer::{
    TransferFault, Volumes, folder_of, is_nothing, last_piece, lower, place_new, step_into,
};
use std::alloc::Global;
use std::collections::BTreeSet;
use std::io::ErrorKind;
use std::rt::Files;
use std::{fs, io};

// As many names are tried for one backup.
const NAMES: u32 = 1000;

/// A backup that stays.
#[derive(Drop)]
pub struct Remainder {
    /// Its path, which is that of a temporary file.
    pub path: String,
    /// The path of the file of which it is a copy.
    pub original: String,
    /// Where the Shell has that file.
    pub elsewhere: Elsewhere,
}

impl Remainder {
    // The line that reports it, given the name that it has now, and how many more stay.
    fn line(
        &self,
        alloc: Global,
        volumes: &Volumes,
        name: &str,
        more: usize,
    ) -> Result<String, TransferFault> {
        let name = volumes.shown(name)?;
        let original = volumes.shown(self.original.as_str())?;
        let elsewhere = &self.elsewhere;
        let line = format!(in alloc; "kept as {name}, since {elsewhere}: {original}")?;
        with_more(alloc, line, more)
    }

    // Gives it a name of its own: beside the place of the file, or else in the folder of its volume. Gives the name; that is the
    // temporary one if it can have no other.
    fn own_name<R: AllocGlobal + Files + Clone + Drop>(
        &self,
        rt: &R,
        volumes: &Volumes,
    ) -> Result<String, TransferFault> {
        let original = self.original.as_str();
        let root = volumes.root_of(original);
        let in_root = step_into(rt.alloc(), root, last_piece(original))?;
        for stem in [original, in_root.as_str()] {
            if let Some(name) = placed_as(rt, self.path.as_str(), stem)? {
                return Ok(name);
            }
        }
        Ok(self.path.clone()?)
    }
}

impl Mirror {
    // Gives the backups that stay names of their own, and reports the first. One that another program deleted has none.
    pub(crate) fn keep_remainders<R: AllocGlobal + Files + Clone + Drop>(
        &mut self,
        rt: &R,
        remainders: &[Remainder],
    ) -> Result<(), TransferFault> {
        let mut named = Vec::new(self.alloc);
        for remainder in remainders {
            self.backups.have_stayed = true;
            if fs::symlink_metadata(rt, remainder.path.as_str()).is_ok() {
                let name = remainder.own_name(rt, &self.volumes)?;
                named.push((name, remainder))?;
            }
        }
        let [(name, first), more @ ..] = named.as_slice() else {
            return Ok(());
        };
        let line = first.line(self.alloc, &self.volumes, name.as_str(), more.len())?;
        self.reports.report_line(line)
    }
}

// Gives a file a name that begins like this and that nothing has, in whatever case; nothing if that can't be done.
fn placed_as<R: AllocGlobal + Files + Clone + Drop>(
    rt: &R,
    path: &str,
    stem: &str,
) -> Result<Option<String>, TransferFault> {
    match try_place_as(rt, path, stem) {
        Ok(name) => Ok(name),
        Err(error) if error.kind() == ErrorKind::OutOfMemory => Err(TransferFault::NoMemory),
        Err(_) => Ok(None),
    }
}

// The same, with the error.
fn try_place_as<R: AllocGlobal + Files + Clone + Drop>(
    rt: &R,
    path: &str,
    stem: &str,
) -> io::Result<Option<String>> {
    let taken = names_beside(rt, stem)?;
    for number in 0..NAMES {
        let name = kept_name(rt.alloc(), stem, number)?;
        let is_taken = taken.contains(lower(rt.alloc(), last_piece(name.as_str()))?.as_str());
        if !is_taken && try_place(rt, path, name.as_str())? {
            return Ok(Some(name));
        }
    }
    Ok(None)
}

// The name of this number for what stays of a path. A long one is cut, so that the Shell allows it and the next run shares the file.
fn kept_name(alloc: Global, stem: &str, number: u32) -> io::Result<String> {
    let ending = if number == 0 {
        String::from_str(alloc, ".kept")?
    } else {
        format!(in alloc; ".kept{number}")?
    };
    for length in (1..=stem.len()).rev() {
        let begin = stem.get(..length).unwrap_or(stem);
        let name = format!(in alloc; "{begin}{ending}")?;
        let last = Text::from_bytes(alloc, last_piece(name.as_str()).as_bytes())?;
        if is_name(&last) {
            return Ok(name);
        }
    }
    Ok(format!(in alloc; "{stem}{ending}")?)
}

// The names in the folder of a path, in lower case: the Shell does not tell apart names that differ in case alone.
fn names_beside<R: AllocGlobal + Files + Clone + Drop>(
    rt: &R,
    path: &str,
) -> io::Result<BTreeSet<String>> {
    let mut names = BTreeSet::new(rt.alloc());
    let entries = match fs::read_dir(rt, folder_of(path)) {
        Ok(entries) => entries,
        Err(error) if is_nothing(error.kind()) => return Ok(names),
        Err(error) => return Err(error),
    };
    for entry in entries {
        match entry {
            Ok(entry) => names.insert(lower(rt.alloc(), entry.file_name())?)?,
            // It is no name of the Shell.
            Err(error) if error.kind() == ErrorKind::InvalidFilename => false,
            Err(error) => return Err(error),
        };
    }
    Ok(names)
}

// Gives a file a path below the folder of the share; `false` if something has it.
fn try_place<R: AllocGlobal + Files>(rt: &R, path: &str, name: &str) -> io::Result<bool> {
    let target = own_path(rt, name)?;
    place_new(rt, path, target.as_str())
}
