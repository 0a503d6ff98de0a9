//! How a file of the folder of a share takes its place: only if what is there is still what was looked at.
//!
//! No call of this machine changes a name only if its file is unchanged. So the old file keeps a second name until the new one is
//! in its place: what was written to it meanwhile is found there, and it gets its place back.

use crate::contents::contents_of;
use crate::file_number::is_one;
use crate::here::{Here, is_nothing};
use crate::manner::Manner;
use crate::paths::{folder_of, last_piece};
use crate::writing::{link_beside, open_beside, place_new, write_beside};
use ados_ram::{Entry, FileBytes};
use std::fs::Metadata;
use std::io::{Error, ErrorKind};
use std::os::unix::fs::{MetadataExt, PermissionsExt};
use std::rt::Files;
use std::{fs, io};

// The bit of a folder's mode by which only owners remove what is in it, and the user who always does.
const STICKY: u32 = 0o1000;

const SUPERUSER: u32 = 0;

/// What an object of the folder is to become.
#[derive(Clone, Copy)]
pub struct Draft<'a> {
    /// What the Shell has.
    pub entry: &'a Entry,
    /// What this machine had when it was looked at.
    pub here: &'a Here,
    /// The permissions that it is to have, where these are not those of what is replaced, or of what is new.
    pub manner: Option<Manner>,
    /// Only the Shell has beside what this machine had, so that it must not be lost.
    pub is_last_copy: bool,
}

impl<'a> Draft<'a> {
    /// What the Shell has in place of what this machine had, with the permissions that it is to have.
    pub fn new(
        entry: &'a Entry,
        here: &'a Here,
        manner: Option<Manner>,
        is_last_copy: bool,
    ) -> Draft<'a> {
        Draft {
            entry,
            here,
            manner,
            is_last_copy,
        }
    }
}

/// Writes a file to a path in a folder, in place of what was looked at; `false` if something else came to be there since.
pub fn place_whole<R: AllocGlobal + Files>(
    rt: &R,
    folder: &str,
    target: &str,
    draft: &Draft<'_>,
) -> io::Result<bool> {
    let Some(bytes) = draft.entry.bytes() else {
        return Err(Error::from(ErrorKind::InvalidInput));
    };
    let beside = write_beside(rt, folder, bytes, manner(draft)?)?;
    let placed = match draft.here {
        Here::File { bytes, .. } => { place_over(rt, folder, beside.as_str(), target, bytes) }
        _ => place_new(rt, beside.as_str(), target),
    };
    if !matches!(placed, Ok(true)) {
        let _ = fs::remove_file(rt, beside.as_str());
    }
    placed
}

// The permissions for a file: those that it is to have, or had before; a new script is executable. A file that may not be written is
// refused.
fn manner(draft: &Draft<'_>) -> io::Result<Manner> {
    let own = match draft.here {
        Here::File { rights, .. } => Manner::over(*rights)?,
        _ if draft.entry.bits.script => Manner::Executable,
        _ => Manner::Plain,
    };
    Ok(draft.manner.unwrap_or(own))
}

// Gives a file the name of another one that holds these bytes; `false` if that holds others by now.
fn place_over<R: AllocGlobal + Files>(
    rt: &R,
    folder: &str,
    beside: &str,
    target: &str,
    bytes: &FileBytes,
) -> io::Result<bool> {
    if is_bound(rt, folder, beside, target)? {
        return Err(Error::from(ErrorKind::PermissionDenied));
    }
    let Some(kept) = link_beside(rt, folder, target)? else {
        if !still_holds(rt, target, bytes)? {
            return Ok(false);
        }
        fs::rename(rt, beside, target)?;
        return Ok(true);
    };
    let unchanged = is_unchanged(rt, kept.as_str(), target, bytes);
    if !matches!(unchanged, Ok(true)) {
        let _ = fs::remove_file(rt, kept.as_str());
        return unchanged;
    }
    exchange(rt, kept.as_str(), (beside, target), bytes)
}

// A file still has the first of its names as well as the second one, and these bytes.
fn is_unchanged<R: AllocGlobal + Files>(
    rt: &R,
    kept: &str,
    target: &str,
    bytes: &FileBytes,
) -> io::Result<bool> {
    Ok(still_holds(rt, kept, bytes)? && is_one_file(rt, kept, target)?)
}

// A sticky folder keeps another owner's file in its place: it cannot be replaced, and a second name of it could not be removed. The file
// beside it is this user's.
fn is_bound<R: Files>(rt: &R, folder: &str, beside: &str, target: &str) -> io::Result<bool> {
    let folder = fs::symlink_metadata(rt, folder)?;
    if !is_sticky(&folder) {
        return Ok(false);
    }
    let own = fs::symlink_metadata(rt, beside)?.uid();
    let owner = fs::symlink_metadata(rt, target)?.uid();
    Ok(own != SUPERUSER && own != folder.uid() && own != owner)
}

/// The same for a file that is to get another name.
pub fn is_immovable<R: AllocGlobal + Files>(rt: &R, path: &str) -> io::Result<bool> {
    let folder = folder_of(path);
    if !is_sticky(&fs::symlink_metadata(rt, folder)?) {
        return Ok(false);
    }
    // Whose the files are that this user makes is known by one of them.
    let (beside, file) = open_beside(rt, folder, 0o600)?;
    drop(file);
    let is_immovable = is_bound(rt, folder, beside.as_str(), path);
    fs::remove_file(rt, beside.as_str())?;
    is_immovable
}

// Only owners remove what is in the folder.
fn is_sticky(folder: &Metadata) -> bool {
    folder.permissions().mode() & STICKY != 0
}

// Gives the first file the name of the second, whose other name is `kept`; if that was changed before, or the system does not say, it gets
// its name back.
fn exchange<R: AllocGlobal + Files>(
    rt: &R,
    kept: &str,
    names: (&str, &str),
    bytes: &FileBytes,
) -> io::Result<bool> {
    let (beside, target) = names;
    if let Err(error) = fs::rename(rt, beside, target) {
        let _ = fs::remove_file(rt, kept);
        return Err(error);
    }
    let unchanged = still_holds(rt, kept, bytes);
    if matches!(unchanged, Ok(true)) {
        let _ = fs::remove_file(rt, kept);
        return unchanged;
    }
    fs::rename(rt, kept, target)?;
    unchanged
}

/// A file holds these bytes.
pub fn holds<R: AllocGlobal + Files>(rt: &R, path: &str, bytes: &FileBytes) -> bool {
    matches!(still_holds(rt, path, bytes), Ok(true))
}

/// The same, or why the system does not say; `false` if nothing is there.
pub fn still_holds<R: AllocGlobal + Files>(
    rt: &R,
    path: &str,
    bytes: &FileBytes,
) -> io::Result<bool> {
    match try_holds(rt, path, bytes) {
        Err(error) if is_nothing(error.kind()) => Ok(false),
        looked => looked,
    }
}

// The same, with the error if nothing is there.
fn try_holds<R: AllocGlobal + Files>(rt: &R, path: &str, bytes: &FileBytes) -> io::Result<bool> {
    if !fs::symlink_metadata(rt, path)?.is_file() {
        return Ok(false);
    }
    Ok(contents_of(rt, path, bytes.len())? == *bytes)
}

/// Two paths are those of one name of a file, as in a folder that is mounted twice: it is deleted with either. A second name of
/// the file (a hard link) is not the same one.
pub fn is_one_name<R: Files>(rt: &R, path: &str, other: &str) -> bool {
    if !matches!(is_one_file(rt, path, other), Ok(true)) {
        return false;
    }
    if fs::symlink_metadata(rt, path).is_ok_and(|found| found.nlink() == 1) {
        return true;
    }
    last_piece(path) == last_piece(other)
        && matches!(is_one_file(rt, folder_of(path), folder_of(other)), Ok(true))
}

// Two paths are those of one file or folder; the error is why one of them can't be looked at.
fn is_one_file<R: Files>(rt: &R, path: &str, other: &str) -> io::Result<bool> {
    let one = fs::symlink_metadata(rt, path)?;
    match fs::symlink_metadata(rt, other) {
        Ok(two) => Ok(is_one(&one, &two)),
        Err(error) if is_nothing(error.kind()) => Ok(false),
        Err(error) => Err(error),
    }
}
