//! How a large file is given another path.

use crate::departure::own_path;
use crate::left_out::Reason;
use ados_transfer::{Stamp, TransferFault, Volumes, is_immovable, place_new};
use std::fs::Metadata;
use std::io::ErrorKind;
use std::rt::Files;
use std::{fs, io};

/// Gives a file a path below the folder that nothing has, if it is the file of this stamp, and gives the stamp that it has there. If it was
/// changed since, it keeps the old stamp, so that the change is seen. Nothing if it is another file by now or was cut, something has the path,
/// or the system refused it.
pub fn renamed<R: AllocGlobal + Files>(
    rt: &R,
    from: &str,
    path: &str,
    stamp: &Stamp,
) -> Result<Option<Stamp>, TransferFault> {
    match try_rename(rt, from, path, stamp) {
        Ok(renamed) => Ok(renamed),
        Err(error) if error.kind() == ErrorKind::OutOfMemory => Err(TransferFault::NoMemory),
        Err(_) => Ok(None),
    }
}

/// What a line says of a file that could not be given a path: which one, and why, if it is left out for this reason or something has it.
pub fn blocked_text<R: AllocGlobal + Files>(
    rt: &R,
    volumes: &Volumes,
    path: &str,
    reason: Option<Reason>,
) -> Result<String, TransferFault> {
    let shown = volumes.shown(path)?;
    let alloc = rt.alloc();
    if let Some(reason) = reason {
        return Ok(format!(in alloc; "cannot rename to {shown}, since {reason}")?);
    }
    match fs::symlink_metadata(rt, path) {
        Ok(found) => {
            let holder = kind_of(&found);
            Ok(format!(in alloc; "cannot rename to {shown}, since {holder} has that name")?)
        }
        Err(_) => Ok(format!(in alloc; "cannot rename to {shown}")?),
    }
}

// What was looked at, for a line.
fn kind_of(found: &Metadata) -> &'static str {
    if found.is_dir() {
        "a folder"
    } else if found.is_file() {
        "a file"
    } else if found.is_symlink() {
        "a link"
    } else {
        "a pipe or a device"
    }
}

// The same, with the error.
fn try_rename<R: AllocGlobal + Files>(
    rt: &R,
    from: &str,
    path: &str,
    stamp: &Stamp,
) -> io::Result<Option<Stamp>> {
    let found = fs::symlink_metadata(rt, from)?;
    let before = Stamp::of(&found);
    if !found.is_file() || before.number != stamp.number || before.size < stamp.size {
        return Ok(None);
    }
    if is_immovable(rt, from)? {
        return Err(io::Error::from(ErrorKind::PermissionDenied));
    }
    let target = own_path(rt, path)?;
    if !place_new(rt, from, target.as_str())? {
        return Ok(None);
    }
    if !before.is_same_file(stamp) {
        return Ok(Some(*stamp));
    }
    Ok(Some(Stamp::of(&fs::symlink_metadata(rt, target.as_str())?)))
}
