//! How files and folders of this machine are written: to a temporary file in the same folder, which then takes the file's
//! name. No link is followed.
ghost use Rattle.std.specs.Prelude.{◌≡◌, true, IfOk, IfSome, OnOk, string_bytes};
ghost use Rattle.ados_transfer.specs.Paths.{IsBelow, is_file_name, path_in};

use crate::manner::Manner;
use crate::paths::{is_file_name, step_into};
use crate::rights::{Owner, Rights};
use crate::stamps::Stamp;
use ados_ram::FileBytes;
use ados_text::Name;
use std::alloc::Global;
use std::fs::{Metadata, OpenFile, OpenOptions, Permissions};
use std::io::{ErrorKind, Write};
use std::os::unix::fs::{OpenOptionsExt, PermissionsExt};
use std::rt::Files;
use std::{fs, io};

/// The names of temporary files begin like this.
pub const BESIDE: &str = ".amishell-execute.";

/// The path of a folder in a folder; it is made if it is not there. One that is a link is refused.
pub fn enter<R: AllocGlobal + Files>(rt: &R, folder: &str, name: &str) -> io::Result<String>
    ensures step { OnOk result (is_file_name name.now ≡ true) }
    ensures path { IfOk result (λ path. string_bytes path ≡ path_in folder.now name.now) }
{
    let path = path_of(rt.alloc(), folder, name)?;
    match fs::symlink_metadata(rt, path.as_str()) {
        Ok(found) if found.is_dir() => Ok(path),
        Ok(_) => Err(io::Error::from(ErrorKind::NotADirectory)),
        Err(error) if error.kind() == ErrorKind::NotFound => {
            fs::create_dir(rt, path.as_str())?;
            Ok(path)
        }
        Err(error) => Err(error),
    }
}

/// A name that does not lead elsewhere.
pub fn checked(name: &str) -> io::Result<()>
    ensures { OnOk result (is_file_name name.now ≡ true) }
{
    if is_file_name(name) {
        Ok(())
    } else {
        Err(io::Error::from(ErrorKind::InvalidInput))
    }
}

/// The path of an object in a folder; a name that leads elsewhere is refused.
pub fn path_of(alloc: Global, folder: &str, name: &str) -> io::Result<String>
    ensures step { OnOk result (is_file_name name.now ≡ true) }
    ensures path { IfOk result (λ path. string_bytes path ≡ path_in folder.now name.now) }
{
    checked(name)?;
    joined(alloc, folder, name)
}

/// A name as std's calls take it: ASCII is always UTF-8.
pub fn spelled(name: &Name) -> io::Result<&str> {
    match std::str::from_utf8(name.text().as_bytes()) {
        Ok(name) => Ok(name),
        Err(_) => Err(io::Error::from(ErrorKind::InvalidInput)),
    }
}

/// The path of a name in a folder.
pub fn joined(alloc: Global, folder: &str, name: &str) -> io::Result<String>
    ensures { IfOk result (λ path. string_bytes path ≡ path_in folder.now name.now) }
{
    match step_into(alloc, folder, name) {
        Ok(path) => Ok(path),
        Err(_) => Err(no_memory()),
    }
}

/// The error for a failed allocation.
pub fn no_memory() -> io::Error {
    io::Error::from(ErrorKind::OutOfMemory)
}

/// Writes a file with this name in a folder: a temporary file beside it, which then takes the name, and gives what that file is. A file
/// that is there keeps its permissions and, where this user may give them, its owner and its group; one that may not be written is
/// refused, and so are a link, a device, and a name that leads elsewhere. What came to be there since the look at it is not replaced:
/// `AlreadyExists`.
pub fn write_whole<R: AllocGlobal + Files>(
    rt: &R,
    folder: &str,
    name: &str,
    bytes: &FileBytes,
) -> io::Result<Metadata> {
    let target = path_of(rt.alloc(), folder, name)?;
    let seen = match fs::symlink_metadata(rt, target.as_str()) {
        Ok(found) if found.is_file() => Some(found),
        Ok(found) if found.is_dir() => return Err(io::Error::from(ErrorKind::IsADirectory)),
        Ok(_) => return Err(io::Error::from(ErrorKind::InvalidInput)),
        Err(error) if error.kind() == ErrorKind::NotFound => None,
        Err(error) => return Err(error),
    };
    let manner = match &seen {
        Some(seen) => Manner::over(Rights::of(seen))?,
        None => Manner::Plain,
    };
    let beside = write_beside(rt, folder, bytes, manner)?;
    let placed = place(rt, beside.as_str(), target.as_str(), seen.as_ref());
    if !matches!(placed, Ok(Some(_))) {
        let _ = fs::remove_file(rt, beside.as_str());
    }
    match placed? {
        Some(found) => Ok(found),
        None => Err(io::Error::from(ErrorKind::AlreadyExists)),
    }
}

// Gives a file the name where this was seen, and what the file is, which is looked up before others can find it by that name; nothing if
// something else is there by now.
fn place<R: AllocGlobal + Files>(
    rt: &R,
    beside: &str,
    target: &str,
    seen: Option<&Metadata>,
) -> io::Result<Option<Metadata>> {
    let found = fs::symlink_metadata(rt, beside)?;
    let is_placed = match seen {
        Some(seen) => place_again(rt, beside, target, &Stamp::of(seen))?,
        None => place_new(rt, beside, target)?,
    };
    if is_placed { Ok(Some(found)) } else { Ok(None) }
}

/// Gives a file a name that nothing has; `false` if something has it.
pub fn place_new<R: AllocGlobal + Files>(rt: &R, beside: &str, target: &str) -> io::Result<bool> {
    match fs::hard_link(rt, beside, target) {
        Ok(()) => return give_up(rt, beside, target),
        Err(error) if error.kind() == ErrorKind::AlreadyExists => return Ok(false),
        // Not every file system has second names.
        Err(_) => {}
    }
    match fs::symlink_metadata(rt, target) {
        Ok(_) => Ok(false),
        Err(error) if error.kind() == ErrorKind::NotFound => {
            fs::rename(rt, beside, target)?;
            Ok(true)
        }
        Err(error) => Err(error),
    }
}

// A file gives up the first of its two names; if that is refused, the second one, so that it is not there twice.
fn give_up<R: Files>(rt: &R, old: &str, new: &str) -> io::Result<bool> {
    if let Err(error) = fs::remove_file(rt, old) {
        let _ = fs::remove_file(rt, new);
        return Err(error);
    }
    Ok(true)
}

// Gives a file the name of one that was looked at; `false` if that has changed since.
fn place_again<R: Files>(rt: &R, beside: &str, target: &str, seen: &Stamp) -> io::Result<bool> {
    if !Stamp::of(&fs::symlink_metadata(rt, target)?).is_same(seen) {
        return Ok(false);
    }
    fs::rename(rt, beside, target)?;
    Ok(true)
}

/// Writes a temporary file in a folder, with these permissions, and gives its path.
pub fn write_beside<R: AllocGlobal + Files>(
    rt: &R,
    folder: &str,
    bytes: &FileBytes,
    manner: Manner,
) -> io::Result<String>
    ensures { IfOk result (λ path. IsBelow folder.now (string_bytes path)) }
{
    let (beside, mut file) = open_beside(rt, folder, manner.first_mode())?;
    let written = fill(rt, beside.as_str(), &mut file, bytes, manner);
    drop(file);
    match written {
        Ok(()) => Ok(beside),
        Err(error) => {
            let _ = fs::remove_file(rt, beside.as_str());
            Err(error)
        }
    }
}

// Writes the bytes to the file that was made at this path, and sets the owner and then the permissions, which a new owner may change.
fn fill<R: Files>(
    rt: &R,
    path: &str,
    file: &mut R::File,
    bytes: &FileBytes,
    manner: Manner,
) -> io::Result<()> {
    for block in bytes.blocks() {
        for piece in block.pieces() {
            file.write_all(piece.as_bytes())?;
        }
    }
    let mode = match manner {
        Manner::Plain => return Ok(()),
        Manner::Mode(mode) => mode & 0o777,
        Manner::Kept(rights) => rights.give(rt, path, &*file)?,
        Manner::Copied(rights) => rights.copy_mode(Owner::of(&file.metadata()?)),
        Manner::Executable => {
            let mode = file.metadata()?.permissions().mode() & 0o777;
            mode | ((mode & 0o444) >> 2)
        }
    };
    file.set_permissions(Permissions::from_mode(mode))
}

/// A new temporary file in a folder, with its path.
pub fn open_beside<R: AllocGlobal + Files>(
    rt: &R,
    folder: &str,
    mode: u32,
) -> io::Result<(String, R::File)>
    ensures { IfOk result (λ made. IsBelow folder.now (string_bytes made.0)) }
{
    let mut options = OpenOptions::new();
    options.write(true);
    options.create_new(true);
    options.mode(mode);
    for number in 0..u32::MAX {
        let path = name_beside(rt.alloc(), folder, number)?;
        match options.open(rt, path.as_str()) {
            Ok(file) => return Ok((path, file)),
            Err(error) if error.kind() == ErrorKind::AlreadyExists => {}
            Err(error) => return Err(error),
        }
    }
    Err(io::Error::from(ErrorKind::AlreadyExists))
}

/// Gives a file the name of a temporary file in a folder as a second one; nothing if it can have none.
pub fn link_beside<R: AllocGlobal + Files>(
    rt: &R,
    folder: &str,
    path: &str,
) -> io::Result<Option<String>>
    ensures { IfOk result (λ named. IfSome named (λ path. IsBelow folder.now (string_bytes path))) }
{
    for number in 0..u32::MAX {
        let beside = name_beside(rt.alloc(), folder, number)?;
        match fs::hard_link(rt, path, beside.as_str()) {
            Ok(()) => return Ok(Some(beside)),
            Err(error) if error.kind() == ErrorKind::AlreadyExists => {}
            Err(_) => return Ok(None),
        }
    }
    Ok(None)
}

// The path of a temporary file in a folder.
#[tactic(auto, using(crate::proofs::PathLemmas::below_in))]
fn name_beside(alloc: Global, folder: &str, number: u32) -> io::Result<String>
    ensures { IfOk result (λ path. IsBelow folder.now (string_bytes path)) }
{
    let name = format!(in alloc; "{BESIDE}{number}")?;
    path_of(alloc, folder, name.as_str())
}
