//! The words of `--share`: which folder of this machine is kept alike with which directory of the Shell's files.
ghost use Rattle.std.specs.Prelude.{◌≡◌};
ghost use Rattle.ados_transfer.specs.Volumes.{is_within, meet};

use crate::bringing::parted;
use crate::faults::{TransferFault, named};
use crate::file_number::is_one;
use crate::folders::is_descendant;
use crate::open_folders::OpenFolder;
use crate::paths::{ascii, is_free, place_in, step_into};
use crate::places::shell_path;
use crate::volumes::{Volume, Volumes};
use ados_assign::{Assigns, is_reserved};
use ados_names::is_name;
use ados_ram::{Place, Ram};
use ados_text::Name;
use std::alloc::Global;
use std::fs;
use std::rt::Files;

// The directory of a folder for which none is named.
const DIRECTORY: &str = "RAM:Work";

// The directory of a device stands alone in one of this name and a number.
const ABOVE: &str = "share";

// The device of the console, which no directory may have.
const CONSOLE: &str = "CON";

/// The volumes for the words of each `--share`, as `FOLDER` or `FOLDER=PATH`. PATH is a directory of the Shell's files, or the name of
/// a device that they do not have yet, as `Work:`, which leads to a directory that stands alone in another; it defaults to RAM:Work. The
/// folders stay open.
///
/// `CannotRead` if a FOLDER is not a folder, `FolderUnread` if it can't be opened; `BadName` if PATH does not name a directory; `OwnDevice` if
/// it is a device that the Shell has, which leads to the root or to a directory that is not empty; `NoPlace` if in these files it is one of a
/// file or of a directory that is not empty, or is that of the script; `FoldersMeet` and `DirectoriesMeet` if two folders, or two directories
/// or devices, are the same or one is in the other.
pub fn volumes_of<R: AllocGlobal + Files>(
    rt: &R,
    words: &[&str],
    files: &Ram,
    assigns: &Assigns,
) -> Result<Volumes, TransferFault> {
    let alloc = rt.alloc();
    let mut all: Vec<Volume> = Vec::new(alloc);
    for (number, one) in words.iter().enumerate() {
        let mut volume = volume_of(rt, one, number.saturating_add(1), files, assigns)?;
        if words.len() == 1 {
            volume.prefix = String::new(alloc);
        } else {
            volume.label = format!(in alloc; "{number}:")?;
        }
        for other in &all {
            check_apart(rt, other, &volume)?;
        }
        all.push(volume)?;
    }
    Volumes::new(alloc, all)
}

// The volume for the words of the `--share` of this number, without a label.
fn volume_of<R: AllocGlobal + Files>(
    rt: &R,
    words: &str,
    number: usize,
    files: &Ram,
    assigns: &Assigns,
) -> Result<Volume, TransferFault> {
    let alloc = rt.alloc();
    let (path, directory) = parted(rt, words);
    let folder = whole_folder(rt, path)?;
    let directory = directory.unwrap_or(DIRECTORY);
    let device = device_of(alloc, directory, assigns)?;
    let place = match &device {
        Some(name) => device_place(alloc, number, name)?,
        None => place_in(alloc, directory)?,
    };
    if place.names().is_empty() || !is_free(alloc, files, &place)? {
        return Err(not_free(alloc, directory));
    }
    let Ok(open) = OpenFolder::new(rt, folder.as_str()) else {
        return Err(named(alloc, path, TransferFault::FolderUnread));
    };
    let prefix = match &device {
        Some(_) => String::from_str(alloc, directory)?,
        None => step_into(alloc, shell_path(alloc, &place)?.as_str(), "")?,
    };
    Ok(Volume {
        label: String::new(alloc),
        prefix,
        folder,
        root: open.into_path(),
        place,
        device,
    })
}

// The directory of a device, for the `--share` of this number. It stands alone in another one, so that a path which leads above the top of
// a disk leads to no other disk.
fn device_place(alloc: Global, number: usize, device: &Name) -> Result<Place, TransferFault> {
    let above = format!(in alloc; "{ABOVE}{number}")?;
    let above = Name::from_bytes(alloc, above.as_bytes())?;
    Ok(Place::root(alloc).with(above)?.with(device.copy()?)?)
}

// The fault of a directory that can't be that of a share.
fn not_free(alloc: Global, directory: &str) -> TransferFault {
    if directory.ends_with(':') {
        named(alloc, directory, TransferFault::OwnDevice)
    } else {
        named(alloc, directory, TransferFault::NoPlace)
    }
}

// The whole path of a folder, in which no name is that of a link.
fn whole_folder<R: AllocGlobal + Files>(rt: &R, path: &str) -> Result<String, TransferFault> {
    match (fs::metadata(rt, path), fs::canonicalize(rt, path)) {
        (Ok(found), Ok(whole)) if found.is_dir() => {
            Ok(String::from_str(rt.alloc(), whole.as_path().as_str())?)
        }
        _ => Err(named(rt.alloc(), path, TransferFault::CannotRead)),
    }
}

// The device that a path is, if the Shell does not have it yet.
fn device_of(alloc: Global, path: &str, assigns: &Assigns) -> Result<Option<Name>, TransferFault> {
    let Some(name) = path.strip_suffix(':') else {
        return Ok(None);
    };
    let text = ascii(alloc, name)?;
    if !is_name(&text) || is_reserved(&text) || text.is(CONSOLE) {
        return Ok(None);
    }
    let name = Name::new(text);
    match assigns.get(&name) {
        Some(_) => Ok(None),
        None => Ok(Some(name)),
    }
}

// The folders of two volumes are apart, also where they are mounted, and so are their directories.
fn check_apart<R: AllocGlobal + Files>(
    rt: &R,
    one: &Volume,
    other: &Volume,
) -> Result<(), TransferFault> {
    let alloc = rt.alloc();
    if meet(one.folder.as_str(), other.folder.as_str())
        || is_mounted_above(rt, one, other)?
        || is_mounted_above(rt, other, one)?
    {
        let (one, other) = (one.folder.clone()?, other.folder.clone()?);
        return Err(TransferFault::FoldersMeet(one, other));
    }
    if have_one_device(one, other) {
        let (one, other) = (one.prefix.clone()?, other.prefix.clone()?);
        return Err(TransferFault::DirectoriesMeet(one, other));
    }
    if one.has(&other.place) || other.has(&one.place) {
        let one = shell_path(alloc, &one.place)?;
        let other = shell_path(alloc, &other.place)?;
        return Err(TransferFault::DirectoriesMeet(one, other));
    }
    Ok(())
}

// Both have a device, and it is the same.
fn have_one_device(one: &Volume, other: &Volume) -> bool {
    match (&one.device, &other.device) {
        (Some(one), Some(other)) => one == other,
        _ => false,
    }
}

// The folder of a volume, or one above it, is that of another volume, by whatever path (`mount --bind`).
fn is_mounted_above<R: AllocGlobal + Files>(
    rt: &R,
    volume: &Volume,
    other: &Volume,
) -> Result<bool, TransferFault> {
    let Ok(folder) = fs::metadata(rt, volume.root.as_str()) else {
        return Ok(false);
    };
    let mut above = String::from_str(rt.alloc(), "/")?;
    for step in other.folder.split('/') {
        above = step_into(rt.alloc(), above.as_str(), step)?;
        if fs::metadata(rt, above.as_str()).is_ok_and(|found| is_one(&found, &folder)) {
            return Ok(true);
        }
    }
    Ok(false)
}

// Two whole paths are the same, or one leads to what is in the other.
fn meet(path: &str, other: &str) -> bool
    ensures { result ≡ meet path.now other.now }
{
    path == other || is_within(path, other) || is_within(other, path)
}

// A whole path leads to what is in a folder; the path of the root alone ends with a slash.
fn is_within(folder: &str, path: &str) -> bool
    ensures { result ≡ is_within folder.now path.now }
{
    folder == "/" || is_descendant(folder, path)
}
