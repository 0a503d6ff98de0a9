//! Paths for places of the Shell's files, and places for paths.

use crate::faults::TransferFault;
use crate::paths::step_into;
use ados_ram::Place;
use ados_text::{Name, Text};
use std::alloc::Global;

/// The path of a place in the Shell's files, for lines.
pub fn shell_path(alloc: Global, place: &Place) -> Result<String, TransferFault> {
    let path = path_below(alloc, "", place.names())?;
    Ok(format!(in alloc; "RAM:{path}")?)
}

/// The path of these names, one below the other, in a folder.
pub fn path_below(alloc: Global, folder: &str, names: &[Name]) -> Result<String, TransferFault> {
    let mut path = String::from_str(alloc, folder)?;
    for name in names {
        path = step_into(alloc, path.as_str(), spelled(name)?)?;
    }
    Ok(path)
}

/// A name as a text: ASCII is always UTF-8.
pub fn spelled(name: &Name) -> Result<&str, TransferFault> {
    match std::str::from_utf8(name.text().as_bytes()) {
        Ok(name) => Ok(name),
        Err(_) => Err(TransferFault::NoMemory),
    }
}

/// The place of a key or of a path below a directory.
pub fn place_below(alloc: Global, directory: &Place, path: &str) -> Result<Place, TransferFault> {
    let mut place = directory.copy()?;
    for name in path.split('/') {
        place = place.with(Name::new(Text::from_bytes(alloc, name.as_bytes())?))?;
    }
    Ok(place)
}
