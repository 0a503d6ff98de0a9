//! Where Execute seeks a script.

use ados_assign::Assigns;
use ados_find::is_path;
use ados_names::Path;
use ados_ram::{Place, Ram};
use ados_text::{NoMemory, Stop, Text};
use std::alloc::Global;

/// The places at which Execute seeks the script of a name, from a directory: at the first one at which something is it finds that. That
/// of a path is one, and for a name alone the second one is in S:.
pub fn script_places(
    alloc: Global,
    assigns: &Assigns,
    files: &Ram,
    directory: &Place,
    name: &Text,
) -> Result<Vec<Place>, NoMemory> {
    let mut places = Vec::new(alloc);
    let Some(place) = place_of(alloc, assigns, files, directory, name)? else {
        return Ok(places);
    };
    places.push(place)?;
    if is_path(name) {
        return Ok(places);
    }
    let mut path = Text::from_bytes(alloc, b"S:")?;
    path.push_bytes(name.as_bytes())?;
    if let Some(place) = place_of(alloc, assigns, files, directory, &path)? {
        places.push(place)?;
    }
    Ok(places)
}

// The place to which a path leads from a directory, if it leads to one.
fn place_of(
    alloc: Global,
    assigns: &Assigns,
    files: &Ram,
    directory: &Place,
    path: &Text,
) -> Result<Option<Place>, NoMemory> {
    let found = match Path::parse(alloc, path) {
        Ok(path) => assigns.resolve(&path, directory, files),
        Err(stop) => Err(stop),
    };
    match found {
        Ok(place) => Ok(Some(place)),
        Err(Stop::NoMemory) => Err(NoMemory),
        Err(Stop::Refused(_)) => Ok(None),
    }
}
