// Places of the files by their texts, like `S/q`.
use ados_ram::Place;
use ados_text::{Name, NoMemory, Text};
use std::alloc::Global;

pub fn text(alloc: Global, written: &str) -> Result<Text, NoMemory> {
    Text::from_bytes(alloc, written.as_bytes())
}

pub fn name(alloc: Global, written: &str) -> Result<Name, NoMemory> {
    Ok(Name::new(text(alloc, written)?))
}

/// The place of a text; the empty text is the root's.
pub fn at(alloc: Global, written: &str) -> Result<Place, NoMemory> {
    let mut place = Place::root(alloc);
    for part in written.split_terminator('/') {
        place = place.with(name(alloc, part)?)?;
    }
    Ok(place)
}

/// The names are these, in this order.
pub fn are_names(names: &[Name], want: &[&str]) -> bool {
    if names.len() != want.len() {
        return false;
    }
    for (name, want) in names.iter().zip(want) {
        if name.text().as_bytes() != want.as_bytes() {
            return false;
        }
    }
    true
}
