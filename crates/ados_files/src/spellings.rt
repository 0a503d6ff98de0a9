// The path before the names of the objects that List shows for an argument, as the argument spells it.
ghost use Rattle.std.specs.Prelude.{◌≡◌, IfOk};
ghost use Rattle.ados_files.specs.Spellings.{path_inside, path_before, spelled_path};

use ados_objects::{NamedObjects, directory_part, entry_at, piece_of};
use ados_ram::Ram;
use ados_text::{NoMemory, Text};
use std::alloc::Global;

/// The path before the names of what is listed for an argument, given what it names: that of a directory with a slash
/// where it needs one, that of another object without its last piece, and that before a pattern.
pub fn spelled_path(
    alloc: Global,
    ram: &Ram,
    text: &Text,
    found: &NamedObjects,
) -> Result<Text, NoMemory>
    ensures { IfOk result (λ path. path ≡ spelled_path ram.now text.now found.now) }
{
    if !found.is_literal() {
        return directory_part(text);
    }
    match entry_at(ram, found.places()) {
        None => Ok(Text::new(alloc)),
        Some(entry) if entry.is_directory() => path_inside(text),
        Some(_) => path_before(text),
    }
}

// The path of a directory, and a slash unless its last piece is empty.
fn path_inside(text: &Text) -> Result<Text, NoMemory>
    ensures { IfOk result (λ path. path ≡ path_inside text.now) }
{
    let piece = piece_of(text)?;
    if piece.as_bytes().is_empty() {
        return text.copy();
    }
    let mut path = text.copy()?;
    path.push(b'/')?;
    Ok(path)
}

// The path of an object without its last piece.
fn path_before(text: &Text) -> Result<Text, NoMemory>
    ensures { IfOk result (λ path. path ≡ path_before text.now) }
{
    let piece = piece_of(text)?;
    if piece.as_bytes().is_empty() {
        let end = text.as_bytes().len().saturating_sub(1);
        return directory_part(&text.part(0, end)?);
    }
    directory_part(text)
}
