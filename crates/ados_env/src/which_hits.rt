// Which with ALL: what the search for a word meets.
ghost use Rattle.std.specs.{Prelude.{◌≡◌, ◌++◌, IfOk, OnOk}, List.{flat_map}};
ghost use Rattle.std.specs.FinMap as map;
ghost use Rattle.ados_ram.specs.Place.{key_of};
ghost use Rattle.ados_find.specs.Paths as paths;
ghost use Rattle.ados_find.specs.Search.{places_of_entries};
ghost use Rattle.ados_env.specs.WhichHits.{entry_line, file_lines, further_lines, is_command, place_line};

use crate::directories::path_line;
use crate::sought::is_directory;
use ados_find::{Refusal, Shared, ShellView, entry_program, is_path, place_of};
use ados_ram::{Entry, Place};
use ados_text::{NoMemory, Text};
use std::alloc::Global;

/// Adds a line for each script and each program at the places where a word is looked up: a path from the current directory
/// alone; another word there, in the directories of the path, and in C:.
pub fn push_files(
    alloc: Global,
    lines: &mut Vec<u8>,
    shared: &Shared,
    view: &ShellView,
    word: &Text,
) -> Result<(), NoMemory>
    ensures { OnOk result (lines.new.items ≡ lines.old.items ++ file_lines shared.now view.now.parts word.now) }
{
    push_file(alloc, lines, shared, view.directory, word)?;
    push_further(alloc, lines, shared, view, word)
}

// Those in the directories of the path, and in C:.
fn push_further(
    alloc: Global,
    lines: &mut Vec<u8>,
    shared: &Shared,
    view: &ShellView,
    word: &Text,
) -> Result<(), NoMemory>
    ensures { OnOk result (lines.new.items ≡ lines.old.items ++ further_lines shared.now view.now.parts word.now) }
{
    if is_path(word) {
        return Ok(());
    }
    push_files_on_path(alloc, lines, shared, view.settings.path.entries(), word)?;
    let in_c = Text::from_bytes(alloc, b"C:")?.join(word)?;
    push_file(alloc, lines, shared, view.directory, &in_c)?;
    Ok(())
}

fn push_files_on_path(
    alloc: Global,
    lines: &mut Vec<u8>,
    shared: &Shared,
    path: &[Place],
    word: &Text,
) -> Result<(), NoMemory>
    ensures { OnOk result (lines.new.items ≡ lines.old.items ++ flat_map (place_line shared.now) (places_of_entries shared.now path.now word.now)) }
{
    let Some((entry, path)) = path.split_first() else {
        return Ok(());
    };
    if is_directory(shared, entry) {
        push_file(alloc, lines, shared, entry, word)?;
    }
    push_files_on_path(alloc, lines, shared, path, word)
}

// The line of the file to which a text leads from a directory.
fn push_file(
    alloc: Global,
    lines: &mut Vec<u8>,
    shared: &Shared,
    directory: &Place,
    text: &Text,
) -> Result<(), NoMemory>
    ensures { OnOk result (lines.new.items ≡ lines.old.items ++ place_line shared.now (paths.place_of shared.now directory.now text.now)) }
{
    match place_of(alloc, shared, directory, text) {
        Err(Refusal::NoMemory) => Err(NoMemory),
        Err(Refusal::Stopped(_)) => Ok(()),
        Ok(place) => push_entry(alloc, lines, shared, &place),
    }
}

fn push_entry(
    alloc: Global,
    lines: &mut Vec<u8>,
    shared: &Shared,
    place: &Place,
) -> Result<(), NoMemory>
    ensures { OnOk result (lines.new.items ≡ lines.old.items ++ entry_line shared.now place.now (map.get shared.now.files (key_of place.now))) }
{
    let Some(entry) = shared.ram.look(place) else {
        return Ok(());
    };
    if is_command(alloc, shared, entry)? {
        lines.extend_from_slice(path_line(alloc, &shared.ram, place)?.as_slice())?;
    }
    Ok(())
}

fn is_command(alloc: Global, shared: &Shared, entry: &Entry) -> Result<bool, NoMemory>
    ensures { IfOk result (λ is. is ≡ is_command shared.now entry.now) }
{
    if entry.is_directory() {
        return Ok(false);
    }
    if entry.bits.script || !entry.bits.execute {
        return Ok(entry.bits.script);
    }
    Ok(entry_program(alloc, shared, entry)?.is_some())
}
