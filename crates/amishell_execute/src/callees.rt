//! The script that a line calls by name. Where a directive of it can't be read Execute fails before the script begins: its lines are looked at
//! before that.

use crate::script_places::script_places;
use ados_check::{Finding, bad_directive, check, merge_returns};
use ados_ram::Place;
use ados_shell::Shell;
use ados_text::{Name, NoMemory, Text, lines_of};
use ados_world::World;
use std::alloc::Global;

// The command that calls a script.
const EXECUTE: &[u8] = b"Execute";

// The option by which it may get the name.
const OPTION: &[u8] = b"FILE=";

// With one of these a word is no plain name.
const SIGNS: &[u8] = b"\"'$*;<>?`#|";

/// A script that would not begin, and whose lines must not be run as they are.
#[derive(Drop)]
pub struct Callee {
    /// Its full path.
    pub name: Text,
    /// What is found in its lines.
    pub found: Vec<Finding>,
}

/// The script that a line calls in a shell, if this is so of it.
pub fn refused_callee(
    alloc: Global,
    world: &World,
    shell: &Shell,
    line: &Text,
) -> Result<Option<Callee>, NoMemory> {
    let Some(word) = called_word(line.as_bytes()) else {
        return Ok(None);
    };
    let execute = Name::new(Text::from_bytes(alloc, EXECUTE)?);
    if shell.settings().aliases.get(&execute).is_some() {
        return Ok(None);
    }
    let word = Text::from_bytes(alloc, word)?;
    let files = world.files();
    for place in script_places(alloc, world.assigns(), files, shell.directory(), &word)? {
        if files.look(&place).is_some() {
            return callee_at(alloc, world, shell, &place);
        }
    }
    Ok(None)
}

/// A line calls a script by a plain name.
pub fn calls_by_name(line: &Text) -> bool {
    called_word(line.as_bytes()).is_some()
}

// The name that a line gives to Execute, if it is a plain one. It may stand after one redirection and after `FILE=`, and in quotes.
fn called_word(line: &[u8]) -> Option<&[u8]> {
    // Most lines end here: each one that is taken may be looked at.
    let first = line.iter().find(|byte| !is_space(**byte))?;
    if !matches!(*first, b'E' | b'e' | b'C' | b'c') {
        return None;
    }
    let mut words = line
        .split(|byte| is_space(*byte))
        .filter(|word| !word.is_empty());
    if !is_execute(words.next()?) {
        return None;
    }
    let word = words.next()?;
    if !matches!(word, [b'>' | b'<', ..]) {
        return plain_name(word);
    }
    if matches!(word, b">" | b">>" | b"<") {
        words.next()?;
    }
    plain_name(words.next()?)
}

// The word calls a script.
fn is_execute(word: &[u8]) -> bool {
    let name = match word {
        [b'C' | b'c', b':', name @ ..] => name,
        _ => word,
    };
    name.eq_ignore_ascii_case(EXECUTE)
}

// The name in a word, without its option and quotes, if it has no other sign.
fn plain_name(word: &[u8]) -> Option<&[u8]> {
    let name = match word.get(..OPTION.len()) {
        Some(option) if option.eq_ignore_ascii_case(OPTION) => word.get(OPTION.len()..)?,
        _ => word,
    };
    let name = match name {
        [b'"', name @ ..] => match name {
            [name @ .., b'"'] => name,
            _ => return None,
        },
        _ => name,
    };
    if name.is_empty() || name.iter().any(|byte| SIGNS.contains(byte)) {
        None
    } else {
        Some(name)
    }
}

// The byte stands between words.
fn is_space(byte: u8) -> bool {
    matches!(byte, b' ' | b'\t')
}

// The script at a place, if it would not begin, and its lines must not be run as they are.
fn callee_at(
    alloc: Global,
    world: &World,
    shell: &Shell,
    place: &Place,
) -> Result<Option<Callee>, NoMemory> {
    let Some(bytes) = world.files().look(place).and_then(|entry| entry.bytes()) else {
        return Ok(None);
    };
    let bytes = bytes.to_vec(alloc)?;
    if bad_directive(alloc, &bytes)?.is_none() {
        return Ok(None);
    }
    let lines = lines_of(alloc, &bytes)?;
    let aliases = &shell.settings().aliases;
    let mut found = check(alloc, world.dialect(), aliases, lines.as_slice(), &bytes)?;
    merge_returns(&mut found);
    if !found.iter().any(|one| one.problem.is_refused()) {
        return Ok(None);
    }
    let name = world.files().full_path(place)?;
    Ok(Some(Callee { name, found }))
}
