//! What a world shows, as text.

use crate::answers::push_request;
use crate::lines::View;
use crate::texts::{push_all, push_codes, push_count, push_lines};
use ados_assign::{Assign, Binding};
use ados_ram::{Entry, Place, Ram};
use ados_resident::{Program, Resident};
use ados_text::{NoMemory, Text, push_number};
use ados_vars::Vars;
use ados_world::{Codes, Request, World};

/// Adds what the world shows.
pub fn push_view(text: &mut Vec<u8>, world: &World, view: View) -> Result<(), NoMemory> {
    match view {
        View::Shells => push_shells(text, world.shells()),
        View::Shell(number) => push_shell(text, world, number),
        View::Codes(shell) => push_last_codes(text, world.codes(shell)),
        View::Ready(shell) => push_answer(text, world.ready(shell)),
        View::Pending(shell) => push_pending(text, world.pending(shell)),
        View::WantsLine => push_answer(text, world.wants_line()),
        View::Files => push_files(text, world.files()),
        View::Assigns => push_assigns(text, world.files(), world.assigns().list()),
        View::Residents => push_residents(text, world),
    }
}

// Adds yes or no.
fn push_answer(text: &mut Vec<u8>, is_so: bool) -> Result<(), NoMemory> {
    let answer: &[u8] = if is_so { b"= yes\n" } else { b"= no\n" };
    text.extend_from_slice(answer)?;
    Ok(())
}

fn push_shells(text: &mut Vec<u8>, shells: [bool; 20]) -> Result<(), NoMemory> {
    text.push(b'=')?;
    for (place, runs) in shells.iter().enumerate() {
        if *runs {
            text.push(b' ')?;
            push_count(text, place + 1)?;
        }
    }
    text.push(b'\n')?;
    Ok(())
}

fn push_shell(text: &mut Vec<u8>, world: &World, number: u8) -> Result<(), NoMemory> {
    let Some(shell) = world.shell(number) else {
        return push_all(text, &[b"= none\n"]);
    };
    let path = world.files().full_path(shell.directory())?;
    push_all(text, &[b"= ", path.as_bytes(), b" "])?;
    push_number(text, shell.limit().0)?;
    text.push(b'\n')?;
    let codes = shell.codes();
    let settings = shell.settings();
    let locals = settings.locals.list(codes.code, codes.result2)?;
    push_pairs(text, b"= variable ", &locals)?;
    push_pairs(text, b"= alias ", &settings.aliases)?;
    push_path(text, settings.path.entries())
}

// Adds a line for each name with its value, after these words.
fn push_pairs(text: &mut Vec<u8>, words: &[u8], pairs: &Vars) -> Result<(), NoMemory> {
    for (name, value) in pairs.list() {
        let name = name.text().as_bytes();
        push_all(text, &[words, name, b" ", value.as_bytes(), b"\n"])?;
    }
    Ok(())
}

fn push_path(text: &mut Vec<u8>, path: &[Place]) -> Result<(), NoMemory> {
    for place in path {
        push_place(text, place)?;
    }
    Ok(())
}

fn push_place(text: &mut Vec<u8>, place: &Place) -> Result<(), NoMemory> {
    let path = place.path(*text.allocator())?;
    push_all(text, &[b"= path ", path.as_bytes(), b"\n"])
}

fn push_last_codes(text: &mut Vec<u8>, codes: Codes) -> Result<(), NoMemory> {
    text.extend_from_slice(b"= ")?;
    push_codes(text, codes)
}

fn push_pending(text: &mut Vec<u8>, pending: Option<&Request>) -> Result<(), NoMemory> {
    match pending {
        Some(request) => push_request(text, b"= ", request),
        None => push_all(text, &[b"= nothing\n"]),
    }
}

fn push_files(text: &mut Vec<u8>, files: &Ram) -> Result<(), NoMemory> {
    let root = Place::root(*text.allocator());
    for place in &files.contents(&root)? {
        if let Some(entry) = files.look(place) {
            push_entry(text, entry, files.full_path(place)?.as_bytes())?;
        }
    }
    Ok(())
}

// Adds a line for an object, its comment and its bytes.
fn push_entry(text: &mut Vec<u8>, entry: &Entry, path: &[u8]) -> Result<(), NoMemory> {
    let kind: &[u8] = if entry.is_directory() {
        b" dir "
    } else {
        b" file "
    };
    push_all(
        text,
        &[b"= ", entry.bits.letters().as_slice(), kind, path, b"\n"],
    )?;
    push_lines(text, b"; ", entry.comment.as_bytes())?;
    match entry.bytes() {
        Some(bytes) => push_lines(text, b"", &bytes.to_vec(*text.allocator())?),
        None => push_lines(text, b"", &[]),
    }
}

fn push_assigns(text: &mut Vec<u8>, files: &Ram, assigns: &[Assign]) -> Result<(), NoMemory> {
    for assign in assigns {
        let name = assign.name.text().as_bytes();
        match &assign.binding {
            Binding::Dirs(places) => push_places(text, files, name, places.as_slice())?,
            Binding::Path(path) => {
                push_all(text, &[b"= ", name, b": [", path.as_bytes(), b"]\n"])?;
            }
            Binding::Defer(path) => {
                push_all(text, &[b"= ", name, b": <", path.as_bytes(), b">\n"])?;
            }
        }
    }
    Ok(())
}

// Adds a line for each directory of an assign; the name is on the line of the first.
fn push_places(
    text: &mut Vec<u8>,
    files: &Ram,
    name: &[u8],
    places: &[Place],
) -> Result<(), NoMemory> {
    let mut is_first = true;
    for place in places {
        let path = files.full_path(place)?;
        if is_first {
            push_all(text, &[b"= ", name, b": ", path.as_bytes(), b"\n"])?;
        } else {
            push_all(text, &[b"= + ", path.as_bytes(), b"\n"])?;
        }
        is_first = false;
    }
    Ok(())
}

// Adds a line for each internal command that is disabled, and for each entry.
fn push_residents(text: &mut Vec<u8>, world: &World) -> Result<(), NoMemory> {
    let residents = world.residents();
    for internal in residents.internals() {
        if internal.is_disabled {
            let name = internal.command.name().as_bytes();
            push_all(text, &[b"= disabled ", name, b"\n"])?;
        }
    }
    for entry in residents.entries() {
        push_resident(text, world, entry)?;
    }
    Ok(())
}

// Adds a line for an entry: its program, and how many shells run from it, unless it is one of the system.
fn push_resident(text: &mut Vec<u8>, world: &World, entry: &Resident) -> Result<(), NoMemory> {
    push_all(text, &[b"= entry ", entry.name.as_bytes()])?;
    match &entry.program {
        Program::Disk(command) => push_all(text, &[b" disk ", command.name().as_bytes()])?,
        Program::Host(program) => push_all(text, &[b" host \"", program.as_bytes(), b"\""])?,
    }
    if entry.is_system {
        return push_all(text, &[b" system\n"]);
    }
    text.extend_from_slice(b" used ")?;
    push_count(text, world.uses(&entry.name))?;
    text.push(b'\n')?;
    Ok(())
}
