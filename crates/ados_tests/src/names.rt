// Names and paths.
use crate::places::text;
use crate::wrong::{Wrong, expect, expect_row};
use ados_names::{Path, Step};
use ados_text::{NoMemory, Result2, Stop, Text};
use std::alloc::Global;

fn path(alloc: Global, written: &str) -> Result<Path, Stop> {
    Path::parse(alloc, &text(alloc, written)?)
}

fn joined(alloc: Global, path: &Path, name: &str) -> Result<Path, Stop> {
    path.join(&text(alloc, name)?)
}

// Writes a step in brackets, `/` for a step to the parent.
fn show_step(out: &mut Vec<u8>, step: &Step) -> Result<(), NoMemory> {
    out.push(b'[')?;
    match step {
        Step::Up => out.push(b'/')?,
        Step::Name(name) => out.extend_from_slice(name.as_bytes())?,
    }
    out.push(b']')?;
    Ok(())
}

// Writes the device with its colon, and the steps.
fn show(out: &mut Vec<u8>, path: &Path) -> Result<(), NoMemory> {
    if let Some(device) = path.device() {
        out.extend_from_slice(device.as_bytes())?;
        out.push(b':')?;
    }
    for step in path.steps() {
        show_step(out, step)?;
    }
    Ok(())
}

fn shown(alloc: Global, path: &Path) -> Result<Vec<u8>, NoMemory> {
    let mut out = Vec::new(alloc);
    show(&mut out, path)?;
    Ok(out)
}

// A path shows this, or `210` stands for one that is refused. `NoMemory` is passed on.
fn shows(alloc: Global, found: Result<Path, Stop>, want: &str) -> Result<bool, NoMemory> {
    match found {
        Ok(path) => Ok(shown(alloc, &path)?.as_slice() == want.as_bytes()),
        Err(Stop::Refused(fault)) => Ok(fault == Result2::INVALID_NAME && want == "210"),
        Err(Stop::NoMemory) => Err(NoMemory),
    }
}

fn copied(alloc: Global, written: &str) -> Result<Path, Stop> {
    Ok(path(alloc, written)?.copy()?)
}

#[test]
fn a_copy_of_a_path_is_equal(rt: HostRuntime) -> Result<(), Wrong> {
    let copy = copied(rt.alloc(), "Ram Disk:/x");
    expect(shows(rt.alloc(), copy, "Ram Disk:[/][x]")?, "a copy")
}

fn joined_text(alloc: Global, written: &str, name: &str) -> Result<Path, Stop> {
    joined(alloc, &path(alloc, written)?, name)
}

// Each path with this name joined to it shows this, or it is refused.
fn join(alloc: Global, rows: &[(&str, &'static str, &str)]) -> Result<(), Wrong> {
    for (written, name, want) in rows {
        expect(shows(alloc, joined_text(alloc, written, name), want)?, name)?;
    }
    Ok(())
}

#[test]
fn joins_one_name(rt: HostRuntime) -> Result<(), Wrong> {
    join(
        rt.alloc(),
        &[("RAM:a", "b", "RAM:[a][b]"), ("RAM:a/b", "b/c", "210")],
    )
}

// A text of names with nine letters each, except for the last one.
fn long(alloc: Global, length: usize) -> Result<Text, NoMemory> {
    let mut text = Text::new(alloc);
    for place in 0..length {
        text.push(if place % 10 == 9 { b'/' } else { b'x' })?;
    }
    Ok(text)
}

// The path of a text of this many bytes, with a name joined to it.
fn long_path(alloc: Global, length: usize, name: &str) -> Result<Path, Stop> {
    joined(alloc, &Path::parse(alloc, &long(alloc, length)?)?, name)
}

// How many steps a path has, none if it is refused. `NoMemory` is passed on.
fn steps(found: Result<Path, Stop>) -> Result<usize, NoMemory> {
    match found {
        Ok(path) => Ok(path.steps().len()),
        Err(Stop::Refused(_)) => Ok(0),
        Err(Stop::NoMemory) => Err(NoMemory),
    }
}

// The paths of this many bytes, with these names joined to them, have this many steps.
fn long_paths(alloc: Global, rows: &[(usize, &str, usize)]) -> Result<(), Wrong> {
    for (place, (length, name, want)) in rows.iter().enumerate() {
        expect_row(steps(long_path(alloc, *length, *name))? == *want, place)?;
    }
    Ok(())
}

const LONG_JOINED: &[(usize, &str, usize)] = &[(253, "b", 27), (253, "bc", 0)];

#[test]
fn a_path_with_one_name_more_has_255_bytes(rt: HostRuntime) -> Result<(), Wrong> {
    long_paths(rt.alloc(), LONG_JOINED)
}
