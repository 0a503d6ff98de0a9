// The cache of resolved paths: what it knows, and that no version answers with the knowledge of another.
use crate::assign::with_texts;
use crate::places::{at, name, text};
use crate::wrong::{Wrong, expect};
use ados_assign::{Assigns, Binding, Places};
use ados_find::{Refusal, Shared, place_of};
use ados_ram::{Busy, Place};
use ados_resident::{Dialect, Hosts};
use ados_text::{NoMemory, Stop, Text};
use std::alloc::Global;

// What makes a new version of what is shared.
#[derive(Clone, Copy)]
enum Change {
    // T is E.
    Rename,
    // T is not there.
    Delete,
    // `S` is bound to L.
    Assign,
    // The resident list is another one.
    Residents,
}

// What a test asks of what is shared at first.
#[derive(Clone, Copy)]
enum Asked {
    // C:Eval is known as it was written alone.
    Spelling,
    // After a change this path, which was known, is not known; it led to the first place, and leads to the second one.
    Change(Change, &'static str, &'static str, &'static str),
    // Among assigns of several directories and of texts this path is not learned.
    Unknown(&'static str),
    // What is learned, or dropped, does not change where a path leads.
    Learning,
    // As many paths are known as there is room for.
    Room,
    // With one path more not all are known.
    NoRoom,
}

fn knows(alloc: Global, shared: &Shared, path: &str) -> Result<bool, NoMemory> {
    Ok(shared.knows(&text(alloc, path)?, &Place::root(alloc)))
}

fn learn(alloc: Global, shared: &mut Shared, path: &str) -> Result<(), NoMemory> {
    shared.learn(alloc, &text(alloc, path)?, &Place::root(alloc));
    Ok(())
}

// A path leads to a place, or, if the text is empty, nowhere.
fn leads(alloc: Global, shared: &Shared, path: &str, want: &str) -> Result<bool, Wrong> {
    let root = Place::root(alloc);
    match place_of(alloc, shared, &root, &text(alloc, path)?) {
        Err(Refusal::NoMemory) => Err(Wrong::NoMemory),
        Err(Refusal::Stopped(_)) => Ok(want.is_empty()),
        Ok(place) => Ok(place == at(alloc, want)?),
    }
}

// Makes the cache learn a path: it is unknown afterwards only if there was no memory for it.
fn teach(alloc: Global, shared: &mut Shared, path: &str) -> Result<(), Wrong> {
    learn(alloc, shared, path)?;
    if knows(alloc, shared, path)? {
        Ok(())
    } else {
        Err(Wrong::NoMemory)
    }
}

fn knows_as_written(alloc: Global, shared: &mut Shared) -> Result<bool, Wrong> {
    teach(alloc, shared, "C:Eval")?;
    Ok(
        leads(alloc, shared, "C:Eval", "C/Eval")?
            && leads(alloc, shared, "c:eval", "C/Eval")?
            && !knows(alloc, shared, "c:eval")?
            && !shared.knows(&text(alloc, "C:Eval")?, &at(alloc, "T")?),
    )
}

fn renamed(alloc: Global, old: &Shared) -> Result<Shared, Stop> {
    old.renamed(&Busy::none(alloc), &at(alloc, "T")?, &at(alloc, "E")?)
}

fn deleted(alloc: Global, old: &Shared) -> Result<Shared, Stop> {
    let files = old.ram.delete(&Busy::none(alloc), false, &at(alloc, "T")?)?;
    Ok(old.with_files(files)?)
}

fn bound(alloc: Global, old: &Shared) -> Result<Shared, NoMemory> {
    let places = Places::one(alloc, at(alloc, "L")?)?;
    old.with_assigns(old.assigns.set(name(alloc, "S")?, Binding::Dirs(places))?)
}

fn changed(alloc: Global, old: &Shared, change: Change) -> Result<Shared, Stop> {
    match change {
        Change::Rename => renamed(alloc, old),
        Change::Delete => deleted(alloc, old),
        Change::Assign => Ok(bound(alloc, old)?),
        Change::Residents => Ok(old.with_residents(old.residents.copy()?)?),
    }
}

// The version after the change knows nothing, and a path leads to a place in it.
fn is_anew(
    alloc: Global,
    old: &Shared,
    change: Change,
    path: &str,
    want: &str,
) -> Result<bool, Wrong> {
    let new = changed(alloc, old, change)?;
    Ok(!knows(alloc, &new, path)? && leads(alloc, &new, path, want)?)
}

fn is_not_learned(alloc: Global, shared: &mut Shared, path: &str) -> Result<bool, NoMemory> {
    learn(alloc, shared, path)?;
    Ok(!knows(alloc, shared, path)?)
}

// One that leads nowhere, and one after several directories or a text.
fn stays_unknown(alloc: Global, shared: &Shared, path: &str) -> Result<bool, NoMemory> {
    let mut other = shared.with_assigns(with_texts(alloc)?)?;
    is_not_learned(alloc, &mut other, path)
}

// With memory and without.
fn leads_where_it_led(alloc: Global, shared: &mut Shared) -> Result<bool, Wrong> {
    learn(alloc, shared, "S:y")?;
    learn(alloc, shared, "S:z")?;
    Ok(leads(alloc, shared, "S:y", "S/y")? && leads(alloc, shared, "S:z", "S/z")?)
}

// The path of a letter, like `S:a`.
fn lettered(alloc: Global, letter: u8) -> Result<Text, NoMemory> {
    Text::from_bytes(alloc, &[b'S', b':', letter])
}

// Makes the cache learn the paths of the letters from `;` on, one after another; that of the end is excluded.
fn learn_up_to(alloc: Global, shared: &mut Shared, end: u8) -> Result<(), NoMemory> {
    for letter in b';'..end {
        let path = lettered(alloc, letter)?;
        shared.learn(alloc, &path, &Place::root(alloc));
    }
    Ok(())
}

// All of these are known.
fn knows_each(alloc: Global, shared: &Shared, end: u8) -> Result<bool, NoMemory> {
    for letter in b';'..end {
        if !shared.knows(&lettered(alloc, letter)?, &Place::root(alloc)) {
            return Ok(false);
        }
    }
    Ok(true)
}

// From `;` up to `z` there are 64 letters: one is not known only if there was no memory for it.
fn knows_all(alloc: Global, shared: &mut Shared) -> Result<bool, Wrong> {
    learn_up_to(alloc, shared, b'{')?;
    if knows_each(alloc, shared, b'{')? {
        leads(alloc, shared, "S:z", "S/z")
    } else {
        Err(Wrong::NoMemory)
    }
}

// With one more they are not all known, and each leads where it did.
fn knows_some(alloc: Global, shared: &mut Shared) -> Result<bool, Wrong> {
    learn_up_to(alloc, shared, b'|')?;
    Ok(
        !knows_each(alloc, shared, b'|')?
            && leads(alloc, shared, "S:;", "S/;")?
            && leads(alloc, shared, "S:{", "S/{")?,
    )
}

fn holds_of(alloc: Global, shared: &mut Shared, asked: Asked) -> Result<bool, Wrong> {
    match asked {
        Asked::Spelling => knows_as_written(alloc, shared),
        Asked::Change(change, path, before, after) => {
            teach(alloc, shared, path)?;
            Ok(is_anew(alloc, shared, change, path, after)? && leads(alloc, shared, path, before)?)
        }
        Asked::Unknown(path) => Ok(stays_unknown(alloc, shared, path)?),
        Asked::Learning => leads_where_it_led(alloc, shared),
        Asked::Room => knows_all(alloc, shared),
        Asked::NoRoom => knows_some(alloc, shared),
    }
}

// Only this function owns what is shared, and the others borrow it: to drop it at many exits is expensive to prove.
fn holds(alloc: Global, asked: Asked) -> Result<bool, Wrong> {
    let hosts = Hosts::of(alloc, &[])?;
    let mut shared = Shared::first(alloc, Dialect::Core, hosts)?;
    holds_of(alloc, &mut shared, asked)
}

// All that is asked in these rows holds.
fn ask(alloc: Global, rows: &[(Asked, &'static str)]) -> Result<(), Wrong> {
    for (asked, name) in rows {
        expect(holds(alloc, *asked)?, name)?;
    }
    Ok(())
}

const KNOWN: &[(Asked, &str)] = &[
    (Asked::Spelling, "C:Eval as it was written"),
    (Asked::Learning, "S:y and S:z"),
    (Asked::Room, "64 paths"),
    (Asked::NoRoom, "65 paths"),
];

#[test]
fn up_to_sixty_four_paths_are_known_as_they_were_written(rt: HostRuntime) -> Result<(), Wrong> {
    ask(rt.alloc(), KNOWN)
}

const CHANGES: &[(Asked, &str)] = &[
    (
        Asked::Change(Change::Rename, "T/x", "T/x", ""),
        "T/x once T is E",
    ),
    (
        Asked::Change(Change::Delete, "T/x", "T/x", ""),
        "T/x once T is not there",
    ),
    (
        Asked::Change(Change::Assign, "S:y", "S/y", "L/y"),
        "S:y once S is L",
    ),
    (
        Asked::Change(Change::Residents, "S:y", "S/y", "S/y"),
        "S:y after other residents",
    ),
];

#[test]
fn each_change_begins_anew(rt: HostRuntime) -> Result<(), Wrong> {
    ask(rt.alloc(), CHANGES)
}

const UNKNOWN: &[(Asked, &str)] = &[
    (Asked::Unknown("none/x"), "none/x"),
    (Asked::Unknown("NIL:x"), "NIL:x"),
    (Asked::Unknown("U:x"), "U:x"),
    (Asked::Unknown("M:x"), "M:x"),
    (Asked::Unknown("P:x"), "P:x"),
    (Asked::Unknown("D:x"), "D:x"),
    (Asked::Unknown("Q:x"), "Q:x"),
];

#[test]
fn some_paths_stay_unknown(rt: HostRuntime) -> Result<(), Wrong> {
    ask(rt.alloc(), UNKNOWN)
}
