// Assigns and where paths lead.
use crate::places::{are_names, at, name, text};
use crate::wrong::{Wrong, expect};
use ados_assign::{Assigns, Binding, Places};
use ados_text::NoMemory;
use std::alloc::Global;

// The first assigns with `Libs` bound to S too.
fn with_libs(alloc: Global) -> Result<Assigns, NoMemory> {
    let directory = Places::one(alloc, at(alloc, "S")?)?;
    Assigns::first(alloc)?.set(name(alloc, "Libs")?, Binding::Dirs(directory))
}

// These names are bound to a place.
fn hold(alloc: Global, assigns: &Assigns, place: &str, want: &[&str]) -> Result<bool, NoMemory> {
    Ok(are_names(&assigns.holders(&at(alloc, place)?)?, want))
}

// The directory S is held by `S` alone at first, and no name is bound to `none`.
fn are_first(alloc: Global) -> Result<bool, NoMemory> {
    let assigns = Assigns::first(alloc)?;
    Ok(hold(alloc, &assigns, "s", &["S"])? && hold(alloc, &assigns, "none", &[])?)
}

fn are_two(alloc: Global) -> Result<bool, NoMemory> {
    hold(alloc, &with_libs(alloc)?, "s", &["Libs", "S"])
}

#[test]
fn a_directory_has_its_holders(rt: HostRuntime) -> Result<(), Wrong> {
    expect(are_first(rt.alloc())?, "S")?;
    expect(are_two(rt.alloc())?, "Libs and S")
}

fn held(alloc: Global) -> Result<usize, NoMemory> {
    Ok(Assigns::first(alloc)?.held()?.len())
}

#[test]
fn assigns_hold_five_directories(rt: HostRuntime) -> Result<(), Wrong> {
    expect(held(rt.alloc())? == 5, "five directories")
}

fn both(alloc: Global, first: &str, second: &str) -> Result<Binding, NoMemory> {
    let mut places = Vec::new(alloc);
    places.push(at(alloc, first)?)?;
    places.push(at(alloc, second)?)?;
    Ok(Binding::Dirs(Places::from_vec(places)))
}

// M: is S and T, P: the text `D:`, D: one of Defer that leads to T, and Q: a text that leads to itself.
pub fn with_texts(alloc: Global) -> Result<Assigns, NoMemory> {
    Assigns::first(alloc)?
        .set(name(alloc, "M")?, both(alloc, "S", "T")?)?
        .set(name(alloc, "P")?, Binding::Path(text(alloc, "D:")?))?
        .set(name(alloc, "D")?, Binding::Defer(text(alloc, "RAM:T")?))?
        .set(name(alloc, "Q")?, Binding::Path(text(alloc, "Q:x")?))
}
