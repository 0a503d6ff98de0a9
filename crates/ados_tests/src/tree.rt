// Versions that are kept, and the files at their limit: wide and deep.
use crate::places::{at, name};
use crate::wrong::{Wrong, expect};
use ados_ram::{Bits, Busy, Limits, Place, Ram};
use ados_text::{Name, NoMemory, Stop, Text};
use std::alloc::Global;

// The place of a name below that of a text.
fn below(alloc: Global, directory: &str, name: &[u8]) -> Result<Place, NoMemory> {
    at(alloc, directory)?.with(Name::new(Text::from_bytes(alloc, name)?))
}

fn written(alloc: Global, ram: &Ram, place: &Place, bytes: &[u8]) -> Result<Ram, Stop> {
    ram.write(Limits::Small, &Busy::none(alloc), place, bytes)
}

fn renamed(alloc: Global, ram: &Ram, from: &str, to: &str) -> Result<Ram, Stop> {
    ram.rename(&Busy::none(alloc), &at(alloc, from)?, &at(alloc, to)?)
}

// A file of the directory S holds these bytes.
fn holds(alloc: Global, ram: &Ram, bytes: &[u8]) -> Result<bool, NoMemory> {
    let place = at(alloc, "s/kept")?;
    let file = ram.look(&place).and_then(|entry| entry.bytes());
    Ok(file.is_some_and(|found| found.is(bytes)))
}

// A hundred changes: files of the directory S, a new one each time, and one that is written again.
fn changed(alloc: Global, old: &Ram) -> Result<Ram, Stop> {
    let mut ram = old.copy()?;
    for first in 0..5_u8 {
        for second in 0..10_u8 {
            let name = [b'A' + first, b'0' + second];
            ram = written(alloc, &ram, &below(alloc, "s", &name)?, b"new")?;
            ram = written(alloc, &ram, &at(alloc, "S/Kept")?, &name)?;
        }
    }
    Ok(ram)
}

// The files with as many objects as there may be, all but four in the root.
fn wide(alloc: Global) -> Result<Ram, Stop> {
    let mut ram = Ram::new(alloc)?;
    for first in 0..32_u8 {
        for second in 0..32_u8 {
            let place = below(alloc, "", &[b'A' + first, b'A' + second])?;
            match written(alloc, &ram, &place, b"x") {
                Ok(more) => ram = more,
                Err(Stop::Refused(_)) => {}
                Err(Stop::NoMemory) => return Err(Stop::NoMemory),
            }
        }
    }
    Ok(ram)
}

// The same files without every second object of those.
fn thinned(alloc: Global, wide: &Ram) -> Result<Ram, Stop> {
    let mut ram = wide.copy()?;
    for first in 0..32_u8 {
        for second in 0..16_u8 {
            let place = below(alloc, "", &[b'A' + first, b'A' + 2 * second])?;
            match ram.delete(&Busy::none(alloc), false, &place) {
                Ok(less) => ram = less,
                Err(Stop::Refused(_)) => {}
                Err(Stop::NoMemory) => return Err(Stop::NoMemory),
            }
        }
    }
    Ok(ram)
}

// Something is at the bottom of the thousand directories, one step after another.
fn is_reached(alloc: Global, ram: &Ram) -> Result<bool, NoMemory> {
    let name = name(alloc, "D")?;
    let mut cursor = ram.below(&at(alloc, "A")?);
    for _ in 0..999 {
        cursor = cursor.child(&name);
    }
    Ok(cursor.entry().is_some() && cursor.child(&name).entry().is_none())
}

// The same files with what is at A one directory deeper.
fn deeper(alloc: Global, ram: &Ram) -> Result<Ram, Stop> {
    let with = ram.make_dir(Limits::Small, &at(alloc, "P")?)?;
    let inside = renamed(alloc, &with, "A", "P/D")?;
    renamed(alloc, &inside, "P", "A")
}

// The files with a thousand directories, each in the one before.
fn deep(alloc: Global) -> Result<Ram, Stop> {
    let mut ram = Ram::new(alloc)?.make_dir(Limits::Small, &at(alloc, "A")?)?;
    for _ in 0..999 {
        ram = deeper(alloc, &ram)?;
    }
    Ok(ram)
}

// The place of the last of the thousand directories.
fn bottom(alloc: Global) -> Result<Place, NoMemory> {
    let mut place = at(alloc, "a")?;
    for _ in 0..999 {
        place = place.with(name(alloc, "d")?)?;
    }
    Ok(place)
}

// How many objects are in S.
fn listed(alloc: Global, ram: &Ram) -> Result<usize, Stop> {
    Ok(ram.list(&at(alloc, "S")?)?.len())
}

// The older files hold one file as it was, and the newer ones all.
fn both_stand(alloc: Global, old: &Ram, new: &Ram) -> Result<bool, Stop> {
    Ok(
        listed(alloc, old)? == 1
            && listed(alloc, new)? == 51
            && holds(alloc, old, b"old")?
            && holds(alloc, new, b"E9")?,
    )
}

// Each function owns one version at most, and lends it: to drop one at many exits is expensive to prove.
fn stands(alloc: Global, old: &Ram) -> Result<bool, Stop> {
    let new = changed(alloc, old)?;
    both_stand(alloc, old, &new)
}

fn with_kept(alloc: Global) -> Result<Ram, Stop> {
    written(alloc, &Ram::new(alloc)?, &at(alloc, "S/Kept")?, b"old")
}

#[test]
fn a_version_stands_through_a_hundred_changes(rt: HostRuntime) -> Result<(), Wrong> {
    let old = with_kept(rt.alloc())?;
    expect(stands(rt.alloc(), &old)?, "S")
}

// How many objects are in the root.
fn root_objects(alloc: Global, ram: &Ram) -> Result<usize, NoMemory> {
    Ok(ram.children(&Place::root(alloc))?.len())
}

fn has(alloc: Global, ram: &Ram, name: &str) -> Result<bool, NoMemory> {
    Ok(ram.look(&at(alloc, name)?).is_some())
}

// Every second object is in the older files alone.
fn are_thinned(alloc: Global, old: &Ram, new: &Ram) -> Result<bool, NoMemory> {
    Ok(
        root_objects(alloc, new)? == 514
            && has(alloc, old, "aa")?
            && !has(alloc, new, "aa")?
            && has(alloc, old, "ab")?
            && has(alloc, new, "ab")?,
    )
}

fn shrink(alloc: Global, old: &Ram) -> Result<bool, Stop> {
    let new = thinned(alloc, old)?;
    Ok(are_thinned(alloc, old, &new)?)
}

#[test]
fn a_directory_grows_to_all_objects_and_shrinks(rt: HostRuntime) -> Result<(), Wrong> {
    let ram = wide(rt.alloc())?;
    expect(root_objects(rt.alloc(), &ram)? == 1_024, "all objects")?;
    expect(shrink(rt.alloc(), &ram)?, "every second object")
}

// The contents of the root are the thousand directories, the deepest first, and the four at first.
fn are_contents(alloc: Global, ram: &Ram) -> Result<bool, NoMemory> {
    let places = ram.contents(&Place::root(alloc))?;
    match (places.first(), places.get(999)) {
        (Some(first), Some(last)) => {
            Ok(places.len() == 1_004 && first.names().len() == 1_000 && last.names().len() == 1)
        }
        _ => Ok(false),
    }
}

fn protected(ram: &Ram, place: &Place) -> Result<Ram, Stop> {
    ram.protect(
        place,
        Bits {
            pure: true,
            ..Bits::FRESH
        },
    )
}

// What is at a place of these files can be deleted, and they stand.
fn is_deleted(alloc: Global, ram: &Ram, place: &Place) -> Result<bool, Stop> {
    let without = ram.delete(&Busy::none(alloc), false, place)?;
    Ok(without.look(place).is_none() && ram.look(place).is_some())
}

// What is at a place can be protected, and then deleted.
fn takes_changes(alloc: Global, ram: &Ram, place: &Place) -> Result<bool, Stop> {
    let new = protected(ram, place)?;
    is_deleted(alloc, &new, place)
}

fn bottom_takes_changes(alloc: Global, ram: &Ram) -> Result<bool, Stop> {
    let place = bottom(alloc)?;
    Ok(ram.look(&place).is_some() && takes_changes(alloc, ram, &place)?)
}

#[test]
fn directories_stand_a_thousand_deep(rt: HostRuntime) -> Result<(), Wrong> {
    let ram = deep(rt.alloc())?;
    expect(
        are_contents(rt.alloc(), &ram)?,
        "contents end with what holds them",
    )?;
    expect(is_reached(rt.alloc(), &ram)?, "one step after another")?;
    expect(bottom_takes_changes(rt.alloc(), &ram)?, "the last of them")
}
