// The objects in the directories for which a path stands; whether there is a directory or a file.
ghost use Rattle.std.specs.{Prelude.{◌≡◌, ◌≤◌, ◌++◌, take, drop, length, IfOk, OnOk}, Option.{option_copied}};
ghost use Rattle.ados_ram.specs.Files.{is_some_directory, is_some_file};
ghost use Rattle.ados_objects.specs.Bases.{all_children, entry_at, further_children, has_object, new_places};

use ados_ram::{Entry, Place, Ram};
use ados_text::{Name, NoMemory};
use std::alloc::Global;
use std::slice;

/// The entry at the first of these directories.
pub fn entry_at<'a>(ram: &'a Ram, bases: &[Place]) -> Option<&'a Entry>
    ensures { option_copied result ≡ entry_at ram.now bases.now }
{
    match bases.first() {
        None => None,
        Some(base) => ram.look(base),
    }
}

/// The objects in these directories, in their order. Of a name that several of them have, only the first counts.
pub fn all_children(alloc: Global, ram: &Ram, bases: &[Place]) -> Result<Vec<Place>, NoMemory>
    ensures { IfOk result (λ places. places.items ≡ all_children ram.now bases.now) }
{
    let Some(base) = bases.first() else {
        return Ok(Vec::new(alloc));
    };
    let mut places = ram.children(base)?;
    push_further(&mut places, ram, bases, 1)?;
    Ok(places)
}

// The objects in the directories from an index of the list on.
fn push_further(
    out: &mut Vec<Place>,
    ram: &Ram,
    bases: &[Place],
    from: usize,
) -> Result<(), NoMemory>
    requires within { from ≤ length bases.now }
    ensures { OnOk result (out.new.items ≡ out.old.items ++ further_children ram.now (take from bases.now) (drop from bases.now)) }
{
    if from >= bases.len() {
        return Ok(());
    }
    push_new(out, ram, &bases[..from], &ram.children(&bases[from])?)?;
    push_further(out, ram, bases, from + 1)
}

// Appends those of the places whose names are new: none of the directories has an object of the name.
fn push_new(
    out: &mut Vec<Place>,
    ram: &Ram,
    before: &[Place],
    places: &[Place],
) -> Result<(), NoMemory>
    ensures { OnOk result (out.new.items ≡ out.old.items ++ new_places ram.now before.now places.now) }
{
    for place in places {
        if !has_object(ram, before, &place.last_name()?)? {
            out.push(place.copy()?)?;
        }
    }
    Ok(())
}

// Whether one of the directories has an object of this name.
fn has_object(ram: &Ram, bases: &[Place], name: &Name) -> Result<bool, NoMemory>
    ensures { IfOk result (λ there. there ≡ has_object ram.now bases.now name.now) }
{
    for base in bases {
        if ram.look(&base.joined(slice::from_ref(name))?).is_some() {
            return Ok(true);
        }
    }
    Ok(false)
}

/// Whether there is a directory.
pub fn is_directory(there: Option<&Entry>) -> bool
    ensures { result ≡ is_some_directory (option_copied there.entry) }
{
    match there {
        None => false,
        Some(entry) => entry.is_directory(),
    }
}

/// Whether there is a file.
pub fn is_file(there: Option<&Entry>) -> bool
    ensures { result ≡ is_some_file (option_copied there.entry) }
{
    match there {
        None => false,
        Some(entry) => !entry.is_directory(),
    }
}
