// Objects with all that is below them.
ghost use Rattle.std.specs.Prelude.{◌≡◌, ◌++◌, IfOk, OnOk};
ghost use Rattle.ados_files.specs.Below.{object_count, on_all, unless_root, objects_down, objects_of};

use ados_find::{Act, Shared, Work, current, each};
use ados_objects::only;
use ados_ram::{Place, Ram};
use ados_text::NoMemory;
use std::alloc::Global;

// What a place stands for: itself, or with ALL itself and all that is below it, a directory before its contents.
fn objects_of(alloc: Global, all: bool, ram: &Ram, place: &Place) -> Result<Vec<Place>, NoMemory>
    ensures { IfOk result (λ places. places.items ≡ objects_of all ram.now place.now) }
{
    if !all {
        return only(alloc, place);
    }
    let mut places = Vec::new(alloc);
    push_down(&mut places, ram, object_count(alloc, ram)?, place)?;
    Ok(places)
}

/// An action on each of the objects that a place stands for: it, or with ALL it and all that is below it.
#[derive(Drop)]
pub struct OnAll<'a, A> {
    pub all: bool,
    pub act: &'a A,
}

impl<'a, A: Act<Place>> Act<Place> for OnAll<'a, A> {
    ghost act = { λ s. on_all s.all (A.act s.act.now) };

    fn act(&self, shared: &Shared, work: &mut Work, place: &Place) -> Result<(), NoMemory> {
        let alloc = *work.output.allocator();
        let places = objects_of(alloc, self.all, &current(shared, &work.shared).ram, place)?;
        each(self.act, shared, work, &places)
    }
}

/// The number of objects: no directory has more levels below it.
pub fn object_count(alloc: Global, ram: &Ram) -> Result<usize, NoMemory>
    ensures { IfOk result (λ count. count ≡ object_count ram.now) }
{
    Ok(ram.contents(&Place::root(alloc))?.len())
}

// Appends an object and what is at most `levels` below it.
fn push_down(
    places: &mut Vec<Place>,
    ram: &Ram,
    levels: usize,
    place: &Place,
) -> Result<(), NoMemory>
    ensures { OnOk result (places.new.items ≡ places.old.items ++ objects_down levels ram.now place.now) }
{
    push_unless_root(places, place)?;
    if levels == 0 {
        return Ok(());
    }
    let objects = ram.children(place)?;
    for object in objects.as_slice() {
        push_down(places, ram, levels - 1, object)?;
    }
    Ok(())
}

// Appends a place, but not the root.
fn push_unless_root(places: &mut Vec<Place>, place: &Place) -> Result<(), NoMemory>
    ensures { OnOk result (places.new.items ≡ places.old.items ++ unless_root place.now) }
{
    if place.names().is_empty() {
        return Ok(());
    }
    places.push(place.copy()?)?;
    Ok(())
}
