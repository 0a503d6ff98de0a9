//! What there is still room for in the Shell's files.
ghost use Rattle.std.specs.{Prelude.{◌≡◌, ◌+◌, ◌-◌, ◌^◌, [], IfOk, if◌then◌else◌, length, min, nat_lt}, Option.{is_some, option_copied}};
ghost use Rattle.std.specs.FinMap as map;
ghost use Rattle.ados_ram.specs.{Contents.{contents}, Limits.{objects_limit}};
ghost use Rattle.ados_transfer.specs.Room.{has_room_for, size_there};

use ados_ram::{Entry, Limits, Place, Ram};
use ados_text::NoMemory;
use std::alloc::Global;

/// How much the files would hold.
#[derive(Clone, Copy)]
pub struct Room {
    limits: Limits,
    bytes: usize,
    objects: usize,
}

impl Room {
    /// What the files hold, within these limits.
    pub fn new(alloc: Global, limits: Limits, files: &Ram) -> Result<Room, NoMemory>
        ensures objects { IfOk result (λ room. room.objects ≡ length (contents [] (map.entries files.now))) }
        ensures limits { IfOk result (λ room. room.limits ≡ limits) }
    {
        let places = files.contents(&Place::root(alloc))?;
        let bytes = places.iter().fold(0usize, |sum, place| {
            sum.saturating_add(size(files.look(place)))
        });
        Ok(Room {
            limits,
            bytes,
            objects: places.len(),
        })
    }

    /// The limits of the files.
    pub fn limits(&self) -> Limits
        ensures { result ≡ self.now.limits }
    {
        self.limits
    }

    /// How many bytes all files have.
    pub fn bytes(&self) -> usize
        ensures { result ≡ self.now.bytes }
    {
        self.bytes
    }

    /// How many objects there are beside the root.
    pub fn objects(&self) -> usize
        ensures { result ≡ self.now.objects }
    {
        self.objects
    }

    /// There is room for one more object in the files.
    pub fn has_place(&self) -> bool
        ensures { result ≡ nat_lt self.now.objects (objects_limit self.now.limits) }
    {
        self.objects < self.limits.objects()
    }

    /// There is room for a file with this many bytes in place of what is there.
    pub fn fits(&self, size_now: usize, old: Option<&Entry>) -> bool
        ensures { result ≡ has_room_for self.now size_now (size_there (option_copied old.entry)) }
    {
        let others = self.bytes.saturating_sub(size(old));
        size_now <= self.limits.file() && size_now <= self.limits.bytes().saturating_sub(others)
    }

    /// Something with this many bytes takes the place of what is there.
    pub fn put(&mut self, size_now: usize, old: Option<&Entry>)
        ensures bytes { self.new.bytes ≡ min (self.old.bytes - size_there (option_copied old.entry) + size_now) (2 ^ 64 - 1) }
        ensures objects { self.new.objects ≡ (if is_some old.entry then self.old.objects else min (self.old.objects + 1) (2 ^ 64 - 1)) }
        ensures limits { self.new.limits ≡ self.old.limits }
    {
        self.bytes = self
            .bytes
            .saturating_sub(size(old))
            .saturating_add(size_now);
        if old.is_none() {
            self.objects = self.objects.saturating_add(1);
        }
    }

    /// What is there is deleted.
    pub fn free(&mut self, old: Option<&Entry>)
        ensures bytes { self.new.bytes ≡ self.old.bytes - size_there (option_copied old.entry) }
        ensures objects { self.new.objects ≡ (if is_some old.entry then self.old.objects - 1 else self.old.objects) }
        ensures limits { self.new.limits ≡ self.old.limits }
    {
        if old.is_some() {
            self.bytes = self.bytes.saturating_sub(size(old));
            self.objects = self.objects.saturating_sub(1);
        }
    }
}

// How many bytes what is there has.
fn size(entry: Option<&Entry>) -> usize
    ensures { result ≡ size_there (option_copied entry.entry) }
{
    match entry {
        Some(entry) => entry.len(),
        None => 0,
    }
}
