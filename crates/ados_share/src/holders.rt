//! Which files of the Shell have the same bytes as a file of the folder of a share.
ghost use Rattle.std.specs.{Prelude.{◌≡◌, true, IfSome, find}, Option.{option_copied}};
ghost use Rattle.ados_share.specs.Contents.{has_bytes};

use crate::around::Around;
use crate::contents::digest;
use crate::departure::Departure;
use crate::mirror::Mirror;
use crate::sought::Sought;
use ados_ram::{FileBytes, Place, Ram};
use ados_text::NoMemory;
use ados_transfer::TransferFault;
use std::alloc::Global;
use std::collections::BTreeMap;

/// A file of the Shell that has bytes.
#[derive(Drop)]
pub struct Holder<'a> {
    place: Place,
    bytes: &'a FileBytes,
}

impl Holder<'_> {
    /// Where it is.
    pub fn place(&self) -> &Place {
        &self.place
    }

    /// What it holds.
    pub fn bytes(&self) -> &FileBytes {
        self.bytes
    }
}

/// The files of the Shell that have bytes: those in the directory, and those outside of it.
#[derive(Drop)]
pub struct Holders<'a> {
    files: &'a Ram,
    inside: Index<'a>,
    outside: Index<'a>,
    // What was looked for in them.
    parts: Sought,
}

// An index of files, each among those whose bytes have the same digest, in the order in which they were added.
#[derive(Drop)]
struct Index<'a> {
    alloc: Global,
    by_digest: BTreeMap<u64, Vec<Holder<'a>>>,
}

impl<'a> Index<'a> {
    // There are none.
    fn new(alloc: Global) -> Index<'a> {
        Index {
            alloc,
            by_digest: BTreeMap::new(alloc),
        }
    }

    // Adds a file.
    fn add(&mut self, holder: Holder<'a>) -> Result<(), NoMemory> {
        let digest = digest(holder.bytes);
        if let Some(alike) = self.by_digest.get_mut(&digest) {
            alike.push(holder)?;
            return Ok(());
        }
        let mut alike = Vec::new(self.alloc);
        alike.push(holder)?;
        self.by_digest.insert(digest, alike)?;
        Ok(())
    }

    // All of them.
    fn all(&self) -> Result<Vec<&Holder<'a>>, NoMemory> {
        let mut all = Vec::new(self.alloc);
        for alike in self.by_digest.values() {
            for holder in alike {
                all.push(holder)?;
            }
        }
        Ok(all)
    }

    // The first file that was added with these bytes.
    fn first_with(&self, bytes: &FileBytes) -> Option<&Holder<'a>>
        ensures { IfSome result (λ holder. has_bytes bytes.now holder.now ≡ true) }
    {
        first_with(self.by_digest.get(&digest(bytes))?.as_slice(), bytes)
    }
}

// The first of these files that has these bytes.
fn first_with<'h, 'a>(holders: &'h [Holder<'a>], bytes: &FileBytes) -> Option<&'h Holder<'a>>
    ensures first { option_copied result ≡ find (has_bytes bytes.now) holders.now }
    ensures has { IfSome result (λ holder. has_bytes bytes.now holder.now ≡ true) }
{
    for holder in holders {
        if *holder.bytes == *bytes {
            return Some(holder);
        }
    }
    None
}

impl<'a> Holders<'a> {
    /// All files of the Shell.
    pub fn files(&self) -> &'a Ram {
        self.files
    }

    /// The first file that has these bytes, of those outside if one of them does.
    pub fn first_with(&self, bytes: &FileBytes) -> Option<&Holder<'a>>
        ensures { IfSome result (λ holder. has_bytes bytes.now holder.now ≡ true) }
    {
        match self.outside.first_with(bytes) {
            Some(found) => Some(found),
            None => self.inside.first_with(bytes),
        }
    }

    /// A file outside of the directory has these bytes.
    pub fn has_outside(&self, bytes: &FileBytes) -> bool {
        self.outside.first_with(bytes).is_some()
    }

    /// One file outside of the directory has two contents, as a whole or, of those that were looked for, among others.
    pub fn are_together(&self, one: &FileBytes, other: &FileBytes) -> bool {
        match (self.place_outside(one), self.place_outside(other)) {
            (Some(one), Some(other)) => one == other,
            _ => false,
        }
    }

    // The file outside of the directory that has bytes, as a whole or among others.
    fn place_outside(&self, bytes: &FileBytes) -> Option<&Place> {
        match self.outside.first_with(bytes) {
            Some(holder) => Some(&holder.place),
            None => self.place_of_part(bytes),
        }
    }

    /// The file outside of the directory in which bytes stand among others, of those that were looked for.
    pub fn place_of_part(&self, bytes: &FileBytes) -> Option<&Place> {
        self.parts.place_of(bytes)
    }

    /// The file of the directory in which the bytes of the file at a place stand among others, of those that were looked for.
    pub fn around(&self, place: &Place, bytes: &FileBytes) -> Option<&Around> {
        self.parts.around(place, bytes)
    }

    /// What was looked for, with where it was found.
    pub fn set_parts(&mut self, parts: Sought) {
        self.parts = parts;
    }

    /// All files outside of the directory.
    pub fn outside(&self) -> Result<Vec<&Holder<'a>>, NoMemory> {
        self.outside.all()
    }

    /// All files in the directory.
    pub fn inside(&self) -> Result<Vec<&Holder<'a>>, NoMemory> {
        self.inside.all()
    }

    // The file whose bytes would be lost with memory if those of a file of the folder are deleted or written over. For one that gives
    // way to what is written in its place (`is_moved`) there is none if a file in the directory has them.
    pub(crate) fn copy_of(
        &self,
        departure: &Departure<'_>,
        bytes: &FileBytes,
        is_moved: bool,
    ) -> Option<&Holder<'a>>
        ensures { IfSome result (λ holder. has_bytes bytes.now holder.now ≡ true) }
    {
        if !departure.is_gone() {
            return self.first_with(bytes);
        }
        if is_moved && self.inside.first_with(bytes).is_some() {
            return None;
        }
        self.outside.first_with(bytes)
    }
}

impl Mirror {
    // The Shell's files that have bytes.
    pub(crate) fn holders<'a>(&self, files: &'a Ram) -> Result<Holders<'a>, TransferFault> {
        let mut holders = Holders {
            files,
            inside: Index::new(self.alloc),
            outside: Index::new(self.alloc),
            parts: Sought::empty(self.alloc),
        };
        for place in files.contents(&Place::root(self.alloc))? {
            let Some(bytes) = files.look(&place).and_then(|entry| entry.bytes()) else {
                continue;
            };
            if bytes.len() == 0 {
                continue;
            }
            if self.volumes.of_place(&place).is_some() {
                holders.inside.add(Holder { place, bytes })?;
            } else {
                holders.outside.add(Holder { place, bytes })?;
            }
        }
        Ok(holders)
    }
}
