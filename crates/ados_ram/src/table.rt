// The table of all objects, in a tree: the files as a map.
ghost use Rattle.std.specs.{Prelude.{◌≡◌, ◌+◌, ◌≤◌, [], false, length, IfOk, IsSome}, Option.{option_copied}};
ghost use Rattle.std.specs.FinMap as map;
ghost use Rattle.ados_ram.specs.{declared.entries.Entry.{Entry}, Place.{key_of, is_root, last_name}, Entry.{size_of, bytes_or_none}, Files.{AreFiles, entry_bytes, total_of, first_files}, Limits.{bytes_limit}, declared.limits.Limits.TheVariants.{Large}, FileOperations.{has_descendants, rename_of, way_fault}, Contents.{contents}, Rows.{inner_rows}, Written.{written_place}, Tree.{parent_key, first_kid, first_kids, branch_rows, subtree_rows, IsEntryAt, IsRenamed, MayMove}};

use crate::branches::Branch;
use crate::children::Children;
use crate::cursors::Cursor;
use crate::entries::Entry;
use crate::file_bytes::FileBytes;
use crate::places::Place;
use crate::rows::Row;
use ados_text::{Name, NoMemory, Result2};
use std::alloc::Global;
use std::marker::Model;

/// All objects. Versions share what no change has touched.
#[derive(Drop)]
pub struct Table {
    root: Branch,
    // the number of bytes of all files
    total: usize,
    // the number of objects, with the root
    count: usize,
    alloc: Global,
}

impl Model for Table {
    ghost use Rattle.std.specs.FinMap as map;
    ghost use Rattle.ados_ram.specs.{Files.{Files, coded_files}, Rows.{AreRows}};

    ghost Value = { Files };

    ghost coded = { coded_files };

    ghost view = { λ t. map.from_sorted t.root.1 };

    ghost invariant = { λ t. AreRows t.root.1 t.total t.count };
}

impl Table {
    /// The initial files: the root with C, Env, S and T in it.
    pub fn first(alloc: Global) -> Result<Table, NoMemory>
        ensures { IfOk result (λ table. table ≡ first_files) }
    {
        let kids = Children::of(first_kids(alloc)?)?;
        let root = Entry::directory(alloc, Name::from_bytes(alloc, b"")?)?;
        Ok(Table {
            root: Branch::new(Name::from_bytes(alloc, b"")?, root, kids)?,
            total: 0,
            count: 5,
            alloc,
        })
    }

    /// The entry at a place.
    pub fn find(&self, names: &[Name]) -> Option<&Entry>
        ensures { option_copied result ≡ map.get self.now (key_of names.now) }
    {
        self.root.find(names)
    }

    /// The entries at a place and below it.
    pub fn below(&self, names: &[Name]) -> Cursor<'_>
        ensures { result ≡ subtree_rows (key_of names.now) (map.entries self.now) }
    {
        Cursor::new(self.root.at(names))
    }

    /// The fault of the directories above a place.
    pub fn way(&self, names: &[Name]) -> Option<Result2>
        ensures { result ≡ way_fault self.now [] (key_of names.now) }
    {
        self.root.way(names)
    }

    /// A place with its names as they are written in the files; names that are not there stay as they are.
    pub fn written(&self, place: &Place) -> Result<Place, NoMemory>
        ensures { IfOk result (λ written. written ≡ written_place self.now place.now) }
    {
        self.root.written(Place::root(self.alloc), place.names())
    }

    /// Whether something is below a place.
    pub fn has_descendants(&self, names: &[Name]) -> bool
        ensures { result ≡ has_descendants (key_of names.now) (map.entries self.now) }
    {
        match self.root.at(names) {
            None => false,
            Some(branch) => branch.is_parent(),
        }
    }

    /// The rows of the objects directly in a directory, or of all that are below it, in order.
    pub fn rows_below(&self, directory: &Place, all: bool) -> Result<Vec<Row>, NoMemory>
        ensures { IfOk result (λ rows. rows.items ≡ inner_rows all (key_of directory.now) (map.entries self.now)) }
    {
        let mut rows = Vec::new(self.alloc);
        let Some(branch) = self.root.at(directory.names()) else {
            return Ok(rows);
        };
        branch.add_rows(directory, all, &mut rows)?;
        Ok(rows)
    }

    /// The places below a directory, in lower case and in order, except that each directory comes after what is in it.
    pub fn contents(&self, directory: &Place) -> Result<Vec<Place>, NoMemory>
        ensures { IfOk result (λ places. places.items ≡ contents (key_of directory.now) (map.entries self.now)) }
    {
        let mut places = Vec::new(self.alloc);
        let Some(branch) = self.root.at(directory.names()) else {
            return Ok(places);
        };
        branch.add_contents(&directory.folded()?, &mut places)?;
        Ok(places)
    }

    /// The number of bytes of all files except the one at a place.
    pub fn bytes_beside(&self, names: &[Name]) -> usize
        ensures total { (new : Entry) → total_of (map.entries (map.insert self.now (key_of names.now) new)) ≡ size_of new + result }
        ensures fits { result ≤ bytes_limit Large }
    {
        self.total - entry_len(self.find(names))
    }

    /// The number of objects if there is one at this place.
    pub fn objects_with(&self, names: &[Name]) -> usize
        ensures { (new : Entry) → map.len (map.insert self.now (key_of names.now) new) ≡ result }
    {
        match self.find(names) {
            None => self.count + 1,
            Some(_) => self.count,
        }
    }

    /// The table with an entry at a place, which is not the root.
    pub fn with(&self, place: &Place, entry: Entry) -> Result<Table, NoMemory>
        requires root { is_root (key_of place.now) ≡ false }
        requires files { AreFiles (map.insert self.now (key_of place.now) entry) }
        ensures { IfOk result (λ new. new ≡ map.insert self.now (key_of place.now) entry) }
    {
        let there = self.root.at(place.names());
        let total = self.bytes_beside(place.names()) + entry.len();
        let count = self.objects_with(place.names());
        let new = with_entry(self.alloc, there, place, entry)?;
        Ok(Table {
            root: self.root.with(place.names(), Some(new))?,
            total,
            count,
            alloc: self.alloc,
        })
    }

    /// The table without the object at a place, which is not the root, and has nothing below it.
    pub fn without(&self, names: &[Name]) -> Result<Table, NoMemory>
        requires root { is_root (key_of names.now) ≡ false }
        requires inside { IsSome (map.get self.now (parent_key (key_of names.now))) }
        requires empty { has_descendants (key_of names.now) (map.entries self.now) ≡ false }
        ensures { IfOk result (λ new. new ≡ map.remove self.now (key_of names.now)) }
    {
        Ok(Table {
            root: self.root.with(names, None)?,
            total: self.bytes_beside(names),
            count: self.objects_with(names) - 1,
            alloc: self.alloc,
        })
    }

    /// The table after a rename, in which the object takes the last name of the new place.
    pub fn moved(&self, from: &[Name], to: &Place) -> Result<Table, NoMemory>
        requires { MayMove (key_of from.now) (key_of to.now) self.now }
        ensures { IfOk result (λ new. new ≡ rename_of self.now (key_of from.now) (key_of to.now) (last_name to.now)) }
    {
        let Some(old) = self.root.at(from) else {
            unreachable!();
        };
        let new = renamed(old, to)?;
        let left = self.root.with(from, None)?;
        Ok(Table {
            root: left.with(to.names(), Some(new))?,
            total: self.total,
            count: self.count,
            alloc: self.alloc,
        })
    }

    /// The same table, shared.
    pub fn copy(&self) -> Result<Table, NoMemory>
        ensures { IfOk result (λ new. new ≡ self.now) }
    {
        Ok(Table {
            root: self.root.share()?,
            total: self.total,
            count: self.count,
            alloc: self.alloc,
        })
    }
}

/// The bytes of an entry; none if there is no file.
pub fn entry_bytes(entry: Option<&Entry>) -> Option<&FileBytes>
    ensures { bytes_or_none (option_copied result) ≡ entry_bytes (option_copied entry.entry) }
{
    match entry {
        None => None,
        Some(entry) => entry.bytes(),
    }
}

/// The number of bytes of an entry; 0 if there is no file.
pub fn entry_len(entry: Option<&Entry>) -> usize
    ensures { result ≡ length (entry_bytes (option_copied entry.entry)) }
{
    match entry {
        None => 0,
        Some(entry) => entry.len(),
    }
}

// The branch at a place with another entry, or a new object there.
fn with_entry(
    alloc: Global,
    there: Option<&Branch>,
    place: &Place,
    entry: Entry,
) -> Result<Branch, NoMemory>
    ensures name { IfOk result (λ b. b.0 ≡ last_name (key_of place.now)) }
    ensures rows { IfOk result (λ b. IsEntryAt entry (branch_rows (option_copied there.entry)) b.1) }
{
    let name = place.last_name()?;
    match there {
        None => Branch::leaf(alloc, name, entry),
        Some(there) => there.with_entry(name, entry),
    }
}

// An object under the last name of a place, with the same objects in it.
fn renamed(branch: &Branch, to: &Place) -> Result<Branch, NoMemory>
    ensures name { IfOk result (λ b. b.0 ≡ last_name (key_of to.now)) }
    ensures rows { IfOk result (λ b. IsRenamed (last_name to.now) branch.now.1 b.1) }
{
    let name = to.last_name()?;
    let entry = branch.entry().renamed(&name)?;
    branch.with_entry(name, entry)
}

// The initial objects.
fn first_kids(alloc: Global) -> Result<Vec<Branch>, NoMemory>
    ensures { IfOk result (λ kids. kids.items ≡ first_kids) }
{
    let mut kids = Vec::new(alloc);
    kids.push(directory(alloc, Name::from_bytes(alloc, b"C")?)?)?;
    kids.push(directory(alloc, Name::from_bytes(alloc, b"Env")?)?)?;
    kids.push(directory(alloc, Name::from_bytes(alloc, b"S")?)?)?;
    kids.push(directory(alloc, Name::from_bytes(alloc, b"T")?)?)?;
    Ok(kids)
}

// A directory with nothing in it.
fn directory(alloc: Global, name: Name) -> Result<Branch, NoMemory>
    ensures { IfOk result (λ kid. kid ≡ first_kid name) }
{
    let entry = Entry::directory(alloc, name.copy()?)?;
    Branch::leaf(alloc, name, entry)
}
