//! Where files of the folder went in the Shell's files: each Rename is followed, so that a file that was moved out of the directory is
//! known there, whatever its bytes are by then.
ghost use Rattle.std.specs.{Prelude.{◌≡◌, IfOk, None, OnErr, OnOk, Some, string_bytes, true}, Option.{is_some, option_copied}, BTreeMap.{IsEmpty, IsUnchanged, get_by_text}};
ghost use Rattle.std.specs.FinMap as map;
ghost use Rattle.ados_ram.specs.Place.{key_of};
ghost use Rattle.ados_share.specs.{Moves.{destination_after, destination_without, is_deleted, is_file, is_within, may_be_elsewhere}, Records.{Sets, has_content, is_settled}};

use crate::elsewhere::Elsewhere;
use crate::mirror::Mirror;
use ados_ram::{Place, Ram};
use ados_text::NoMemory;
use ados_transfer::{Last, Record, TransferFault};
use std::alloc::Global;
use std::collections::BTreeMap;

/// Where a file of the folder went.
#[derive(Drop)]
pub enum Destination {
    /// It is at this place.
    At(Place),
    /// What it was moved to gave way to what came in from the folder.
    Replaced,
}

/// What was moved, each by the key of the file of the folder that it was at the last comparison.
#[derive(Drop)]
pub struct Moves {
    by_key: BTreeMap<String, Destination>,
}

impl Moves {
    /// Nothing was moved.
    pub fn new(alloc: Global) -> Moves
        ensures { IsEmpty result.by_key }
    {
        Moves {
            by_key: BTreeMap::new(alloc),
        }
    }

    /// All that was moved, by the keys of the files.
    pub fn all(&self) -> &BTreeMap<String, Destination> {
        &self.by_key
    }

    /// Where the file of this key went.
    pub fn destination(&self, key: &str) -> Option<&Destination>
        ensures { option_copied result ≡ get_by_text self.now.by_key key.now }
    {
        self.by_key.get(key)
    }

    /// The same, as a value of its own.
    pub fn copy(&self, key: &str) -> Result<Option<Destination>, NoMemory>
        ensures { IfOk result (λ destination. destination ≡ get_by_text self.now.by_key key.now) }
    {
        match self.destination(key) {
            Some(destination) => Ok(Some(destination.copy()?)),
            None => Ok(None),
        }
    }

    /// Where the file of this key went, which is followed no longer.
    pub fn take(&mut self, key: &str) -> Option<Destination>
        ensures value { result ≡ get_by_text self.old.by_key key.now }
        ensures taken { Sets self.old.by_key self.new.by_key key.now None }
    {
        self.by_key.remove(key)
    }

    /// The file of this key went there. If there was no memory, nothing changed.
    pub fn add(&mut self, key: String, destination: Destination) -> Result<(), TransferFault>
        ensures added { OnOk result (Sets self.old.by_key self.new.by_key (string_bytes key) (Some destination)) }
        ensures unchanged { OnErr result (IsUnchanged self.old.by_key self.new.by_key) }
    {
        self.by_key.insert(key, destination)?;
        Ok(())
    }

    // Another object was moved to this place.
    fn has_at(&self, place: &Place) -> bool {
        self.by_key.values().any(|other| matches!(other, Destination::At(other) if other == place))
    }

    // What was moved before moves along.
    fn carry(&mut self, from: &Place, to: &Place) -> Result<(), NoMemory> {
        for destination in self.by_key.values_mut() {
            destination.carry(from, to)?;
        }
        Ok(())
    }

    /// What is at or below a place gives way to what comes in from the folder.
    pub fn note_replaced(&mut self, place: &Place) {
        for destination in self.by_key.values_mut() {
            destination.note_replaced(place);
        }
    }
}

impl Destination {
    /// An equal value.
    pub fn copy(&self) -> Result<Destination, NoMemory>
        ensures { IfOk result (λ destination. destination ≡ self.now) }
    {
        Ok(match self {
            Destination::At(place) => Destination::At(place.copy()?),
            Destination::Replaced => Destination::Replaced,
        })
    }

    /// It moves along with an object that was renamed.
    pub fn carry(&mut self, from: &Place, to: &Place) -> Result<(), NoMemory>
        ensures { OnOk result (self.new ≡ destination_after from.now to.now self.old) }
    {
        if let Destination::At(place) = self {
            *self = Destination::At(place.carried(from, to)?);
        }
        Ok(())
    }

    /// What is at or below a place gives way to what comes in from the folder.
    pub fn note_replaced(&mut self, place: &Place)
        ensures { self.new ≡ destination_without place.now self.old }
    {
        if matches!(self, Destination::At(other) if other.names().starts_with(place.names())) {
            *self = Destination::Replaced;
        }
    }

    /// The script deleted what was moved.
    pub fn is_deleted(&self, files: &Ram) -> bool
        ensures { result ≡ is_deleted files.now self.now }
    {
        match self {
            Destination::At(place) => !is_file(files, place),
            Destination::Replaced => false,
        }
    }
}

impl Mirror {
    /// An object of the Shell's files was renamed from one place to another: the files of the folder that were at the old place or below it
    /// are followed to the new one.
    pub fn follow(&mut self, from: &Place, to: &Place) -> Result<(), TransferFault> {
        let mut begun = Vec::new(self.alloc);
        for (key, record) in &self.records {
            if self.begins_to_move(key.as_str(), record, from) {
                begun.push((key.clone()?, record.place.carried(from, to)?))?;
            }
        }
        self.moves.carry(from, to)?;
        self.backups.carry(from, to)?;
        for (key, place) in begun {
            self.moves.add(key, Destination::At(place))?;
        }
        Ok(())
    }

    // What is at or below a place is the file of a record, which is not followed yet; not another object that was moved to its place.
    fn begins_to_move(&self, key: &str, record: &Record, from: &Place) -> bool
        ensures file { result ≡ true → has_content record.now.last ≡ true }
        ensures within { result ≡ true → is_within from.now record.now.place ≡ true }
        ensures once { result ≡ true → get_by_text self.now.moves.by_key key.now ≡ None }
    {
        matches!(&record.last, Last::File(bytes) if bytes.len() > 0)
            && record.place.names().starts_with(from.names())
            && self.moves.destination(key).is_none()
            && !self.moves.has_at(&record.place)
    }

    /// After an event: what the script deleted is followed no longer, so that another object in its place is not taken for it.
    pub fn forget_deleted(&mut self, files: &Ram) {
        self.moves
            .by_key
            .retain(|_, destination| !destination.is_deleted(files));
        self.backups.forget_deleted(files);
    }

    // What is in its place again as it was at the last comparison is followed here no longer.
    pub(crate) fn drop_settled(&mut self, files: &Ram) {
        let records = &self.records;
        self.moves
            .by_key
            .retain(|key, _| !is_settled(records.get(key.as_str()), files));
    }

    // Where the Shell has what was moved, if that would be gone with its files, or gave way to what came in.
    pub(crate) fn destined_elsewhere(
        &self,
        files: &Ram,
        destination: &Destination,
    ) -> Result<Option<Elsewhere>, TransferFault>
        ensures there { IfOk result (λ elsewhere. is_some elsewhere ≡ true → may_be_elsewhere files.now (Some destination.now) ≡ true) }
        ensures replaced { destination.now ≡ Destination.Replaced → IfOk result (λ elsewhere. elsewhere ≡ Some Elsewhere.Replaced) }
    {
        match destination {
            Destination::At(place) if self.is_out(files, place) => {
                Ok(Some(Elsewhere::Moved(self.copy_path(files, place)?)))
            }
            Destination::At(_) => Ok(None),
            Destination::Replaced => Ok(Some(Elsewhere::Replaced)),
        }
    }

    // The same, or where it is in a directory of the share, if the folder does not have it there as it is now.
    pub(crate) fn unwritten_elsewhere(
        &self,
        files: &Ram,
        destination: Option<&Destination>,
    ) -> Result<Option<Elsewhere>, TransferFault>
        ensures there { IfOk result (λ elsewhere. is_some elsewhere ≡ true → may_be_elsewhere files.now (option_copied destination.entry) ≡ true) }
        ensures replaced { option_copied destination.entry ≡ Some Destination.Replaced → IfOk result (λ elsewhere. elsewhere ≡ Some Elsewhere.Replaced) }
    {
        match destination {
            Some(Destination::At(place)) if self.is_unwritten(files, place)? => {
                Ok(Some(Elsewhere::Moved(self.copy_path(files, place)?)))
            }
            Some(destination) => self.destined_elsewhere(files, destination),
            None => Ok(None),
        }
    }

    // A file is at a place that is in a directory of the share, and it is not what was there at the last comparison.
    pub(crate) fn is_unwritten(&self, files: &Ram, place: &Place) -> Result<bool, TransferFault>
        ensures { IfOk result (λ is. is ≡ true → is_file (map.get files.now (key_of place.now)) ≡ true) }
    {
        let Some(key) = self.key_of(place)? else {
            return Ok(false);
        };
        let is_written = self
            .records
            .get(key.as_str())
            .is_some_and(|record| record.is_kept(files.look(place)));
        Ok(is_file(files, place) && !is_written)
    }

    // A file is at a place that is in no directory of the share.
    fn is_out(&self, files: &Ram, place: &Place) -> bool
        ensures { result ≡ true → is_file (map.get files.now (key_of place.now)) ≡ true }
    {
        self.volumes.of_place(place).is_none() && is_file(files, place)
    }
}

// What was moved is in its place again as it was at the last comparison, or has no record any longer.
fn is_settled(record: Option<&Record>, files: &Ram) -> bool
    ensures { result ≡ is_settled files.now (option_copied record.entry) }
{
    match record {
        Some(record) => record.is_kept(files.look(&record.place)),
        None => true,
    }
}

// A file is at a place.
fn is_file(files: &Ram, place: &Place) -> bool
    ensures { result ≡ is_file (map.get files.now (key_of place.now)) }
{
    files.look(place).is_some_and(|entry| !entry.is_directory())
}
