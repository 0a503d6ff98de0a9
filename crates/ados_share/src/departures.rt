//! What changed in the Shell's files below the directories of a share since the last comparison.
ghost use Rattle.std.specs.{Prelude.{◌≡◌, ◌||◌, IfOk, OnOk, string_bytes}, List.{list_any}, BTreeMap.{IsEmpty}, Str.{bytes_eq}};
ghost use Rattle.ados_text.specs.Text.{Bytes};
ghost use Rattle.ados_share.specs.Records.{has_key, has_left};

use crate::account::Account;
use crate::departure::Departure;
use crate::left_out::LeftOut;
use crate::mirror::Mirror;
use ados_ram::{Place, Ram};
use ados_text::NoMemory;
use ados_transfer::{TransferFault, is_descendant, own_entry};
use std::alloc::Global;
use std::collections::BTreeMap;

/// Departures, each by its path below the folder in lower case.
#[derive(Drop)]
pub struct Departures<'a> {
    /// In the order of these keys a directory comes before what is in it.
    pub by_key: BTreeMap<String, Departure<'a>>,
    // The keys of those that change their kind.
    kind_changes: Vec<String>,
}

impl<'a> Departures<'a> {
    /// No departures.
    pub fn new(alloc: Global) -> Departures<'a>
        ensures { IsEmpty result.by_key }
    {
        Departures {
            by_key: BTreeMap::new(alloc),
            kind_changes: Vec::new(alloc),
        }
    }

    /// Adds one; what is in a directory is added after it.
    pub fn add(&mut self, key: String, departure: Departure<'a>) -> Result<(), TransferFault>
        ensures { OnOk result ((q : Bytes) → has_key self.new.by_key q ≡ (bytes_eq (string_bytes key) q || has_key self.old.by_key q)) }
    {
        let mut departure = departure;
        departure.is_within_kind_change = self.note_kind_change(
            key.as_str(),
            departure.changes_kind,
        )?;
        Ok(self.put(key, departure)?)
    }

    /// Adds one that was among them before.
    pub fn put(&mut self, key: String, departure: Departure<'a>) -> Result<(), NoMemory>
        ensures { OnOk result ((q : Bytes) → has_key self.new.by_key q ≡ (bytes_eq (string_bytes key) q || has_key self.old.by_key q)) }
    {
        self.by_key.insert(key, departure)?;
        Ok(())
    }

    /// The object with this key is deleted or written over, and the Shell has what it was nowhere else.
    pub fn has_leaving(&self, key: &str) -> bool {
        self.by_key
            .get(key)
            .is_some_and(|departure| departure.elsewhere.is_none())
    }

    /// Leaves out those in the volumes with these labels.
    pub fn leave_out(&mut self, labels: &[String]) {
        self.by_key.retain(|key, _| !labels
            .iter()
            .any(|label| is_descendant(label.as_str(), key.as_str())));
    }

    // An object changes its kind, which is noted, or is below one that does.
    fn note_kind_change(&mut self, key: &str, changes_kind: bool) -> Result<bool, TransferFault>
        ensures { self.new.by_key ≡ self.old.by_key }
    {
        if !changes_kind {
            return Ok(
                self.kind_changes
                    .iter()
                    .any(|above| is_descendant(above.as_str(), key)),
            );
        }
        self.kind_changes
            .push(String::from_str(*self.kind_changes.allocator(), key)?)?;
        Ok(true)
    }
}

impl Mirror {
    // The objects whose state in the Shell's files differs from the last comparison. What is left out for its name is never written: that
    // is noted.
    pub(crate) fn departures<'a>(
        &self,
        files: &'a Ram,
        account: &mut Account,
    ) -> Result<Departures<'a>, TransferFault> {
        let mut departures = self.known_departures(files)?;
        for volume in self.volumes.all() {
            let places = files.contents(&volume.place)?;
            self.add_new(files, &places, &mut departures, account)?;
        }
        self.bar_copies(files, account)?;
        Ok(departures)
    }

    // Those that were there at the last comparison.
    fn known_departures<'a>(&self, files: &'a Ram) -> Result<Departures<'a>, TransferFault>
        ensures { IfOk result (λ departures. (q : Bytes) → has_key departures.by_key q ≡ list_any (has_left files.now q) self.now.records.entries) }
    {
        let mut departures = Departures::new(self.alloc);
        for (key, record) in &self.records {
            let entry = files.look(&record.place);
            if !record.is_kept(entry) {
                departures.add(key.clone()?, Departure::of(record, own_entry(entry))?)?;
            }
        }
        Ok(departures)
    }

    // Adds what is new.
    fn add_new<'a>(
        &self,
        files: &'a Ram,
        places: &[Place],
        departures: &mut Departures<'a>,
        account: &mut Account,
    ) -> Result<(), TransferFault> {
        for place in places {
            let (Some(key), Some(entry)) = (self.key_of(place)?, own_entry(files.look(place)))
            else {
                continue;
            };
            if self.records.contains_key(key.as_str()) {
                continue;
            }
            let Some(path) = self.path_of(&files.written(place)?)? else {
                continue;
            };
            match self.reason_left_out(key.as_str()) {
                None => departures.add(key, Departure::new(path, entry))?,
                Some(reason) => account.add_left_out(LeftOut::new(reason, path, entry)?, entry)?,
            }
        }
        Ok(())
    }
}
