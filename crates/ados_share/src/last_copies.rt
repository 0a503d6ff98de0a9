//! Bytes that this machine has in one file alone while the Shell has them outside of the directory: the file is not deleted.
ghost use Rattle.std.specs.{Prelude.{◌≡◌, true, IfSome}, Option.{option_copied}, BTreeMap.{get_by_text}};
ghost use Rattle.ados_share.specs.{Contents.{if_file_of, is_file_of}, Records.{file_of_record}};

use crate::departure::Departure;
use crate::departures::Departures;
use crate::elsewhere::Elsewhere;
use crate::failures::with_more;
use crate::mirror::Mirror;
use ados_ram::{FileBytes, Place, Ram};
use ados_transfer::{
    Here, Last, Record, Records, Rights, TransferFault, Volumes, is_descendant, is_one_name,
    shell_path,
};
use std::alloc::Global;
use std::collections::BTreeMap;
use std::rt::Files;

/// What is not deleted in the folder, since the Shell alone has its bytes beside.
#[derive(Drop)]
pub struct Waiting {
    alloc: Global,
    by_key: BTreeMap<String, Waiter>,
}

// An object that waits.
#[derive(Drop)]
struct Waiter {
    // Its path in the folder.
    path: String,
    // Where the Shell has it.
    elsewhere: Elsewhere,
    // The permissions of a file.
    rights: Option<Rights>,
}

impl Waiting {
    /// Nothing waits.
    pub fn new(alloc: Global) -> Waiting {
        Waiting {
            alloc,
            by_key: BTreeMap::new(alloc),
        }
    }

    /// Nothing waits.
    pub fn is_empty(&self) -> bool {
        self.by_key.is_empty()
    }

    /// The object with this key waits.
    pub fn has(&self, key: &str) -> bool {
        self.by_key.contains_key(key)
    }

    /// The permissions of a file that waits.
    pub fn rights(&self, key: &str) -> Option<Rights> {
        self.by_key.get(key).and_then(|waiter| waiter.rights)
    }

    // Something in a folder waits.
    fn is_in(&self, folder: &str) -> bool {
        self.by_key
            .keys()
            .any(|key| is_descendant(folder, key.as_str()))
    }

    // The line that reports what waits.
    fn line(&self, volumes: &Volumes) -> Result<Option<String>, TransferFault> {
        let Some(first) = self.by_key.values().next() else {
            return Ok(None);
        };
        let path = volumes.shown(first.path.as_str())?;
        let elsewhere = &first.elsewhere;
        let more = self.by_key.len().saturating_sub(1);
        let line = format!(in self.alloc; "not deleted, since {elsewhere}: {path}")?;
        Ok(Some(with_more(self.alloc, line, more)?))
    }
}

impl Mirror {
    // Begins an update: nothing waits yet. For each file that is to be deleted or written over the Shell's file is noted which has its
    // bytes. With `dry` nothing is written over.
    pub(crate) fn find_copies(
        &mut self,
        files: &Ram,
        departures: &mut Departures<'_>,
    ) -> Result<(), TransferFault> {
        self.waiting = Waiting::new(self.alloc);
        let is_dry = self.options.dry;
        if departures.by_key.values().all(|departure| departure.is_new
            || is_dry && !departure.is_gone())
        {
            return Ok(());
        }
        let mut holders = self.holders(files)?;
        for (key, departure) in &mut departures.by_key {
            let is_moved = departure.is_within_kind_change || is_dry;
            if let Some(bytes) = bytes_of(&self.records, key.as_str()) {
                departure.elsewhere = match holders.copy_of(departure, bytes, is_moved) {
                    Some(found) => Some(Elsewhere::Copy(self.copy_path(files, found.place())?)),
                    None => self.followed_elsewhere(files, key.as_str())?,
                };
            }
        }
        self.find_parts(&mut holders, departures)
    }

    // The path of a file of the Shell, for lines.
    pub(crate) fn copy_path(&self, files: &Ram, place: &Place) -> Result<String, TransferFault> {
        shell_path(self.alloc, &files.written(place)?)
    }

    // The bytes of an object that is to be deleted or written over are in a file of the Shell, and in no other file of the folder, nor among
    // others in one that was made or changed; or it is a folder in which such a file, or a large one, stays.
    pub(crate) fn is_last_copy<R: AllocGlobal + Files>(
        &self,
        rt: &R,
        key: &str,
        departure: &Departure<'_>,
    ) -> Result<bool, TransferFault> {
        let Some(record) = self.records.get(key) else {
            return Ok(false);
        };
        match &record.last {
            Last::Directory => Ok(self.waiting.is_in(key) || self.has_moved_in(key)?),
            Last::File(bytes) if departure.elsewhere.is_some() => {
                Ok(!self.is_inside(rt, record, departure)? && !self.is_in_another(rt, key, bytes)?)
            }
            Last::File(_) | Last::StandIn(_) => Ok(false),
        }
    }

    // The bytes of a file that is to be deleted or written over stand in what takes its place, or in a file that is written.
    fn is_inside<R: AllocGlobal + Files>(
        &self,
        rt: &R,
        record: &Record,
        departure: &Departure<'_>,
    ) -> Result<bool, TransferFault> {
        match &departure.inside {
            Some(around) if !departure.is_gone() && around.place == record.place => Ok(true),
            Some(around) => self.is_written(rt, around),
            None => Ok(false),
        }
    }

    // The same of a file that is to be written over; or one of its bytes was moved from its place to a file of the directory that is not
    // written yet, and may never be.
    pub(crate) fn is_lost_below<R: AllocGlobal + Files>(
        &self,
        rt: &R,
        files: &Ram,
        key: &str,
        departure: &Departure<'_>,
    ) -> Result<bool, TransferFault> {
        Ok(self.has_followed_unwritten(files, key)? || self.is_last_copy(rt, key, departure)?)
    }

    // Another file of the folder than the one with this key has these bytes now. A file that is reached by two paths is one.
    pub(crate) fn is_in_another<R: AllocGlobal + Files>(
        &self,
        rt: &R,
        key: &str,
        bytes: &FileBytes,
    ) -> Result<bool, TransferFault> {
        let own = self.records.get(key).map(|record| record.path.as_str());
        let Some(alike) = self.contents.alike(bytes) else {
            return Ok(false);
        };
        for other in alike {
            let Some(record) = self.file_of(other.as_str(), bytes) else {
                continue;
            };
            if other.as_str() == key {
                continue;
            }
            let is_one = own.is_some_and(|own| is_one_name(rt, own, record.path.as_str()));
            if is_one {
                continue;
            }
            let here = Here::look(rt, self.options.limits, record.path.as_str())?;
            if here.into_bytes().is_some_and(|found| found == *bytes) {
                return Ok(true);
            }
        }
        Ok(false)
    }

    // The file of the folder that had these bytes: the first one that the Shell no longer has in its place, or else the last one of all.
    pub(crate) fn original_of(&self, files: &Ram, bytes: &FileBytes) -> Option<&Record>
        ensures { IfSome result (λ found. is_file_of found.now.last bytes.now ≡ true) }
    {
        let mut original = None;
        for key in self.contents.alike(bytes)? {
            if let Some(record) = self.file_of(key.as_str(), bytes) {
                original = Some(record);
                if !record.is_kept(files.look(&record.place)) {
                    break;
                }
            }
        }
        original
    }

    // The record of a key, if it is that of a file of these bytes.
    pub(crate) fn file_of(&self, key: &str, bytes: &FileBytes) -> Option<&Record>
        ensures { option_copied result ≡ if_file_of bytes.now (get_by_text self.now.records key.now) }
    {
        let record = self.records.get(key)?;
        match &record.last {
            Last::File(last) if *last == *bytes => Some(record),
            Last::File(_) | Last::Directory | Last::StandIn(_) => None,
        }
    }

    // Notes that an object is not deleted, since its bytes would then be only in memory.
    pub(crate) fn wait(
        &mut self,
        key: &str,
        departure: &Departure<'_>,
        here: &Here,
    ) -> Result<(), TransferFault> {
        if let Some(elsewhere) = &departure.elsewhere {
            let waiter = Waiter {
                path: departure.path.clone()?,
                elsewhere: elsewhere.copy()?,
                rights: here.rights(),
            };
            self.waiting
                .by_key
                .insert(String::from_str(self.alloc, key)?, waiter)?;
        }
        Ok(())
    }

    // Reports at the end what is not deleted, since its bytes would be gone with the Shell's files: that of files whose only other copy is
    // outside of the directory, and large files whose stand-ins are.
    pub(crate) fn report_waiting(&mut self, files: &Ram) -> Result<(), TransferFault> {
        if let Some(line) = self.waiting.line(&self.volumes)? {
            self.reports.report_line(line)?;
        }
        self.report_outside(files)
    }
}

// The bytes of the record of a file.
pub(crate) fn bytes_of<'a>(records: &'a Records, key: &str) -> Option<&'a FileBytes>
    ensures { option_copied result ≡ file_of_record (get_by_text records.now key.now) }
{
    match records.get(key).map(|record| &record.last) {
        Some(Last::File(bytes)) => Some(bytes),
        _ => None,
    }
}
