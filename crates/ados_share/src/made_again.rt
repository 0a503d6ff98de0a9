//! Files of the folder that the script moved away, and that are in their place again with the same bytes: where they went is followed on.
//! So what was moved is not in memory alone once the new one is deleted or written over, by whomever. The script may move that one too, and so
//! on: each is followed.
ghost use Rattle.std.specs.{Prelude.{◌≡◌, IfOk, map, string_bytes, true}, List.{list_any}, Option.{is_some, option_copied}, BTreeMap.{get_by_text}};
ghost use Rattle.ados_share.specs.{Backups.{followed, moved_before, moved_from, moved_to}, Moves.{gave_way}};

use crate::backups::{Backup, Backups};
use crate::deleted_copies::PRIVATE;
use crate::elsewhere::Elsewhere;
use crate::mirror::Mirror;
use crate::moves::Destination;
use ados_ram::{FileBytes, Place, Ram};
use ados_text::NoMemory;
use ados_transfer::{Last, Manner, Record, Rights, TransferFault};
use std::fs;
use std::rt::Files;

impl Backups {
    /// Where the script moved files of this path and these bytes.
    pub fn moved_from(&self, path: &str, bytes: &FileBytes) -> Result<Vec<&Destination>, NoMemory>
        ensures { IfOk result (λ all. map (λ one. one.now) all.items ≡ moved_from path.now bytes.now self.now.deleted.items) }
    {
        let mut all = Vec::new(self.alloc);
        for backup in &self.deleted {
            if let Some(destination) = backup.moved_to(path, bytes) {
                all.push(destination)?;
            }
        }
        Ok(all)
    }
}

impl Backup {
    // Where the script moved its file, if that had this path and these bytes.
    fn moved_to(&self, path: &str, bytes: &FileBytes) -> Option<&Destination>
        ensures { option_copied result ≡ moved_to path.now bytes.now self.now }
    {
        if self.is_of(path, bytes) {
            self.moved.as_ref()
        } else {
            None
        }
    }
}

impl Mirror {
    // What is in its place again as it was at the last comparison is a file like others. If it is not the one that was moved, where that
    // went is noted.
    pub(crate) fn settle_moves<R: AllocGlobal + Files>(
        &mut self,
        rt: &R,
        files: &Ram,
    ) -> Result<(), TransferFault> {
        let mut again = Vec::new(self.alloc);
        for (key, record) in &self.records {
            if self.is_away(key.as_str(), &record.place)
                && record.is_kept(files.look(&record.place))
            {
                again.push((key.clone()?, manner_here(rt, record.path.as_str())))?;
            }
        }
        for (key, manner) in again {
            self.note(key.as_str(), manner)?;
        }
        self.drop_settled(files);
        Ok(())
    }

    // The script moved the file of this key from its place, and it is not there again.
    pub(crate) fn is_away(&self, key: &str, place: &Place) -> bool {
        match self.moves.destination(key) {
            Some(Destination::At(other)) => other != place,
            Some(Destination::Replaced) => true,
            None => false,
        }
    }

    // Where the script moved files of the folder from the place of this key: those that have been there with its bytes, and at last the
    // one that was there at the last comparison.
    pub(crate) fn followed(&self, key: &str) -> Result<Vec<&Destination>, NoMemory>
        ensures { IfOk result (λ all. map (λ one. one.now) all.items ≡ followed self.now.backups.deleted.items (get_by_text self.now.records key.now) (get_by_text self.now.moves.by_key key.now)) }
    {
        let mut all = match self.records.get(key) {
            Some(record) => self.moved_before(record)?,
            None => Vec::new(self.alloc),
        };
        if let Some(destination) = self.moves.destination(key) {
            all.push(destination)?;
        }
        Ok(all)
    }

    // Where the script moved files that had the path and the bytes of a record.
    fn moved_before(&self, record: &Record) -> Result<Vec<&Destination>, NoMemory>
        ensures { IfOk result (λ all. map (λ one. one.now) all.items ≡ moved_before self.now.backups.deleted.items (string_bytes «record».now.path) «record».now.last) }
    {
        match &record.last {
            Last::File(bytes) => self.backups.moved_from(record.path.as_str(), bytes),
            Last::Directory | Last::StandIn(_) => Ok(Vec::new(self.alloc)),
        }
    }

    // The last of them, as a value of its own.
    pub(crate) fn copy_followed(&self, key: &str) -> Result<Option<Destination>, NoMemory> {
        let all = self.followed(key)?;
        match all.last() {
            Some(destination) => Ok(Some(destination.copy()?)),
            None => Ok(None),
        }
    }

    // Where the Shell has the first of them that would be gone with its files, or gave way to what came in.
    pub(crate) fn followed_elsewhere(
        &self,
        files: &Ram,
        key: &str,
    ) -> Result<Option<Elsewhere>, TransferFault>
        // None of them hides one that gave way.
        ensures gave_way { list_any gave_way (followed self.now.backups.deleted.items (get_by_text self.now.records key.now) (get_by_text self.now.moves.by_key key.now)) ≡ true → IfOk result (λ elsewhere. is_some elsewhere ≡ true) }
    {
        for destination in self.followed(key)? {
            let elsewhere = self.destined_elsewhere(files, destination)?;
            if elsewhere.is_some() {
                return Ok(elsewhere);
            }
        }
        Ok(None)
    }

    // One of them is a file of a directory of the share that is not written yet, and may never be.
    pub(crate) fn has_followed_unwritten(
        &self,
        files: &Ram,
        key: &str,
    ) -> Result<bool, TransferFault> {
        for destination in self.followed(key)? {
            if let Destination::At(place) = destination
                && self.is_unwritten(files, place)?
            {
                return Ok(true);
            }
        }
        Ok(false)
    }
}

// The permissions of a file of the folder.
fn manner_here<R: Files>(rt: &R, path: &str) -> Manner {
    match fs::symlink_metadata(rt, path) {
        Ok(found) if found.is_file() => Manner::Kept(Rights::of(&found)),
        _ => Manner::Mode(PRIVATE),
    }
}
