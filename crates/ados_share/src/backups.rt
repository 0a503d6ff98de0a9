//! Copies of files of the folder of a share that are written over while only the Shell has their bytes beside.
ghost use Rattle.std.specs.Prelude.{◌≡◌, ◌⊎◌, true, false, IfOk};
ghost use Rattle.ados_ram.specs.Entry.{bytes_of};
ghost use Rattle.ados_share.specs.Backups.{needs_backup, retention_of};

use crate::account::{Account, Moment};
use crate::holders::Holders;
use crate::mirror::Mirror;
use crate::moves::Destination;
use crate::remainders::Remainder;
use ados_ram::{Entry, FileBytes, Place, Ram};
use ados_text::NoMemory;
use ados_transfer::{Draft, Here, Last, Manner, TransferFault, is_beginning_of, no_memory};
use std::alloc::Global;
use std::collections::BTreeMap;
use std::rt::Files;
use std::{fs, io};

/// The backups of a share.
#[derive(Drop)]
pub struct Backups {
    /// Where memory comes from.
    pub alloc: Global,
    /// Each by its path, which is that of a temporary file.
    pub by_path: BTreeMap<String, Backup>,
    /// Files that were deleted or written over while the Shell had their bytes, and another file of the folder too, or by another
    /// program. Those of one path and the same bytes are told apart by where the script moved them.
    pub deleted: Vec<Backup>,
    /// At the end some of them stay.
    pub have_stayed: bool,
}

/// What a backup is a copy of.
#[derive(Drop)]
pub struct Backup {
    /// The path of the file.
    pub original: String,
    /// What it held.
    pub bytes: FileBytes,
    /// Its permissions.
    pub manner: Manner,
    /// Where the script moved it, if it did.
    pub moved: Option<Destination>,
}

/// What becomes of a backup after an update.
#[derive(Clone, Copy, PartialEq, Eq)]
pub enum Retention {
    /// It is deleted.
    Goes,
    /// It waits under its temporary name.
    Waits,
    /// It gets a name of its own.
    Stays,
}

impl Backups {
    /// There are none.
    pub fn new(alloc: Global) -> Backups {
        Backups {
            alloc,
            by_path: BTreeMap::new(alloc),
            deleted: Vec::new(alloc),
            have_stayed: false,
        }
    }

    /// A temporary file of this path is a backup.
    pub fn has(&self, path: &str) -> bool {
        self.by_path.contains_key(path)
    }

    /// The backup of a file with these bytes.
    pub fn of_bytes(&self, bytes: &FileBytes) -> Option<&Backup> {
        self.by_path.values().find(|backup| backup.bytes == *bytes)
    }

    /// What is at or below a place of the Shell's files gives way to what comes in: if it is the other copy of one of them, that is no
    /// deletion by the script.
    pub fn note_replaced(&mut self, files: &Ram, place: &Place) -> Result<(), NoMemory> {
        let mut replaced = files.contents(place)?;
        replaced.push(place.copy()?)?;
        for backup in self.by_path.values_mut() {
            backup.note_replaced(files, &replaced);
        }
        for backup in &mut self.deleted {
            backup.note_replaced(files, &replaced);
        }
        Ok(())
    }

    /// What the script deleted is followed no longer.
    pub fn forget_deleted(&mut self, files: &Ram) {
        for backup in self.by_path.values_mut() {
            backup.forget_deleted(files);
        }
        for backup in &mut self.deleted {
            backup.forget_deleted(files);
        }
    }

    /// An object of the Shell's files was renamed: what was moved before moves along.
    pub fn carry(&mut self, from: &Place, to: &Place) -> Result<(), NoMemory> {
        for backup in self.by_path.values_mut() {
            backup.carry(from, to)?;
        }
        for backup in &mut self.deleted {
            backup.carry(from, to)?;
        }
        Ok(())
    }

    /// Keeps the path of a backup.
    pub fn add(&mut self, path: &str, backup: Backup) -> Result<(), TransferFault> {
        self.by_path
            .insert(String::from_str(self.alloc, path)?, backup)?;
        Ok(())
    }
}

impl Backup {
    // What the script deleted is followed no longer.
    fn forget_deleted(&mut self, files: &Ram) {
        if self
            .moved
            .as_ref()
            .is_some_and(|moved| moved.is_deleted(files))
        {
            self.moved = None;
        }
    }

    // What is at these places gives way.
    fn note_replaced(&mut self, files: &Ram, places: &[Place]) {
        if places.iter().any(|place| self.is_at(files, place)) {
            self.moved = Some(Destination::Replaced);
        }
    }

    // It moves along with an object that was renamed.
    fn carry(&mut self, from: &Place, to: &Place) -> Result<(), NoMemory> {
        match &mut self.moved {
            Some(moved) => moved.carry(from, to),
            None => Ok(()),
        }
    }

    // Its file was moved to a place, or a file with its bytes is there.
    fn is_at(&self, files: &Ram, place: &Place) -> bool {
        matches!(&self.moved, Some(Destination::At(other)) if other == place)
            || files
                .look(place)
                .and_then(Entry::bytes)
                .is_some_and(|bytes| *bytes == self.bytes)
    }
}

impl Mirror {
    // Copies a file that is to be written over to a temporary file, which has its permissions. Where the script moved the file is
    // still followed: it may stay in its place.
    pub(crate) fn back_up<R: AllocGlobal + Files>(
        &mut self,
        rt: &R,
        object: (&str, &str),
        here: &Here,
    ) -> io::Result<()>
        ensures followed { self.new.moves ≡ self.old.moves }
    {
        let (key, path) = object;
        let (Here::File { rights, .. }, Some(record)) = (here, self.records.get(key)) else {
            return Ok(());
        };
        let Last::File(bytes) = &record.last else {
            return Ok(());
        };
        let Ok(moved) = self.copy_followed(key) else {
            return Err(no_memory());
        };
        let backup = Backup {
            original: String::from_str(self.alloc, path)?,
            bytes: bytes.clone()?,
            manner: Manner::Kept(*rights),
            moved,
        };
        let beside = self.write_backup(rt, &backup)?;
        match self.backups.add(beside.as_str(), backup) {
            Ok(()) => Ok(()),
            Err(_) => {
                let _ = fs::remove_file(rt, beside.as_str());
                Err(no_memory())
            }
        }
    }

    // After an update the backups go that are not needed any longer. At the end the others get names of their own, and one line names the
    // first.
    pub(crate) fn finish_backups<R: AllocGlobal + Files + Clone + Drop>(
        &mut self,
        rt: &R,
        files: &Ram,
        account: &mut Account,
    ) -> Result<(), TransferFault> {
        if self.backups.by_path.is_empty() && self.backups.deleted.is_empty() {
            return Ok(());
        }
        let mut holders = self.holders(files)?;
        let contents = self.contents_of_backups(&holders)?;
        self.look_for(&mut holders, contents)?;
        if !account.is_meanwhile() {
            self.renew_backups(rt, &holders)?;
            self.restore_deleted(rt, &holders)?;
        }
        let mut over = Vec::new(self.alloc);
        let mut remainders = Vec::new(self.alloc);
        for (path, backup) in &self.backups.by_path {
            let elsewhere = self.needed_for(&holders, backup)?;
            let in_folder = self.is_in_folder(rt, &holders, backup)?;
            match (
                retention_of(
                    elsewhere.is_some(),
                    in_folder,
                    account.moment == Moment::End,
                ),
                elsewhere,
            ) {
                (Retention::Stays, Some(elsewhere)) => remainders.push(Remainder {
                    path: path.clone()?,
                    original: backup.original.clone()?,
                    elsewhere,
                })?,
                (Retention::Goes, _) => over.push(path.clone()?)?,
                _ => {}
            }
        }
        self.let_go(rt, &holders, over.as_slice(), account)?;
        self.keep_remainders(rt, remainders.as_slice())
    }

    // Deletes backups, unless what this update wrote could not be brought to the disk: then those that are there at the end are reported.
    fn let_go<R: AllocGlobal + Files>(
        &mut self,
        rt: &R,
        holders: &Holders<'_>,
        paths: &[String],
        account: &mut Account,
    ) -> Result<(), TransferFault> {
        if paths.is_empty() {
            return Ok(());
        }
        if !self.is_synced(rt, account)? {
            if account.moment == Moment::End {
                for path in paths {
                    self.report_temporary(path.clone()?)?;
                }
            }
            return Ok(());
        }
        for path in paths {
            let path = path.as_str();
            if let Some(backup) = self.backups.by_path.remove(path) {
                self.note_former(holders, backup)?;
            }
            if fs::remove_file(rt, path).is_err() && fs::symlink_metadata(rt, path).is_ok() {
                self.report_temporary(String::from_str(self.alloc, path)?)?;
            }
        }
        Ok(())
    }
}

/// A file that was seen needs a backup before another one takes its place: only the Shell has its bytes beside.
pub fn needs_backup(alloc: Global, draft: &Draft<'_>) -> Result<bool, NoMemory>
    ensures { IfOk result (λ needs. needs ≡ needs_backup draft.now.here.now (bytes_of draft.now.entry.now) draft.now.is_last_copy) }
{
    match draft.here {
        Here::File { bytes, .. } if draft.is_last_copy => {
            Ok(!is_beginning_of(alloc, bytes, draft.entry)?)
        }
        _ => Ok(false),
    }
}

// What becomes of a backup whose bytes the Shell has in a file (`in_memory`), or a file of the folder (`in_folder`).
fn retention_of(in_memory: bool, in_folder: bool, at_end: bool) -> Retention
    ensures retention { result ≡ retention_of in_memory in_folder at_end }
    // What goes is in the folder, or the Shell does not have it.
    ensures safe { result ≡ Retention.Goes → (in_folder ≡ true) ⊎ (in_memory ≡ false) }
{
    if !in_memory || in_folder {
        Retention::Goes
    } else if at_end {
        Retention::Stays
    } else {
        Retention::Waits
    }
}
