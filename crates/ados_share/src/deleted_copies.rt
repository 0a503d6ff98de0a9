//! Files whose bytes the Shell has, while the folder of a share has them in another file, or had them until another program deleted or
//! changed the file that waited. Once no file there has them any longer a backup is made of what the Shell has.
ghost use Rattle.std.specs.{Prelude.{◌≡◌, true, IfOk, Some}, Option.{is_some}};

use crate::backups::{Backup, Backups, needs_backup};
use crate::changes::is_made_anew;
use crate::departure::Departure;
use crate::elsewhere::Elsewhere;
use crate::holders::Holders;
use crate::mirror::Mirror;
use crate::moves::Destination;
use ados_ram::Entry;
use ados_transfer::{Draft, Here, Last, Manner, TransferFault, holds, lower};
use std::rt::Files;
use std::{fs, mem};

// The mode of a file that was gone before its mode was seen.
pub(crate) const PRIVATE: u32 = 0o600;

impl Backups {
    /// The backups whose files do not hold their bytes any longer, which are no backups from now on, each with its path.
    pub fn take_lost<R: AllocGlobal + Files>(
        &mut self,
        rt: &R,
    ) -> Result<Vec<(String, Backup)>, TransferFault> {
        let mut paths = Vec::new(self.alloc);
        for (path, backup) in &self.by_path {
            if !holds(rt, path.as_str(), &backup.bytes) {
                paths.push(path.clone()?)?;
            }
        }
        let mut lost = Vec::new(self.alloc);
        for path in &paths {
            if let Some(entry) = self.by_path.remove_entry(path.as_str()) {
                lost.push(entry)?;
            }
        }
        Ok(lost)
    }
}

impl Mirror {
    // Notes that a file is deleted or written over, if the Shell has its bytes elsewhere. It still has its record.
    pub(crate) fn note_gone(
        &mut self,
        key: &str,
        departure: &Departure<'_>,
        here: &Here,
    ) -> Result<(), TransferFault> {
        match here {
            Here::File { rights, .. } if departure.elsewhere.is_some() => {
                self.note(key, Manner::Kept(*rights))
            }
            _ => Ok(()),
        }
    }

    // Notes that a file of which there is no backup is to be written over.
    pub(crate) fn note_written_over(
        &mut self,
        key: &str,
        departure: &Departure<'_>,
        draft: &Draft<'_>,
    ) -> Result<(), TransferFault> {
        if needs_backup(self.alloc, draft)? {
            return Ok(());
        }
        self.note_gone(key, departure, draft.here)
    }

    // What this machine has in the place of an object of the Shell. What another program deleted or changed there is noted.
    pub(crate) fn look_here<R: AllocGlobal + Files>(
        &mut self,
        rt: &R,
        key: &str,
        departure: &Departure<'_>,
    ) -> Result<Here, TransferFault> {
        let here = Here::look(rt, self.options.limits, departure.path.as_str())?;
        self.note_vanished(key, &here, departure.entry)?;
        Ok(here)
    }

    // Notes that another program deleted or changed a file which the Shell does not have in its place either: it may have its bytes
    // elsewhere. So it is with one that the script moved, and of which there is another of the same bytes. It still has its record.
    pub(crate) fn note_vanished(
        &mut self,
        key: &str,
        here: &Here,
        entry: Option<&Entry>,
    ) -> Result<(), TransferFault> {
        let Some(record) = self.records.get(key) else {
            return Ok(());
        };
        let last = record.state();
        let is_here = here.is_unread() || here.state(Some(record)).is_same(&last);
        let is_there = record.state_there(entry).is_same(&last);
        let is_again = self.is_away(key, &record.place) && (is_there || is_made_anew(record, here));
        if (is_here || is_there) && !is_again {
            return Ok(());
        }
        let manner = match (self.waiting.rights(key), here.rights()) {
            (Some(rights), _) => Manner::Kept(rights),
            (None, Some(rights)) if is_here => Manner::Kept(rights),
            (None, _) => Manner::Mode(PRIVATE),
        };
        self.note(key, manner)
    }

    // Notes what was the file of a record, once.
    pub(crate) fn note(&mut self, key: &str, manner: Manner) -> Result<(), TransferFault> {
        let Some(record) = self.records.get(key) else {
            return Ok(());
        };
        let Last::File(bytes) = &record.last else {
            return Ok(());
        };
        if bytes.len() == 0 || self.options.dry {
            return Ok(());
        }
        let backup = Backup {
            original: record.path.clone()?,
            bytes: bytes.clone()?,
            manner,
            moved: self.moves.copy(key)?,
        };
        Ok(self.backups.note(backup)?)
    }

    // Backups that another program deleted or changed are made anew if they are still needed. What is in place of one stays, and is told.
    pub(crate) fn renew_backups<R: AllocGlobal + Files>(
        &mut self,
        rt: &R,
        holders: &Holders<'_>,
    ) -> Result<(), TransferFault> {
        for (path, backup) in self.backups.take_lost(rt)? {
            let elsewhere = self.elsewhere(holders, &backup)?;
            if elsewhere.is_some() && !self.is_in_folder(rt, holders, &backup)? {
                self.restore(rt, backup)?;
            } else {
                self.note_former(holders, backup)?;
            }
            if fs::symlink_metadata(rt, path.as_str()).is_ok() {
                self.report_temporary(path)?;
            }
        }
        Ok(())
    }

    // Each of those files whose bytes are in memory alone gets a backup, unless there is one of them that stays for its own file; those
    // whose bytes the Shell does not have either are forgotten.
    pub(crate) fn restore_deleted<R: AllocGlobal + Files>(
        &mut self,
        rt: &R,
        holders: &Holders<'_>,
    ) -> Result<(), TransferFault> {
        self.backups.forget_beginnings(holders)?;
        let deleted = mem::replace(&mut self.backups.deleted, Vec::new(self.alloc));
        for backup in deleted {
            if !self.is_in_memory(holders, &backup)? {
                continue;
            }
            if self.is_in_folder(rt, holders, &backup)?
                || self.has_needed(holders, &backup.bytes)?
            {
                self.backups.deleted.push(backup)?;
            } else {
                self.restore(rt, backup)?;
            }
        }
        Ok(())
    }

    // Where the Shell has the file of a backup: one of the same bytes, or where it was moved if that is not written, or one with its bytes
    // among others.
    pub(crate) fn elsewhere(
        &self,
        holders: &Holders<'_>,
        backup: &Backup,
    ) -> Result<Option<Elsewhere>, TransferFault>
        ensures gave_way { backup.now.moved ≡ Some Destination.Replaced → IfOk result (λ elsewhere. is_some elsewhere ≡ true) }
    {
        let files = holders.files();
        if let Some(holder) = holders.first_with(&backup.bytes) {
            return Ok(Some(Elsewhere::Copy(self.copy_path(files, holder.place())?)));
        }
        match self.unwritten_elsewhere(files, backup.moved.as_ref())? {
            Some(moved) => Ok(Some(moved)),
            None => self.part_elsewhere(holders, &backup.bytes),
        }
    }

    // A file of the folder has the bytes of a backup, as a whole or, if the script made or changed it, among others.
    pub(crate) fn is_in_folder<R: AllocGlobal + Files>(
        &self,
        rt: &R,
        holders: &Holders<'_>,
        backup: &Backup,
    ) -> Result<bool, TransferFault> {
        if holds(rt, backup.original.as_str(), &backup.bytes) {
            return Ok(true);
        }
        let place = self.place_of(backup.original.as_str())?;
        if let Some(around) = holders.around(&place, &backup.bytes)
            && self.is_written(rt, around)?
        {
            return Ok(true);
        }
        self.is_in_another(rt, "", &backup.bytes)
    }

    // Writes a backup. That it can't be written (`false`) is reported, and it is tried again.
    pub(crate) fn restore<R: AllocGlobal + Files>(
        &mut self,
        rt: &R,
        backup: Backup,
    ) -> Result<bool, TransferFault> {
        let path = backup.original.as_str();
        let key = lower(self.alloc, path)?;
        match self.write_backup(rt, &backup) {
            Ok(beside) => {
                self.backups.add(beside.as_str(), backup)?;
                Ok(true)
            }
            Err(error) => {
                self.not_done(&error, "cannot write", key.as_str(), path)?;
                self.backups.deleted.push(backup)?;
                Ok(false)
            }
        }
    }
}
