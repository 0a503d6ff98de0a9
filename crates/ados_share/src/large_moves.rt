//! Large files whose stand-ins the script renamed: they are renamed in the folder of the share.

use crate::account::{Account, Aside};
use crate::mirror::Mirror;
use crate::modes::restrict;
use crate::renaming::{blocked_text, renamed};
use crate::update::Update;
use ados_ram::{Entry, Place, Ram};
use ados_transfer::{
    Last, Record, Stamp, TransferFault, folder_of, is_descendant, lower, own_entry,
};
use std::rt::Files;

/// A large file whose stand-in is no longer in its own place.
#[derive(Drop)]
pub struct Moved {
    /// Its key, by its name in the folder.
    pub key: String,
    /// Its path below the folder.
    pub path: String,
    /// The path that it is to get; nothing if its stand-in is outside of the directory.
    pub new_path: Option<String>,
    /// Its stamp.
    pub stamp: Stamp,
}

impl Mirror {
    // Renames those large files whose new names are free. At a program's start and at the end those of the others are moved aside whose
    // old names the script gave to other objects, or whose new ones are those of folders in which large files were. What cannot be
    // written because of one that stays is noted.
    pub(crate) fn begin_moves<R: AllocGlobal + Files>(
        &mut self,
        rt: &R,
        files: &Ram,
        account: &mut Account,
    ) -> Result<Vec<Aside>, TransferFault> {
        let mut asides = Vec::new(self.alloc);
        self.stand_ins.is_blocked = false;
        if self.options.dry {
            self.report_moves(files)?;
            return Ok(asides);
        }
        self.rename_all(rt, files)?;
        let all = self.moved(files)?;
        let mut are_blocked = Vec::new(self.alloc);
        for moved in &all {
            are_blocked.push(self.is_blocked_by_large(moved)?)?;
        }
        for (moved, is_blocked) in all.iter().zip(are_blocked) {
            let entry = files.look(&self.place_of(moved.key.as_str())?);
            if entry.is_none() && !is_blocked {
                continue;
            }
            match (self.set_large_aside(rt, moved, account)?, entry) {
                (Some(aside), _) => asides.push(aside)?,
                (None, Some(entry)) => self.note_taken_name(moved, entry, account)?,
                (None, None) => {}
            }
        }
        Ok(asides)
    }

    // The new name of a large file is that of a folder which the script deleted, and which cannot go while it, or another one that was
    // moved, is in it.
    fn is_blocked_by_large(&self, moved: &Moved) -> Result<bool, TransferFault> {
        let Some(path) = &moved.new_path else {
            return Ok(false);
        };
        let key = lower(self.alloc, path.as_str())?;
        let is_directory = self
            .records
            .get(key.as_str())
            .is_some_and(|record| matches!(record.last, Last::Directory));
        Ok(is_directory && self.has_moved_in(key.as_str())?)
    }

    // Renames those whose names are free by now, and reports the others. One that was moved aside gets its old name back if its new one
    // is not free. Gives whether anything was renamed. While one has not the name that it is to have, no program starts.
    pub(crate) fn finish_moves<R: AllocGlobal + Files>(
        &mut self,
        update: &Update<'_, R>,
        asides: Vec<Aside>,
        account: &mut Account,
    ) -> Result<bool, TransferFault> {
        if self.options.dry {
            return Ok(false);
        }
        let (rt, files) = (update.rt, update.files);
        let first = self.rename_all(rt, files)?;
        let is_aside = self.rename_asides(rt, files, asides, account)?;
        let last = self.rename_all(rt, files)?;
        for moved in self.moved(files)? {
            if let Some(path) = &moved.new_path {
                account.refuse(path.as_str())?;
            }
        }
        if !account.is_meanwhile() {
            self.report_blocked(rt, files, account)?;
        }
        Ok(first || is_aside || last)
    }

    // The large files whose stand-ins are no longer in their own places.
    pub(crate) fn moved(&self, files: &Ram) -> Result<Vec<Moved>, TransferFault> {
        let mut all = Vec::new(self.alloc);
        for key in &self.stand_ins.keys {
            if let Some(record) = self.records.get(key.as_str())
                && record.place != self.place_of(key.as_str())?
            {
                all.push(Moved {
                    key: key.clone()?,
                    path: record.path.clone()?,
                    new_path: self.new_path(files, &record.place)?,
                    stamp: record.stamp,
                })?;
            }
        }
        Ok(all)
    }

    // The path below the folder that belongs to the place of a stand-in; none if that is outside of the directory.
    pub(crate) fn new_path(
        &self,
        files: &Ram,
        place: &Place,
    ) -> Result<Option<String>, TransferFault> {
        self.path_of(&files.written(place)?)
    }

    // Renames as many as possible, but none with `dry`. Gives whether one was renamed.
    pub(crate) fn rename_all<R: AllocGlobal + Files>(
        &mut self,
        rt: &R,
        files: &Ram,
    ) -> Result<bool, TransferFault> {
        let count = if self.options.dry {
            0
        } else {
            self.moved(files)?.len()
        };
        let mut is_any = false;
        // One may free the name of another one.
        for _ in 0..count {
            for moved in self.moved(files)? {
                if self.rename_one(rt, &moved)? {
                    is_any = true;
                }
            }
        }
        Ok(is_any)
    }

    // Renames a large file, if it is still the same and its new name is free. Gives whether that was done.
    fn rename_one<R: AllocGlobal + Files>(
        &mut self,
        rt: &R,
        moved: &Moved,
    ) -> Result<bool, TransferFault> {
        let Some(path) = &moved.new_path else {
            return Ok(false);
        };
        let new_key = lower(self.alloc, path.as_str())?;
        if !self.may_have(new_key.as_str()) || !self.knows_folder(folder_of(new_key.as_str())) {
            return Ok(false);
        }
        let rights = self.rights_at(rt, moved.path.as_str(), new_key.as_str())?;
        let Some(stamp) = renamed(rt, moved.path.as_str(), path.as_str(), &moved.stamp)? else {
            return Ok(false);
        };
        let stamp = match rights {
            Some(rights) => restrict(rt, path.as_str(), rights, stamp),
            None => stamp,
        };
        let Some((_, record)) = self.records.remove_entry(moved.key.as_str()) else {
            return Ok(false);
        };
        self.forget(moved.key.as_str());
        let path = path.clone()?;
        self.keep(
            new_key,
            Record {
                path,
                stamp,
                ..record
            },
        )?;
        Ok(true)
    }

    // A large file may get the name of this key: it is shared, and no object that is known has it.
    pub(crate) fn may_have(&self, key: &str) -> bool {
        self.reason_left_out(key).is_none() && !self.records.contains_key(key)
    }

    // A folder of this key is known: one that is still to be made gets its permissions when it is.
    fn knows_folder(&self, key: &str) -> bool {
        self.volumes.is_root(key)
            || self
                .records
                .get(key)
                .is_some_and(|record| matches!(record.last, Last::Directory))
    }

    // The Shell has an object of its own under the old name of a large file, which stays: it is not written.
    fn note_taken_name(
        &mut self,
        moved: &Moved,
        entry: &Entry,
        account: &mut Account,
    ) -> Result<(), TransferFault> {
        if own_entry(Some(entry)).is_none() {
            return Ok(());
        }
        account.add_unwritten_entry(moved.path.as_str(), entry)?;
        if account.is_meanwhile() {
            return Ok(());
        }
        self.stand_ins.is_blocked = true;
        self.reports
            .report_once("cannot write", moved.path.as_str())
    }

    // Reports the large files that could not be renamed as their stand-ins were. One whose stand-in is outside of the directory has no
    // name to get. While the new name of one is left out no program starts: it may delete the file under the old one.
    fn report_blocked<R: AllocGlobal + Files>(
        &mut self,
        rt: &R,
        files: &Ram,
        account: &mut Account,
    ) -> Result<(), TransferFault> {
        for moved in &self.moved(files)? {
            if let Some(new) = &moved.new_path {
                let key = lower(self.alloc, new.as_str())?;
                let reason = self.reason_left_out(key.as_str());
                if reason.is_some() {
                    account.refuse(new.as_str())?;
                }
                self.stand_ins.is_blocked = true;
                let text = blocked_text(rt, &self.volumes, new.as_str(), reason)?;
                self.reports
                    .report_once(text.as_str(), moved.path.as_str())?;
            }
        }
        Ok(())
    }

    // A large file stays in a folder, though its stand-in is elsewhere by now.
    pub(crate) fn has_moved_in(&self, folder: &str) -> Result<bool, TransferFault> {
        for key in &self.stand_ins.keys {
            if is_descendant(folder, key.as_str())
                && let Some(record) = self.records.get(key.as_str())
                && record.place != self.place_of(key.as_str())?
            {
                return Ok(true);
            }
        }
        Ok(false)
    }

    // Reports at the end the large files whose stand-ins are outside of the directory.
    pub(crate) fn report_outside(&mut self, files: &Ram) -> Result<(), TransferFault> {
        for moved in &self.moved(files)? {
            if moved.new_path.is_none() {
                self.stand_ins.is_blocked = true;
                self.reports
                    .report_kept(moved.key.as_str(), moved.path.as_str(), true)?;
            }
        }
        Ok(())
    }

    // Reports what would be renamed.
    fn report_moves(&mut self, files: &Ram) -> Result<(), TransferFault> {
        for moved in &self.moved(files)? {
            if let Some(new) = &moved.new_path {
                let new = self.volumes.shown(new.as_str())?;
                let text = format!(in self.alloc; "would rename to {new}")?;
                self.reports
                    .report_once(text.as_str(), moved.path.as_str())?;
            }
        }
        Ok(())
    }
}
