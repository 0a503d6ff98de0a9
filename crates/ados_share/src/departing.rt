//! What the folder has only among others in a file that is to be deleted or written over, while the Shell has it elsewhere: it is written
//! anew before that, since a kill in between would lose it.
ghost use Rattle.std.specs.{Prelude.{◌≡◌, IfOk, OnOk}, List.{list_any}};
ghost use Rattle.ados_text.specs.Text.{Bytes};
ghost use Rattle.ados_share.specs.{Around.{keeps_within, lets_go}, Records.{has_key}};

use crate::account::Account;
use crate::around::is_within;
use crate::backups::Backup;
use crate::departures::Departures;
use crate::holders::Holders;
use crate::last_copies::bytes_of;
use crate::mirror::Mirror;
use ados_ram::{FileBytes, Place, Ram};
use ados_text::NoMemory;
use ados_transfer::{TransferFault, holds};
use std::collections::BTreeMap;
use std::mem;
use std::rt::Files;

impl Mirror {
    // Writes it anew. If it can't be written the file in which it stands stays, and nothing is deleted.
    pub(crate) fn save_departing<R: AllocGlobal + Files>(
        &mut self,
        rt: &R,
        files: &Ram,
        departures: &mut Departures<'_>,
        account: &mut Account,
    ) -> Result<(), TransferFault> {
        let has_none = self.backups.deleted.is_empty();
        if has_none || self.options.dry || departures.by_key.values().all(|one| one.is_new) {
            return Ok(());
        }
        let mut holders = self.holders(files)?;
        let contents = self.contents_of_backups(&holders)?;
        self.look_for(&mut holders, contents)?;
        let deleted = mem::replace(&mut self.backups.deleted, Vec::new(self.alloc));
        for backup in deleted {
            let is_needed = self.is_in_memory(&holders, &backup)?
                && !self.has_needed(&holders, &backup.bytes)?;
            if is_needed && !self.will_stand(rt, &holders, departures, &backup)? {
                self.save(rt, backup, departures, account)?;
            } else {
                self.backups.deleted.push(backup)?;
            }
        }
        Ok(())
    }

    // The bytes of a backup stand in the folder after the update too, whatever it can't write: in a file that has them now as a whole and
    // stays, or among others in one that is written or has them already.
    fn will_stand<R: AllocGlobal + Files>(
        &self,
        rt: &R,
        holders: &Holders<'_>,
        departures: &Departures<'_>,
        backup: &Backup,
    ) -> Result<bool, TransferFault> {
        let place = self.place_of(backup.original.as_str())?;
        if let Some(around) = holders.around(&place, &backup.bytes)
            && (self.is_written(rt, around)? || self.is_kept_at(&around.place, &backup.bytes)?)
        {
            return Ok(true);
        }
        self.stays_in_another(rt, departures, &backup.bytes)
    }

    // The file of the folder at a place has bytes among others.
    fn is_kept_at(&self, place: &Place, bytes: &FileBytes) -> Result<bool, TransferFault> {
        match self.key_of(place)? {
            Some(key) => Ok(self.keeps_within(key.as_str(), bytes)?),
            None => Ok(false),
        }
    }

    // A file of the folder that is neither deleted nor written over has these bytes now.
    fn stays_in_another<R: AllocGlobal + Files>(
        &self,
        rt: &R,
        departures: &Departures<'_>,
        bytes: &FileBytes,
    ) -> Result<bool, TransferFault> {
        let Some(alike) = self.contents.alike(bytes) else {
            return Ok(false);
        };
        for key in alike {
            if let Some(record) = self.file_of(key.as_str(), bytes)
                && !departures.has_leaving(key.as_str())
                && holds(rt, record.path.as_str(), bytes)
            {
                return Ok(true);
            }
        }
        Ok(false)
    }

    // Writes a backup; if that fails what has its bytes stays as it is.
    fn save<R: AllocGlobal + Files>(
        &mut self,
        rt: &R,
        backup: Backup,
        departures: &mut Departures<'_>,
        account: &mut Account,
    ) -> Result<(), TransferFault> {
        let path = backup.original.clone()?;
        let bytes = backup.bytes.copy()?;
        if self.restore(rt, backup)? {
            return Ok(());
        }
        self.hold_back(departures, &bytes)?;
        account.add_unwritten(path.as_str())
    }

    // The files within which these bytes are kept are neither deleted nor written over.
    fn hold_back(
        &self,
        departures: &mut Departures<'_>,
        bytes: &FileBytes,
    ) -> Result<(), TransferFault>
        ensures { OnOk result ((q : Bytes) → has_key departures.new.by_key q ≡ list_any (lets_go bytes.now self.now.records q) departures.old.by_key.entries) }
    {
        let planned = mem::replace(&mut departures.by_key, BTreeMap::new(self.alloc));
        for (key, departure) in planned {
            if !self.keeps_within(key.as_str(), bytes)? {
                departures.put(key, departure)?;
            }
        }
        Ok(())
    }

    // The object with this key was a file at the last comparison, and some bytes are kept within that.
    fn keeps_within(&self, key: &str, bytes: &FileBytes) -> Result<bool, NoMemory>
        ensures { IfOk result (λ found. found ≡ keeps_within bytes.now self.now.records key.now) }
    {
        match bytes_of(&self.records, key) {
            Some(old) => is_within(self.alloc, old, bytes),
            None => Ok(false),
        }
    }
}
