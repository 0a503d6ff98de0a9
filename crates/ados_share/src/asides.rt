//! Objects of the folder of a share that are moved aside while others of another kind get their places.

use crate::account::{Account, Aside};
use crate::departure::{Stage, move_aside, own_path};
use crate::mirror::Mirror;
use crate::modes::set_folder_mode;
use crate::update::Update;
use ados_transfer::{Here, Record, Stamp, TransferFault, place_new};
use std::io::ErrorKind;
use std::rt::Files;
use std::time::Clock;
use std::{fs, io};

impl Mirror {
    // Makes way for what is of another kind now, and writes what needs the place. What is moved aside for it is deleted only if all of
    // it is written, and on the disk, and nothing changed aside by then; otherwise it gets its place back.
    pub(crate) fn change_kinds<R: AllocGlobal + Files + Clock>(
        &mut self,
        update: &Update<'_, R>,
        account: &mut Account,
    ) -> Result<(), TransferFault> {
        let written = self.exchange_kinds(update, account);
        let is_safe = written.is_ok()
            && (account.aside.is_empty() || matches!(self.is_synced(update.rt, account), Ok(true)))
            && self.heed_changes_aside(update, account).is_ok();
        let finished = self.finish_kind_changes(update.rt, account, is_safe);
        written?;
        finished
    }

    // Moves aside what is in the way, and writes what needs the place.
    fn exchange_kinds<R: AllocGlobal + Files + Clock>(
        &mut self,
        update: &Update<'_, R>,
        account: &mut Account,
    ) -> Result<(), TransferFault> {
        for (key, departure) in update.departures.by_key.iter().rev() {
            if departure.is_within_kind_change
                && (departure.changes_kind || departure.entry.is_none())
            {
                self.delete_here(update.rt, key.as_str(), departure, account)?;
            }
        }
        self.write_stage(update, account, Stage::KindChange)
    }

    // Moves an object aside; `false` if something else came to be there since it was looked at.
    pub(crate) fn set_aside<R: AllocGlobal + Files>(
        &mut self,
        rt: &R,
        key: &str,
        path: &str,
        here: &Here,
        account: &mut Account,
    ) -> io::Result<bool> {
        let Some(aside) = self.moved_aside(rt, key, path, here)? else {
            return Ok(false);
        };
        match account.set_aside(aside) {
            Ok(()) => Ok(true),
            Err(_) => Err(io::Error::from(ErrorKind::OutOfMemory)),
        }
    }

    // Moves an object aside, which has no record from then on; nothing if something else came to be there since it was looked at.
    pub(crate) fn moved_aside<R: AllocGlobal + Files>(
        &mut self,
        rt: &R,
        key: &str,
        path: &str,
        here: &Here,
    ) -> io::Result<Option<Aside>> {
        let Some((beside, rights)) = move_aside(rt, self.volumes.root_of(path), path, here)? else {
            return Ok(None);
        };
        let Some((key, record)) = self.records.remove_entry(key) else {
            return Ok(None);
        };
        self.contents.leave_out(key.as_str(), Some(&record));
        let moved = self.moves.take(key.as_str());
        Ok(Some(Aside {
            key,
            record,
            beside,
            rights,
            moved,
        }))
    }

    // Deletes what was moved aside; if anything is not written each object gets its place back, the last one first.
    fn finish_kind_changes<R: AllocGlobal + Files>(
        &mut self,
        rt: &R,
        account: &mut Account,
        is_safe: bool,
    ) -> Result<(), TransferFault> {
        for one in account.take_aside().into_iter().rev() {
            if account.has_unwritten() || !is_safe {
                self.put_back(rt, one, account)?;
            } else {
                self.delete_aside(rt, one, account)?;
            }
        }
        Ok(())
    }

    // Gives an object its place back. If something else is there by now it stays where it is, and a line says so.
    fn put_back<R: AllocGlobal + Files>(
        &mut self,
        rt: &R,
        aside: Aside,
        account: &mut Account,
    ) -> Result<(), TransferFault> {
        let Aside {
            key,
            record,
            beside,
            rights,
            moved,
        } = aside;
        match placed_back(rt, &record, beside.as_ref(), rights.mode) {
            Ok(Some(stamp)) => {
                let mut record = record;
                record.stamp = stamp;
                record.is_fresh = true;
                if let Some(moved) = moved {
                    self.moves.add(key.clone()?, moved)?;
                }
                self.contents
                    .note(key.as_str(), self.records.get(key.as_str()), &record)?;
                self.records.insert(key, record)?;
                Ok(())
            }
            _ => match beside {
                Some(beside) => self.report_aside(beside, record.path.as_str(), account),
                None => Ok(()),
            },
        }
    }

    // Reports that what was moved aside stays where it is, and not in its own place.
    pub(crate) fn report_aside(
        &mut self,
        beside: String,
        path: &str,
        account: &mut Account,
    ) -> Result<(), TransferFault> {
        let whole = self.volumes.whole(beside.as_str())?;
        let text = format!(in self.alloc; "kept as {whole}")?;
        account.kept.push(beside)?;
        self.reports.report(text.as_str(), path)
    }
}

// Gives an object its place back, and gives its stamp; nothing if something else is there. A folder that was made there is deleted
// if it is empty.
fn placed_back<R: AllocGlobal + Files>(
    rt: &R,
    record: &Record,
    beside: Option<&String>,
    mode: u32,
) -> io::Result<Option<Stamp>> {
    let whole = own_path(rt, record.path.as_str())?;
    let found = match beside {
        Some(beside) => {
            let _ = fs::remove_dir(rt, whole.as_str());
            if !place_new(rt, beside.as_str(), whole.as_str())? {
                return Ok(None);
            }
            fs::symlink_metadata(rt, whole.as_str())?
        }
        None => {
            fs::create_dir(rt, whole.as_str())?;
            set_folder_mode(rt, whole.as_str(), mode)?
        }
    };
    Ok(Some(Stamp::of(&found)))
}
