//! How an object of the folder of a share that is gone in the Shell's files, or of another kind there, is deleted.
ghost use Rattle.std.specs.{Prelude.{◌≡◌, None, IfOk, OnOk, true, false, string_bytes}, BTreeMap.{get_by_text}, Option.{option_map}};
ghost use Rattle.ados_share.specs.{Account.{first_path, is_end}, Changes.{has_made_anew}, Records.{Sets}};

use crate::account::{Account, Moment};
use crate::changes::is_made_anew;
use crate::departure::{Departure, remove};
use crate::mirror::Mirror;
use ados_ram::Ram;
use ados_transfer::{Below, Here, Removal, Terms, TransferFault, decide_removal, lower, step_into};
use std::fs;
use std::io::ErrorKind;
use std::rt::Files;

impl Mirror {
    // Deletes an object on this machine that is gone in the Shell's files, or of another kind there, if it has not changed since and
    // if everything is written.
    pub(crate) fn delete_here<R: AllocGlobal + Files>(
        &mut self,
        rt: &Below<'_, R>,
        key: &str,
        departure: &Departure<'_>,
        account: &mut Account,
    ) -> Result<(), TransferFault> {
        let path = departure.path.as_str();
        let here = self.look_here(rt, key, departure)?;
        match self.removal(rt, key, departure, &here, account)? {
            Removal::Forget => {
                self.forget(key);
                self.reports.agree(key);
                Ok(())
            }
            Removal::Delete => self.delete(rt, key, departure, &here, account),
            Removal::Hold => self.hold(key, path, account),
            Removal::Wait => {
                note_in_the_way(departure, account, false)?;
                self.wait(key, departure, &here)
            }
            Removal::Conflict => {
                note_in_the_way(departure, account, here.is_unread())?;
                self.not_touched(rt, (key, path), &here, "cannot delete")
            }
            Removal::Leave => Ok(()),
        }
    }

    // What is done with an object that was looked at. One that is not known is left, and a file stays that another program made anew.
    fn removal<R: AllocGlobal + Files>(
        &mut self,
        rt: &R,
        key: &str,
        departure: &Departure<'_>,
        here: &Here,
        account: &mut Account,
    ) -> Result<Removal, TransferFault>
        ensures anew { IfOk result (λ removal. has_made_anew (get_by_text self.old.records key.now) here.now ≡ true → removal ≡ Removal.Conflict) }
    {
        if self
            .records
            .get(key)
            .is_some_and(|record| is_made_anew(record, here))
        {
            return Ok(Removal::Conflict);
        }
        let object = (key, departure.path.as_str());
        let is_last_copy = self.is_last_copy(rt, key, departure)?
            && !self.is_backed_up(rt, object, departure, here, account)?;
        let Some(record) = self.records.get(key) else {
            return Ok(Removal::Leave);
        };
        let terms = Terms {
            may_delete: record.watch.may_delete(),
            has_unwritten: account.has_unwritten(),
            is_last_copy,
        };
        Ok(decide_removal(
            &record.state(),
            &here.state(Some(record)),
            &record.state_there(departure.entry),
            terms,
        ))
    }

    // Something that the script has is not written, so that an object is not deleted. It comes in again, unless the script goes on: later
    // its bytes may be nowhere else.
    pub(crate) fn hold(
        &mut self,
        key: &str,
        path: &str,
        account: &mut Account,
    ) -> Result<(), TransferFault>
        ensures meanwhile { is_end account.old.moment ≡ false → (self.new ≡ self.old) × (account.new ≡ account.old) }
        ensures forgotten { OnOk result (is_end account.old.moment ≡ true → Sets self.old.records self.new.records key.now None) }
        ensures held { OnOk result (is_end account.old.moment ≡ true → option_map string_bytes account.new.held ≡ first_path (option_map string_bytes account.old.held) path.now) }
    {
        if account.moment != Moment::End {
            return Ok(());
        }
        self.forget(key);
        account.hold(path)
    }

    // A file that is in the way of an object of another kind has a backup from now on, so that it may go. There is none if the file changed,
    // if nothing is to be deleted, or if the system refused it.
    fn is_backed_up<R: AllocGlobal + Files>(
        &mut self,
        rt: &R,
        object: (&str, &str),
        departure: &Departure<'_>,
        here: &Here,
        account: &mut Account,
    ) -> Result<bool, TransferFault> {
        let Here::File { bytes, .. } = here else {
            return Ok(false);
        };
        let is_same = self
            .records
            .get(object.0)
            .is_some_and(|record| record.is_file_of(bytes));
        let is_needed = departure.is_within_kind_change && !self.options.dry;
        if !is_same || !is_needed || account.has_unwritten() {
            return Ok(false);
        }
        match self.back_up(rt, object, here) {
            Ok(()) => Ok(true),
            Err(error) if error.kind() == ErrorKind::OutOfMemory => Err(TransferFault::NoMemory),
            Err(_) => {
                account.refuse(object.1)?;
                Ok(false)
            }
        }
    }

    // The first object in a folder, by its name, that the Shell does not know; nothing if it can't be told.
    fn first_unknown<R: AllocGlobal + Files>(
        &self,
        rt: &Below<'_, R>,
        folder: &str,
    ) -> Result<Option<String>, TransferFault> {
        let Ok(entries) = fs::read_dir(rt, folder) else {
            return Ok(None);
        };
        let mut first = None;
        for entry in entries {
            let Ok(entry) = entry else {
                continue;
            };
            let path = step_into(self.alloc, folder, entry.file_name())?;
            let key = lower(self.alloc, path.as_str())?;
            if !self.records.contains_key(key.as_str())
                && first.as_ref().is_none_or(|first| path < *first)
            {
                first = Some(path);
            }
        }
        Ok(first)
    }

    // Deletes an object on this machine; one that is in the way of another one is moved aside. It is noted before: what is aside has no
    // record.
    fn delete<R: AllocGlobal + Files>(
        &mut self,
        rt: &Below<'_, R>,
        key: &str,
        departure: &Departure<'_>,
        here: &Here,
        account: &mut Account,
    ) -> Result<(), TransferFault> {
        let path = departure.path.as_str();
        if self.options.dry {
            return self.reports.report_once("would delete", path);
        }
        if !departure.is_within_kind_change && !self.is_synced_before(rt, here, account)? {
            return self.hold(key, path, account);
        }
        self.note_gone(key, departure, here)?;
        let is_done = if departure.is_within_kind_change {
            self.set_aside(rt, key, path, here, account)
        } else {
            remove(rt, path, here)
        };
        let is_refused =
            matches!(&is_done, Err(error) if error.kind() != ErrorKind::DirectoryNotEmpty);
        if !matches!(is_done, Ok(true)) {
            note_in_the_way(departure, account, is_refused)?;
        }
        match is_done {
            Ok(true) => {
                self.forget(key);
                self.reports.agree(key);
                Ok(())
            }
            Ok(false) => self.reports.report_kept(key, path, false),
            Err(error) if error.kind() == ErrorKind::DirectoryNotEmpty => {
                self.forget(key);
                let first = self.first_unknown(rt, path)?;
                self.reports.report_not_empty(key, path, first.as_deref())
            }
            Err(error) => self.not_done(&error, "cannot delete", key, path),
        }
    }

    // The Shell's object gave way to this machine's: what the Shell deleted may have been moved there, so that it is not deleted here,
    // but comes in again.
    pub(crate) fn hold_deletions(&mut self, files: &Ram) -> Result<(), TransferFault> {
        let Some(path) = self.overruled.take() else {
            return Ok(());
        };
        let mut account = Account::new(self.alloc, Moment::Start);
        account.add_unwritten(path.as_str())?;
        let mut keys = Vec::new(self.alloc);
        for (key, record) in &self.records {
            if record.is_gone(files.look(&record.place)) {
                account.hold(record.path.as_str())?;
                keys.push(key.clone()?)?;
            }
        }
        for key in &keys {
            self.forget(key.as_str());
        }
        self.report_account(&account)
    }
}

// If an object that stays is in the way of one of another kind, that cannot be written; `is_refused`: since the system refused to move it.
fn note_in_the_way(
    departure: &Departure<'_>,
    account: &mut Account,
    is_refused: bool,
) -> Result<(), TransferFault> {
    if !departure.is_within_kind_change {
        return Ok(());
    }
    let path = departure.path.as_str();
    if is_refused {
        account.refuse(path)?;
    }
    match departure.entry {
        Some(entry) => account.add_unwritten_entry(path, entry),
        None => account.add_unwritten(path),
    }
}
