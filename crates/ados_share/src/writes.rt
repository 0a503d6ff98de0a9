//! How an object of the Shell's files is written to the folder of a share.
ghost use Rattle.std.specs.Prelude.{◌≡◌, IfOk};
ghost use Rattle.ados_ram.specs.Entry.{bytes_of};
ghost use Rattle.ados_share.specs.Account.{contents_of, is_moved_away};

use crate::account::Account;
use crate::around::Around;
use crate::backups::needs_backup;
use crate::departure::{Departure, write_entry};
use crate::mirror::Mirror;
use crate::syncs::NamedFile;
use ados_ram::{Entry, Ram};
use ados_text::NoMemory;
use ados_transfer::{
    Decision, Draft, Here, Last, Record, Stamp, TransferFault, check_readable, is_beginning_of,
    no_memory,
};
use std::rt::Files;
use std::time::Clock;
use std::{fs, io};

impl Mirror {
    // Writes an object to this machine if it may be. What is not written is noted; once that is so, nothing takes the place of an
    // object of another kind.
    pub(crate) fn write_here<R: AllocGlobal + Files + Clock>(
        &mut self,
        rt: &R,
        files: &Ram,
        key: &str,
        departure: &Departure<'_>,
        account: &mut Account,
    ) -> Result<(), TransferFault> {
        let path = departure.path.as_str();
        let Some(entry) = departure.entry else {
            return Ok(());
        };
        if departure.is_within_kind_change && account.has_unwritten() {
            return Ok(());
        }
        if departure.is_within_kind_change && self.options.dry {
            return self.reports.report_once("would write", path);
        }
        let here = self.look_here(rt, key, departure)?;
        let record = self.records.get(key);
        match here.decision(record, Some(entry)) {
            Decision::Keep => self.keep_same(rt, (key, path), entry, &here),
            Decision::Bring => Ok(()),
            Decision::Conflict => {
                account.add_unwritten_entry(path, entry)?;
                if here.is_unread() {
                    account.refuse(path)?;
                }
                self.not_touched(rt, (key, path), &here, "cannot write")
            }
            Decision::Write if self.options.dry => self.reports.report_once("would write", path),
            Decision::Write => {
                let manner = self.manner_of(rt, files, (key, entry), &here, account)?;
                let is_last = self.is_lost_below(rt, files, key, departure)?;
                let draft = Draft::new(entry, &here, manner, is_last);
                self.note_written_over(key, departure, &draft)?;
                self.write(rt, key, departure, &draft, account)
            }
        }
    }

    // Writes an object to this machine; not in place of a file whose bytes were moved to one that is not written.
    fn write<R: AllocGlobal + Files + Clock>(
        &mut self,
        rt: &R,
        key: &str,
        departure: &Departure<'_>,
        draft: &Draft<'_>,
        account: &mut Account,
    ) -> Result<(), TransferFault> {
        let path = departure.path.as_str();
        if is_moved_away(draft, account)? {
            account.add_unwritten_entry(path, draft.entry)?;
            account.refuse(path)?;
            return self.hold(key, path, account);
        }
        match self.replace(rt, (key, path), draft, departure.inside.as_ref(), account) {
            Ok(Some(stamp)) => {
                if let Some(bytes) = draft.entry.bytes() {
                    let path = String::from_str(self.alloc, path)?;
                    let bytes = bytes.clone()?;
                    account.add_fresh(NamedFile { path, bytes })?;
                }
                self.keep_written(rt, (key, path), draft.entry, stamp)
            }
            Ok(None) => {
                account.add_unwritten_entry(path, draft.entry)?;
                self.reports.report_kept(key, path, false)
            }
            Err(error) => {
                account.add_unwritten_entry(path, draft.entry)?;
                account.refuse(path)?;
                self.not_done(&error, "cannot write", key, path)
            }
        }
    }

    // Writes an object to this machine, after a backup of what it takes the place of, if that needs one. What was written with the bytes of
    // that, as a whole or among others, is on the disk before.
    fn replace<R: AllocGlobal + Files>(
        &mut self,
        rt: &R,
        object: (&str, &str),
        draft: &Draft<'_>,
        around: Option<&Around>,
        account: &mut Account,
    ) -> io::Result<Option<Stamp>> {
        let Ok(needs_backup) = needs_backup(rt.alloc(), draft) else {
            return Err(no_memory());
        };
        if needs_backup {
            self.back_up(rt, object, draft.here)?;
        }
        if let Here::File { bytes, .. } = draft.here {
            self.sync_copies(rt, bytes, account)?;
        }
        if let Some(around) = around {
            self.sync_copies(rt, &around.bytes, account)?;
        }
        write_entry(rt, object.1, draft)
    }

    // Reports that this machine's object stays, or with this text that it can't be looked at, and why, as that is found now.
    pub(crate) fn not_touched<R: AllocGlobal + Files>(
        &mut self,
        rt: &R,
        object: (&str, &str),
        here: &Here,
        text: &str,
    ) -> Result<(), TransferFault> {
        let (key, path) = object;
        if !here.is_unread() {
            let is_large = self.records.get(key).is_some_and(Record::is_stand_in);
            if !is_large && matches!(here, Here::Foreign) {
                return self.reports.report_foreign(key, path);
            }
            return self.reports.report_kept(key, path, is_large);
        }
        match check_readable(rt, path) {
            Ok(()) => self.reports.fail(key, text, path),
            Err(error) => self.not_done(&error, text, key, path),
        }
    }

    // Reports that something could not be done, and why.
    pub(crate) fn not_done(
        &mut self,
        error: &io::Error,
        text: &str,
        key: &str,
        path: &str,
    ) -> Result<(), TransferFault> {
        if error.kind() == io::ErrorKind::OutOfMemory {
            return Err(TransferFault::NoMemory);
        }
        self.reports.fail_for(key, text, path, error.kind())
    }

    // Keeps an object as it is on both sides already.
    fn keep_same<R: Clock>(
        &mut self,
        rt: &R,
        object: (&str, &str),
        entry: &Entry,
        here: &Here,
    ) -> Result<(), TransferFault> {
        match here.stamp() {
            Some(stamp) => self.keep_written(rt, object, entry, stamp),
            None => Ok(()),
        }
    }

    // Keeps an object as it is on both sides.
    fn keep_written<R: Clock>(
        &mut self,
        rt: &R,
        object: (&str, &str),
        entry: &Entry,
        stamp: Stamp,
    ) -> Result<(), TransferFault> {
        let (key, path) = object;
        self.reports.agree(key);
        self.keep_as(key, path, Last::of(entry)?, stamp, &self.now(rt))
    }
}

// What a file of this machine holds is in a file of the Shell that is not written, and the one that takes its place does not begin with it.
fn is_moved_away(draft: &Draft<'_>, account: &Account) -> Result<bool, NoMemory>
    ensures { IfOk result (λ is. is ≡ is_moved_away draft.now.here.now (bytes_of draft.now.entry.now) (contents_of account.now.unwritten_files.items)) }
{
    let Here::File { bytes, .. } = draft.here else {
        return Ok(false);
    };
    if is_beginning_of(account.alloc, bytes, draft.entry)? {
        return Ok(false);
    }
    account.is_in_unwritten(bytes)
}
