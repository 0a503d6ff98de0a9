//! An update of the folders of a share: in which order what changed in the Shell's files gets there.
ghost use Rattle.std.specs.{Prelude.{◌≡◌, true, false, OnOk, is_none, string_bytes}, Option.{is_some, option_map}, BTreeMap.{get_by_text}};
ghost use Rattle.ados_share.specs.Records.{is_kept_there};

use crate::account::{Account, Moment};
use crate::departure::Stage;
use crate::departures::Departures;
use crate::mirror::Mirror;
use ados_ram::{Entry, Ram};
use ados_transfer::{Below, TransferFault, Volume, shell_path};
use std::mem;
use std::rt::Files;
use std::time::Clock;

/// What an update goes by.
#[derive(Drop)]
pub struct Update<'u, R> {
    /// The folders.
    pub rt: &'u Below<'u, R>,
    /// The Shell's files.
    pub files: &'u Ram,
    /// What is written and deleted.
    pub departures: Departures<'u>,
}

impl Mirror {
    /// Writes to the folders what changed below their directories since the last comparison: first what is new, then what changed,
    /// then what is of another kind now, and what needs its place. At last what is gone is deleted, the deepest first. While
    /// anything that the Shell holds below a directory is not written, nothing is deleted: it may have been moved there, and
    /// one line reports it, unless the script goes on meanwhile. With `dry` the changes are only reported.
    ///
    /// What can't be written or deleted is reported and left. The only error is that an allocation fails.
    pub fn write_out<R: AllocGlobal + Files + Clock + Clone + Drop>(
        &mut self,
        rt: &R,
        files: &Ram,
        moment: Moment,
    ) -> Result<(), TransferFault> {
        let volumes = self.volumes.copy()?;
        let rt = &Below::new(rt, &volumes);
        let mut account = Account::new(self.alloc, moment);
        let updated = self.update(rt, files, &mut account);
        let finished = self.finish_backups(rt, files, &mut account);
        self.note_refused(&mut account);
        self.unsynced = mem::replace(&mut account.unsynced, Vec::new(self.alloc));
        let noted = self.note_fresh(&mut account);
        self.reports.report_further()?;
        self.report_temporaries(rt, &account)?;
        updated?;
        noted?;
        finished
    }

    // The same, but for the temporary files that are left.
    fn update<R: AllocGlobal + Files + Clock>(
        &mut self,
        rt: &Below<'_, R>,
        files: &Ram,
        account: &mut Account,
    ) -> Result<(), TransferFault> {
        self.sync_again(rt, account)?;
        let away = self.away(rt, files, account)?;
        if away.len() == self.volumes.all().len() {
            return Ok(());
        }
        self.owe_overruled(account)?;
        self.owe_beside(files, account)?;
        if account.moment == Moment::End {
            self.forgive_undone(files)?;
        }
        self.watch(files)?;
        self.settle_moves(rt, files)?;
        self.note_copies(files, account)?;
        let asides = self.begin_moves(rt, files, account)?;
        let mut departures = self.departures(files, account)?;
        departures.leave_out(away.as_slice());
        self.find_copies(files, &mut departures)?;
        self.save_departing(rt, files, &mut departures, account)?;
        let update = &Update {
            rt,
            files,
            departures,
        };
        self.write_all(update, account)?;
        self.delete_gone(update, account)?;
        if self.rename_all(rt, files)? {
            self.delete_gone(update, account)?;
        }
        if self.finish_moves(update, asides, account)? {
            self.delete_gone(update, account)?;
        }
        self.end_update(files, account)
    }

    // What the script made and gave way to this machine's counts as not written to the end of the run: what it held may be only in what the
    // script deletes from then on, so that nothing is deleted.
    #[tactic(auto, using(crate::proofs::AccountLemmas::first_is_some))]
    fn owe_overruled(&self, account: &mut Account) -> Result<(), TransferFault>
        ensures owed { OnOk result (is_none self.now.reports.spoils.overruled ≡ false → is_some (option_map string_bytes account.new.unwritten) ≡ true) }
    {
        match self.reports.spoils.overruled() {
            Some(path) => account.add_unwritten(path),
            None => Ok(()),
        }
    }

    // Reports what waits and what is not deleted. By now what the script made has its record too.
    fn end_update(&mut self, files: &Ram, account: &mut Account) -> Result<(), TransferFault> {
        if account.moment == Moment::End {
            self.report_waiting(files)?;
            self.report_beside(files)?;
        }
        self.bar_copies(files, account)?;
        if let Some(path) = self.reports.spoils.taken() {
            account.refuse(path)?;
        }
        self.report_account(account)
    }

    // Writes what is new, then what changed, then what is of another kind now and what needs its place.
    fn write_all<R: AllocGlobal + Files + Clock>(
        &mut self,
        update: &Update<'_, R>,
        account: &mut Account,
    ) -> Result<(), TransferFault> {
        self.note_permissions(update.rt, &update.departures, account)?;
        self.note_folders(update, account)?;
        self.write_stage(update, account, Stage::New)?;
        self.write_stage(update, account, Stage::Changed)?;
        self.change_kinds(update, account)
    }

    // Writes what comes at one stage; a directory before what is in it.
    pub(crate) fn write_stage<R: AllocGlobal + Files + Clock>(
        &mut self,
        update: &Update<'_, R>,
        account: &mut Account,
        stage: Stage,
    ) -> Result<(), TransferFault> {
        for (key, departure) in &update.departures.by_key {
            if departure.stage() == stage {
                self.write_here(update.rt, update.files, key.as_str(), departure, account)?;
            }
        }
        Ok(())
    }

    // The labels of the volumes whose directory or folder is gone. Nothing is written there, and so nothing is deleted in any other.
    fn away<R: AllocGlobal + Files>(
        &mut self,
        rt: &Below<'_, R>,
        files: &Ram,
        account: &mut Account,
    ) -> Result<Vec<String>, TransferFault> {
        let mut away = Vec::new(self.alloc);
        for volume in rt.volumes().all() {
            let label = volume.label.as_str();
            if !files.look(&volume.place).is_some_and(Entry::is_directory) {
                self.report_no_directory(volume, account.moment)?;
            } else if rt.is_gone(label) {
                self.reports.fail(label, "cannot write", label)?;
                account.refuse(label)?;
            } else {
                self.forget(label);
                continue;
            }
            account.add_unwritten(label)?;
            away.push(volume.label.clone()?)?;
        }
        Ok(away)
    }

    // Reports that the directory of a volume is gone in the Shell's files, unless the script goes on meanwhile.
    fn report_no_directory(
        &mut self,
        volume: &Volume,
        moment: Moment,
    ) -> Result<(), TransferFault> {
        if moment == Moment::Meanwhile {
            return Ok(());
        }
        let path = shell_path(self.alloc, &volume.place)?;
        self.reports.fail(
            volume.label.as_str(),
            "nothing is written, since there is no directory",
            path.as_str(),
        )
    }

    // Deletes what is gone, the deepest first. By now a large file may have got the name.
    fn delete_gone<R: AllocGlobal + Files>(
        &mut self,
        update: &Update<'_, R>,
        account: &mut Account,
    ) -> Result<(), TransferFault> {
        for (key, departure) in update.departures.by_key.iter().rev() {
            if departure.entry.is_none()
                && !departure.is_within_kind_change
                && !self.is_kept(update.files, key.as_str())
            {
                self.delete_here(update.rt, key.as_str(), departure, account)?;
            }
        }
        Ok(())
    }

    // What was not written, and what the script deleted since, is no longer missed. If it has there what it had at the last comparison,
    // only a change that is lost is.
    fn forgive_undone(&mut self, files: &Ram) -> Result<(), TransferFault> {
        for key in &self.reports.missed()? {
            let place = self.place_of(key.as_str())?;
            if self.is_kept(files, key.as_str()) {
                self.reports.settle(key.as_str());
            } else if !self.records.contains_key(key.as_str()) && files.look(&place).is_none() {
                self.reports.settle(key.as_str());
                self.reports.agree(key.as_str());
            }
        }
        Ok(())
    }

    // The Shell has in its place what the object with this key was at the last comparison.
    fn is_kept(&self, files: &Ram, key: &str) -> bool
        ensures { result ≡ is_kept_there files.now (get_by_text self.now.records key.now) }
    {
        let Some(record) = self.records.get(key) else {
            return false;
        };
        record.is_kept(files.look(&record.place))
    }

    // Reports what is not deleted.
    pub(crate) fn report_account(&mut self, account: &Account) -> Result<(), TransferFault> {
        if account.is_meanwhile() {
            return Ok(());
        }
        self.is_holding = account.is_holding();
        self.is_lacking = account.has_unwritten() || !account.left_out.is_empty();
        if account.moment == Moment::End {
            for one in &account.left_out {
                let text = format!(in self.alloc; "not written, since {}", one.reason)?;
                self.reports.report_once(text.as_str(), one.path.as_str())?;
            }
        }
        match account.line(&self.volumes)? {
            Some(line) => self.reports.report_line(line),
            None => Ok(()),
        }
    }
}
