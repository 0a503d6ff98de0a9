//! What the updates wrote is on the disk before one of them deletes or replaces anything whose bytes stand only there: a power cut would
//! otherwise leave an empty file while the old one is gone.
ghost use Rattle.std.specs.{Prelude.{◌≡◌, ◌++◌, [], true, false, IfOk, OnOk, string_bytes}, Option.{is_some, option_map}};
ghost use Rattle.ados_share.specs.Account.{contents_of, failed_files, files_of};
ghost use Rattle.ados_transfer.specs.Paths.{IsBelow};

use crate::account::Account;
use crate::backups::Backup;
use crate::mirror::Mirror;
use ados_ram::FileBytes;
use ados_text::NoMemory;
use ados_transfer::{Here, Manner, TransferFault, is_nothing, lower, no_memory, write_beside};
use std::alloc::Global;
use std::collections::BTreeMap;
use std::fs::OpenFile;
use std::io::ErrorKind;
use std::rt::Files;
use std::{fs, io, mem};

/// A file by its path, and what it holds.
#[derive(Drop)]
pub struct NamedFile {
    /// Its path.
    pub path: String,
    /// What it holds.
    pub bytes: FileBytes,
}

impl NamedFile {
    // An equal value.
    fn copy(&self) -> Result<NamedFile, NoMemory>
        ensures path { IfOk result (λ file. string_bytes file.path ≡ string_bytes self.now.path) }
        ensures bytes { IfOk result (λ file. file.bytes ≡ self.now.bytes) }
    {
        Ok(NamedFile {
            path: self.path.clone()?,
            bytes: self.bytes.copy()?,
        })
    }
}

/// What came of bringing a file to the disk.
#[derive(Drop)]
pub struct Attempt {
    /// The file.
    pub file: NamedFile,
    /// Whether it is there, and else why not.
    pub outcome: io::Result<()>,
}

impl Mirror {
    // Before an object is deleted that was looked at: brings to the disk what the update wrote, if the object is a file that has bytes. `false` if
    // that failed.
    pub(crate) fn is_synced_before<R: AllocGlobal + Files>(
        &mut self,
        rt: &R,
        here: &Here,
        account: &mut Account,
    ) -> Result<bool, TransferFault> {
        if here.is_directory() || here.size() == Some(0) {
            return Ok(true);
        }
        self.is_synced(rt, account)
    }

    // Brings to the disk what this update and those before wrote; `false` if that failed now or before in this update, so that nothing is to
    // be deleted.
    #[tactic(auto, using(crate::proofs::AccountLemmas::first_is_some))]
    pub(crate) fn is_synced<R: AllocGlobal + Files>(
        &mut self,
        rt: &R,
        account: &mut Account,
    ) -> Result<bool, TransferFault>
        ensures taken { OnOk result (account.new.fresh.items ≡ []) }
        ensures written { IfOk result (λ is. is ≡ true → account.new ≡ record account.old { fresh = account.new.fresh }) }
        ensures unwritten { IfOk result (λ is. is ≡ false → is_some (option_map string_bytes account.new.unwritten) ≡ true) }
        ensures refused { IfOk result (λ is. is ≡ false → is_some (option_map string_bytes account.new.refused) ≡ true) }
        // What failed before in this update is not forgotten.
        ensures again { IfOk result (λ is. is ≡ true → account.old.unsynced.items ≡ []) }
    {
        let files = self.take_fresh(account)?;
        let attempts = sync_all(rt, files)?;
        let reported = self.report_attempts(attempts.as_slice());
        let failed = failed_files(self.alloc, attempts)?;
        let Some(first) = account.unsynced.first().or(failed.first()) else {
            reported?;
            return Ok(true);
        };
        let path = first.path.clone()?;
        account.add_unsynced(failed)?;
        account.add_unwritten(path.as_str())?;
        account.refuse(path.as_str())?;
        reported?;
        Ok(false)
    }

    // What this update wrote, and those before it, and what is not on the disk yet.
    fn take_fresh(&mut self, account: &mut Account) -> Result<Vec<NamedFile>, NoMemory>
        ensures taken { account.new.fresh.items ≡ [] }
        ensures rest { account.new ≡ record account.old { fresh = account.new.fresh } }
    {
        let mut files = account.take_fresh();
        for (path, bytes) in mem::replace(&mut self.fresh, BTreeMap::new(self.alloc)) {
            files.push(NamedFile { path, bytes })?;
        }
        Ok(files)
    }

    // Notes for the updates after this one what it wrote, and what is not on the disk yet.
    pub(crate) fn note_fresh(&mut self, account: &mut Account) -> Result<(), TransferFault> {
        for file in account.take_fresh() {
            self.fresh.insert(file.path, file.bytes)?;
        }
        Ok(())
    }

    // Brings to the disk those files with these bytes that this update wrote, or those before it.
    pub(crate) fn sync_copies<R: AllocGlobal + Files>(
        &mut self,
        rt: &R,
        bytes: &FileBytes,
        account: &mut Account,
    ) -> io::Result<()> {
        let mut paths = Vec::new(self.alloc);
        for (path, held) in &self.fresh {
            if *held == *bytes {
                paths.push(path.clone()?)?;
            }
        }
        for path in &paths {
            if let Some((path, bytes)) = self.fresh.remove_entry(path.as_str())
                && account.add_fresh(NamedFile { path, bytes }).is_err()
            {
                return Err(no_memory());
            }
        }
        account.sync_copies(rt, bytes)
    }

    // What could not be brought to the disk at the update before is tried again.
    pub(crate) fn sync_again<R: AllocGlobal + Files>(
        &mut self,
        rt: &R,
        account: &mut Account,
    ) -> Result<(), TransferFault> {
        if self.unsynced.is_empty() {
            return Ok(());
        }
        for file in mem::replace(&mut self.unsynced, Vec::new(self.alloc)) {
            account.add_fresh(file)?;
        }
        self.is_synced(rt, account)?;
        Ok(())
    }

    // Reports the files that could not be brought to the disk.
    fn report_attempts(&mut self, attempts: &[Attempt]) -> Result<(), TransferFault> {
        for attempt in attempts {
            if let Err(error) = &attempt.outcome {
                let path = attempt.file.path.as_str();
                let key = lower(self.alloc, path)?;
                self.not_done(error, "cannot write", key.as_str(), path)?;
            }
        }
        Ok(())
    }
}

impl Account {
    /// Notes files that could not be brought to the disk: each of them counts as not written.
    pub fn add_unsynced(&mut self, files: Vec<NamedFile>) -> Result<(), TransferFault>
        ensures unsynced { OnOk result (self.new.unsynced.items ≡ self.old.unsynced.items ++ files.items) }
        ensures bytes { OnOk result (contents_of self.new.unwritten_files.items ≡ contents_of self.old.unwritten_files.items ++ contents_of files.items) }
        ensures rest { self.new ≡ record self.old { unsynced = self.new.unsynced; unwritten_files = self.new.unwritten_files } }
    {
        for file in files {
            self.unwritten_files.push(file.copy()?)?;
            self.unsynced.push(file)?;
        }
        Ok(())
    }

    /// Brings to the disk those files with these bytes that the update wrote. The first for which that fails counts as not written: the
    /// system may not say so again.
    pub fn sync_copies<R: AllocGlobal + Files>(
        &mut self,
        rt: &R,
        bytes: &FileBytes,
    ) -> io::Result<()>
        ensures written { OnOk result (self.new ≡ self.old) }
        ensures rest { self.new ≡ record self.old { unsynced = self.new.unsynced; unwritten_files = self.new.unwritten_files } }
    {
        let mut failed = Vec::new(self.alloc);
        let mut outcome = Ok(());
        for file in &self.fresh {
            if outcome.is_ok() && file.bytes == *bytes {
                outcome = sync(rt, file.path.as_str());
                if outcome.is_err() {
                    failed.push(file.copy()?)?;
                }
            }
        }
        if outcome.is_err() && self.add_unsynced(failed).is_err() {
            return Err(no_memory());
        }
        outcome
    }
}

// Tries to bring files to the disk, one after the other, whether or not that fails for those before.
fn sync_all<R: AllocGlobal + Files>(rt: &R, files: Vec<NamedFile>) -> Result<Vec<Attempt>, NoMemory>
    ensures each { IfOk result (λ attempts. files_of attempts.items ≡ files.items) }
{
    let mut attempts = Vec::new(rt.alloc());
    for file in files {
        let outcome = sync(rt, file.path.as_str());
        attempts.push(Attempt { file, outcome })?;
    }
    Ok(attempts)
}

// Those for which that failed.
fn failed_files(alloc: Global, attempts: Vec<Attempt>) -> Result<Vec<NamedFile>, NoMemory>
    ensures { IfOk result (λ files. files.items ≡ failed_files attempts.items) }
{
    let mut failed = Vec::new(alloc);
    for attempt in attempts {
        if attempt.outcome.is_err() {
            failed.push(attempt.file)?;
        }
    }
    Ok(failed)
}

impl Backup {
    // Writes it to a temporary file in a folder, with these permissions, brings that to the disk, and gives its path.
    pub(crate) fn write_synced<R: AllocGlobal + Files>(
        &self,
        rt: &R,
        folder: &str,
        manner: Manner,
    ) -> io::Result<String>
        ensures { IfOk result (λ path. IsBelow folder.now (string_bytes path)) }
    {
        let beside = write_beside(rt, folder, &self.bytes, manner)?;
        match sync(rt, beside.as_str()) {
            Ok(()) => Ok(beside),
            Err(error) => {
                let _ = fs::remove_file(rt, beside.as_str());
                Err(error)
            }
        }
    }
}

// Brings a file to the disk. One that may not be read, or that is no longer there, as its directory became a file, is left.
fn sync<R: AllocGlobal + Files>(rt: &R, path: &str) -> io::Result<()> {
    match try_sync(rt, path) {
        Err(error) if is_nothing(error.kind()) => Ok(()),
        Err(error) if matches!(error.kind(), ErrorKind::PermissionDenied) => Ok(()),
        done => done,
    }
}

// The same, with each error. What another program put in its place is not opened: a pipe would be waited for.
fn try_sync<R: AllocGlobal + Files>(rt: &R, path: &str) -> io::Result<()> {
    if fs::symlink_metadata(rt, path)?.is_file() {
        fs::open(rt, path)?.sync_all()?;
    }
    Ok(())
}
