//! What a share reports on standard error: each line about an object once in a run, or once until it is settled.

ghost use Rattle.std.specs.Prelude.{◌≡◌, true, false, OnOk, is_none};

use crate::failures::Failures;
use crate::spoils::Spoils;
use ados_ram::Limits;
use ados_transfer::{TransferFault, Volumes};
use std::alloc::Global;
use std::collections::BTreeSet;
use std::io::ErrorKind;

/// The lines to report, and what was reported before.
#[derive(Drop)]
pub struct Reports {
    alloc: Global,
    // By them lines name an object.
    volumes: Volumes,
    // The lines that are to be reported, and those that are reported only once in a run.
    lines: Vec<String>,
    reported: BTreeSet<String>,
    // The keys of those for which this machine's object stays, and of those that could not be written or brought in.
    kept: BTreeSet<String>,
    failing: BTreeSet<String>,
    // Those that failed at this update with a reason.
    failures: Vec<Failures>,
    // The keys of those that could not be brought in: they are on this machine alone.
    absent: BTreeSet<String>,
    // The keys of those that the script changed, and for which this machine's object stood. They have not been written since.
    lost: BTreeSet<String>,
    // The keys of those that could not be read at the last look, and at the one before.
    unread: BTreeSet<String>,
    unread_before: BTreeSet<String>,
    // The Shell's files had no place for an object.
    is_full: bool,
    /// What nothing undoes.
    pub spoils: Spoils,
}

impl Reports {
    /// Nothing to report of these volumes.
    pub fn new(alloc: Global, volumes: Volumes) -> Reports {
        Reports {
            alloc,
            volumes,
            lines: Vec::new(alloc),
            reported: BTreeSet::new(alloc),
            kept: BTreeSet::new(alloc),
            failing: BTreeSet::new(alloc),
            failures: Vec::new(alloc),
            absent: BTreeSet::new(alloc),
            lost: BTreeSet::new(alloc),
            unread: BTreeSet::new(alloc),
            unread_before: BTreeSet::new(alloc),
            is_full: false,
            spoils: Spoils::new(alloc),
        }
    }

    /// The lines to report since the last call.
    pub fn take_lines(&mut self) -> Vec<String> {
        std::mem::replace(&mut self.lines, Vec::new(self.alloc))
    }

    /// Something could not be read, written or brought in, and has not been since, or a change of the script is lost, or a file that it
    /// renamed.
    pub fn has_failed(&self) -> bool
        ensures spoilt { self.now.spoils.is_spoilt ≡ true → result ≡ true }
    {
        !self.failing.is_empty()
            || !self.unread.is_empty()
            || !self.lost.is_empty()
            || self.spoils.is_spoilt()
    }

    /// A change of the script is lost, since this machine's object stood.
    pub fn add_lost(&mut self, key: &str) -> Result<(), TransferFault> {
        self.lost.insert(String::from_str(self.alloc, key)?)?;
        Ok(())
    }

    /// The keys of what could not be written, and of those of which a change is lost.
    pub fn missed(&self) -> Result<Vec<String>, TransferFault> {
        let mut keys = Vec::new(self.alloc);
        for key in self.failing.iter().chain(self.lost.iter()) {
            if !self.absent.contains(key.as_str()) {
                keys.push(key.clone()?)?;
            }
        }
        Ok(keys)
    }

    /// This machine has what the script made, or nothing if the script deleted it.
    pub fn agree(&mut self, key: &str) {
        self.lost.remove(key);
    }

    /// The two sides no longer differ at this key.
    pub fn settle(&mut self, key: &str) {
        self.kept.remove(key);
        self.failing.remove(key);
        self.absent.remove(key);
    }

    /// Reports a line about an object.
    pub fn report(&mut self, text: &str, path: &str) -> Result<(), TransferFault> {
        let path = self.volumes.shown(path)?;
        self.lines.push(format!(in self.alloc; "{text}: {path}")?)?;
        Ok(())
    }

    /// Reports a line about an object once in a run.
    pub fn report_once(&mut self, text: &str, path: &str) -> Result<(), TransferFault> {
        let path = self.volumes.shown(path)?;
        self.report_line(format!(in self.alloc; "{text}: {path}")?)
    }

    /// Reports a line once in a run.
    pub fn report_line(&mut self, line: String) -> Result<(), TransferFault> {
        if self.reported.insert(line.clone()?)? {
            self.lines.push(line)?;
        }
        Ok(())
    }

    /// Reports that this machine's object stays, once until that is settled.
    pub fn report_kept(
        &mut self,
        key: &str,
        path: &str,
        is_stand_in: bool,
    ) -> Result<(), TransferFault> {
        let text = if is_stand_in {
            "kept, since the Shell can't hold it"
        } else {
            self.add_lost(key)?;
            "both changed, kept this machine's"
        };
        self.report_stays(key, text, path)
    }

    /// Reports that what is no file and no folder stays, once until that is settled: a change of the script is lost.
    pub fn report_foreign(&mut self, key: &str, path: &str) -> Result<(), TransferFault> {
        self.add_lost(key)?;
        self.report_stays(key, "kept, since it is no file or folder", path)
    }

    /// Reports that another program deleted a large file whose stand-in the script renamed, before it got its new name.
    pub fn report_gone(&mut self, path: &str) -> Result<(), TransferFault>
        ensures spoilt { OnOk result (self.new.spoils.is_spoilt ≡ true) }
    {
        self.report_once("gone, though the script renamed it", path)?;
        self.spoils.spoil();
        Ok(())
    }

    /// Reports that another program wrote another file in place of such a one.
    pub fn report_replaced(&mut self, path: &str) -> Result<(), TransferFault>
        ensures spoilt { OnOk result (self.new.spoils.is_spoilt ≡ true) }
    {
        self.report_once("written over, though the script renamed it", path)?;
        self.spoils.spoil();
        Ok(())
    }

    /// Reports by this text that another program took the new name of such a one, which keeps its old one.
    pub fn report_taken(&mut self, text: &str, path: &str, new: &str) -> Result<(), TransferFault>
        ensures spoilt { OnOk result (self.new.spoils.is_spoilt ≡ true) }
        ensures taken { OnOk result (is_none self.new.spoils.taken ≡ false) }
    {
        self.report_once(text, path)?;
        self.spoils.note_taken(new)
    }

    /// Reports that the script made an object outside of a device, above its top: this machine does not get it.
    pub fn report_beside(&mut self, device: &str, path: &str) -> Result<(), TransferFault>
        ensures spoilt { OnOk result (self.new.spoils.is_spoilt ≡ true) }
    {
        self.report_line(format!(in self.alloc;
            "outside of {device}:, and gone at the end: {path}"
        )?)?;
        self.spoils.spoil();
        Ok(())
    }

    /// Reports that a folder stays, since more is in it than the Shell knows, as this object, once until that is settled.
    pub fn report_not_empty(
        &mut self,
        key: &str,
        path: &str,
        first: Option<&str>,
    ) -> Result<(), TransferFault> {
        let Some(first) = first else {
            return self.report_stays(key, "kept, since it is not empty", path);
        };
        let first = self.volumes.shown(first)?;
        let text = format!(in self.alloc; "kept, since {first} is in it")?;
        self.report_stays(key, text.as_str(), path)
    }

    // Reports by this line that this machine's object stays, once until that is settled.
    fn report_stays(&mut self, key: &str, text: &str, path: &str) -> Result<(), TransferFault> {
        if self.kept.insert(String::from_str(self.alloc, key)?)? {
            self.report(text, path)?;
        }
        Ok(())
    }

    /// Reports the first object for which the Shell's files have no place.
    pub fn report_full(&mut self, limits: Limits, path: &str) -> Result<(), TransferFault> {
        if self.is_full {
            return Ok(());
        }
        self.is_full = true;
        let objects = limits.objects();
        let text = format!(in self.alloc;
            "more than {objects} files and folders, left alone from"
        )?;
        self.report(text.as_str(), path)
    }

    /// An object could not be written or brought in, and has not been since.
    pub fn is_failing(&self, key: &str) -> bool {
        self.failing.contains(key)
    }

    /// Reports that something failed, once until that is settled.
    pub fn fail(&mut self, key: &str, text: &str, path: &str) -> Result<(), TransferFault> {
        if self.failing.insert(String::from_str(self.alloc, key)?)? {
            self.report(text, path)?;
        }
        Ok(())
    }

    /// The same, with the reason for an error of this kind. Only the first of a folder that failed so has its line at once.
    pub fn fail_for(
        &mut self,
        key: &str,
        text: &str,
        path: &str,
        kind: ErrorKind,
    ) -> Result<(), TransferFault> {
        if !self.failing.insert(String::from_str(self.alloc, key)?)? {
            return Ok(());
        }
        for failures in &mut self.failures {
            if failures.has(text, path, kind) {
                return failures.add(path);
            }
        }
        let failures = Failures::new(self.alloc, text, path, kind)?;
        self.lines.push(failures.line(&self.volumes)?)?;
        self.failures.push(failures)?;
        Ok(())
    }

    /// After an update reports those that failed after the first of their folders.
    pub fn report_further(&mut self) -> Result<(), TransferFault> {
        for failures in std::mem::replace(&mut self.failures, Vec::new(self.alloc)) {
            if let Some(line) = failures.further_line(&self.volumes)? {
                self.lines.push(line)?;
            }
        }
        Ok(())
    }

    /// Reports that an object could not be brought in, once until that is settled.
    pub fn report_absent(&mut self, key: &str, path: &str) -> Result<(), TransferFault> {
        self.absent.insert(String::from_str(self.alloc, key)?)?;
        self.fail(key, "cannot bring in", path)
    }

    /// Begins a look: nothing is known yet of what cannot be read.
    pub fn begin_look(&mut self) {
        self.unread_before = std::mem::replace(&mut self.unread, BTreeSet::new(self.alloc));
    }

    /// Reports that an object cannot be read, unless that was so at the look before.
    pub fn report_unread(&mut self, key: &str, path: &str) -> Result<(), TransferFault> {
        let is_new = self.unread.insert(String::from_str(self.alloc, key)?)?;
        if !is_new || self.unread_before.contains(key) {
            return Ok(());
        }
        self.report("cannot read", path)
    }
}
