//! What is noted of files that are gone from the folder while the Shell has their bytes: each file by itself. Two of one path and the same
//! bytes are told apart by where the script moved them, so that the end of the one is not that of the other.
ghost use Rattle.std.specs.{Prelude.{◌≡◌, true, IfOk, OnOk, Some}, List.{list_any}, Option.{is_some, option_copied}};
ghost use Rattle.ados_share.specs.{Backups.{counts_for, follows, is_of, with_noted}, Moves.{is_one_destination}};

use crate::backups::{Backup, Backups};
use crate::elsewhere::Elsewhere;
use crate::holders::Holders;
use crate::mirror::Mirror;
use crate::moves::Destination;
use ados_ram::FileBytes;
use ados_text::NoMemory;
use ados_transfer::TransferFault;
use std::mem;

impl Backups {
    /// Notes a file that was deleted or written over, unless what is noted counts for it.
    pub fn note(&mut self, backup: Backup) -> Result<(), NoMemory>
        ensures noted { OnOk result (self.new.deleted.items ≡ with_noted self.old.deleted.items backup) }
        ensures rest { self.new ≡ record self.old { deleted = self.new.deleted } }
    {
        if !is_noted(self.deleted.as_slice(), &backup) {
            self.deleted.push(backup)?;
        }
        Ok(())
    }
}

impl Backups {
    // What is noted of a file that was added to goes, unless the Shell has those bytes as a whole or has moved them: more was noted of that
    // file, which begins with them, and the Shell has both in one file.
    pub(crate) fn forget_beginnings(&mut self, holders: &Holders<'_>) -> Result<(), NoMemory> {
        let mut beginnings = Vec::new(self.alloc);
        for backup in &self.deleted {
            let is_whole = backup.moved.is_some() || holders.has_outside(&backup.bytes);
            beginnings.push(!is_whole && self.has_longer(holders, backup)?)?;
        }
        let deleted = mem::replace(&mut self.deleted, Vec::new(self.alloc));
        for (backup, is_beginning) in deleted.into_iter().zip(beginnings) {
            if !is_beginning {
                self.deleted.push(backup)?;
            }
        }
        Ok(())
    }

    // More is noted of the same file, which begins with these bytes, and the Shell has both in one file outside of the directory.
    fn has_longer(&self, holders: &Holders<'_>, backup: &Backup) -> Result<bool, NoMemory> {
        for other in &self.deleted {
            if other.original.as_str() == backup.original.as_str()
                && other.bytes.len() > backup.bytes.len()
                && holders.are_together(&other.bytes, &backup.bytes)
                && other.bytes.starts_with(&backup.bytes.to_vec(self.alloc)?)
            {
                return Ok(true);
            }
        }
        Ok(false)
    }
}

// One of these counts for a file.
fn is_noted(noted: &[Backup], backup: &Backup) -> bool
    ensures { result ≡ list_any (counts_for backup.now) noted.now }
{
    for other in noted {
        if other.counts_for(backup) {
            return true;
        }
    }
    false
}

impl Backup {
    /// It is of the file of this path, which had these bytes.
    pub fn is_of(&self, path: &str, bytes: &FileBytes) -> bool
        ensures { result ≡ is_of path.now bytes.now self.now }
    {
        self.original.as_str() == path && self.bytes == *bytes
    }

    // What is noted of its file holds for this one too: both had one path and the same bytes, and they were moved to one place, or this one
    // was not moved.
    fn counts_for(&self, backup: &Backup) -> bool
        ensures { result ≡ counts_for backup.now self.now }
    {
        self.is_of(backup.original.as_str(), &backup.bytes)
            && follows(self.moved.as_ref(), backup.moved.as_ref())
    }
}

// What was moved to the first destination is what was moved to the second, or that was not moved.
fn follows(noted: Option<&Destination>, moved: Option<&Destination>) -> bool
    ensures { result ≡ follows (option_copied noted.entry) (option_copied moved.entry) }
{
    match (noted, moved) {
        (_, None) => true,
        (None, Some(_)) => false,
        (Some(noted), Some(moved)) => noted.is_one_with(moved),
    }
}

impl Destination {
    // Both are one place, or gave way.
    fn is_one_with(&self, other: &Destination) -> bool
        ensures { result ≡ is_one_destination self.now other.now }
    {
        match (self, other) {
            (Destination::At(place), Destination::At(other)) => place == other,
            (Destination::Replaced, Destination::Replaced) => true,
            (Destination::At(_), Destination::Replaced)
            | (Destination::Replaced, Destination::At(_)) => false,
        }
    }
}

impl Mirror {
    // What is a backup no longer, since the folder has its bytes in another file, is noted if they would be in memory alone without that.
    pub(crate) fn note_former(
        &mut self,
        holders: &Holders<'_>,
        backup: Backup,
    ) -> Result<(), TransferFault> {
        if self.is_in_memory(holders, &backup)? {
            self.backups.note(backup)?;
        }
        Ok(())
    }

    // The Shell has the bytes of a backup outside of the directory, as a whole or among others, or its file where it was moved, if that is
    // not written.
    pub(crate) fn is_in_memory(
        &self,
        holders: &Holders<'_>,
        backup: &Backup,
    ) -> Result<bool, TransferFault>
        ensures gave_way { backup.now.moved ≡ Some Destination.Replaced → IfOk result (λ is. is ≡ true) }
    {
        let moved = self.unwritten_elsewhere(holders.files(), backup.moved.as_ref())?;
        Ok(
            moved.is_some()
                || holders.has_outside(&backup.bytes)
                || holders.place_of_part(&backup.bytes).is_some(),
        )
    }

    // Where the Shell has the file of a backup, or one that was moved, which had the same bytes and has no backup of its own.
    pub(crate) fn needed_for(
        &self,
        holders: &Holders<'_>,
        backup: &Backup,
    ) -> Result<Option<Elsewhere>, TransferFault>
        ensures gave_way { backup.now.moved ≡ Some Destination.Replaced → IfOk result (λ elsewhere. is_some elsewhere ≡ true) }
    {
        let own = self.elsewhere(holders, backup)?;
        if own.is_some() || self.has_needed(holders, &backup.bytes)? {
            return Ok(own);
        }
        for other in &self.backups.deleted {
            if other.bytes == backup.bytes
                && let Some(elsewhere) = self.unwritten_elsewhere(
                    holders.files(),
                    other.moved.as_ref(),
                )?
            {
                return Ok(Some(elsewhere));
            }
        }
        Ok(None)
    }

    // There is a backup of these bytes that is needed for its own file.
    pub(crate) fn has_needed(
        &self,
        holders: &Holders<'_>,
        bytes: &FileBytes,
    ) -> Result<bool, TransferFault> {
        for backup in self.backups.by_path.values() {
            if backup.bytes == *bytes && self.elsewhere(holders, backup)?.is_some() {
                return Ok(true);
            }
        }
        Ok(false)
    }
}
