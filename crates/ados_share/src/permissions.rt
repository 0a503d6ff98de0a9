//! Which permissions what is written to the folder gets: nobody is to read or write afterwards what he could not before.
ghost use Rattle.std.specs.{Prelude.{◌≡◌, IfOk, IfSome, Some, bit_and}, BTreeMap.{get_by_text}};

use crate::account::Account;
use crate::backups::Backup;
use crate::departure::Departure;
use crate::departures::Departures;
use crate::mirror::Mirror;
use crate::moves::Destination;
use ados_ram::{Entry, FileBytes, Ram};
use ados_transfer::{
    Here, Manner, Rights, TransferFault, folder_of, is_descendant, lower, step_into,
};
use std::fs;
use std::rt::Files;

// What a file, a script and a folder give to their user alone.
const OWN_FILE: u32 = 0o600;

const OWN_SCRIPT: u32 = 0o700;

const OWN_FOLDER: u32 = 0o700;

// Others may read a file, or enter a folder.
const READ_BY_OTHERS: u32 = 0o004;

const ENTERED_BY_OTHERS: u32 = 0o001;

impl Mirror {
    // Before an update writes anything: which permissions files have that the script moved to other places of a share, and whether a file
    // or a folder is gone that others could not read or enter.
    pub(crate) fn note_permissions<R: AllocGlobal + Files>(
        &self,
        rt: &R,
        departures: &Departures<'_>,
        account: &mut Account,
    ) -> Result<(), TransferFault> {
        for (key, destination) in self.moves.all() {
            if let Some(record) = self.records.get(key.as_str())
                && let Some(new) = self.destined_key(destination)?
                && let Some(rights) = self.rights_at(rt, record.path.as_str(), new.as_str())?
            {
                account.moved.insert(new, Manner::Kept(rights))?;
            }
        }
        for backup in self.backups.by_path.values() {
            self.note_moved(rt, backup, account)?;
        }
        for backup in &self.backups.deleted {
            self.note_moved(rt, backup, account)?;
        }
        account.is_private = self.loses_private(rt, departures);
        Ok(())
    }

    // Which permissions the file of a backup has, if the script moved it to another place of a share.
    fn note_moved<R: AllocGlobal + Files>(
        &self,
        rt: &R,
        backup: &Backup,
        account: &mut Account,
    ) -> Result<(), TransferFault> {
        if let Some(destination) = &backup.moved
            && let Some(new) = self.destined_key(destination)?
        {
            let manner = self.manner_at(rt, backup, new.as_str())?;
            account.moved.insert(new, manner)?;
        }
        Ok(())
    }

    // The key of the place in a share to which a file was moved.
    fn destined_key(&self, destination: &Destination) -> Result<Option<String>, TransferFault> {
        match destination {
            Destination::At(place) => self.key_of(place),
            Destination::Replaced => Ok(None),
        }
    }

    // The permissions that a file or a folder at this path leaves to an object of this key: who can't enter a folder above it that is not
    // above the object too has none.
    pub(crate) fn rights_at<R: AllocGlobal + Files>(
        &self,
        rt: &R,
        path: &str,
        key: &str,
    ) -> Result<Option<Rights>, TransferFault> {
        match rights_here(rt, path) {
            Some(rights) => Ok(Some(self.rights_out_of(rt, rights, path, key)?)),
            None => Ok(None),
        }
    }

    // The permissions that a file leaves to an object of this key whose backup this is.
    pub(crate) fn manner_at<R: AllocGlobal + Files>(
        &self,
        rt: &R,
        backup: &Backup,
        key: &str,
    ) -> Result<Manner, TransferFault> {
        match backup.manner {
            Manner::Kept(rights) => {
                let path = backup.original.as_str();
                Ok(Manner::Kept(self.rights_out_of(rt, rights, path, key)?))
            }
            manner => Ok(manner),
        }
    }

    // What these permissions of an object at this path leave to one of this key.
    fn rights_out_of<R: AllocGlobal + Files>(
        &self,
        rt: &R,
        rights: Rights,
        path: &str,
        key: &str,
    ) -> Result<Rights, TransferFault> {
        let mut rights = rights;
        let mut folder = String::new(self.alloc);
        for step in folder_of(path).split('/') {
            folder = step_into(self.alloc, folder.as_str(), step)?;
            if !is_descendant(lower(self.alloc, folder.as_str())?.as_str(), key) {
                let around = rights_here(rt, folder.as_str());
                rights = rights.within(around.unwrap_or(rights.closed()));
            }
        }
        Ok(rights)
    }

    // A file is gone that others could not read, or a folder that they could not enter, and it was not moved to a place of a share.
    fn loses_private<R: Files>(&self, rt: &R, departures: &Departures<'_>) -> bool {
        departures.by_key.iter().any(|(key, departure)| {
            departure.is_gone()
                && is_private(rt, departure)
                && !self.is_moved(key.as_str(), departures)
        })
    }

    // The file with this key was moved to a place of a share, or an object that is written has its bytes.
    fn is_moved(&self, key: &str, departures: &Departures<'_>) -> bool {
        if let Some(Destination::At(place)) = self.moves.destination(key) {
            return self.volumes.of_place(place).is_some();
        }
        let Some(record) = self.records.get(key) else {
            return false;
        };
        departures.by_key.values().any(|departure| {
            departure
                .entry
                .and_then(Entry::bytes)
                .is_some_and(|bytes| record.is_file_of(bytes))
        })
    }

    // The permissions that an object of this key is to have, where these are not those of what is in its place, or of what is new: those of
    // the file that was moved there, or that has its bytes; or none for others.
    pub(crate) fn manner_of<R: AllocGlobal + Files>(
        &self,
        rt: &R,
        files: &Ram,
        object: (&str, &Entry),
        here: &Here,
        account: &Account,
    ) -> Result<Option<Manner>, TransferFault>
        ensures moved { IfSome (get_by_text account.now.moved object.entry.0.now) (λ manner. IfOk result (λ given. given ≡ Some manner)) }
    {
        let (key, entry) = object;
        if let Some(manner) = account.moved_manner(key) {
            return Ok(Some(manner));
        }
        if here.rights().is_some() {
            return Ok(None);
        }
        let known = match entry.bytes() {
            Some(bytes) => self.manner_of_bytes(rt, files, (key, bytes), account)?,
            None => None,
        };
        match known {
            None if account.is_private => Ok(Some(Manner::Mode(own_mode(entry)))),
            _ => Ok(known),
        }
    }

    // The permissions that a file of this key gets from the file of the folder that has its bytes: one that the Shell no longer has, since
    // this may be its new place, or else one of which this may be a copy.
    fn manner_of_bytes<R: AllocGlobal + Files>(
        &self,
        rt: &R,
        files: &Ram,
        object: (&str, &FileBytes),
        account: &Account,
    ) -> Result<Option<Manner>, TransferFault> {
        let (key, bytes) = object;
        let original = self.original_of(files, bytes);
        if let Some(record) = original
            && !record.is_kept(files.look(&record.place))
        {
            let rights = self.rights_at(rt, record.path.as_str(), key)?;
            return Ok(rights.map(Manner::Kept));
        }
        if let Some(manner) = account.manner_of(bytes) {
            return Ok(Some(manner));
        }
        if let Some(backup) = self.backups.of_bytes(bytes) {
            return Ok(Some(self.manner_at(rt, backup, key)?));
        }
        match original {
            Some(record) if bytes.len() > 0 => {
                let rights = self.rights_at(rt, record.path.as_str(), key)?;
                Ok(rights.map(Manner::Copied))
            }
            _ => Ok(None),
        }
    }
}

// The permissions of a file or a folder of this machine.
fn rights_here<R: Files>(rt: &R, path: &str) -> Option<Rights> {
    match fs::symlink_metadata(rt, path) {
        Ok(found) if found.is_file() || found.is_dir() => Some(Rights::of(&found)),
        _ => None,
    }
}

// A file is there that others may not read, or a folder that they may not enter.
fn is_private<R: Files>(rt: &R, departure: &Departure<'_>) -> bool {
    let Ok(found) = fs::symlink_metadata(rt, departure.path.as_str()) else {
        return false;
    };
    let needed = if found.is_dir() {
        ENTERED_BY_OTHERS
    } else {
        READ_BY_OTHERS
    };
    (found.is_dir() || found.is_file()) && Rights::of(&found).mode & needed == 0
}

// What a new object gives to its user alone.
fn own_mode(entry: &Entry) -> u32
    ensures others { bit_and result 0o077 ≡ 0 }
    ensures user { bit_and result 0o600 ≡ 0o600 }
{
    if entry.is_directory() {
        OWN_FOLDER
    } else if entry.bits.script {
        OWN_SCRIPT
    } else {
        OWN_FILE
    }
}
