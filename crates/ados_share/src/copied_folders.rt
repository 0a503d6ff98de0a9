//! A new directory that the script made as a copy of a folder, or to which it renamed one, gets the permissions of that folder.

use crate::account::Account;
use crate::departures::Departures;
use crate::mirror::Mirror;
use crate::update::Update;
use ados_ram::Entry;
use ados_transfer::{Manner, Record, TransferFault, lower};
use std::rt::Files;

// A new file, and the file of the folder that has its bytes.
#[derive(Clone, Copy)]
struct Pair<'a> {
    key: &'a str,
    original: &'a Record,
    // The Shell has the original too.
    is_copy: bool,
}

impl Mirror {
    // Before an update writes anything: notes the permissions of each folder for the new directory in which a file has the name and the bytes
    // of one in that folder.
    pub(crate) fn note_folders<R: AllocGlobal + Files>(
        &self,
        update: &Update<'_, R>,
        account: &mut Account,
    ) -> Result<(), TransferFault> {
        for (key, departure) in &update.departures.by_key {
            let key = key.as_str();
            let Some(bytes) = departure.entry.and_then(Entry::bytes) else {
                continue;
            };
            if bytes.len() == 0 || open_folder(&update.departures, account, key).is_none() {
                continue;
            }
            if let Some(original) = self.original_of(update.files, bytes) {
                let is_copy = original.is_kept(update.files.look(&original.place));
                let pair = Pair {
                    key,
                    original,
                    is_copy,
                };
                self.note_folders_above(update, pair, account)?;
            }
        }
        self.note_folders_of_large(update, account)
    }

    // The same, for the new directories in which a large file has the name that it had in a folder.
    fn note_folders_of_large<R: AllocGlobal + Files>(
        &self,
        update: &Update<'_, R>,
        account: &mut Account,
    ) -> Result<(), TransferFault> {
        for moved in self.moved(update.files)? {
            let (Some(path), Some(original)) = (
                &moved.new_path,
                self.records.get(moved.key.as_str()),
            ) else {
                continue;
            };
            let key = lower(self.alloc, path.as_str())?;
            let pair = Pair {
                key: key.as_str(),
                original,
                is_copy: false,
            };
            self.note_folders_above(update, pair, account)?;
        }
        Ok(())
    }

    // The folders above a file and those above its original belong together as long as the names below them are alike.
    fn note_folders_above<R: AllocGlobal + Files>(
        &self,
        update: &Update<'_, R>,
        pair: Pair<'_>,
        account: &mut Account,
    ) -> Result<(), TransferFault> {
        let (mut key, mut path) = (pair.key, pair.original.path.as_str());
        for _ in 0..pair.key.len() {
            let (Some((directory, name)), Some((folder, old_name))) = (
                open_folder(&update.departures, account, key),
                path.rsplit_once('/'),
            ) else {
                return Ok(());
            };
            if !name.eq_ignore_ascii_case(old_name) {
                return Ok(());
            }
            if let Some(rights) = self.rights_at(update.rt, folder, directory)? {
                let manner = if pair.is_copy {
                    Manner::Copied(rights)
                } else {
                    Manner::Kept(rights)
                };
                account
                    .moved
                    .insert(String::from_str(self.alloc, directory)?, manner)?;
            }
            (key, path) = (directory, folder);
        }
        Ok(())
    }
}

// The key of the directory of an object and the object's name in it, if that is a new directory that is written, of whose permissions
// nothing is known yet.
fn open_folder<'k>(
    departures: &Departures<'_>,
    account: &Account,
    key: &'k str,
) -> Option<(&'k str, &'k str)> {
    let (directory, name) = key.rsplit_once('/')?;
    let departure = departures.by_key.get(directory)?;
    let is_open = departure.is_new
        && departure.entry.is_some_and(Entry::is_directory)
        && !account.moved.contains_key(directory);
    is_open.then_some((directory, name))
}
