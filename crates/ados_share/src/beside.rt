//! What the script made above the top of a disk, beside the directory that is kept alike with a folder: this machine does not get it, so it
//! may hold the only bytes of what the script deletes.
ghost use Rattle.std.specs.{Prelude.{◌≡◌, true, OnOk, string_bytes}, Option.{is_some, option_map}};

use crate::account::Account;
use crate::mirror::Mirror;
use ados_ram::{Entry, Place, Ram};
use ados_text::NoMemory;
use ados_transfer::{TransferFault, Volume, shell_path, spelled};
use std::alloc::Global;

impl Mirror {
    // A file that stands above the top of a disk, and nowhere else, counts as not written: what it was made from is not deleted.
    pub(crate) fn owe_beside(&self, files: &Ram, account: &mut Account) -> Result<(), TransferFault>
        ensures kept { is_some account.old.unwritten ≡ true → account.new ≡ account.old }
        ensures rest { account.new ≡ record account.old { unwritten = account.new.unwritten } }
    {
        if account.has_unwritten() {
            return Ok(());
        }
        match self.first_beside(files)? {
            Some(place) => self.owe_at(files, &place, account),
            None => Ok(()),
        }
    }

    // What stands at a place counts as not written.
    #[tactic(auto, using(crate::proofs::AccountLemmas::first_is_some))]
    fn owe_at(&self, files: &Ram, place: &Place, account: &mut Account) -> Result<(), TransferFault>
        ensures owed { OnOk result (is_some (option_map string_bytes account.new.unwritten) ≡ true) }
        ensures rest { account.new ≡ record account.old { unwritten = account.new.unwritten } }
    {
        let path = shell_path(self.alloc, &files.written(place)?)?;
        account.add_unwritten(path.as_str())
    }

    // The first file that stands above the top of a disk and has bytes that no file of the folders had.
    fn first_beside(&self, files: &Ram) -> Result<Option<Place>, TransferFault> {
        let mut beside = Vec::new(self.alloc);
        for volume in self.volumes.all() {
            for place in above(self.alloc, files, volume)? {
                beside.push(place)?;
            }
        }
        for place in beside {
            if self.is_nowhere_else(files, &place) {
                return Ok(Some(place));
            }
        }
        Ok(None)
    }

    // A file with bytes is at a place, and none of the folders had them at the last comparison.
    fn is_nowhere_else(&self, files: &Ram, place: &Place) -> bool {
        match files.look(place).and_then(Entry::bytes) {
            Some(bytes) => bytes.len() > 0 && self.original_of(files, bytes).is_none(),
            None => false,
        }
    }

    /// Reports of each device the first object that stands beside its directory: its path led above the top of a disk, where nothing can be on
    /// an Amiga, and nothing of it comes to this machine.
    pub(crate) fn report_beside(&mut self, files: &Ram) -> Result<(), TransferFault> {
        for volume in self.volumes.all() {
            let Some(device) = &volume.device else {
                continue;
            };
            if let Some(place) = above(self.alloc, files, volume)?.first() {
                let path = shell_path(self.alloc, place)?;
                self.reports.report_beside(spelled(device)?, path.as_str())?;
            }
        }
        Ok(())
    }
}

// What stands above the top of a volume that is a disk.
fn above(alloc: Global, files: &Ram, volume: &Volume) -> Result<Vec<Place>, NoMemory> {
    let (Some(_), Some(above)) = (&volume.device, volume.place.copy()?.parent()) else {
        return Ok(Vec::new(alloc));
    };
    let mut places = files.contents(&above)?;
    places.retain(|place| !volume.has(place));
    Ok(places)
}
