//! Copies of stand-ins, as `Copy CLONE` makes them: files of the Shell for which the folder of a share has none.

use crate::account::Account;
use crate::mirror::Mirror;
use ados_ram::{Place, Ram};
use ados_transfer::{TransferFault, is_stand_in};

impl Mirror {
    // Notes the Shell's copies of stand-ins. This is before large files are moved aside: those have no records then.
    pub(crate) fn note_copies(
        &self,
        files: &Ram,
        account: &mut Account,
    ) -> Result<(), TransferFault> {
        for volume in self.volumes.all() {
            let places = files.contents(&volume.place)?;
            self.note_copies_at(files, &places, account)?;
        }
        Ok(())
    }

    // Notes those at these places.
    fn note_copies_at(
        &self,
        files: &Ram,
        places: &[Place],
        account: &mut Account,
    ) -> Result<(), TransferFault> {
        for place in places {
            if !files.look(place).is_some_and(|entry| is_stand_in(entry))
                || self.has_stand_in_at(files, place)
            {
                continue;
            }
            if let Some(path) = self.path_of(&files.written(place)?)? {
                account.add_copy(path)?;
            }
        }
        Ok(())
    }

    // The stand-in of a large file of the folder is at a place.
    fn has_stand_in_at(&self, files: &Ram, place: &Place) -> bool {
        self.stand_ins.keys.iter().any(|key| {
            self.records.get(key.as_str()).is_some_and(|record| record.place == *place
                && record.is_kept(files.look(place)))
        })
    }
}
