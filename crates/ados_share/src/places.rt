//! Paths of the folders of a share and places of its directories, from one to the other.

use crate::mirror::Mirror;
use ados_ram::Place;
use ados_transfer::{TransferFault, lower, path_below, spelled, step_into};

impl Mirror {
    // The key of a place, that of the volume's folder for its directory; none outside of all directories.
    pub(crate) fn key_of(&self, place: &Place) -> Result<Option<String>, TransferFault> {
        let Some(volume) = self.volumes.of_place(place) else {
            return Ok(None);
        };
        let names = place.relative_names(&volume.place);
        let path = path_below(self.alloc, volume.label.as_str(), names)?;
        Ok(Some(lower(self.alloc, path.as_str())?))
    }

    // The place of a key or of a path.
    pub(crate) fn place_of(&self, path: &str) -> Result<Place, TransferFault> {
        self.volumes.place_of(path)
    }

    // The path of a place: each object that both sides have is spelled as it is on this machine. None outside of all directories.
    pub(crate) fn path_of(&self, place: &Place) -> Result<Option<String>, TransferFault> {
        let Some(volume) = self.volumes.of_place(place) else {
            return Ok(None);
        };
        let mut path = volume.label.clone()?;
        for name in place.relative_names(&volume.place) {
            let below = step_into(self.alloc, path.as_str(), spelled(name)?)?;
            let key = lower(self.alloc, below.as_str())?;
            path = match self.records.get(key.as_str()) {
                Some(record) => record.path.clone()?,
                None => below,
            };
        }
        Ok(Some(path))
    }
}
