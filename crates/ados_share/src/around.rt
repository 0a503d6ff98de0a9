//! Files of the directory of a share in which the bytes of another one stand among others.
ghost use Rattle.std.specs.{Prelude.{◌≡◌, IfOk}, Option.{option_copied, option_map}};
ghost use Rattle.ados_share.specs.Around.{file_around, is_within};

use crate::mirror::Mirror;
use crate::sought::LEAST;
use ados_ram::{FileBytes, Place};
use ados_text::NoMemory;
use ados_transfer::{TransferFault, holds};
use memchr::memmem;
use std::alloc::Global;
use std::rt::Files;

/// A file of the directory in which contents stand among others.
#[derive(Drop)]
pub struct Around {
    /// Where it is.
    pub place: Place,
    /// What it holds.
    pub bytes: FileBytes,
}

impl Around {
    /// The file at a place that holds these bytes.
    pub fn of(place: &Place, bytes: &FileBytes) -> Result<Around, NoMemory>
        ensures { IfOk result (λ around. around ≡ record { place = place.now; bytes = bytes.now }) }
    {
        Ok(Around {
            place: place.copy()?,
            bytes: bytes.copy()?,
        })
    }

    /// The file at a place that holds `all`, if other bytes stand in it: fewer than 16 at its beginning, more anywhere. Nothing if there is
    /// no such file.
    pub fn if_within(
        alloc: Global,
        place: &Place,
        all: Option<&FileBytes>,
        bytes: &FileBytes,
    ) -> Result<Option<Around>, NoMemory>
        ensures { IfOk result (λ found. option_map (λ around. around.bytes) found ≡ file_around bytes.now (option_copied all.entry)) }
    {
        match all {
            Some(all) if is_within(alloc, all, bytes)? => Ok(Some(Around::of(place, all)?)),
            _ => Ok(None),
        }
    }

    /// An equal value.
    pub fn copy(&self) -> Result<Around, NoMemory>
        ensures { IfOk result (λ around. around ≡ self.now) }
    {
        Around::of(&self.place, &self.bytes)
    }
}

impl Mirror {
    // A file is on this machine as it was in the Shell when contents were found in it.
    pub(crate) fn is_written<R: AllocGlobal + Files>(
        &self,
        rt: &R,
        around: &Around,
    ) -> Result<bool, TransferFault> {
        let Some(key) = self.key_of(&around.place)? else {
            return Ok(false);
        };
        match self.records.get(key.as_str()) {
            Some(record) => Ok(
                record.is_file_of(&around.bytes) && holds(rt, record.path.as_str(), &around.bytes),
            ),
            None => Ok(false),
        }
    }
}

// Bytes are kept within others. Those that are few stand in others by chance, and have to begin them.
pub(crate) fn is_within(alloc: Global, all: &FileBytes, bytes: &FileBytes) -> Result<bool, NoMemory>
    ensures { IfOk result (λ found. found ≡ is_within bytes.now all.now) }
{
    let bytes = bytes.to_vec(alloc)?;
    if all.starts_with(&bytes) {
        return Ok(true);
    }
    if bytes.len() < LEAST {
        return Ok(false);
    }
    let all = all.to_vec(alloc)?;
    Ok(memmem::find(&all, &bytes).is_some())
}
