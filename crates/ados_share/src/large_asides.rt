//! Large files that are moved aside, since the script gave their old names to other objects before their new ones were free.

use crate::account::{Account, Aside};
use crate::large_moves::Moved;
use crate::mirror::Mirror;
use crate::renaming::renamed;
use ados_ram::Ram;
use ados_transfer::{Here, Record, TransferFault, lower};
use std::io::ErrorKind;
use std::rt::Files;

impl Mirror {
    // Moves a large file aside whose new name is in the directory, and gives it. That the system refuses it is noted.
    pub(crate) fn set_large_aside<R: AllocGlobal + Files>(
        &mut self,
        rt: &R,
        moved: &Moved,
        account: &mut Account,
    ) -> Result<Option<Aside>, TransferFault> {
        if moved.new_path.is_none() || account.is_meanwhile() {
            return Ok(None);
        }
        let path = moved.path.as_str();
        match self.moved_aside(rt, moved.key.as_str(), path, &Here::Large(moved.stamp)) {
            Ok(Some(aside)) => {
                self.forget(aside.key.as_str());
                Ok(Some(aside))
            }
            Ok(None) => Ok(None),
            Err(error) if error.kind() == ErrorKind::OutOfMemory => Err(TransferFault::NoMemory),
            Err(_) => {
                account.refuse(path)?;
                Ok(None)
            }
        }
    }

    // Gives those that were moved aside their new names, or else their old ones back; gives whether one got its new name.
    pub(crate) fn rename_asides<R: AllocGlobal + Files>(
        &mut self,
        rt: &R,
        files: &Ram,
        asides: Vec<Aside>,
        account: &mut Account,
    ) -> Result<bool, TransferFault> {
        let count = asides.len();
        let mut left = asides;
        // One may free the name of another one; what the system refused is tried once more.
        for _ in 0..=count {
            let mut blocked = Vec::new(self.alloc);
            for aside in left {
                if let Some(aside) = self.rename_aside(rt, files, aside)? {
                    blocked.push(aside)?;
                }
            }
            left = blocked;
        }
        let is_renamed = left.len() < count;
        self.return_asides(rt, left, account)?;
        Ok(is_renamed)
    }

    // Gives one that was moved aside its new name; if that is not free it is given back.
    fn rename_aside<R: AllocGlobal + Files>(
        &mut self,
        rt: &R,
        files: &Ram,
        aside: Aside,
    ) -> Result<Option<Aside>, TransferFault> {
        let (Some(path), Some(beside)) = (self.new_path(files, &aside.record.place)?, &aside.beside)
        else {
            return Ok(Some(aside));
        };
        let key = lower(self.alloc, path.as_str())?;
        if !self.may_have(key.as_str()) {
            return Ok(Some(aside));
        }
        match renamed(rt, beside.as_str(), path.as_str(), &aside.record.stamp)? {
            Some(stamp) => {
                let record = aside.record;
                self.keep(
                    key,
                    Record {
                        path,
                        stamp,
                        ..record
                    },
                )?;
                Ok(None)
            }
            None => Ok(Some(aside)),
        }
    }

    // Gives those that were moved aside their old names back. If something else has one by now the file stays where it is, and a line says
    // so.
    fn return_asides<R: AllocGlobal + Files>(
        &mut self,
        rt: &R,
        asides: Vec<Aside>,
        account: &mut Account,
    ) -> Result<(), TransferFault> {
        for aside in asides {
            let Aside {
                key,
                record,
                beside,
                ..
            } = aside;
            let Some(beside) = beside else {
                continue;
            };
            let path = record.path.clone()?;
            match renamed(rt, beside.as_str(), path.as_str(), &record.stamp)? {
                Some(stamp) => self.keep(key, Record { stamp, ..record })?,
                None => {
                    self.stand_ins.is_lost = true;
                    account.refuse(path.as_str())?;
                    self.report_aside(beside, path.as_str(), account)?;
                }
            }
        }
        Ok(())
    }
}
