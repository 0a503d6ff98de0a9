//! Temporary files in the folders of a share: how a backup is written to one, and those that could not be removed.

use crate::account::Account;
use crate::backups::Backup;
use crate::failures::with_more;
use crate::mirror::Mirror;
use ados_transfer::{Below, Look, Obstacle, TransferFault, no_memory, path_of};
use std::rt::Files;
use std::{fs, io, mem};

// Stands for the name of any temporary file.
const TEMPORARY: &str = "temporary";

impl Mirror {
    // Writes a backup to a temporary file in the folder of its volume, and gives its path. Who can't enter a folder above the original has
    // no rights to it.
    pub(crate) fn write_backup<R: AllocGlobal + Files>(
        &self,
        rt: &R,
        backup: &Backup,
    ) -> io::Result<String> {
        let root = self.volumes.root_of(backup.original.as_str());
        let in_root = path_of(self.alloc, root, TEMPORARY)?;
        match self.manner_at(rt, backup, in_root.as_str()) {
            Ok(manner) => backup.write_synced(rt, root, manner),
            Err(_) => Err(no_memory()),
        }
    }

    // After an update reports each temporary file that it left, unless that is told in another way. Those are kept in mind that are still
    // there: another program may have removed one of an update before.
    pub(crate) fn report_temporaries<R: AllocGlobal + Files>(
        &mut self,
        rt: &Below<'_, R>,
        account: &Account,
    ) -> Result<(), TransferFault> {
        for path in rt.temporaries()? {
            if self.backups.has(path.as_str()) {
                continue;
            }
            if account.kept.contains(&path) {
                self.temporaries.push(path)?;
            } else {
                self.report_temporary(path)?;
            }
        }
        for path in mem::replace(&mut self.temporaries, Vec::new(self.alloc)) {
            if fs::symlink_metadata(rt, path.as_str()).is_ok() {
                self.temporaries.push(path)?;
            }
        }
        Ok(())
    }

    // Reports in one line the temporary files that other runs left, or that they use now.
    pub(crate) fn report_others(&mut self, look: &Look) -> Result<(), TransferFault> {
        let mut first = None;
        let mut more = 0usize;
        for one in &look.left_alone {
            if one.obstacle == Obstacle::Temporary {
                if first.is_none() {
                    first = Some(one);
                } else {
                    more = more.saturating_add(1);
                }
            }
        }
        let Some(first) = first else {
            return Ok(());
        };
        let text = first.obstacle.text();
        let path = self.volumes.shown(first.path.as_str())?;
        let line = format!(in self.alloc; "{text}: {path}")?;
        self.reports.report_line(with_more(self.alloc, line, more)?)
    }

    // Reports a temporary file that is left.
    pub(crate) fn report_temporary(&mut self, path: String) -> Result<(), TransferFault> {
        self.reports
            .report_once("temporary file left", path.as_str())?;
        self.temporaries.push(path)?;
        Ok(())
    }
}
