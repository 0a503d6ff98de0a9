//! Where the programs of a share start, and when none does.
ghost use Rattle.std.specs.{Prelude.{◌≡◌, true, IfOk}, Option.{is_some}};
ghost use Rattle.ados_share.specs.Account.{barred_by};

use crate::account::Account;
use crate::mirror::Mirror;
use ados_ram::Place;
use ados_transfer::{Below, TransferFault, step_into};
use std::fs;
use std::rt::Files;

/// Where a program starts, by the current directory of its shell.
#[derive(Drop)]
pub enum StartPlace {
    /// Where this process was started: the directory is outside the share.
    Home,
    /// In the folder to which this path leads.
    Folder(String),
    /// Nowhere: the share has no such folder, or a link is on the way to it; or the system refused to write what the script made.
    Nowhere,
}

impl Mirror {
    // After an update notes what the system refused to write at it. With `dry` nothing was to be written.
    pub(crate) fn note_refused(&mut self, account: &mut Account)
        ensures refused { self.new.refused ≡ barred_by self.old.options.dry account.old.refused }
    {
        let refused = account.refused.take();
        self.refused = if self.options.dry { None } else { refused };
    }

    /// Where a program starts whose shell has this current directory, or is outside the share. If the share has no folder for it, a line
    /// reports that: a link is not followed, which could lead outside of the share. No program starts if the system refused to write
    /// something at the last update, which a line names: it would work on a folder that is not what the script made of it.
    pub fn start_place<R: AllocGlobal + Files>(
        &mut self,
        rt: &R,
        place: Option<&Place>,
    ) -> Result<StartPlace, TransferFault>
        ensures barred { is_some self.old.refused ≡ true → IfOk result (λ start. start ≡ StartPlace.Nowhere) }
    {
        let start = match place {
            Some(place) => self.own_place(rt, place)?,
            None => StartPlace::Home,
        };
        let Some(path) = &self.refused else {
            return Ok(start);
        };
        if !matches!(&start, StartPlace::Nowhere) {
            self.reports.report_once("no program starts, since it is not written", path.as_str())?;
        }
        Ok(StartPlace::Nowhere)
    }

    // Where a program starts as far as the current directory matters: nowhere in one that is not written.
    fn own_place<R: AllocGlobal + Files>(
        &mut self,
        rt: &R,
        place: &Place,
    ) -> Result<StartPlace, TransferFault>
        ensures refused { self.new.refused ≡ self.old.refused }
    {
        let (Some(path), Some(key)) = (self.path_of(place)?, self.key_of(place)?) else {
            return Ok(StartPlace::Home);
        };
        if let Some(reason) = self.reason_left_out(key.as_str()) {
            let text = format!(in self.alloc; "no program starts there, since {reason}")?;
            self.reports.report(text.as_str(), path.as_str())?;
            return Ok(StartPlace::Nowhere);
        }
        if let Some((volume, below)) = self.volumes.of_path(path.as_str())
            && self.has_folder(&Below::new(rt, &self.volumes), volume.label.as_str(), below)?
        {
            return Ok(StartPlace::Folder(volume.real(self.alloc, below)?));
        }
        self.reports.report(
            "no program starts there, since it is no folder",
            path.as_str(),
        )?;
        Ok(StartPlace::Nowhere)
    }

    // What is below the folder of a volume is a folder, to which folders alone lead, and no link.
    fn has_folder<R: AllocGlobal + Files>(
        &self,
        rt: &Below<'_, R>,
        label: &str,
        below: &str,
    ) -> Result<bool, TransferFault> {
        if rt.is_gone(label) {
            return Ok(false);
        }
        let mut path = String::from_str(self.alloc, label)?;
        for name in below.split('/').filter(|name| !name.is_empty()) {
            path = step_into(self.alloc, path.as_str(), name)?;
            if !fs::symlink_metadata(rt, path.as_str()).is_ok_and(|found| found.is_dir()) {
                return Ok(false);
            }
        }
        Ok(true)
    }
}
