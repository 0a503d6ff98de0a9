//! A second look at what was moved aside, before it goes: what another program wrote to it meanwhile is nowhere else.

use crate::account::{Account, Aside};
use crate::departure::remove;
use crate::mirror::Mirror;
use crate::update::Update;
use ados_ram::Entry;
use ados_transfer::{Below, Decision, Here, Last, Stamp, TransferFault, still_holds};
use std::rt::Files;
use std::{fs, io};

impl Mirror {
    // If a file that was moved aside has changed since, what took its place is deleted again. So it is not written, and all that was
    // moved aside gets its place back.
    pub(crate) fn heed_changes_aside<R: AllocGlobal + Files>(
        &mut self,
        update: &Update<'_, R>,
        account: &mut Account,
    ) -> Result<(), TransferFault> {
        let mut changed = Vec::new(self.alloc);
        for aside in &account.aside {
            let looked = has_changed(update.rt, aside);
            if !account.has_unwritten() && !matches!(looked, Ok(false)) {
                changed.push((aside.key.clone()?, aside.record.path.clone()?, looked))?;
            }
        }
        if changed.is_empty() {
            return Ok(());
        }
        for (key, departure) in update.departures.by_key.iter().rev() {
            if departure.is_within_kind_change
                && let Some(entry) = departure.entry
            {
                let object = (key.as_str(), departure.path.as_str());
                self.take_back(update.rt, object, entry, account)?;
            }
        }
        for (key, path, looked) in changed {
            let (key, path) = (key.as_str(), path.as_str());
            match looked {
                Ok(_) => {
                    self.reports
                        .fail(key, "both changed, kept this machine's", path)?
                }
                Err(error) => {
                    account.refuse(path)?;
                    self.not_done(&error, "cannot write", key, path)?;
                }
            }
        }
        Ok(())
    }

    // Deletes a file that was moved aside, after one more look: those before it took their time. If it has changed it stays where it is, and
    // a line says so.
    pub(crate) fn delete_aside<R: AllocGlobal + Files>(
        &mut self,
        rt: &R,
        aside: Aside,
        account: &mut Account,
    ) -> Result<(), TransferFault> {
        let is_same = matches!(has_changed(rt, &aside), Ok(false));
        let Aside { beside, record, .. } = aside;
        match beside {
            Some(beside) if is_same => {
                // What cannot be deleted is told at the end of the update.
                let _ = fs::remove_file(rt, beside.as_str());
                Ok(())
            }
            Some(beside) => self.report_aside(beside, record.path.as_str(), account),
            None => Ok(()),
        }
    }

    // Deletes an object that was written, if it is still that.
    fn take_back<R: AllocGlobal + Files>(
        &mut self,
        rt: &Below<'_, R>,
        object: (&str, &str),
        entry: &Entry,
        account: &mut Account,
    ) -> Result<(), TransferFault> {
        let (key, path) = object;
        let here = Here::look(rt, self.options.limits, path)?;
        if here.decision(None, Some(entry)) == Decision::Keep {
            // What cannot be deleted keeps the place, and a line says where the other object is.
            let _ = remove(rt, path, &here);
        }
        self.forget(key);
        account.add_unwritten_entry(path, entry)
    }
}

// A file that was moved aside is not what it was; or why the system does not say.
fn has_changed<R: AllocGlobal + Files>(rt: &R, aside: &Aside) -> io::Result<bool> {
    let Some(beside) = &aside.beside else {
        return Ok(false);
    };
    match &aside.record.last {
        Last::File(bytes) => Ok(!still_holds(rt, beside.as_str(), bytes)?),
        Last::StandIn(_) => {
            let found = fs::symlink_metadata(rt, beside.as_str())?;
            Ok(!aside.record.stamp.is_same_file(&Stamp::of(&found)))
        }
        Last::Directory => Ok(false),
    }
}
