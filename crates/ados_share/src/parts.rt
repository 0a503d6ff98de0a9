//! Files of the folder whose bytes stand among others in a file that the script made outside of the directories, as Join makes them: one is
//! not deleted, and nothing takes its place, while no other file has its bytes.

use crate::around::Around;
use crate::beginning::Beginning;
use crate::contents::digest;
use crate::departures::Departures;
use crate::elsewhere::Elsewhere;
use crate::holders::{Holder, Holders};
use crate::mirror::Mirror;
use crate::sought::{Content, Sought};
use ados_ram::{Entry, FileBytes};
use ados_transfer::{Last, TransferFault};

impl Mirror {
    // Of each file that is to be deleted or written over it is noted if its bytes stand among others in a file outside of the directory, if
    // the Shell does not have them as a whole, and if they do so in one that is in it.
    pub(crate) fn find_parts(
        &mut self,
        holders: &mut Holders<'_>,
        departures: &mut Departures<'_>,
    ) -> Result<(), TransferFault> {
        let contents = self.contents_of(departures)?;
        self.look_for(holders, contents)?;
        for (key, departure) in &mut departures.by_key {
            if !departure.is_new
                && let Some(record) = self.records.get(key.as_str())
                && let Last::File(bytes) = &record.last
            {
                if let Some(around) = holders.around(&record.place, bytes) {
                    departure.inside = Some(around.copy()?);
                }
                if departure.elsewhere.is_none() {
                    departure.elsewhere = self.part_elsewhere(holders, bytes)?;
                }
            }
        }
        Ok(())
    }

    // What is to be looked for of them: what is foreign, or elsewhere. What takes the place of the old bytes may have them too.
    fn contents_of(&self, departures: &Departures<'_>) -> Result<Vec<Content>, TransferFault> {
        let mut contents = Vec::new(self.alloc);
        for (key, departure) in &departures.by_key {
            let Some(record) = self.records.get(key.as_str()) else {
                continue;
            };
            let Last::File(bytes) = &record.last else {
                continue;
            };
            let is_foreign = self.contents.are_foreign(bytes);
            let is_elsewhere = departure.elsewhere.is_some();
            if departure.is_new || !(is_foreign || is_elsewhere) {
                continue;
            }
            let later = departure.entry.and_then(Entry::bytes);
            contents.push(Content {
                bytes: bytes.copy()?,
                is_foreign,
                is_elsewhere,
                place: record.place.copy()?,
                inside: Around::if_within(self.alloc, &record.place, later, bytes)?,
            })?;
        }
        Ok(contents)
    }

    // The same of the backups, and of what was deleted or written over.
    pub(crate) fn contents_of_backups(
        &self,
        holders: &Holders<'_>,
    ) -> Result<Vec<Content>, TransferFault> {
        let files = holders.files();
        let mut contents = Vec::new(self.alloc);
        let backups = self.backups.by_path.values();
        for backup in backups.chain(self.backups.deleted.iter()) {
            let place = self.place_of(backup.original.as_str())?;
            let later = files.look(&place).and_then(Entry::bytes);
            let moved = self.unwritten_elsewhere(files, backup.moved.as_ref())?;
            contents.push(Content {
                bytes: backup.bytes.copy()?,
                is_foreign: self.contents.are_foreign(&backup.bytes),
                is_elsewhere: moved.is_some() || holders.has_outside(&backup.bytes),
                inside: Around::if_within(self.alloc, &place, later, &backup.bytes)?,
                place,
            })?;
        }
        Ok(contents)
    }

    // Where the Shell has these bytes among others, of those that were looked for.
    pub(crate) fn part_elsewhere(
        &self,
        holders: &Holders<'_>,
        bytes: &FileBytes,
    ) -> Result<Option<Elsewhere>, TransferFault> {
        match holders.place_of_part(bytes) {
            Some(place) => Ok(Some(Elsewhere::Part(self.copy_path(holders.files(), place)?))),
            None => Ok(None),
        }
    }

    // Looks for contents in the files of the Shell that are not as they were at the beginning. What the script made in the directory of foreign
    // ones counts as foreign too. No more of its files are looked at than it takes to know that, and if what is elsewhere is in one of them.
    pub(crate) fn look_for(
        &mut self,
        holders: &mut Holders<'_>,
        contents: Vec<Content>,
    ) -> Result<(), TransferFault> {
        if contents.is_empty() {
            return Ok(());
        }
        let mut sought = Sought::new(self.alloc, contents)?;
        for holder in new_ones(&self.beginning, holders.outside()?) {
            sought.note_outside(holder.place(), holder.bytes())?;
        }
        let lacks_inside = sought.lacks_inside();
        for holder in new_ones(&self.beginning, holders.inside()?) {
            let bytes = holder.bytes();
            if (lacks_inside || !self.contents.are_foreign(bytes))
                && sought.note_inside(holder.place(), bytes)?
            {
                self.contents.add_foreign(digest(bytes))?;
            }
        }
        holders.set_parts(sought);
        Ok(())
    }
}

// Those of some files that are not as they were at the beginning.
fn new_ones<'h, 'a>(beginning: &Beginning, holders: Vec<&'h Holder<'a>>) -> Vec<&'h Holder<'a>> {
    let mut holders = holders;
    holders.retain(|holder| !beginning.had(holder.place(), holder.bytes()));
    holders
}
