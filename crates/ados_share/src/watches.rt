//! Stand-ins are followed: what each event did with them. One event is one command, so a stand-in that is away after it was moved or
//! deleted by it.

use crate::mirror::Mirror;
use crate::renaming::blocked_text;
use ados_ram::{Bits, Place, Ram};
use ados_text::{NoMemory, Text};
use ados_transfer::{Last, Record, TransferFault, is_stand_in_of};
use std::alloc::Global;
use std::rt::Files;

// What one event did with a stand-in.
#[derive(Drop)]
enum Fate {
    // It is where it was, or elsewhere, with these bits.
    Stands(Option<Place>, Bits),
    // It is deleted.
    Deleted,
    // It is no longer one: it was written to, or has another comment.
    Altered,
}

impl Fate {
    // The script can read it, as a file without bytes.
    fn is_readable(&self) -> bool {
        matches!(self, Fate::Stands(_, bits) if bits.read)
    }
}

impl Mirror {
    /// Looks at the stand-ins after an event: one that was moved is followed to its new place. The file of one that had bit d and never
    /// bit r is deleted on this machine too if it is deleted. A line reports one that has bit r.
    pub fn watch(&mut self, files: &Ram) -> Result<(), TransferFault> {
        for key in &self.stand_ins.keys {
            let Some(record) = self.records.get_mut(key.as_str()) else {
                continue;
            };
            if record.watch.is_over {
                continue;
            }
            let fate = fate_of(self.alloc, record, files)?;
            if matches!(fate, Fate::Altered) || fate.is_readable() {
                self.stand_ins.is_lost = true;
            }
            if fate.is_readable() {
                self.reports.report_once(
                    "has bit r, but no bytes in the Shell",
                    record.path.as_str(),
                )?;
            }
            if matches!(fate, Fate::Altered | Fate::Deleted) {
                record.place = self.volumes.place_of(key.as_str())?;
            }
            follow(record, fate);
        }
        Ok(())
    }

    // An object of this path comes in at a place: another one's stand-in that was moved there is gone, and its file comes in again under its
    // old name. No program starts from then on: the script means another file by that name.
    pub(crate) fn release<R: AllocGlobal + Files>(
        &mut self,
        rt: &R,
        key: &str,
        path: &str,
        place: &Place,
    ) -> Result<(), TransferFault> {
        let mut gone = Vec::new(self.alloc);
        for other in &self.stand_ins.keys {
            let record = self.records.get(other.as_str());
            if other.as_str() != key && record.is_some_and(|record| record.place == *place) {
                gone.push(other.clone()?)?;
            }
        }
        for other in &gone {
            if let Some(record) = self.records.get(other.as_str()) {
                let text = blocked_text(rt, &self.volumes, path, None)?;
                self.reports
                    .report_taken(text.as_str(), record.path.as_str(), path)?;
            }
            self.forget(other.as_str());
        }
        Ok(())
    }
}

// Keeps what an event did with the stand-in of a record.
fn follow(record: &mut Record, fate: Fate) {
    match fate {
        Fate::Stands(place, bits) => {
            record.watch = record.watch.after(bits);
            if let Some(place) = place {
                record.place = place;
            }
        }
        Fate::Deleted => record.watch = record.watch.over(false),
        Fate::Altered => record.watch = record.watch.over(true),
    }
}

// What an event did with the stand-in of a record.
fn fate_of(alloc: Global, record: &Record, files: &Ram) -> Result<Fate, NoMemory> {
    let Last::StandIn(comment) = &record.last else {
        return Ok(Fate::Deleted);
    };
    let seen = files.look(&record.place);
    if let Some(entry) = seen.filter(|entry| is_stand_in_of(entry, comment)) {
        return Ok(Fate::Stands(None, entry.bits));
    }
    let Some(place) = place_of_comment(alloc, files, comment)? else {
        return Ok(if seen.is_some() {
            Fate::Altered
        } else {
            Fate::Deleted
        });
    };
    match files.look(&place) {
        Some(entry) if is_stand_in_of(entry, comment) => Ok(Fate::Stands(Some(place), entry.bits)),
        _ => Ok(Fate::Altered),
    }
}

// Where a file has this comment.
fn place_of_comment(alloc: Global, files: &Ram, comment: &Text) -> Result<Option<Place>, NoMemory> {
    for place in files.contents(&Place::root(alloc))? {
        let is_there = files.look(&place).is_some_and(|entry| {
            !entry.is_directory() && entry.comment.as_bytes() == comment.as_bytes()
        });
        if is_there {
            return Ok(Some(place));
        }
    }
    Ok(None)
}
