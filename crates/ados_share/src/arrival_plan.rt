//! The planned arrivals of one look at the folder of a share.

use crate::arrivals::{Arrival, Coming};
use crate::mirror::Mirror;
use ados_names::PATH_LIMIT;
use ados_ram::{Entry, FileBytes, Limits, Place, Ram};
use ados_text::NoMemory;
use ados_transfer::{
    Here, Kind, LeftAlone, Obstacle, Room, Seen, ShareLines, TransferFault, is_shell_script,
};
use std::alloc::Global;
use std::collections::BTreeSet;
use std::time::SystemTime;

/// Arrivals for some files: first of what is gone, the deepest first, then of what is there.
#[derive(Drop)]
pub struct ArrivalPlan<'a> {
    alloc: Global,
    files: &'a Ram,
    room: Room,
    now: SystemTime,
    // The keys of what is deleted in the Shell's files.
    deleted: BTreeSet<String>,
    // The keys of the directories that are made in them.
    made: BTreeSet<String>,
    arrivals: Vec<Arrival>,
    // What does not come in, though it is there.
    left_out: Vec<LeftAlone>,
}

impl<'a> ArrivalPlan<'a> {
    /// No arrivals, for these files, within these limits, at this time.
    pub fn new(
        alloc: Global,
        limits: Limits,
        files: &'a Ram,
        now: SystemTime,
    ) -> Result<ArrivalPlan<'a>, TransferFault> {
        Ok(ArrivalPlan {
            alloc,
            files,
            room: Room::new(alloc, limits, files)?,
            now,
            deleted: BTreeSet::new(alloc),
            made: BTreeSet::new(alloc),
            arrivals: Vec::new(alloc),
            left_out: Vec::new(alloc),
        })
    }

    /// The arrivals.
    pub fn into_arrivals(self) -> Vec<Arrival> {
        self.arrivals
    }

    /// The files and folders that do not come in, though they are there: their paths are too long for the Shell, or they can't be read.
    pub fn left_out(&self) -> &[LeftAlone] {
        self.left_out.as_slice()
    }

    /// An object does not come in, though it is there.
    pub fn leave_out(&mut self, obstacle: Obstacle, path: &str) -> Result<(), TransferFault> {
        let path = String::from_str(self.alloc, path)?;
        self.left_out.push(LeftAlone { obstacle, path })?;
        Ok(())
    }

    // Reports that the path of an object is too long for the Shell.
    fn leave_too_long(&mut self, mirror: &mut Mirror, path: &str) -> Result<(), TransferFault> {
        self.leave_out(Obstacle::LongPath, path)?;
        mirror.reports.report_once(Obstacle::LongPath.text(), path)
    }

    /// The time of the look.
    pub fn now(&self) -> &SystemTime {
        &self.now
    }

    /// The Shell's files, from before the arrivals.
    pub fn files(&self) -> &'a Ram {
        self.files
    }

    /// What is at a place, unless it is deleted by now.
    pub fn look(&self, key: &str, place: &Place) -> Option<&'a Entry> {
        if self.deletes(key) {
            None
        } else {
            self.files.look(place)
        }
    }

    /// An object is deleted in the Shell's files.
    pub fn deletes(&self, key: &str) -> bool {
        self.deleted.contains(key)
    }

    /// The limits of the Shell's files.
    pub fn limits(&self) -> Limits {
        self.room.limits()
    }

    /// There can be no more objects in the Shell's files.
    pub fn is_full(&self) -> bool {
        !self.room.has_place()
    }

    /// Adds the arrival by which an object is deleted; a directory only if everything in it is.
    pub fn add_deletion(
        &mut self,
        mirror: &mut Mirror,
        arrival: Arrival,
        place: &Place,
        entry: &Entry,
    ) -> Result<(), TransferFault> {
        if entry.is_directory() {
            let children = self.files.children(place)?;
            if children.len() > self.deleted_in(arrival.key.as_str()) {
                return Ok(());
            }
        }
        let mut lines = ShareLines::new(self.alloc);
        lines.add_deletion(place, entry)?;
        self.deleted.insert(arrival.key.clone()?)?;
        self.room.free(Some(entry));
        self.add(mirror, arrival, lines)
    }

    // How many objects directly in a directory are deleted.
    fn deleted_in(&self, directory: &str) -> usize {
        self.deleted
            .iter()
            .filter(|key| is_in(directory, key.as_str()))
            .count()
    }

    /// Adds the arrival of what this machine has, in place of an entry. A file for which there is no room gets a stand-in.
    pub fn add_object(
        &mut self,
        mirror: &mut Mirror,
        key: &str,
        seen: &Seen,
        here: Here,
        place: &Place,
    ) -> Result<(), TransferFault> {
        let entry = self.look(key, place);
        if place.path(self.alloc)?.as_bytes().len() > PATH_LIMIT {
            return self.leave_too_long(mirror, seen.path.as_str());
        }
        let Some(stamp) = here.stamp() else {
            return Ok(());
        };
        let mut lines = ShareLines::new(self.alloc);
        self.add_way(mirror, place, &mut lines)?;
        let entry = self.cleared(&here, place, entry, &mut lines)?;
        let coming = if here.is_directory() {
            lines.add_directory(place)?;
            self.made.insert(String::from_str(self.alloc, key)?)?;
            Coming::Directory
        } else if let Some(bytes) = self.fitting(here, entry) {
            let is_script = seen.kind == Kind::PROGRAM && is_script_file(self.alloc, &bytes)?;
            lines.add_file(place, entry, is_script)?;
            Coming::File(bytes)
        } else {
            let comment = mirror.stand_ins.next_comment(stamp.size)?;
            lines.add_stand_in(place, entry, &comment)?;
            Coming::StandIn(comment)
        };
        self.room.put(coming.size(), entry);
        let arrival = Arrival::new(self.alloc, (key, seen.path.as_str()), coming, stamp)?;
        self.add(mirror, arrival, lines)
    }

    // The bytes of a file for which there is room in place of an entry.
    fn fitting(&self, here: Here, entry: Option<&Entry>) -> Option<FileBytes> {
        if self.room.fits(here.size()?, entry) {
            here.into_bytes()
        } else {
            None
        }
    }

    // Adds the line that deletes an object of another kind at the place of an object, and gives what is left.
    fn cleared(
        &mut self,
        here: &Here,
        place: &Place,
        entry: Option<&'a Entry>,
        lines: &mut ShareLines,
    ) -> Result<Option<&'a Entry>, TransferFault> {
        match entry {
            Some(old) if old.is_directory() != here.is_directory() => {
                lines.add_deletion(place, old)?;
                self.room.free(entry);
                Ok(None)
            }
            entry => Ok(entry),
        }
    }

    // Adds the lines that make the directories above an object which the Shell no longer has.
    fn add_way(
        &mut self,
        mirror: &Mirror,
        place: &Place,
        lines: &mut ShareLines,
    ) -> Result<(), TransferFault> {
        let Some(volume) = mirror.volumes.of_place(place) else {
            return Ok(());
        };
        let root = volume.place.names().len().saturating_add(1);
        for depth in root..place.names().len() {
            let directory = Place::root(self.alloc).joined(&place.names()[..depth])?;
            let Some(key) = mirror.key_of(&directory)? else {
                continue;
            };
            if self.files.look(&directory).is_none() && self.made.insert(key)? {
                lines.add_directory(&directory)?;
                self.room.put(0, None);
            }
        }
        Ok(())
    }

    // Adds an arrival with its lines, if they are not too long.
    fn add(
        &mut self,
        mirror: &mut Mirror,
        arrival: Arrival,
        lines: ShareLines,
    ) -> Result<(), TransferFault> {
        match lines.into_lines() {
            Ok(lines) => {
                let mut arrival = arrival;
                arrival.is_fresh = arrival.stamp.is_fresh(&self.now);
                arrival.lines = lines;
                self.arrivals.push(arrival)?;
                Ok(())
            }
            Err(TransferFault::LongLine(_)) => {
                self.leave_too_long(mirror, arrival.path.as_str())
            }
            Err(fault) => Err(fault),
        }
    }
}

// The bytes of an executable file are those of a script of the Shell.
fn is_script_file(alloc: Global, bytes: &FileBytes) -> Result<bool, NoMemory> {
    Ok(is_shell_script(&bytes.to_vec(alloc)?))
}

// A key is that of an object directly in a directory.
fn is_in(directory: &str, key: &str) -> bool {
    match key.rsplit_once('/') {
        Some((above, _)) => above == directory,
        None => directory.is_empty(),
    }
}
