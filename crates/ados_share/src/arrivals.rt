//! What changed in the folder of a share, on its way into the Shell's files.
ghost use Rattle.std.specs.{Prelude.{◌≡◌, ◌||◌, IfOk, OnOk, string_bytes}, BTreeMap.{keys}, List.{list_any}, Option.{option_copied}};
ghost use Rattle.ados_text.specs.Text.{Bytes};
ghost use Rattle.ados_share.specs.{Changes.{has_changed, has_last_stamp, has_stand_in, is_gone, is_unchanged}, Arrivals.{size_of_coming}, Records.{OthersStay, has_key}};

use crate::arrival_plan::ArrivalPlan;
use crate::contents::digest;
use crate::mirror::Mirror;
use ados_ram::{Body, Entry, FileBytes, Ram};
use ados_text::{NoMemory, Text};
use ados_transfer::{
    Below, Kind, Last, Look, Obstacle, Record, Seen, ShareLines, Stamp, TransferFault, Watch,
    is_stand_in_of,
};
use std::alloc::Global;
use std::collections::BTreeMap;
use std::rt::Files;
use std::time::Clock;

/// One change of the folder on its way in.
#[derive(Drop)]
pub struct Arrival {
    /// The lines for it, run in order.
    pub lines: Vec<Text>,
    /// What `amishell-bring` prints in those lines; it is not called if there is nothing.
    pub bytes: Option<FileBytes>,
    pub(crate) key: String,
    pub(crate) path: String,
    pub(crate) coming: Coming,
    pub(crate) stamp: Stamp,
    pub(crate) is_fresh: bool,
}

/// What the Shell's files are to have afterwards.
#[derive(Drop)]
pub enum Coming {
    /// Nothing.
    Nothing,
    /// A directory.
    Directory,
    /// A file of these bytes.
    File(FileBytes),
    /// The stand-in, with this comment, of a file that is too large for the Shell.
    StandIn(Text),
}

impl Coming {
    /// How many bytes it takes in the Shell's files.
    pub fn size(&self) -> usize
        ensures { result ≡ size_of_coming self.now }
    {
        match self {
            Coming::File(bytes) => bytes.len(),
            Coming::Nothing | Coming::Directory | Coming::StandIn(_) => 0,
        }
    }

    // What `amishell-bring` prints for it.
    fn output(&self, alloc: Global) -> Result<Option<FileBytes>, NoMemory> {
        match self {
            Coming::File(bytes) => Ok(Some(bytes.copy()?)),
            Coming::StandIn(_) => Ok(Some(FileBytes::empty(alloc)?)),
            Coming::Nothing | Coming::Directory => Ok(None),
        }
    }
}

impl Arrival {
    /// The arrival of an object with a key and a path, without lines yet.
    pub(crate) fn new(
        alloc: Global,
        object: (&str, &str),
        coming: Coming,
        stamp: Stamp,
    ) -> Result<Arrival, TransferFault> {
        let (key, path) = object;
        Ok(Arrival {
            lines: Vec::new(alloc),
            bytes: coming.output(alloc)?,
            key: String::from_str(alloc, key)?,
            path: String::from_str(alloc, path)?,
            coming,
            stamp,
            is_fresh: true,
        })
    }
}

impl Mirror {
    /// The lines that are run before all others: those of the commands of the share, and those that make its directories and assigns.
    pub fn first_lines(&self, alloc: Global, files: &Ram) -> Result<Vec<Text>, TransferFault> {
        let mut lines = ShareLines::new(alloc);
        lines.add_commands()?;
        for volume in self.volumes.all() {
            lines.add_way(files, &volume.place)?;
            if let Some(device) = &volume.device {
                lines.add_assign(device, &volume.place)?;
            }
        }
        lines.into_lines()
    }

    /// What changed in the folders since the last comparison, in an order in which it can come in; the first time everything. If both
    /// sides changed, this machine's version comes in, and a line reports it. If both are alike there is no arrival.
    ///
    /// `DoesNotFit` if the first time not all of it can come in, unless a part is enough: there is no room for a name, or a file or a
    /// folder is left out for its name, or since it can't be read. `CannotRead` if there are too many folders.
    pub fn arrivals<R: AllocGlobal + Files + Clock + Clone + Drop>(
        &mut self,
        rt: &R,
        files: &Ram,
    ) -> Result<Vec<Arrival>, TransferFault> {
        self.reports.begin_look();
        let volumes = self.volumes.copy()?;
        let rt = &Below::new(rt, &volumes);
        let mut look = Look::new(rt, self.options.all, &self.records)?;
        self.note_twice(&mut look)?;
        let is_first = self.begins();
        self.report_look(&look, is_first)?;
        if is_first {
            self.check_fit(&look, &[], files)?;
        }
        let changes = self.changes(&look, files)?;
        if changes.is_empty() {
            return Ok(Vec::new(self.alloc));
        }
        let plan = self.plan(rt, &changes, files)?;
        if is_first {
            self.check_fit(&look, plan.left_out(), files)?;
        }
        let arrivals = plan.into_arrivals();
        if is_first {
            self.report_stand_ins(&arrivals)?;
        }
        Ok(arrivals)
    }

    // Reports what a look could not read, and what it left alone; temporary files only at the first look, since others are those of this run.
    fn report_look(&mut self, look: &Look, is_first: bool) -> Result<(), TransferFault> {
        for unread in &look.unread {
            self.reports
                .report_unread(unread.key.as_str(), unread.path.as_str())?;
        }
        for one in &look.left_alone {
            if one.obstacle != Obstacle::Temporary {
                self.reports
                    .report_once(one.obstacle.text(), one.path.as_str())?;
            }
        }
        if is_first {
            self.report_others(look)?;
        }
        Ok(())
    }

    // Plans the arrivals for these changes: first of what is gone, the deepest first, then of what is there.
    fn plan<'a, R: AllocGlobal + Files + Clock>(
        &mut self,
        rt: &R,
        changes: &BTreeMap<String, Option<&Seen>>,
        files: &'a Ram,
    ) -> Result<ArrivalPlan<'a>, TransferFault> {
        let mut plan = ArrivalPlan::new(self.alloc, self.options.limits, files, self.now(rt))?;
        for (key, seen) in changes.iter().rev() {
            self.plan_gone(rt, &mut plan, key.as_str(), *seen)?;
        }
        for (key, seen) in changes {
            if let Some(seen) = seen {
                self.plan_come(rt, &mut plan, key.as_str(), seen)?;
            }
        }
        self.hold_deletions(files)?;
        Ok(plan)
    }

    /// Checks whether the files have what an arrival, whose lines were run, was to bring in, and keeps that as the last state.
    /// Otherwise a line reports it, and it is tried again later. What is known of other objects stays.
    pub fn settle(&mut self, arrival: Arrival, files: &Ram) -> Result<(), TransferFault>
        ensures { OnOk result (OthersStay self.old.records self.new.records (string_bytes arrival.key)) }
    {
        let place = self.place_of(arrival.key.as_str())?;
        let entry = files.look(&place);
        if matches!(arrival.coming, Coming::Nothing) && entry.is_none() {
            self.forget(arrival.key.as_str());
            return Ok(());
        }
        let Some(last) = last_of(&arrival, entry)? else {
            return self
                .reports
                .report_absent(arrival.key.as_str(), arrival.path.as_str());
        };
        if let Coming::File(bytes) = &arrival.coming {
            self.contents.add_foreign(digest(bytes))?;
        }
        let record = Record {
            path: arrival.path,
            place,
            last,
            stamp: arrival.stamp,
            is_fresh: arrival.is_fresh,
            watch: Watch::NEW,
        };
        self.keep(arrival.key, record)
    }

    // The objects that may have changed on this machine, each by its key, with what is there; nothing if it is gone.
    fn changes<'a>(
        &self,
        look: &'a Look,
        files: &Ram,
    ) -> Result<BTreeMap<String, Option<&'a Seen>>, TransferFault>
        ensures { IfOk result (λ changes. (q : Bytes) → has_key changes q ≡ (list_any (has_changed files.now self.now.records q) look.now.seen.entries || list_any (is_gone look.now q) (keys self.now.records))) }
    {
        let mut changes = BTreeMap::new(self.alloc);
        for (key, seen) in &look.seen {
            if !is_unchanged(self.records.get(key.as_str()), seen, files) {
                changes.insert(key.clone()?, Some(seen))?;
            }
        }
        self.add_gone(look, &mut changes)?;
        Ok(changes)
    }

    // Adds the objects of records that are gone.
    fn add_gone<'a>(
        &self,
        look: &'a Look,
        changes: &mut BTreeMap<String, Option<&'a Seen>>,
    ) -> Result<(), TransferFault>
        ensures { OnOk result ((q : Bytes) → has_key changes.new q ≡ (has_key changes.old q || list_any (is_gone look.now q) (keys self.now.records))) }
    {
        for key in self.records.keys() {
            if !look.seen.contains_key(key.as_str()) && !look.is_hidden(key.as_str()) {
                changes.insert(key.clone()?, None)?;
            }
        }
        Ok(())
    }
}

// What is there is what was there at the last comparison, or is not shared.
fn is_unchanged(record: Option<&Record>, seen: &Seen, files: &Ram) -> bool
    ensures { result ≡ is_unchanged files.now (option_copied «record».entry) seen.now }
{
    match record {
        None => matches!(seen.kind, Kind::Foreign),
        Some(record) => {
            record.path.as_str() == seen.path.as_str() && has_last_stamp(record, seen, files)
        }
    }
}

// What is there has the stamp of the last comparison, and its stand-in exists if it has one.
fn has_last_stamp(record: &Record, seen: &Seen, files: &Ram) -> bool
    ensures { result ≡ has_last_stamp files.now «record».now seen.now «record».now.last seen.now.kind }
{
    match (&record.last, seen.kind) {
        (Last::Directory, Kind::Directory) => true,
        (Last::File(_), Kind::File { .. }) => {
            !record.is_fresh && record.stamp.is_same(&seen.stamp)
        }
        (Last::StandIn(comment), Kind::File { .. }) => {
            record.stamp.is_same(&seen.stamp) && has_stand_in(files.look(&record.place), comment)
        }
        _ => false,
    }
}

// The stand-in with this comment is there.
fn has_stand_in(entry: Option<&Entry>, comment: &Text) -> bool
    ensures { result ≡ has_stand_in (option_copied entry.entry) comment.now }
{
    match entry {
        Some(entry) => is_stand_in_of(entry, comment),
        None => false,
    }
}

// What both sides have if an arrival came in as planned.
fn last_of(arrival: &Arrival, entry: Option<&Entry>) -> Result<Option<Last>, TransferFault> {
    let Some(entry) = entry else {
        return Ok(None);
    };
    match (&arrival.coming, &entry.body) {
        (Coming::Directory, Body::Directory) => Ok(Some(Last::Directory)),
        (Coming::StandIn(comment), _) if is_stand_in_of(entry, comment) => {
            Ok(Some(Last::StandIn(comment.copy()?)))
        }
        (Coming::File(planned), Body::File(bytes)) if bytes == planned => {
            Ok(Some(Last::File(bytes.clone()?)))
        }
        _ => Ok(None),
    }
}
