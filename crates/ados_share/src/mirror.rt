//! A share: folders of this machine and directories of the Shell's files that are kept alike.
ghost use Rattle.std.specs.{Prelude.{◌≡◌, true, None, Some, OnOk, string_bytes}, BTreeMap.{IsOrdered}, String.{string_cmp}};
ghost use Rattle.ados_share.specs.Records.{Sets};

use crate::backups::Backups;
use crate::beginning::Beginning;
use crate::contents::Contents;
use crate::last_copies::Waiting;
use crate::moves::Moves;
use crate::reports::Reports;
use crate::syncs::NamedFile;
use ados_ram::{FileBytes, Ram};
use ados_transfer::{
    Last, MirrorOptions, Record, Records, Stamp, StandIns, TransferFault, Volume, Volumes, Watch,
};
use std::alloc::Global;
use std::collections::BTreeMap;
use std::time::{Clock, SystemTime};

/// Folders of this machine and directories of the Shell's files that are kept alike, and what they were at the last comparison.
#[derive(Drop)]
pub struct Mirror {
    pub(crate) alloc: Global,
    pub(crate) volumes: Volumes,
    pub(crate) options: MirrorOptions,
    pub(crate) records: Records,
    // The keys of the records of files, by their bytes.
    pub(crate) contents: Contents,
    pub(crate) stand_ins: StandIns,
    // Where the script moved files of the folder.
    pub(crate) moves: Moves,
    // What is not deleted, since only the Shell has its bytes beside.
    pub(crate) waiting: Waiting,
    // Copies of what was written over, while only the Shell has the bytes beside.
    pub(crate) backups: Backups,
    // The paths of temporary files that could not be removed.
    pub(crate) temporaries: Vec<String>,
    // What could not be brought to the disk at the last update.
    pub(crate) unsynced: Vec<NamedFile>,
    // What the updates before wrote, and what a power cut may empty: the bytes by the paths.
    pub(crate) fresh: BTreeMap<String, FileBytes>,
    pub(crate) reports: Reports,
    // The keys of names that were taken twice in the folders at the last look.
    pub(crate) twice: Vec<String>,
    // The folders were looked at.
    pub(crate) has_begun: bool,
    // At the last comparison something was not deleted, since not everything was written.
    pub(crate) is_holding: bool,
    // At the last comparison the Shell had something that was not written.
    pub(crate) is_lacking: bool,
    // The Shell's files as the script finds them.
    pub(crate) beginning: Beginning,
    // The first object because of which no program starts after the last update.
    pub(crate) refused: Option<String>,
    // The first object of the Shell that gave way to this machine's at this look.
    pub(crate) overruled: Option<String>,
}

impl Mirror {
    /// A share of these volumes. Nothing of them is read yet.
    pub fn new(
        alloc: Global,
        volumes: Volumes,
        options: MirrorOptions,
    ) -> Result<Mirror, TransferFault> {
        Ok(Mirror {
            alloc,
            options,
            records: BTreeMap::new(alloc),
            contents: Contents::new(alloc),
            stand_ins: StandIns::new(alloc),
            moves: Moves::new(alloc),
            waiting: Waiting::new(alloc),
            backups: Backups::new(alloc),
            temporaries: Vec::new(alloc),
            unsynced: Vec::new(alloc),
            fresh: BTreeMap::new(alloc),
            twice: Vec::new(alloc),
            reports: Reports::new(alloc, volumes.copy()?),
            volumes,
            has_begun: false,
            is_holding: false,
            is_lacking: false,
            beginning: Beginning::new(),
            refused: None,
            overruled: None,
        })
    }

    /// The volumes.
    pub fn volumes(&self) -> &[Volume] {
        self.volumes.all()
    }

    /// The lines to report since the last call.
    pub fn take_lines(&mut self) -> Vec<String> {
        self.reports.take_lines()
    }

    /// The two sides are not alike: something could not be read, written or brought in, and has not been since, or something is not
    /// deleted because of that, or since its bytes would be only in memory; what was written over stays under a name of its own, for the
    /// same reason; a temporary file is left; or the script changed something that the folder does not have as the script left it.
    pub fn differs(&self) -> bool
        ensures spoilt { self.now.reports.spoils.is_spoilt ≡ true → result ≡ true }
    {
        self.is_holding
            || self.is_lacking
            || self.stand_ins.differ()
            || !self.waiting.is_empty()
            || self.backups.have_stayed
            || !self.temporaries.is_empty()
            || self.reports.has_failed()
    }

    // Keeps an object as it is on both sides now.
    pub(crate) fn keep(&mut self, key: String, record: Record) -> Result<(), TransferFault>
        ensures kept { OnOk result (Sets self.old.records self.new.records (string_bytes key) (Some «record»)) }
        ensures once { IsOrdered string_cmp self.new.records }
    {
        let noted = self.stand_ins.note(key.as_str(), record.is_stand_in());
        let found = self
            .contents
            .note(key.as_str(), self.records.get(key.as_str()), &record);
        self.reports.settle(key.as_str());
        self.moves.take(key.as_str());
        self.records.insert(key, record)?;
        noted?;
        Ok(found?)
    }

    // Keeps an object as it is on both sides now, with this stamp.
    pub(crate) fn keep_as(
        &mut self,
        key: &str,
        path: &str,
        last: Last,
        stamp: Stamp,
        now: &SystemTime,
    ) -> Result<(), TransferFault> {
        let record = Record {
            path: String::from_str(self.alloc, path)?,
            place: self.place_of(key)?,
            last,
            stamp,
            is_fresh: stamp.is_fresh(now),
            watch: Watch::NEW,
        };
        self.keep(String::from_str(self.alloc, key)?, record)
    }

    // Neither side has an object with this key any longer.
    pub(crate) fn forget(&mut self, key: &str)
        ensures forgotten { Sets self.old.records self.new.records key.now None }
        ensures once { IsOrdered string_cmp self.new.records }
    {
        self.reports.settle(key);
        self.stand_ins.leave_out(key);
        self.moves.take(key);
        self.contents.leave_out(key, self.records.get(key));
        self.records.remove(key);
    }

    // Notes that an object gives way to this machine's, if the Shell has one. That is a loss to the end of the run, also if the script
    // writes to that name again: what it held may be nowhere else.
    pub(crate) fn overrule(
        &mut self,
        files: &Ram,
        key: &str,
        path: &str,
        is_there: bool,
    ) -> Result<(), TransferFault>
        ensures spoilt { OnOk result (is_there ≡ true → self.new.reports.spoils.is_spoilt ≡ true) }
    {
        if !is_there {
            return Ok(());
        }
        self.reports.add_lost(key)?;
        let place = self.place_of(key)?;
        self.moves.note_replaced(&place);
        self.backups.note_replaced(files, &place)?;
        self.reports.spoils.note_overruled(path)?;
        if self.overruled.is_none() {
            self.overruled = Some(String::from_str(self.alloc, path)?);
        }
        Ok(())
    }

    // The time; if the clock can't be read, one that is before all others.
    pub(crate) fn now<R: Clock>(&self, rt: &R) -> SystemTime {
        SystemTime::now(rt).unwrap_or(SystemTime::UNIX_EPOCH)
    }
}
