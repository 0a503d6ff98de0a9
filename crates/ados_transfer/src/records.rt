//! What was alike on both sides of a share at the last comparison.
ghost use Rattle.std.specs.{Prelude.{◌≡◌, not}, Option.{is_some, option_copied}};
ghost use Rattle.ados_transfer.specs.{Decisions.{is_absent}, Records.{is_kept}, StandIns.{own_entry}};

use crate::decision::State;
use crate::stamps::Stamp;
use crate::stand_ins::{is_stand_in, is_stand_in_of, own_entry};
use crate::watch::Watch;
use ados_ram::{Body, Entry, FileBytes, Place};
use ados_text::{NoMemory, Text};
use std::collections::BTreeMap;

/// What an object was at the last comparison.
#[derive(Drop)]
pub enum Last {
    /// A directory on both sides.
    Directory,
    /// A file of these bytes on both sides, which the Shell's files share.
    File(FileBytes),
    /// A file that is too large for the Shell, and the comment of its stand-in, which no other object has.
    StandIn(Text),
}

impl Last {
    /// What an entry is that is no stand-in.
    pub fn of(entry: &Entry) -> Result<Last, NoMemory> {
        match &entry.body {
            Body::Directory => Ok(Last::Directory),
            Body::File(bytes) => Ok(Last::File(bytes.clone()?)),
        }
    }
}

/// An object that was on both sides at the last comparison.
#[derive(Drop)]
pub struct Record {
    /// Its path below the folder, in the spelling of this machine.
    pub path: String,
    /// Its place in the Shell's files; that of a stand-in is elsewhere once it was moved.
    pub place: Place,
    /// What it was.
    pub last: Last,
    /// The stamp that it had on this machine.
    pub stamp: Stamp,
    /// A later change might leave the same stamp.
    pub is_fresh: bool,
    /// What was seen of its stand-in, if it has one.
    pub watch: Watch,
}

impl Record {
    /// What it was.
    pub fn state(&self) -> State<'_> {
        match &self.last {
            Last::Directory => State::Directory,
            Last::File(bytes) => State::File(bytes),
            Last::StandIn(_) => State::Large(self.stamp),
        }
    }

    /// What the Shell has in its place.
    pub fn state_there<'a>(&self, entry: Option<&'a Entry>) -> State<'a> {
        match (&self.last, entry) {
            (Last::StandIn(comment), Some(entry)) if is_stand_in_of(entry, comment) => {
                State::Large(self.stamp)
            }
            (_, entry) => state_there(entry),
        }
    }

    /// What the Shell has in its place is what it was.
    pub fn is_kept(&self, entry: Option<&Entry>) -> bool
        ensures { result ≡ is_kept self.now.last (option_copied entry.entry) }
    {
        let Some(entry) = entry else {
            return false;
        };
        match (&self.last, &entry.body) {
            (Last::Directory, _) => entry.is_directory(),
            (Last::File(bytes), Body::File(found)) => found == bytes && !is_stand_in(entry),
            (Last::File(_), Body::Directory) => false,
            (Last::StandIn(comment), _) => is_stand_in_of(entry, comment),
        }
    }

    /// What the Shell has in its place is nothing, or of another kind.
    pub fn is_gone(&self, entry: Option<&Entry>) -> bool {
        match entry {
            Some(entry) => entry.is_directory() != matches!(self.last, Last::Directory),
            None => true,
        }
    }

    /// It was a file of these bytes.
    pub fn is_file_of(&self, bytes: &FileBytes) -> bool {
        match &self.last {
            Last::File(last) => last == bytes,
            Last::Directory | Last::StandIn(_) => false,
        }
    }

    /// It is a file that is too large for the Shell.
    pub fn is_stand_in(&self) -> bool {
        matches!(self.last, Last::StandIn(_))
    }
}

/// What the Shell has at a place if nothing was there before; a stand-in that was moved there counts as nothing.
pub fn state_there(entry: Option<&Entry>) -> State<'_>
    ensures { is_absent result ≡ not (is_some (own_entry (option_copied entry.entry))) }
{
    match own_entry(entry) {
        None => State::Absent,
        Some(entry) => match entry.bytes() {
            None => State::Directory,
            Some(bytes) => State::File(bytes),
        },
    }
}

/// The records of a share, each by its path below the share in lower case, which is its key. In their order a directory comes before
/// what is in it.
pub type Records = BTreeMap<String, Record>;
