//! Stand-ins: empty files of the Shell in place of files of this machine that are too large for it.
ghost use Rattle.std.specs.{Prelude.{◌≡◌}, Option.{option_copied}};
ghost use Rattle.ados_transfer.specs.StandIns.{is_empty_file, is_stand_in, is_stand_in_of, own_entry};

use crate::within::is_substring;
use ados_ram::Entry;
use ados_text::{NoMemory, Text, TextFault};
use std::alloc::Global;
use std::collections::BTreeSet;

// What follows the size in the comment of a stand-in. After it come its number, which no other one has, and a closing parenthesis.
const STANDS_IN: &[u8] = b" bytes, on this machine alone (";

/// The entry stands for a file of this machine that is too large for the Shell: it is empty, and its comment says so. Its bits may have
/// been set since.
pub fn is_stand_in(entry: &Entry) -> bool
    ensures { result ≡ is_stand_in entry.now }
{
    is_empty_file(entry) && is_substring(STANDS_IN, entry.comment.as_bytes())
}

/// The entry is the stand-in that has this comment.
pub fn is_stand_in_of(entry: &Entry, comment: &Text) -> bool
    ensures { result ≡ is_stand_in_of entry.now comment.now }
{
    is_empty_file(entry) && entry.comment.as_bytes() == comment.as_bytes()
}

/// The entry, if it is the Shell's own: a stand-in counts as nothing, and so is never written to this machine.
pub fn own_entry(entry: Option<&Entry>) -> Option<&Entry>
    ensures { option_copied result ≡ own_entry (option_copied entry.entry) }
{
    match entry {
        Some(entry) if !is_stand_in(entry) => Some(entry),
        _ => None,
    }
}

// The entry is a file without bytes.
fn is_empty_file(entry: &Entry) -> bool
    ensures { result ≡ is_empty_file entry.now }
{
    !entry.is_directory() && entry.len() == 0
}

/// The stand-ins of a share.
#[derive(Drop)]
pub struct StandIns {
    alloc: Global,
    /// The keys of their records.
    pub keys: BTreeSet<String>,
    // The number of the last one.
    number: u64,
    /// The script wrote to one, changed its comment or could read it, or the file of one could not be given back its name: what the
    /// script has there, or made of it, is not what the folder has.
    pub is_lost: bool,
    /// At the last update one was elsewhere than its file, or its file had the name of another object.
    pub is_blocked: bool,
}

impl StandIns {
    /// None so far.
    pub fn new(alloc: Global) -> StandIns {
        StandIns {
            alloc,
            keys: BTreeSet::new(alloc),
            number: 0,
            is_lost: false,
            is_blocked: false,
        }
    }

    /// The script has something that the folder does not have as the script left it.
    pub fn differ(&self) -> bool {
        self.is_lost || self.is_blocked
    }

    /// Notes whether the record of a key is that of a stand-in.
    pub fn note(&mut self, key: &str, is_stand_in: bool) -> Result<(), NoMemory> {
        if is_stand_in {
            self.keys.insert(String::from_str(self.alloc, key)?)?;
        } else {
            self.leave_out(key);
        }
        Ok(())
    }

    /// There is no record of this key any longer.
    pub fn leave_out(&mut self, key: &str) {
        self.keys.remove(key);
    }

    /// The comment of the next one, whose file has this size.
    pub fn next_comment(&mut self, size: u64) -> Result<Text, NoMemory> {
        self.number = self.number.saturating_add(1);
        let number = self.number;
        let comment = format!(in self.alloc; "{size} bytes, on this machine alone ({number})")?;
        match Text::of(self.alloc, comment.as_bytes()) {
            Ok(comment) => Ok(comment),
            Err(TextFault::NoMemory | TextFault::NotAscii(_)) => Err(NoMemory),
        }
    }
}
