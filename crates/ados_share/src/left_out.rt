//! What the Shell has and an update never writes to the folder of a share, and why.
ghost use Rattle.std.specs.Prelude.{◌≡◌, IfOk, OnOk, None, Some, true, false};
ghost use Rattle.ados_share.specs.LeftOut.{bytes_in, is_taken, is_taken_twice, twice_after};

use crate::account::Account;
use crate::mirror::Mirror;
use ados_ram::{Body, Entry, FileBytes, Ram};
use ados_text::NoMemory;
use ados_transfer::{Look, Records, TransferFault, is_descendant, is_unshared};
use std::{fmt, mem};

/// Why an object of the Shell is not written.
#[derive(Clone, Copy, PartialEq, Eq)]
pub enum Reason {
    /// A name on its path is not shared.
    Unshared,
    /// Two names of the folder differ in case alone, and its name, or one on its path, would be that of both.
    TakenTwice,
    /// It is a copy of the stand-in of a file that the Shell can't hold.
    StandIn,
}

/// An object of the Shell that is not written.
#[derive(Drop)]
pub struct LeftOut {
    /// Why.
    pub reason: Reason,
    /// Its path below the folder.
    pub path: String,
    /// What it holds, if it is a file that could be written but for its name.
    pub bytes: Option<FileBytes>,
}

impl LeftOut {
    /// An object that is left out for a name.
    pub fn new(reason: Reason, path: String, entry: &Entry) -> Result<LeftOut, NoMemory>
        ensures { IfOk result (λ one. one ≡ record { reason = reason; path = path; bytes = bytes_in entry.now.body }) }
    {
        let bytes = match &entry.body {
            Body::File(bytes) => Some(bytes.copy()?),
            Body::Directory => None,
        };
        Ok(LeftOut {
            reason,
            path,
            bytes,
        })
    }

    /// A copy of the stand-in of a file that the Shell can't hold.
    pub fn of_stand_in(path: String) -> LeftOut
        ensures { result ≡ record { reason = Reason.StandIn; path = path; bytes = None } }
    {
        LeftOut {
            reason: Reason::StandIn,
            path,
            bytes: None,
        }
    }
}

impl fmt::Display for Reason {
    fn fmt<W: fmt::Write>(&self, f: &mut fmt::Formatter<W>) -> Result<(), fmt::Error> {
        f.write_str(match self {
            Reason::Unshared => "its name is not shared",
            Reason::TakenTwice => "its name is taken twice",
            Reason::StandIn => "the Shell can't hold it",
        })
    }
}

impl Mirror {
    // Why an object of this key is not written, if it is left out for a name on its path.
    pub(crate) fn reason_left_out(&self, key: &str) -> Option<Reason>
        ensures twice { result ≡ Some Reason.TakenTwice → is_taken_twice self.now.records self.now.twice.items key.now ≡ true }
        ensures none { result ≡ None → is_taken_twice self.now.records self.now.twice.items key.now ≡ false }
    {
        if key
            .split('/')
            .any(|name| is_unshared(name, self.options.all))
        {
            Some(Reason::Unshared)
        } else if self.is_taken_twice(key) {
            Some(Reason::TakenTwice)
        } else {
            None
        }
    }

    // Of an object of this key, or of one above it, there were two at the last look, and none of them is known.
    fn is_taken_twice(&self, key: &str) -> bool
        ensures { result ≡ is_taken_twice self.now.records self.now.twice.items key.now }
    {
        self.twice
            .iter()
            .any(|twice| is_taken(&self.records, twice.as_str(), key))
    }

    // Keeps which names are taken twice. Where a look could not see, that is so as it was before.
    pub(crate) fn note_twice(&mut self, look: &mut Look) -> Result<(), TransferFault>
        ensures { OnOk result (self.new.twice.items ≡ twice_after look.old.twice.items look.old.unread.items self.old.twice.items) }
    {
        let found = mem::replace(&mut look.twice, Vec::new(self.alloc));
        let before = mem::replace(&mut self.twice, Vec::new(self.alloc));
        self.twice = twice_after(look, found, before)?;
        Ok(())
    }

    // While a file of the folder has the bytes of one that is not written, no program starts, since it may delete the other.
    pub(crate) fn bar_copies(
        &self,
        files: &Ram,
        account: &mut Account,
    ) -> Result<(), TransferFault> {
        let mut refused = None;
        for one in &account.left_out {
            if refused.is_none()
                && let Some(bytes) = &one.bytes
                && self.has_copy(files, bytes)
            {
                refused = Some(one.path.clone()?);
            }
        }
        for file in &account.unwritten_files {
            if refused.is_none() && self.has_copy(files, &file.bytes) {
                refused = Some(file.path.clone()?);
            }
        }
        match refused {
            Some(path) => account.refuse(path.as_str()),
            None => Ok(()),
        }
    }

    // A file of the folder had these bytes, which are some.
    fn has_copy(&self, files: &Ram, bytes: &FileBytes) -> bool {
        bytes.len() > 0 && self.original_of(files, bytes).is_some()
    }
}

// The keys that are taken twice after a look: those that it found, and those before that it could not see.
fn twice_after(
    look: &Look,
    found: Vec<String>,
    before: Vec<String>,
) -> Result<Vec<String>, NoMemory>
    ensures { IfOk result (λ twice. twice.items ≡ twice_after found.items look.now.unread.items before.items) }
{
    let mut twice = found;
    for key in before {
        if look.is_hidden(key.as_str()) {
            twice.push(key)?;
        }
    }
    Ok(twice)
}

// An object of this key is one of two with the key `twice`, or below one, and none of those is known.
fn is_taken(records: &Records, twice: &str, key: &str) -> bool
    ensures { result ≡ is_taken «records».now twice.now key.now }
{
    (twice == key || is_descendant(twice, key)) && !records.contains_key(twice)
}
