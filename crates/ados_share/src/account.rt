//! What one update of the shared folder could not write, and what follows from that.
ghost use Rattle.std.specs.{Prelude.{◌≡◌, ◌++◌, ◌∷◌, ◌+◌, ◌-◌, ◌^◌, [], None, IfOk, OnErr, OnOk, if◌then◌else◌, min, string_bytes}, BTreeMap.{get_by_text}, List.{list_any}, Option.{option_map, is_some}};
ghost use Rattle.ados_share.specs.Account.{contents_of, first_path, is_in_unwritten, path_left_out, paths_of, with_bytes_of, with_fresh, with_path_of};
ghost use Rattle.ados_transfer.specs.Within.{is_substring};

use crate::failures::with_more;
use crate::left_out::{LeftOut, Reason};
use crate::moves::Destination;
use crate::syncs::NamedFile;
use ados_ram::{Body, Entry, FileBytes};
use ados_text::NoMemory;
use ados_transfer::{Manner, Record, Rights, TransferFault, Volumes, is_part};
use std::alloc::Global;
use std::collections::BTreeMap;

/// When the folder is brought up to date.
#[derive(Clone, Copy, PartialEq, Eq)]
pub enum Moment {
    /// While the script goes on. What is not written now may be written later: nothing is given up for it.
    Meanwhile,
    /// Before a program starts.
    Start,
    /// When the script has ended.
    End,
}

/// What the Shell has and could not be written to the folder, what is not deleted there because of it, and what was moved aside there.
#[derive(Drop)]
pub struct Account {
    /// Where memory comes from.
    pub alloc: Global,
    /// When the update is made.
    pub moment: Moment,
    /// What the Shell has and is never written.
    pub left_out: Vec<LeftOut>,
    /// The path of the first object that could not be written.
    pub unwritten: Option<String>,
    /// The path of the first object because of which no program starts.
    pub refused: Option<String>,
    /// The files that could not be written.
    pub unwritten_files: Vec<NamedFile>,
    /// The path of the first object that is not deleted because of that.
    pub held: Option<String>,
    /// How many more are not deleted.
    pub more: usize,
    /// What was moved out of the way.
    pub aside: Vec<Aside>,
    /// The paths at which some of that stays.
    pub kept: Vec<String>,
    /// A file or a folder that is gone gave others no right to read it: a new one may have bytes of it, and gives group and others none.
    pub is_private: bool,
    /// The permissions of files that the script moved, and of folders of which it made copies, by the keys of their places now.
    pub moved: BTreeMap<String, Manner>,
    /// The files that were written, and that a power cut may empty.
    pub fresh: Vec<NamedFile>,
    /// Those of them that could not be brought to the disk.
    pub unsynced: Vec<NamedFile>,
}

/// An object of the folder that was moved out of the way of another one.
#[derive(Drop)]
pub struct Aside {
    /// Its key.
    pub key: String,
    /// What it was.
    pub record: Record,
    /// The path where it is now; `None` for a folder, which is deleted at once.
    pub beside: Option<String>,
    /// Its permissions, and whose it is.
    pub rights: Rights,
    /// Where the script moved it, if it did.
    pub moved: Option<Destination>,
}

impl Account {
    /// Nothing is open.
    pub fn new(alloc: Global, moment: Moment) -> Account {
        Account {
            alloc,
            moment,
            left_out: Vec::new(alloc),
            unwritten: None,
            refused: None,
            unwritten_files: Vec::new(alloc),
            held: None,
            more: 0,
            aside: Vec::new(alloc),
            kept: Vec::new(alloc),
            is_private: false,
            moved: BTreeMap::new(alloc),
            fresh: Vec::new(alloc),
            unsynced: Vec::new(alloc),
        }
    }

    /// The script goes on: what is not written may be written later.
    pub fn is_meanwhile(&self) -> bool {
        self.moment == Moment::Meanwhile
    }

    /// Notes that the Shell holds this entry, which is never written. A directory has no bytes that could be lost.
    pub fn add_left_out(&mut self, one: LeftOut, entry: &Entry) -> Result<(), TransferFault>
        ensures left_out { OnOk result (self.new.left_out.items ≡ self.old.left_out.items ++ one ∷ []) }
        ensures unwritten { OnOk result (option_map string_bytes self.new.unwritten ≡ path_left_out (option_map string_bytes self.old.unwritten) (string_bytes one.path) entry.now.body) }
        ensures bytes { OnOk result (contents_of self.new.unwritten_files.items ≡ with_bytes_of (contents_of self.old.unwritten_files.items) entry.now.body) }
        ensures paths { OnOk result (paths_of self.new.unwritten_files.items ≡ with_path_of (paths_of self.old.unwritten_files.items) (string_bytes one.path) entry.now.body) }
        ensures rest { self.new ≡ record self.old { unwritten = self.new.unwritten; unwritten_files = self.new.unwritten_files; left_out = self.new.left_out } }
    {
        if !entry.is_directory() {
            self.add_unwritten_entry(one.path.as_str(), entry)?;
        }
        self.left_out.push(one)?;
        Ok(())
    }

    /// Notes that the Shell has a copy of a stand-in, which is not written.
    pub fn add_copy(&mut self, path: String) -> Result<(), TransferFault>
        ensures unwritten { OnOk result (option_map string_bytes self.new.unwritten ≡ first_path (option_map string_bytes self.old.unwritten) (string_bytes path)) }
        ensures left_out { OnOk result (self.new.left_out.items ≡ self.old.left_out.items ++ record { reason = Reason.StandIn; path = path; bytes = None } ∷ []) }
        ensures rest { self.new ≡ record self.old { unwritten = self.new.unwritten; left_out = self.new.left_out } }
    {
        self.add_unwritten(path.as_str())?;
        self.left_out.push(LeftOut::of_stand_in(path))?;
        Ok(())
    }

    /// Something that the Shell holds is not written: nothing is to be deleted.
    pub fn has_unwritten(&self) -> bool
        ensures { result ≡ is_some self.now.unwritten }
    {
        self.unwritten.is_some()
    }

    /// Something is not deleted because of that.
    pub fn is_holding(&self) -> bool
        ensures { result ≡ is_some self.now.held }
    {
        self.held.is_some()
    }

    /// Notes that the Shell holds an object which is not written.
    pub fn add_unwritten(&mut self, path: &str) -> Result<(), TransferFault>
        ensures unwritten { OnOk result (option_map string_bytes self.new.unwritten ≡ first_path (option_map string_bytes self.old.unwritten) path.now) }
        ensures unchanged { OnErr result (self.new ≡ self.old) }
        ensures rest { self.new ≡ record self.old { unwritten = self.new.unwritten } }
    {
        if self.unwritten.is_none() {
            self.unwritten = Some(String::from_str(self.alloc, path)?);
        }
        Ok(())
    }

    /// Notes that an object is not written, for whatever reason, so that a program could do harm: none starts after the update.
    pub fn refuse(&mut self, path: &str) -> Result<(), TransferFault>
        ensures refused { OnOk result (option_map string_bytes self.new.refused ≡ first_path (option_map string_bytes self.old.refused) path.now) }
        ensures unchanged { OnErr result (self.new ≡ self.old) }
        ensures rest { self.new ≡ record self.old { refused = self.new.refused } }
    {
        if self.refused.is_none() {
            self.refused = Some(String::from_str(self.alloc, path)?);
        }
        Ok(())
    }

    /// Notes that the Shell holds this entry, which is not written.
    pub fn add_unwritten_entry(&mut self, path: &str, entry: &Entry) -> Result<(), TransferFault>
        ensures unwritten { OnOk result (option_map string_bytes self.new.unwritten ≡ first_path (option_map string_bytes self.old.unwritten) path.now) }
        ensures bytes { OnOk result (contents_of self.new.unwritten_files.items ≡ with_bytes_of (contents_of self.old.unwritten_files.items) entry.now.body) }
        ensures paths { OnOk result (paths_of self.new.unwritten_files.items ≡ with_path_of (paths_of self.old.unwritten_files.items) path.now entry.now.body) }
        ensures unchanged { OnErr result (self.new.unwritten ≡ self.old.unwritten) }
        ensures rest { self.new ≡ record self.old { unwritten = self.new.unwritten; unwritten_files = self.new.unwritten_files } }
    {
        if let Body::File(bytes) = &entry.body {
            let path = String::from_str(self.alloc, path)?;
            let bytes = bytes.clone()?;
            self.unwritten_files.push(NamedFile { path, bytes })?;
        }
        self.add_unwritten(path)
    }

    /// These bytes are in a file that is not written.
    pub fn is_in_unwritten(&self, bytes: &FileBytes) -> Result<bool, NoMemory>
        ensures { IfOk result (λ is. is ≡ is_in_unwritten (contents_of self.now.unwritten_files.items) bytes.now) }
    {
        if bytes.len() == 0 {
            return Ok(false);
        }
        is_in_any(self.alloc, bytes, self.unwritten_files.as_slice())
    }

    /// Notes that an object is not deleted.
    pub fn hold(&mut self, path: &str) -> Result<(), TransferFault>
        ensures held { OnOk result (option_map string_bytes self.new.held ≡ first_path (option_map string_bytes self.old.held) path.now) }
        ensures more { OnOk result (self.new.more ≡ (if is_some self.old.held then min (self.old.more + 1) (2 ^ 64 - 1) else self.old.more)) }
        ensures unchanged { OnErr result (self.new ≡ self.old) }
        ensures rest { self.new ≡ record self.old { held = self.new.held; more = self.new.more } }
    {
        if self.held.is_none() {
            self.held = Some(String::from_str(self.alloc, path)?);
        } else {
            self.more = self.more.saturating_add(1);
        }
        Ok(())
    }

    /// Notes that an object was moved aside.
    pub fn set_aside(&mut self, aside: Aside) -> Result<(), TransferFault>
        ensures aside { OnOk result (self.new.aside.items ≡ self.old.aside.items ++ aside ∷ []) }
        ensures rest { self.new ≡ record self.old { aside = self.new.aside } }
    {
        self.aside.push(aside)?;
        Ok(())
    }

    /// What was moved aside, in that order.
    pub fn take_aside(&mut self) -> Vec<Aside>
        ensures all { result.items ≡ self.old.aside.items }
        ensures none { self.new.aside.items ≡ [] }
        ensures rest { self.new ≡ record self.old { aside = self.new.aside } }
    {
        std::mem::replace(&mut self.aside, Vec::new(self.alloc))
    }

    /// Notes that a file was written. One without bytes has nothing that a power cut may take.
    pub fn add_fresh(&mut self, file: NamedFile) -> Result<(), TransferFault>
        ensures fresh { OnOk result (self.new.fresh.items ≡ with_fresh self.old.fresh.items file) }
        ensures rest { self.new ≡ record self.old { fresh = self.new.fresh } }
    {
        if file.bytes.len() == 0 {
            return Ok(());
        }
        self.fresh.push(file)?;
        Ok(())
    }

    /// The files that were written; none of them is noted any longer.
    pub fn take_fresh(&mut self) -> Vec<NamedFile>
        ensures all { result.items ≡ self.old.fresh.items }
        ensures none { self.new.fresh.items ≡ [] }
        ensures rest { self.new ≡ record self.old { fresh = self.new.fresh } }
    {
        std::mem::replace(&mut self.fresh, Vec::new(self.alloc))
    }

    /// The permissions of a file with these bytes that was moved aside.
    pub fn manner_of(&self, bytes: &FileBytes) -> Option<Manner> {
        self.aside
            .iter()
            .find(|aside| aside.record.is_file_of(bytes))
            .map(|aside| Manner::Kept(aside.rights))
    }

    /// The permissions of the file that the script moved to the place of this key, if it moved one there.
    pub fn moved_manner(&self, key: &str) -> Option<Manner>
        ensures { result ≡ get_by_text self.now.moved key.now }
    {
        self.moved.get(key).copied()
    }

    /// The line that reports what is not deleted.
    pub fn line(&self, volumes: &Volumes) -> Result<Option<String>, TransferFault> {
        let (Some(unwritten), Some(held)) = (&self.unwritten, &self.held) else {
            return Ok(None);
        };
        let unwritten = volumes.shown(unwritten.as_str())?;
        let held = volumes.shown(held.as_str())?;
        let line = format!(in self.alloc; "not deleted, since {unwritten} is not written: {held}")?;
        Ok(Some(with_more(self.alloc, line, self.more)?))
    }
}

// The bytes are in one of the files.
fn is_in_any(alloc: Global, bytes: &FileBytes, files: &[NamedFile]) -> Result<bool, NoMemory>
    ensures { IfOk result (λ is. is ≡ list_any (is_substring bytes.now) (contents_of files.now)) }
{
    for file in files {
        if is_part(alloc, bytes, &file.bytes)? {
            return Ok(true);
        }
    }
    Ok(false)
}
