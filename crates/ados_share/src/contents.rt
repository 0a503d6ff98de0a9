//! Files are found by their bytes: those that may have equal ones lie together, so that no search looks at all files.

use ados_ram::FileBytes;
use ados_text::NoMemory;
use ados_transfer::{Last, Record};
use std::alloc::Global;
use std::collections::{BTreeMap, BTreeSet};

// So many of the first bytes count for a digest, and of the last ones.
const COUNTED: usize = 512;

// It spreads digests: 64-bit FNV multiplies by it too.
const PRIME: u64 = 1_099_511_628_211;

/// A number that files of equal bytes have in common, and few others: it is made of how many bytes there are, and of the first and the last ones.
pub fn digest(bytes: &FileBytes) -> u64 {
    let mut digest = bytes.len() as u64;
    let ([first, ..], [.., last]) = (bytes.blocks(), bytes.blocks()) else {
        return digest;
    };
    if let [piece, ..] = first.pieces() {
        let text = piece.as_bytes();
        digest = digest_with(digest, text.get(..COUNTED).unwrap_or(text));
    }
    if let [.., piece] = last.pieces() {
        let text = piece.as_bytes();
        let start = text.len().saturating_sub(COUNTED);
        digest = digest_with(digest, text.get(start..).unwrap_or(text));
    }
    digest
}

// A digest that more bytes count for.
fn digest_with(digest: u64, text: &[u8]) -> u64 {
    let mut digest = digest;
    for byte in text {
        digest = digest.wrapping_mul(PRIME).wrapping_add(u64::from(*byte));
    }
    digest
}

/// The keys of the records of files, by the digests of their bytes.
#[derive(Drop)]
pub struct Contents {
    alloc: Global,
    by_digest: BTreeMap<u64, BTreeSet<String>>,
    // The digests of bytes that came in from the folders, and of those with which the script changed a file of such bytes.
    foreign: BTreeSet<u64>,
}

impl Contents {
    /// There are no records.
    pub fn new(alloc: Global) -> Contents {
        Contents {
            alloc,
            by_digest: BTreeMap::new(alloc),
            foreign: BTreeSet::new(alloc),
        }
    }

    /// Notes that bytes of this digest came in from a folder.
    pub fn add_foreign(&mut self, digest: u64) -> Result<(), NoMemory> {
        self.foreign.insert(digest)?;
        Ok(())
    }

    /// Bytes came in from a folder, or took the place of some that did. Others may count as such too.
    pub fn are_foreign(&self, bytes: &FileBytes) -> bool {
        self.foreign.contains(&digest(bytes))
    }

    /// The keys of all files that have these bytes, in the order of the records. Those of other files may be among them.
    pub fn alike(&self, bytes: &FileBytes) -> Option<&BTreeSet<String>> {
        self.by_digest.get(&digest(bytes))
    }

    /// Notes the record of a key, in place of the one that it has. If there is no memory, that one is still found.
    pub fn note(
        &mut self,
        key: &str,
        old: Option<&Record>,
        record: &Record,
    ) -> Result<(), NoMemory> {
        let old = old.and_then(digest_of);
        let new = digest_of(record);
        if old == new {
            return Ok(());
        }
        if let Some(digest) = new {
            if old.is_some_and(|old| self.foreign.contains(&old)) {
                self.foreign.insert(digest)?;
            }
            self.add(digest, key)?;
        }
        if let Some(digest) = old {
            self.remove(digest, key);
        }
        Ok(())
    }

    /// A key has its record no longer.
    pub fn leave_out(&mut self, key: &str, record: Option<&Record>) {
        if let Some(digest) = record.and_then(digest_of) {
            self.remove(digest, key);
        }
    }

    // A file with this key has bytes of this digest.
    fn add(&mut self, digest: u64, key: &str) -> Result<(), NoMemory> {
        let key = String::from_str(self.alloc, key)?;
        if let Some(keys) = self.by_digest.get_mut(&digest) {
            keys.insert(key)?;
            return Ok(());
        }
        let mut keys = BTreeSet::new(self.alloc);
        keys.insert(key)?;
        self.by_digest.insert(digest, keys)?;
        Ok(())
    }

    // The file with this key has them no longer.
    fn remove(&mut self, digest: u64, key: &str) {
        let Some(keys) = self.by_digest.get_mut(&digest) else {
            return;
        };
        keys.remove(key);
        if keys.is_empty() {
            self.by_digest.remove(&digest);
        }
    }
}

// The digest of the record of a file.
fn digest_of(record: &Record) -> Option<u64> {
    match &record.last {
        Last::File(bytes) => Some(digest(bytes)),
        Last::Directory | Last::StandIn(_) => None,
    }
}
