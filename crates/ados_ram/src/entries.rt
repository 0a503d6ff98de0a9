// What the files have of an object: its name, its contents, its bits, its comment.
ghost use Rattle.std.specs.{Prelude.{◌≡◌, [], IfOk}, Option.{option_copied}};
ghost use Rattle.ados_ram.specs.Entry.{letter};

use crate::file_bytes::FileBytes;
use crate::places::Place;
use ados_text::{Name, NoMemory, Text};
use std::alloc::Global;

/// The greatest number of bytes of a comment.
pub const COMMENT_LIMIT: usize = 79;

/// What an object is: a directory, or a file with its bytes.
#[derive(Clone, Drop)]
pub enum Body {
    Directory,
    File(FileBytes),
}

/// The protection bits, in their order: h s p a r w e d.
#[derive(Clone, Copy, PartialEq, Eq)]
pub struct Bits {
    /// h: kept resident (hold).
    pub hold: bool,
    /// s: a script.
    pub script: bool,
    /// p: pure, so that it may be made resident.
    pub pure: bool,
    /// a: not written since it was archived.
    pub archive: bool,
    /// r: may be read.
    pub read: bool,
    /// w: may be written.
    pub write: bool,
    /// e: may be run.
    pub execute: bool,
    /// d: may be deleted.
    pub delete: bool,
}

impl Bits {
    ghost use Rattle.ados_ram.specs.Entry.{bits_text, without_archive_bit};

    /// The bits of a new object: `----rwed`.
    pub const FRESH: Bits = Bits {
        hold: false,
        script: false,
        pure: false,
        archive: false,
        read: true,
        write: true,
        execute: true,
        delete: true,
    };

    /// The letters of the bits in their order, each bit that is not set as `-`.
    pub fn letters(self) -> [u8; 8]
        ensures { result ≡ bits_text self }
    {
        [
            letter(self.hold, b'h'),
            letter(self.script, b's'),
            letter(self.pure, b'p'),
            letter(self.archive, b'a'),
            letter(self.read, b'r'),
            letter(self.write, b'w'),
            letter(self.execute, b'e'),
            letter(self.delete, b'd'),
        ]
    }

    /// The same bits without a.
    pub(crate) fn unarchived(self) -> Bits
        ensures { result ≡ without_archive_bit self }
    {
        Bits {
            archive: false,
            ..self
        }
    }
}

// The letter of a bit that is set, and otherwise `-`.
fn letter(is_set: bool, code: u8) -> u8
    ensures { result ≡ letter is_set code }
{
    if is_set { code } else { b'-' }
}

/// An object of the files: its name as it is written, what it is, its bits and its comment.
#[derive(Clone, Drop)]
pub struct Entry {
    pub name: Name,
    pub body: Body,
    pub bits: Bits,
    pub comment: Text,
}

impl Entry {
    ghost use Rattle.ados_ram.specs.{Place.{last_name}, Entry.{is_directory, bytes_of, bytes_or_none, size_of, new_directory, file_entry_with_bits, with_bits, with_comment, renamed_entry}};

    /// Whether it is a directory.
    pub fn is_directory(&self) -> bool
        ensures { result ≡ is_directory self.now }
    {
        match self.body {
            Body::Directory => true,
            Body::File(_) => false,
        }
    }

    /// The bytes of a file; none of a directory.
    pub fn bytes(&self) -> Option<&FileBytes>
        ensures { bytes_or_none (option_copied result) ≡ bytes_of self.now }
    {
        match &self.body {
            Body::Directory => None,
            Body::File(bytes) => Some(bytes),
        }
    }

    /// The number of bytes of a file; 0 of a directory.
    pub fn len(&self) -> usize
        ensures { result ≡ size_of self.now }
    {
        match &self.body {
            Body::Directory => 0,
            Body::File(bytes) => bytes.len(),
        }
    }

    /// A new directory of this name.
    pub(crate) fn directory(alloc: Global, name: Name) -> Result<Entry, NoMemory>
        ensures { IfOk result (λ entry. entry ≡ new_directory name) }
    {
        Ok(Entry {
            name,
            body: Body::Directory,
            bits: Bits::FRESH,
            comment: Text::from_bytes(alloc, &[])?,
        })
    }

    /// A new file at this place with these bits, or an old one after it was written: an old one keeps its name, comment
    /// and bits, except for bit a.
    pub(crate) fn written(
        alloc: Global,
        old: Option<&Entry>,
        place: &Place,
        bytes: FileBytes,
        bits: Bits,
    ) -> Result<Entry, NoMemory>
        ensures { IfOk result (λ entry. entry ≡ file_entry_with_bits bits (option_copied old.entry) (last_name place.now) bytes) }
    {
        match old {
            None => Ok(Entry {
                name: place.last_name()?,
                body: Body::File(bytes),
                bits,
                comment: Text::from_bytes(alloc, &[])?,
            }),
            Some(entry) => Ok(Entry {
                name: entry.name.copy()?,
                body: Body::File(bytes),
                bits: entry.bits.unarchived(),
                comment: entry.comment.copy()?,
            }),
        }
    }

    /// An equal entry; its bytes are shared.
    pub fn copy(&self) -> Result<Entry, NoMemory>
        ensures { IfOk result (λ entry. entry ≡ self.now) }
    {
        Ok(self.clone()?)
    }

    /// The entry under another name.
    pub(crate) fn renamed(&self, name: &Name) -> Result<Entry, NoMemory>
        ensures { IfOk result (λ entry. entry ≡ renamed_entry name.now [] self.now) }
    {
        Ok(Entry {
            name: name.copy()?,
            body: self.body.clone()?,
            bits: self.bits,
            comment: self.comment.copy()?,
        })
    }

    /// The entry with other bits.
    pub(crate) fn with_bits(&self, bits: Bits) -> Result<Entry, NoMemory>
        ensures { IfOk result (λ entry. entry ≡ with_bits bits self.now) }
    {
        Ok(Entry {
            name: self.name.copy()?,
            body: self.body.clone()?,
            bits,
            comment: self.comment.copy()?,
        })
    }

    /// The entry with another comment.
    pub(crate) fn with_comment(&self, comment: &Text) -> Result<Entry, NoMemory>
        ensures { IfOk result (λ entry. entry ≡ with_comment comment.now self.now) }
    {
        Ok(Entry {
            name: self.name.copy()?,
            body: self.body.clone()?,
            bits: self.bits,
            comment: comment.copy()?,
        })
    }
}
