//! Files and directories that are to be in the Shell's files when the script begins.
ghost use Rattle.std.specs.{Prelude.{◌≡◌}, List.{list_all}, Option.{option_copied}};
ghost use Rattle.ados_transfer.specs.Planned.{is_as_planned, holds_content, holds_file};

use ados_ram::{Body, Entry, FileBytes, Place, Ram};

/// What was planned for a place.
#[derive(Drop)]
pub struct Planned {
    /// The place.
    pub place: Place,
    /// What is to be there.
    pub content: Content,
    /// The path of this machine from which it comes.
    pub path: String,
}

/// A directory or a file.
#[derive(Drop)]
pub enum Content {
    /// A directory.
    Directory,
    /// A file with these bytes, with bit s or without.
    File { bytes: FileBytes, is_script: bool },
}

/// The files have what was planned, for each of the places.
pub fn are_as_planned(files: &Ram, planned: &[Planned]) -> bool
    ensures { result ≡ list_all (is_as_planned files.now) planned.now }
{
    planned.iter().all(|one| is_as_planned(files, one))
}

// The files have what was planned for its place.
fn is_as_planned(files: &Ram, planned: &Planned) -> bool
    ensures { result ≡ is_as_planned files.now planned.now }
{
    holds(files.look(&planned.place), &planned.content)
}

// What is at a place is what was planned.
fn holds(entry: Option<&Entry>, content: &Content) -> bool
    ensures { result ≡ holds_content (option_copied entry.entry) content.now }
{
    let Some(entry) = entry else {
        return false;
    };
    match content {
        Content::Directory => entry.is_directory(),
        Content::File { bytes, is_script } => holds_file(entry, bytes, *is_script),
    }
}

// The entry is a file with these bytes, with bit s or without.
fn holds_file(entry: &Entry, bytes: &FileBytes, is_script: bool) -> bool
    ensures { result ≡ holds_file entry.now bytes.now is_script }
{
    match &entry.body {
        Body::Directory => false,
        Body::File(found) => found == bytes && entry.bits.script == is_script,
    }
}
