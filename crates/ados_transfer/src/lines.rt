//! The lines that are typed: those that bring the files in, those of `--type`, and the call of the script.

use crate::faults::{TransferFault, named};
use crate::paths::ascii;
use crate::planned::{Content, Planned};
use crate::words::push_word;
use ados_ram::Place;
use ados_text::{LINE_BYTES, NoMemory, PIECE_BYTES, Text};
use std::alloc::Global;

/// The command whose output is the next file that is brought in.
pub const BRING: &[u8] = b"amishell-bring";

/// The lines of a run.
#[derive(Drop)]
pub struct Lines {
    /// All of them, in order.
    pub all: Vec<Text>,
    /// How many of them bring the files in.
    pub bringing: usize,
    /// How many events they take.
    pub events: u64,
}

impl Lines {
    /// The lines that bring these in, and hide the command that did it.
    pub fn bringing(alloc: Global, planned: &[Planned]) -> Result<Lines, TransferFault> {
        bringing_lines(alloc, planned)
    }
}

fn bringing_lines(alloc: Global, planned: &[Planned]) -> Result<Lines, TransferFault> {
    let mut lines = Lines {
        all: Vec::new(alloc),
        bringing: 0,
        events: 0,
    };
    for one in planned {
        let path = one.place.path(alloc)?;
        match &one.content {
            Content::Directory => lines.add(
                alloc,
                command_line(alloc, b"\"MakeDir\"", &path)?,
                &path,
            )?,
            Content::File { bytes, is_script } => {
                let mut line = start(alloc, b"\"amishell-bring\" >")?;
                push_word(&mut line, &path, true)?;
                lines.add(alloc, line, &path)?;
                lines.events = lines.events.saturating_add(pieces(bytes.len()));
                if *is_script {
                    lines.add(alloc, protection(alloc, &one.place)?, &path)?;
                }
            }
        }
    }
    let hide = start(alloc, b"\"Delete\" C:amishell-bring QUIET")?;
    let name = start(alloc, BRING)?;
    lines.add(alloc, hide, &name)?;
    lines.bringing = lines.all.len();
    Ok(lines)
}

// How many answers of the launcher a file with these bytes takes.
fn pieces(bytes: usize) -> u64 {
    (bytes.div_ceil(PIECE_BYTES) as u64).saturating_add(3)
}

impl Lines {
    // Adds a line that is typed for this.
    fn add(&mut self, alloc: Global, line: Text, name: &Text) -> Result<(), TransferFault> {
        if line.as_bytes().len() > LINE_BYTES {
            return Err(too_long(alloc, name));
        }
        self.all.push(line)?;
        self.events = self.events.saturating_add(2);
        Ok(())
    }

    /// Adds a line of `--type`.
    pub fn add_typed(&mut self, alloc: Global, line: &str) -> Result<(), TransferFault> {
        let text = ascii(alloc, line)?;
        if text.as_bytes().contains(&b'\n') {
            return Err(named(alloc, line, TransferFault::ManyLines));
        }
        self.keep(alloc, text, line)
    }

    /// Adds the call of the script at a place with these arguments.
    pub fn add_call(
        &mut self,
        alloc: Global,
        place: &Place,
        args: &[&str],
        quotes: bool,
    ) -> Result<(), TransferFault> {
        let mut line = command_line(alloc, b"\"Execute\"", &place.path(alloc)?)?;
        for arg in args {
            push_word(&mut line, &ascii(alloc, arg)?, quotes)?;
        }
        self.keep(alloc, line, "the script with its arguments")
    }

    // Adds a line that is typed after the files were brought in.
    fn keep(&mut self, alloc: Global, line: Text, name: &str) -> Result<(), TransferFault> {
        if line.as_bytes().len() > LINE_BYTES {
            return Err(named(alloc, name, TransferFault::LongLine));
        }
        self.all.push(line)?;
        Ok(())
    }
}

/// A line that begins with these words.
pub fn start(alloc: Global, words: &[u8]) -> Result<Text, NoMemory> {
    Text::from_bytes(alloc, words)
}

/// A line that begins with a command and a path.
pub fn command_line(alloc: Global, name: &[u8], path: &Text) -> Result<Text, NoMemory> {
    let mut line = start(alloc, name)?;
    push_word(&mut line, path, true)?;
    Ok(line)
}

// The line that sets bit s of a file.
fn protection(alloc: Global, place: &Place) -> Result<Text, NoMemory> {
    let mut line = command_line(alloc, b"\"Protect\"", &literal(alloc, place)?)?;
    let word = start(alloc, b" +s")?;
    line.push_bytes(word.as_bytes())?;
    Ok(line)
}

/// The path of a place as a pattern that it alone matches: in the last name each pattern character has a `'` before it.
pub fn literal(alloc: Global, place: &Place) -> Result<Text, NoMemory> {
    let path = place.path(alloc)?;
    let bytes = path.as_bytes();
    let last = bytes
        .len()
        .saturating_sub(place.last_name()?.text().as_bytes().len());
    let mut text = Text::new(alloc);
    for (at, byte) in bytes.iter().enumerate() {
        if at >= last && b"'[]?%#~|()".contains(byte) {
            text.push(b'\'')?;
        }
        text.push(*byte)?;
    }
    Ok(text)
}

/// The fault of a line that is too long for an object.
pub fn too_long(alloc: Global, name: &Text) -> TransferFault {
    match std::str::from_utf8(name.as_bytes()) {
        Ok(path) => named(alloc, path, TransferFault::LongLine),
        Err(_) => TransferFault::NoMemory,
    }
}
