//! The lines of the Shell by which a change of the folder of a share comes in.

use crate::faults::TransferFault;
use crate::lines::{command_line, literal, start, too_long};
use crate::stand_ins::is_stand_in;
use crate::words::push_word;
use ados_ram::{Entry, Place, Ram};
use ados_text::{LINE_BYTES, Name, Text};
use std::alloc::Global;

// The lines that put the commands of the share on the resident list, where nothing can shadow them, each by its name there and the
// file in C: from which it comes. By the first the script is called.
const COMMANDS: [&[u8]; 6] = [
    b"\"Resident\" Execute C:Execute PURE SYSTEM",
    b"\"Resident\" amishell-bring C:amishell-bring PURE SYSTEM",
    b"\"Resident\" amishell-makedir C:MakeDir PURE SYSTEM",
    b"\"Resident\" amishell-delete C:Delete PURE SYSTEM",
    b"\"Resident\" amishell-protect C:Protect PURE SYSTEM",
    b"\"Resident\" amishell-filenote C:Filenote PURE SYSTEM",
];

/// Lines that are run in order.
#[derive(Drop)]
pub struct ShareLines {
    alloc: Global,
    lines: Vec<Text>,
}

impl ShareLines {
    /// No lines.
    pub fn new(alloc: Global) -> ShareLines {
        ShareLines {
            alloc,
            lines: Vec::new(alloc),
        }
    }

    /// The lines; `LongLine` if one of them would be too long, or the path in it.
    pub fn into_lines(self) -> Result<Vec<Text>, TransferFault> {
        match self
            .lines
            .iter()
            .find(|line| line.as_bytes().len() > LINE_BYTES)
        {
            Some(line) => Err(too_long(self.alloc, line)),
            None => Ok(self.lines),
        }
    }

    /// Adds the lines that make the commands resident.
    pub fn add_commands(&mut self) -> Result<(), TransferFault> {
        for line in &COMMANDS {
            self.lines.push(start(self.alloc, line)?)?;
        }
        Ok(())
    }

    /// Adds the lines that make a directory, and those above it that are not there.
    pub fn add_way(&mut self, files: &Ram, place: &Place) -> Result<(), TransferFault> {
        for depth in 1..=place.names().len() {
            let above = Place::root(self.alloc).joined(&place.names()[..depth])?;
            if files.look(&above).is_none() {
                self.add_directory(&above)?;
            }
        }
        Ok(())
    }

    /// Adds the line that makes an assign to a directory.
    pub fn add_assign(&mut self, device: &Name, place: &Place) -> Result<(), TransferFault> {
        let mut name = device.text().copy()?;
        name.push(b':')?;
        let mut words = Text::new(self.alloc);
        push_word(&mut words, &place.path(self.alloc)?, true)?;
        self.add(b"\"Assign\"", &name, words.as_bytes())
    }

    /// Adds the line that makes a directory.
    pub fn add_directory(&mut self, place: &Place) -> Result<(), TransferFault> {
        self.add(b"\"amishell-makedir\"", &place.path(self.alloc)?, b"")
    }

    /// Adds the lines that delete an object, whatever its bits.
    pub fn add_deletion(&mut self, place: &Place, entry: &Entry) -> Result<(), TransferFault> {
        let path = literal(self.alloc, place)?;
        if !entry.bits.delete {
            self.add(b"\"amishell-protect\"", &path, b" +d")?;
        }
        self.add(b"\"amishell-delete\"", &path, b" QUIET")
    }

    /// Adds the lines that write a file over what is there. Its bits and its comment are kept, except for those of a stand-in.
    pub fn add_file(
        &mut self,
        place: &Place,
        entry: Option<&Entry>,
        is_script: bool,
    ) -> Result<(), TransferFault> {
        let path = literal(self.alloc, place)?;
        let is_locked = entry.is_some_and(|entry| !entry.bits.write);
        if is_locked {
            self.add(b"\"amishell-protect\"", &path, b" +w")?;
        }
        self.add(b"\"amishell-bring\" >", &place.path(self.alloc)?, b"")?;
        if entry.is_some_and(is_stand_in) {
            self.add(b"\"amishell-filenote\"", &path, b"")?;
            self.add(b"\"amishell-protect\"", &path, b" rwed")?;
        } else if is_locked {
            self.add(b"\"amishell-protect\"", &path, b" -w")?;
        }
        if is_script && entry.is_none_or(is_stand_in) {
            self.add(b"\"amishell-protect\"", &path, b" +s")?;
        }
        Ok(())
    }

    /// Adds the lines that make a stand-in with this comment over what is there: an empty file without bits.
    pub fn add_stand_in(
        &mut self,
        place: &Place,
        entry: Option<&Entry>,
        comment: &Text,
    ) -> Result<(), TransferFault> {
        let path = literal(self.alloc, place)?;
        if entry.is_some_and(|entry| !entry.bits.write) {
            self.add(b"\"amishell-protect\"", &path, b" +w")?;
        }
        self.add(b"\"amishell-bring\" >", &place.path(self.alloc)?, b"")?;
        let mut words = Text::new(self.alloc);
        push_word(&mut words, comment, true)?;
        self.add(b"\"amishell-filenote\"", &path, words.as_bytes())?;
        self.add(b"\"amishell-protect\"", &path, b"")
    }

    // Adds a command with a path, and more words.
    fn add(&mut self, command: &[u8], path: &Text, words: &[u8]) -> Result<(), TransferFault> {
        let mut line = command_line(self.alloc, command, path)?;
        line.push_bytes(start(self.alloc, words)?.as_bytes())?;
        self.lines.push(line)?;
        Ok(())
    }
}
