//! Objects of one folder that fail in one update for one reason: the first has a line of its own, the others are counted.

use ados_transfer::{TransferFault, Volumes, folder_of, with_reason};
use std::alloc::Global;
use std::io::ErrorKind;

/// Objects of one folder that failed for one reason.
#[derive(Drop)]
pub struct Failures {
    alloc: Global,
    // What could not be done with them.
    text: String,
    kind: ErrorKind,
    // The path of the last one.
    last: String,
    // How many there are after the first.
    more: usize,
}

impl Failures {
    /// The first of them.
    pub fn new(
        alloc: Global,
        text: &str,
        path: &str,
        kind: ErrorKind,
    ) -> Result<Failures, TransferFault> {
        Ok(Failures {
            alloc,
            text: String::from_str(alloc, text)?,
            kind,
            last: String::from_str(alloc, path)?,
            more: 0,
        })
    }

    /// An object of this path that failed so is one of them.
    pub fn has(&self, text: &str, path: &str, kind: ErrorKind) -> bool {
        self.text.as_str() == text
            && self.kind == kind
            && folder_of(self.last.as_str()) == folder_of(path)
    }

    /// One more.
    pub fn add(&mut self, path: &str) -> Result<(), TransferFault> {
        self.last = String::from_str(self.alloc, path)?;
        self.more = self.more.saturating_add(1);
        Ok(())
    }

    /// The line of the last one.
    pub fn line(&self, volumes: &Volumes) -> Result<String, TransferFault> {
        let path = volumes.shown(self.last.as_str())?;
        self.reasoned(format!(in self.alloc; "{}: {path}", self.text)?)
    }

    /// The line of those after the first, if there are any. A single one is named.
    pub fn further_line(&self, volumes: &Volumes) -> Result<Option<String>, TransferFault> {
        match self.more {
            0 => Ok(None),
            1 => Ok(Some(self.line(volumes)?)),
            more => {
                let folder = volumes.shown(folder_of(self.last.as_str()))?;
                let text = format!(in self.alloc; "{} {more} more in {folder}", self.text)?;
                Ok(Some(self.reasoned(text)?))
            }
        }
    }

    // A text with the reason after it.
    fn reasoned(&self, text: String) -> Result<String, TransferFault> {
        with_reason(self.alloc, text.as_str(), self.kind)
    }
}

/// A line that names the first of several objects, and tells how many more there are.
pub fn with_more(alloc: Global, line: String, more: usize) -> Result<String, TransferFault> {
    match more {
        0 => Ok(line),
        more => Ok(format!(in alloc; "{line} and {more} more")?),
    }
}
