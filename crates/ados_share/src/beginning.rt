//! The Shell's files as the script finds them: what is not one of these is new.
ghost use Rattle.std.specs.Prelude.{◌≡◌, OnOk, Some};

use crate::mirror::Mirror;
use ados_ram::{Entry, FileBytes, Place, Ram};
use ados_text::NoMemory;

/// The Shell's files when what was in the folders has come in, and nothing of the script has run.
#[derive(Drop)]
pub struct Beginning {
    // `None` before they are noted.
    files: Option<Ram>,
}

impl Beginning {
    /// Nothing is noted yet.
    pub fn new() -> Beginning {
        Beginning { files: None }
    }

    /// A file at this place had these bytes.
    pub fn had(&self, place: &Place, bytes: &FileBytes) -> bool {
        self.files
            .as_ref()
            .and_then(|files| files.look(place))
            .and_then(Entry::bytes)
            .is_some_and(|old| old == bytes)
    }
}

impl Mirror {
    /// Notes the files as the script finds them.
    pub fn note_beginning(&mut self, files: &Ram) -> Result<(), NoMemory>
        ensures noted { OnOk result (self.new.beginning.files ≡ Some files.now) }
        ensures rest { self.new ≡ record self.old { beginning = self.new.beginning } }
    {
        self.beginning = Beginning {
            files: Some(files.copy()?),
        };
        Ok(())
    }
}
