//! The paths of this machine from which the Shell's files come.

use ados_text::{NoMemory, Text, same_name};
use ados_trace::{ScriptNames, shown};
use ados_transfer::{Planned, Volume, parted, step_into};
use std::alloc::Global;
use std::rt::Files;

/// Where the Shell's files come from.
#[derive(Drop)]
pub struct Origins<'a> {
    /// Where the memory for names comes from.
    pub alloc: Global,
    // What was brought in.
    planned: &'a [Planned],
    // The directories that are shared.
    shares: Vec<Shared>,
}

// A directory of the Shell that is shared.
#[derive(Drop)]
struct Shared {
    // Its full path.
    directory: Text,
    // Its folder, as it was named.
    folder: String,
}

impl<'a> Origins<'a> {
    /// What was brought in.
    pub fn new(alloc: Global, planned: &'a [Planned]) -> Origins<'a> {
        Origins {
            alloc,
            planned,
            shares: Vec::new(alloc),
        }
    }

    /// A folder is shared.
    pub fn has_shares(&self) -> bool {
        !self.shares.is_empty()
    }

    /// Adds the directories of these volumes, each with the folder that its words of `--share` name.
    pub fn add_shares<R: Files>(
        &mut self,
        rt: &R,
        words: &[&str],
        volumes: &[Volume],
    ) -> Result<(), NoMemory> {
        for (words, volume) in words.iter().zip(volumes) {
            self.shares.push(Shared {
                directory: volume.place.path(self.alloc)?,
                folder: String::from_str(self.alloc, parted(rt, words).0)?,
            })?;
        }
        Ok(())
    }
}

impl ScriptNames for Origins<'_> {
    // Its path on this machine, if it has one.
    fn name(&self, file: &Text) -> Result<String, NoMemory> {
        for one in self.planned {
            let path = one.place.path(self.alloc)?;
            if same_name(path.as_bytes(), file.as_bytes()) {
                return Ok(String::from_str(self.alloc, one.path.as_str())?);
            }
        }
        for share in &self.shares {
            if let Some(name) = share.name(self.alloc, file)? {
                return Ok(name);
            }
        }
        Ok(String::from_str(self.alloc, shown(file))?)
    }
}

impl Shared {
    // The path of a file in the folder, if it is below the directory.
    fn name(&self, alloc: Global, file: &Text) -> Result<Option<String>, NoMemory> {
        let path = shown(file);
        let length = self.directory.as_bytes().len();
        let (Some(above), Some(below)) = (path.get(..length), path.get(length..)) else {
            return Ok(None);
        };
        match below.strip_prefix('/') {
            Some(below) if same_name(above.as_bytes(), self.directory.as_bytes()) => {
                Ok(Some(self.path(alloc, below)?))
            }
            _ => Ok(None),
        }
    }

    // The path of what is below the folder; nothing is before it if that is the current one.
    fn path(&self, alloc: Global, below: &str) -> Result<String, NoMemory> {
        match self.folder.as_str() {
            "." | "./" => Ok(String::from_str(alloc, below)?),
            folder => match step_into(alloc, folder, below) {
                Ok(path) => Ok(path),
                // To step down fails for no other reason.
                Err(_) => Err(NoMemory),
            },
        }
    }
}
