//! What is in the folders of a share.
ghost use Rattle.std.specs.{Prelude.{◌≡◌}, List.{list_any}, Option.{option_copied}};
ghost use Rattle.ados_transfer.specs.Folders.{hides, is_descendant, is_some_slash};

use crate::below::Below;
use crate::choice::{Named, chosen, order};
use crate::faults::TransferFault;
use crate::here::is_nothing;
use crate::left_alone::{LeftAlone, Obstacle};
use crate::paths::{is_unshared, name_of, step_into};
use crate::records::Records;
use crate::stamps::Stamp;
use crate::writing::{BESIDE, joined, no_memory};
use std::alloc::{AllocError, Global};
use std::collections::BTreeMap;
use std::fs::Metadata;
use std::io::ErrorKind;
use std::os::unix::fs::PermissionsExt;
use std::rt::Files;
use std::{fs, io};

// A look at a folder goes through no more folders than this.
const FOLDERS: usize = 65_536;

/// What an object of the folder is.
#[derive(Clone, Copy, PartialEq, Eq)]
pub enum Kind {
    /// A folder.
    Directory,
    /// A file; it may be executed, or not.
    File { is_executable: bool },
    /// A link, a device or the like.
    Foreign,
}

impl Kind {
    /// A file that may be executed.
    pub const PROGRAM: Kind = Kind::File {
        is_executable: true,
    };
}

/// An object of the folder.
#[derive(Drop)]
pub struct Seen {
    /// Its path below the folder.
    pub path: String,
    /// What it is.
    pub kind: Kind,
    /// Its stamp.
    pub stamp: Stamp,
}

/// What could not be read.
#[derive(Drop)]
pub struct Unread {
    /// Its path below the folder in lower case; empty for the folder itself.
    pub key: String,
    /// Its path below the folder.
    pub path: String,
}

/// A look at the folder.
#[derive(Drop)]
pub struct Look {
    /// What is there, each object by its path below the folder in lower case.
    pub seen: BTreeMap<String, Seen>,
    /// The folders that could not be read, and the objects that could not be looked at.
    pub unread: Vec<Unread>,
    /// What else is not shared, but for names that begin with a dot.
    pub left_alone: Vec<LeftAlone>,
    /// The keys of names that are taken twice; one of the two may be known by a record.
    pub twice: Vec<String>,
}

impl Look {
    /// Looks at everything below the folders of all volumes. Names that begin with a dot are left out unless `all`. If two names differ
    /// only in case, the one of the records is taken, otherwise none.
    pub fn new<R: AllocGlobal + Files + Clone + Drop>(
        rt: &Below<'_, R>,
        all: bool,
        records: &Records,
    ) -> Result<Look, TransferFault> {
        let alloc = rt.alloc();
        let mut look = Look {
            seen: BTreeMap::new(alloc),
            unread: Vec::new(alloc),
            left_alone: Vec::new(alloc),
            twice: Vec::new(alloc),
        };
        let mut left = Vec::new(alloc);
        for volume in rt.volumes().all().iter().rev() {
            if rt.is_gone(volume.label.as_str()) {
                look.add_unread(alloc, volume.label.as_str())?;
            } else {
                left.push(volume.label.clone()?)?;
            }
        }
        for _ in 0..FOLDERS {
            let Some(path) = left.pop() else {
                return Ok(look);
            };
            let mut folders = look.add_folder(rt, path.as_str(), all, records)?;
            left.append(&mut folders)?;
        }
        Err(TransferFault::CannotRead(rt.volumes().folders()?))
    }

    /// The object with this key could not be looked at, or is in a folder that could not be read.
    pub fn is_hidden(&self, key: &str) -> bool
        ensures { result ≡ list_any (hides key.now) self.now.unread.items }
    {
        self.unread.iter().any(|unread| hides(key, unread))
    }

    // Notes that an object could not be read.
    fn add_unread(&mut self, alloc: Global, path: &str) -> Result<(), TransferFault> {
        self.unread.push(Unread {
            key: lower(alloc, path)?,
            path: String::from_str(alloc, path)?,
        })?;
        Ok(())
    }

    // Notes that an object is not shared.
    fn leave(&mut self, obstacle: Obstacle, path: String) -> Result<(), AllocError> {
        self.left_alone.push(LeftAlone { obstacle, path })?;
        Ok(())
    }

    // Adds what is directly in a folder.
    fn add_folder<R: AllocGlobal + Files + Clone + Drop>(
        &mut self,
        rt: &Below<'_, R>,
        path: &str,
        all: bool,
        records: &Records,
    ) -> Result<Vec<String>, TransferFault> {
        let alloc = rt.alloc();
        let mut folders = Vec::new(alloc);
        let names = match self.read_names(rt, path, all) {
            Ok(names) => names,
            Err(error) if error.kind() == ErrorKind::OutOfMemory => {
                return Err(TransferFault::NoMemory);
            }
            // It was there a moment ago; if the folder of a volume is gone, nothing is known of what was in it.
            Err(error) if is_nothing(error.kind()) && !rt.volumes().is_root(path) => {
                return Ok(folders);
            }
            Err(_) => {
                self.add_unread(alloc, path)?;
                return Ok(folders);
            }
        };
        let below = self.named(alloc, path, &names)?;
        let chosen = chosen(alloc, &below, records)?;
        for (named, is_chosen) in below.into_iter().zip(chosen) {
            if is_chosen {
                self.add(rt, named, &mut folders)?;
            } else {
                self.twice.push(named.key)?;
                self.leave(Obstacle::Twice, named.path)?;
            }
        }
        Ok(folders)
    }

    // Reads the names in a folder that are not left out.
    fn read_names<R: AllocGlobal + Files + Clone + Drop>(
        &mut self,
        rt: &Below<'_, R>,
        path: &str,
        all: bool,
    ) -> io::Result<Vec<String>> {
        let mut names = Vec::new(rt.alloc());
        for entry in fs::read_dir(rt, path)? {
            match entry {
                Ok(entry) if entry.file_name().as_bytes().starts_with(BESIDE.as_bytes()) => {
                    let path = joined(rt.alloc(), path, entry.file_name())?;
                    self.leave(Obstacle::Temporary, path)?;
                }
                Ok(entry) if is_unshared(entry.file_name(), all) => {}
                Ok(entry) => names.push(String::from_str(rt.alloc(), entry.file_name())?)?,
                Err(error) if error.kind() == ErrorKind::InvalidFilename => {
                    let Ok(whole) = rt.volumes().whole(path) else {
                        return Err(no_memory());
                    };
                    let one = format!(in rt.alloc(); "one in {whole}")?;
                    self.leave(Obstacle::BadName, one)?;
                }
                Err(error) => return Err(error),
            }
        }
        Ok(names)
    }

    // The paths of those names that can be names of the Shell, in the order of their keys.
    fn named(
        &mut self,
        alloc: Global,
        path: &str,
        names: &[String],
    ) -> Result<Vec<Named>, TransferFault> {
        let mut below = Vec::new(alloc);
        for name in names {
            let path = step_into(alloc, path, name.as_str())?;
            match name_of(alloc, name.as_str(), path.as_str()) {
                Ok(_) => below.push(Named {
                    key: lower(alloc, path.as_str())?,
                    path,
                })?,
                Err(TransferFault::NoMemory) => return Err(TransferFault::NoMemory),
                Err(_) => self.leave(Obstacle::of_name(name.as_str()), path)?,
            }
        }
        below.sort_by(|a, b| order(a, b))?;
        Ok(below)
    }

    // Adds an object; a folder is also kept to be gone through.
    fn add<R: AllocGlobal + Files>(
        &mut self,
        rt: &Below<'_, R>,
        named: Named,
        folders: &mut Vec<String>,
    ) -> Result<(), TransferFault> {
        let alloc = rt.alloc();
        let found = match fs::symlink_metadata(rt, named.path.as_str()) {
            Ok(found) => found,
            Err(error) if is_nothing(error.kind()) => return Ok(()),
            Err(_) => return self.add_unread(alloc, named.path.as_str()),
        };
        let kind = kind_of(&found);
        match kind {
            Kind::Directory => {
                rt.check_apart(named.path.as_str(), &found)?;
                folders.push(named.path.clone()?)?;
            }
            Kind::Foreign => self.leave(Obstacle::Foreign, named.path.clone()?)?,
            Kind::File { .. } => {}
        }
        let seen = Seen {
            path: named.path,
            kind,
            stamp: Stamp::of(&found),
        };
        self.seen.insert(named.key, seen)?;
        Ok(())
    }
}

// What an object is.
fn kind_of(found: &Metadata) -> Kind {
    if found.is_dir() {
        return Kind::Directory;
    }
    if !found.is_file() {
        return Kind::Foreign;
    }
    Kind::File {
        is_executable: found.permissions().mode() & 0o111 != 0,
    }
}

/// A path in lower case.
pub fn lower(alloc: Global, path: &str) -> Result<String, AllocError> {
    path.to_ascii_lowercase(alloc)
}

// What could not be read is the object of this key, or a folder above it.
fn hides(key: &str, unread: &Unread) -> bool
    ensures { result ≡ hides key.now unread.now }
{
    unread.key.as_str() == key || is_descendant(unread.key.as_str(), key)
}

/// A key is that of an object below a folder.
pub fn is_descendant(folder: &str, key: &str) -> bool
    ensures { result ≡ is_descendant folder.now key.now }
{
    key.as_bytes().starts_with(folder.as_bytes())
        && (folder.is_empty() || is_some_slash(key.as_bytes().get(folder.len())))
}

// A byte is a slash.
fn is_some_slash(byte: Option<&u8>) -> bool
    ensures { result ≡ is_some_slash (option_copied byte.entry) }
{
    matches!(byte, Some(b'/'))
}
