//! The files below the folders of a share. Each folder is open for the whole run, and each one on the way from it to an object is opened:
//! it is used by its descriptor, which means this folder whatever takes its name, so that no link leads out of it.

use crate::faults::TransferFault;
use crate::file_number::is_one;
use crate::here::Here;
use crate::open_folders::OpenFolder;
use crate::paths::last_piece;
use crate::stamps::Stamp;
use crate::volumes::{Volume, Volumes};
use crate::writing::{BESIDE, joined, no_memory};
use std::alloc::{Alloc, AllocError, Allocator, Global};
use std::cell::Cell;
use std::collections::BTreeSet;
use std::fs::{Metadata, OpenOptions, Permissions};
use std::io::{Error, ErrorKind};
use std::os::unix::fs::MetadataExt;
use std::rt::Files;
use std::time::{Clock, Duration};
use std::{fs, io};

/// The files of this machine by the paths of volumes.
#[derive(Drop)]
pub struct Below<'a, R> {
    rt: &'a R,
    volumes: &'a Volumes,
    // The paths of the temporary files that were made.
    made: Cell<BTreeSet<String>>,
}

// The path of an object, and the folder in which it is, unless that is the folder of a volume.
#[derive(Drop)]
struct Way<F: Drop> {
    path: String,
    _folder: Option<OpenFolder<F>>,
}

impl<'a, R: AllocGlobal + Files> Below<'a, R> {
    /// The files below the folders of these volumes.
    pub fn new(rt: &'a R, volumes: &'a Volumes) -> Below<'a, R> {
        Below {
            rt,
            volumes,
            made: Cell::new(BTreeSet::new(rt.alloc())),
        }
    }

    /// The volumes.
    pub fn volumes(&self) -> &Volumes {
        self.volumes
    }

    /// The folder of a volume with this label was deleted.
    pub fn is_gone(&self, label: &str) -> bool {
        match self.metadata(label) {
            Ok(found) => found.nlink() == 0,
            Err(_) => true,
        }
    }

    /// Refuses a folder below that of a volume if it is the folder of another one, which is mounted in both places.
    ///
    /// `FoldersMeet` names the folders of the two volumes.
    pub fn check_apart(&self, path: &str, found: &Metadata) -> Result<(), TransferFault> {
        let Some((own, _)) = self.volumes.of_path(path) else {
            return Ok(());
        };
        for volume in self.volumes.all() {
            let is_other = volume.label.as_str() != own.label.as_str();
            if is_other
                && self
                    .metadata(volume.label.as_str())
                    .is_ok_and(|root| is_one(&root, found))
            {
                return Err(TransferFault::FoldersMeet(own.folder.clone()?, volume.folder.clone()?));
            }
        }
        Ok(())
    }

    /// The paths of the temporary files that were made and are still there.
    pub fn temporaries(&self) -> Result<Vec<String>, TransferFault> {
        let mut left = Vec::new(self.rt.alloc());
        for path in self.made.replace(BTreeSet::new(self.rt.alloc())) {
            if self.symlink_metadata(path.as_str()).is_ok() {
                left.push(path)?;
            }
        }
        Ok(left)
    }

    /// Deletes a file that was looked at; `false` if something else came to be there since. Its folder is open by then, so that only one
    /// call comes between the last look and the deletion.
    pub fn remove_unchanged(&self, path: &str, here: &Here) -> io::Result<bool> {
        let way = self.way(path)?;
        let found = fs::symlink_metadata(self.rt, way.path.as_str())?;
        if !here.has_stamp(&Stamp::of(&found)) {
            return Ok(false);
        }
        fs::remove_file(self.rt, way.path.as_str())?;
        Ok(true)
    }

    // Notes a temporary file that was made. If there is no memory for that it is not reported, should it be left.
    fn note(&self, path: &str) {
        if !last_piece(path).as_bytes().starts_with(BESIDE.as_bytes()) {
            return;
        }
        let mut made = self.made.replace(BTreeSet::new(self.rt.alloc()));
        if let Ok(path) = String::from_str(self.rt.alloc(), path) {
            let _ = made.insert(path);
        }
        self.made.set(made);
    }

    // The volume of a path, and what leads down from its folder.
    fn parted<'p>(&self, path: &'p str) -> io::Result<(&Volume, &'p str)> {
        match self.volumes.of_path(path) {
            Some(parted) => Ok(parted),
            None => Err(Error::from(ErrorKind::NotFound)),
        }
    }

    // The path by which this process reaches what is below the folder of a volume.
    fn real(&self, volume: &Volume, below: &str) -> io::Result<String> {
        match volume.real(self.rt.alloc(), below) {
            Ok(path) => Ok(path),
            Err(_) => Err(no_memory()),
        }
    }

    // The path by which this process reaches an object.
    fn real_path(&self, path: &str) -> io::Result<String> {
        let (volume, below) = self.parted(path)?;
        self.real(volume, below)
    }

    // The way to an object.
    fn way(&self, path: &str) -> io::Result<Way<R::File>> {
        let (volume, below) = self.parted(path)?;
        let Some((above, name)) = below.rsplit_once('/') else {
            return Ok(Way {
                path: self.real(volume, below)?,
                _folder: None,
            });
        };
        let folder = self.folder(volume, above)?;
        Ok(Way {
            path: joined(self.rt.alloc(), folder.path(), name)?,
            _folder: Some(folder),
        })
    }

    // Opens a folder below that of a volume, and for it each one on the way.
    fn folder(&self, volume: &Volume, below: &str) -> io::Result<OpenFolder<R::File>> {
        let mut steps = below.split('/');
        let first = self.real(volume, steps.next().unwrap_or(""))?;
        let mut folder = OpenFolder::new(self.rt, first.as_str())?;
        for step in steps {
            folder = folder.step_down(self.rt, step)?;
        }
        Ok(folder)
    }
}

impl<R: AllocGlobal + Files> Clone for Below<'_, R> {
    fn clone(&self) -> Result<Self, AllocError> {
        Ok(Below::new(self.rt, self.volumes))
    }
}

impl<R: AllocGlobal> Alloc for Below<'_, R> {
    type A = Global;

    fn alloc(&self) -> Global {
        self.rt.alloc()
    }
}

impl<R: Clock> Clock for Below<'_, R> {
    fn monotonic(&self) -> io::Result<Duration> {
        self.rt.monotonic()
    }

    fn since_1970(&self) -> io::Result<Duration> {
        self.rt.since_1970()
    }
}

impl<R: AllocGlobal + Files> Files for Below<'_, R> {
    type File = R::File;

    type Dir = R::Dir;

    fn open_file(&self, how: &OpenOptions, path: &str) -> io::Result<R::File> {
        let way = self.way(path)?;
        let file = self.rt.open_file(how, way.path.as_str())?;
        if how.asks_create_new() {
            self.note(path);
        }
        Ok(file)
    }

    fn open_dir(&self, path: &str) -> io::Result<R::Dir> {
        let (volume, below) = self.parted(path.trim_end_matches('/'))?;
        if below.is_empty() {
            return self.rt.open_dir(self.real(volume, below)?.as_str());
        }
        let folder = self.folder(volume, below)?;
        let whole = format!(in self.rt.alloc(); "{}/", folder.path())?;
        self.rt.open_dir(whole.as_str())
    }

    fn metadata(&self, path: &str) -> io::Result<Metadata> {
        self.rt.metadata(self.real_path(path)?.as_str())
    }

    fn symlink_metadata(&self, path: &str) -> io::Result<Metadata> {
        self.rt.symlink_metadata(self.real_path(path)?.as_str())
    }

    fn copy(&self, from: &str, to: &str) -> io::Result<u64> {
        let (from, to) = (self.way(from)?, self.way(to)?);
        self.rt.copy(from.path.as_str(), to.path.as_str())
    }

    fn rename(&self, from: &str, to: &str) -> io::Result<()> {
        let (old, new) = (self.way(from)?, self.way(to)?);
        self.rt.rename(old.path.as_str(), new.path.as_str())?;
        self.note(to);
        Ok(())
    }

    fn hard_link(&self, original: &str, link: &str) -> io::Result<()> {
        let (old, new) = (self.way(original)?, self.way(link)?);
        self.rt.hard_link(old.path.as_str(), new.path.as_str())?;
        self.note(link);
        Ok(())
    }

    fn remove_file(&self, path: &str) -> io::Result<()> {
        let way = self.way(path)?;
        self.rt.remove_file(way.path.as_str())
    }

    fn create_dir(&self, path: &str) -> io::Result<()> {
        let way = self.way(path)?;
        self.rt.create_dir(way.path.as_str())
    }

    fn remove_dir(&self, path: &str) -> io::Result<()> {
        let way = self.way(path)?;
        self.rt.remove_dir(way.path.as_str())
    }

    fn remove_dir_all<B: Allocator>(&self, alloc: B, path: &str) -> io::Result<()> {
        let way = self.way(path)?;
        self.rt.remove_dir_all(alloc, way.path.as_str())
    }

    fn lchown(&self, path: &str, user: Option<u32>, group: Option<u32>) -> io::Result<()> {
        let way = self.way(path)?;
        self.rt.lchown(way.path.as_str(), user, group)
    }

    fn set_permissions(&self, path: &str, permissions: Permissions) -> io::Result<()> {
        let way = self.way(path)?;
        self.rt.set_permissions(way.path.as_str(), permissions)
    }
}
