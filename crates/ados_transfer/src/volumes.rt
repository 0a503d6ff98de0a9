//! The folders that are shared, each as a volume: a folder of this machine, and the directory of the Shell's files that is kept alike
//! with it.
//!
//! One path names an object among all of them. If there are several volumes its first step is the label of one, as in `1:/src/x`, and
//! otherwise there is no such step; what follows leads down from the folder. A key is such a path in lower case.
ghost use Rattle.std.specs.{Prelude.{◌≡◌, IfOk, IfSome, string_bytes}, List.{Contains}};
ghost use Rattle.ados_ram.specs.Place.{is_at_or_below, key_of};
ghost use Rattle.ados_transfer.specs.Volumes.{Follows, real_path};

use crate::faults::TransferFault;
use crate::paths::step_into;
use crate::places::place_below;
use ados_ram::Place;
use ados_text::{Name, NoMemory};
use std::alloc::Global;
use std::rc::Rc;

/// A folder of this machine, and the directory of the Shell's files that is kept alike with it.
#[derive(Drop)]
pub struct Volume {
    /// The first step of the paths of its objects; empty if it is the only volume.
    pub label: String,
    /// What stands in lines before the path of an object: `Work:` or `RAM:Work/`; nothing if it is the only volume.
    pub prefix: String,
    /// The folder's whole path at the beginning, for lines.
    pub folder: String,
    /// The path by which the folder is used, which leads to it whatever takes its name.
    pub root: String,
    /// The directory.
    pub place: Place,
    /// The device by which the script names the directory, if there is one.
    pub device: Option<Name>,
}

impl Volume {
    /// What follows the label in a path or a key; `None` if it is that of an object of another volume.
    pub fn below<'p>(&self, path: &'p str) -> Option<&'p str>
        ensures { IfSome result (λ below. Follows (string_bytes self.now.label) path.now below.now) }
    {
        if self.label.is_empty() {
            return Some(path);
        }
        match path.strip_prefix(self.label.as_str()) {
            Some("") => Some(""),
            Some(rest) => rest.strip_prefix('/'),
            None => None,
        }
    }

    /// The path by which what is below the folder is used; the empty one is that of the folder itself.
    pub fn real(&self, alloc: Global, below: &str) -> Result<String, TransferFault>
        ensures { IfOk result (λ path. string_bytes path ≡ real_path (string_bytes self.now.root) below.now) }
    {
        let below = if below.is_empty() { "." } else { below };
        step_into(alloc, self.root.as_str(), below)
    }

    /// A place is that of the directory, or below it.
    #[tactic(auto, using(crate::proofs::VolumeLemmas::begins_by_key))]
    pub fn has(&self, place: &Place) -> bool
        ensures { result ≡ is_at_or_below (key_of self.now.place) (key_of place.now) }
    {
        place.names().starts_with(self.place.names())
    }
}

/// The volumes, in the order in which they were given.
#[derive(Drop)]
pub struct Volumes {
    alloc: Global,
    all: Rc<Vec<Volume>>,
}

impl Volumes {
    /// These volumes, whose labels differ and whose directories are not in one another.
    pub fn new(alloc: Global, all: Vec<Volume>) -> Result<Volumes, TransferFault> {
        Ok(Volumes {
            alloc,
            all: Rc::new(alloc, all)?,
        })
    }

    /// The same volumes.
    pub fn copy(&self) -> Result<Volumes, NoMemory> {
        Ok(Volumes {
            alloc: self.alloc,
            all: self.all.clone()?,
        })
    }

    /// All of them.
    pub fn all(&self) -> &[Volume] {
        self.all.as_slice()
    }

    /// The volume in which a place is.
    pub fn of_place(&self, place: &Place) -> Option<&Volume> {
        self.all.iter().find(|volume| volume.has(place))
    }

    /// The volume of a path or a key, and what follows its label there.
    pub fn of_path<'p>(&self, path: &'p str) -> Option<(&Volume, &'p str)>
        ensures volume { IfSome result (λ found. Contains self.now.all.value.items found.0.now) }
        ensures below { IfSome result (λ found. Follows (string_bytes found.0.now.label) path.now found.1.now) }
    {
        for volume in self.all.iter() {
            if let Some(below) = volume.below(path) {
                return Some((volume, below));
            }
        }
        None
    }

    /// A path is that of the folder of a volume.
    pub fn is_root(&self, path: &str) -> bool {
        self.of_path(path)
            .is_some_and(|(_, below)| below.is_empty())
    }

    /// The path of the folder of the volume in which a path is.
    pub fn root_of(&self, path: &str) -> &str {
        match self.of_path(path) {
            Some((volume, _)) => volume.label.as_str(),
            None => "",
        }
    }

    /// The place of a path or a key.
    pub fn place_of(&self, path: &str) -> Result<Place, TransferFault> {
        match self.of_path(path) {
            Some((volume, "")) => Ok(volume.place.copy()?),
            Some((volume, below)) => place_below(self.alloc, &volume.place, below),
            None => Ok(Place::root(self.alloc)),
        }
    }

    /// The whole paths of all folders at the beginning, for a line.
    pub fn folders(&self) -> Result<String, TransferFault> {
        let mut line = String::new(self.alloc);
        for volume in self.all.iter() {
            if !line.is_empty() {
                line.push_str(", ")?;
            }
            line.push_str(volume.folder.as_str())?;
        }
        Ok(line)
    }

    /// A path as lines show it: that of a folder is its whole path. What is no path of a volume stays as it is.
    pub fn shown(&self, path: &str) -> Result<String, TransferFault> {
        Ok(match self.of_path(path) {
            Some((volume, "")) => volume.folder.clone()?,
            Some((volume, below)) => {
                let prefix = volume.prefix.as_str();
                format!(in self.alloc; "{prefix}{below}")?
            }
            None => String::from_str(self.alloc, path)?,
        })
    }

    /// The whole path of an object at the beginning, for lines.
    pub fn whole(&self, path: &str) -> Result<String, TransferFault> {
        match self.of_path(path) {
            Some((volume, "")) => Ok(volume.folder.clone()?),
            Some((volume, below)) => step_into(self.alloc, volume.folder.as_str(), below),
            None => Ok(String::from_str(self.alloc, path)?),
        }
    }
}
