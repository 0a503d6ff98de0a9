//! Where the Shell has a file of the folder beside, as lines say it.
ghost use Rattle.std.specs.Prelude.{◌≡◌, true, IfOk};
ghost use Rattle.ados_share.specs.Elsewhere.{says_same};

use ados_text::NoMemory;
use std::fmt;
use std::fmt::{Display, Formatter, Write};

/// Where the Shell has a file of the folder, in most cases outside of the directory.
#[derive(Drop)]
pub enum Elsewhere {
    /// A file of this path has its bytes.
    Copy(String),
    /// In a file of this path its bytes stand among others.
    Part(String),
    /// It was moved to this path, and other bytes are there by now.
    Moved(String),
    /// It had a copy that gave way to what came in from the folder.
    Replaced,
}

impl Elsewhere {
    /// An equal value.
    pub fn copy(&self) -> Result<Elsewhere, NoMemory>
        ensures { IfOk result (λ elsewhere. says_same elsewhere self.now ≡ true) }
    {
        Ok(match self {
            Elsewhere::Copy(path) => Elsewhere::Copy(path.clone()?),
            Elsewhere::Part(path) => Elsewhere::Part(path.clone()?),
            Elsewhere::Moved(path) => Elsewhere::Moved(path.clone()?),
            Elsewhere::Replaced => Elsewhere::Replaced,
        })
    }
}

impl Display for Elsewhere {
    fn fmt<W: Write>(&self, f: &mut Formatter<W>) -> fmt::Result {
        match self {
            Elsewhere::Copy(path) => write!(f, "its only other copy is {path}"),
            Elsewhere::Part(path) => write!(f, "its bytes stand elsewhere only in {path}"),
            Elsewhere::Moved(path) => write!(f, "it was moved to {path} and changed"),
            Elsewhere::Replaced => f.write_str("this machine's was kept in place of its copy"),
        }
    }
}
