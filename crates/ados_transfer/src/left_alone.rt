//! What of the folders of a share is left alone, and why.
ghost use Rattle.std.specs.{Prelude.{◌≡◌}, List.{list_any}};
ghost use Rattle.ados_transfer.specs.{Folders.{is_whole}, LeftAlone.{is_left_out, obstacle_of}};

use crate::folders::Look;

/// Why an object of a folder is not shared.
#[derive(Clone, Copy, PartialEq, Eq)]
pub enum Obstacle {
    /// Its name has bytes that no name of the Shell has.
    BadName,
    /// Its name is longer than one of the Shell.
    LongName,
    /// Its path is longer than one of the Shell.
    LongPath,
    /// Another name in its folder differs from its own in case alone.
    Twice,
    /// It is neither a file nor a folder.
    Foreign,
    /// It is a temporary file of another run, which was killed or goes on.
    Temporary,
    /// It can't be read.
    Unread,
}

/// An object of a folder that is not shared.
#[derive(Drop)]
pub struct LeftAlone {
    /// Why.
    pub obstacle: Obstacle,
    /// Its path below the folder.
    pub path: String,
}

// No name of the Shell has more bytes.
const NAME_LIMIT: usize = 30;

impl Obstacle {
    /// Why a name that is none of the Shell's is left alone.
    pub fn of_name(name: &str) -> Obstacle
        ensures { result ≡ obstacle_of name.now }
    {
        if name.len() > NAME_LIMIT {
            Obstacle::LongName
        } else {
            Obstacle::BadName
        }
    }

    /// What a line says of the object.
    pub fn text(self) -> &'static str {
        match self {
            Obstacle::BadName => "bad name for the Shell, left alone",
            Obstacle::LongName => "name of more than 30 bytes, left alone",
            Obstacle::LongPath => "path of more than 255 bytes, left alone",
            Obstacle::Twice => "name is taken twice, left alone",
            Obstacle::Foreign => "no file or folder, left alone",
            Obstacle::Temporary => "temporary file of another run, left alone",
            Obstacle::Unread => "cannot read",
        }
    }
}

impl LeftAlone {
    /// It would be shared but for its name, or if it could be read: the Shell takes it for one that does not exist.
    pub fn is_left_out(&self) -> bool
        ensures { result ≡ is_left_out self.now }
    {
        !matches!(self.obstacle, Obstacle::Foreign | Obstacle::Temporary)
    }
}

impl Look {
    /// Nothing is left out: all could be read, and what is left alone is never shared.
    pub fn is_whole(&self) -> bool
        ensures { result ≡ is_whole self.now }
    {
        self.unread.is_empty() && !self.leaves_out()
    }

    // A file or a folder is left out for its name.
    fn leaves_out(&self) -> bool
        ensures { result ≡ list_any is_left_out self.now.left_alone.items }
    {
        self.left_alone.iter().any(|one| one.is_left_out())
    }
}
