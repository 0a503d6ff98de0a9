//! The permissions of a file and whose it is: one that takes the place of another, or its name, gets those of that one as far as the system
//! lets this user give them.
ghost use Rattle.std.specs.Prelude.{◌≡◌, bit_and};
ghost use Rattle.ados_transfer.specs.Rights.{copy_mode, folder_mode, has_right, left_within, mode_in};

use std::fs::{Metadata, OpenFile};
use std::io;
use std::os::unix::fs::{MetadataExt, PermissionsExt, lchown};
use std::rt::Files;

// The rights of the user and of others; those of others are three bits lower than those of the group.
const NO_GROUP: u32 = 0o707;

const OTHERS: u32 = 0o007;

const BELOW_GROUP: u32 = 3;

// All that may be given to a copy: others may not write it.
const OF_COPY: u32 = 0o755;

const ALL: u32 = 0o777;

// All that the user has, and all but what others have.
const OF_USER: u32 = 0o700;

const NO_OTHERS: u32 = 0o770;

// The rights to enter a folder.
const ENTERED_BY_GROUP: u32 = 0o010;

const ENTERED_BY_OTHERS: u32 = 0o001;

/// The user and the group of a file.
#[derive(Clone, Copy, PartialEq, Eq)]
pub struct Owner {
    /// The number of the user.
    pub user: u32,
    /// The number of the group.
    pub group: u32,
}

/// The permissions of a file or a folder, and whose it is.
#[derive(Clone, Copy, PartialEq, Eq)]
pub struct Rights {
    /// Its mode.
    pub mode: u32,
    /// Whose it is.
    pub owner: Owner,
}

impl Owner {
    /// Those of a file that was looked at.
    pub fn of(found: &Metadata) -> Owner {
        Owner {
            user: found.uid(),
            group: found.gid(),
        }
    }
}

impl Rights {
    /// Those of an object that was looked at.
    pub fn of(found: &Metadata) -> Rights {
        Rights {
            mode: found.permissions().mode(),
            owner: Owner::of(found),
        }
    }

    /// What is left of them in a folder with these: who can't enter that has none. Those of the file's group can if the folder has the same
    /// one and gives it that right, or if all can.
    pub fn within(self, folder: Rights) -> Rights
        ensures { result ≡ record self { mode = bit_and self.mode (left_within self.owner folder) } }
    {
        let is_group = folder.owner.group == self.owner.group;
        let left = match (
            folder.is_for(ENTERED_BY_GROUP),
            folder.is_for(ENTERED_BY_OTHERS),
        ) {
            (true, true) => ALL,
            (true, false) if is_group => NO_OTHERS,
            _ => OF_USER,
        };
        Rights {
            mode: self.mode & left,
            owner: self.owner,
        }
    }

    /// Those of a folder of the same owner that nobody can enter.
    pub fn closed(self) -> Rights
        ensures { result ≡ record self { mode = 0 } }
    {
        Rights {
            mode: 0,
            owner: self.owner,
        }
    }

    // They have this right.
    fn is_for(self, right: u32) -> bool
        ensures { result ≡ has_right self.mode right }
    {
        self.mode & right != 0
    }

    /// The mode of a copy of the file, which is this user's: `own` are the user and the group of the copy. Others may not write it.
    pub fn copy_mode(self, own: Owner) -> u32
        ensures { result ≡ copy_mode self own.group }
    {
        self.mode_in(own.group) & OF_COPY
    }

    /// Gives a file that was made at this path, and is open, to the user and group, or at least to the group. What the system refuses
    /// is left; a link that took the path is not followed. Gives the mode that the file is to have.
    ///
    /// The error is that the open file can't be looked at.
    pub fn give<R: Files, F: OpenFile>(self, rt: &R, path: &str, file: &F) -> io::Result<u32> {
        let Owner { user, group } = self.owner;
        if Owner::of(&file.metadata()?) != self.owner
            && lchown(rt, path, Some(user), Some(group)).is_err()
        {
            let _ = lchown(rt, path, None, Some(group));
        }
        Ok(self.mode_in(Owner::of(&file.metadata()?).group))
    }

    /// The mode of a folder in place of one with these, or of its copy: its user may do all with it.
    pub fn folder_mode(self, own: Owner, is_copy: bool) -> u32
        ensures { result ≡ folder_mode self own.group is_copy }
    {
        let mode = if is_copy {
            self.copy_mode(own)
        } else {
            self.mode_in(own.group)
        };
        mode | OF_USER
    }

    // The mode of a file that has this group: one that is not the old one has only those rights that others have too.
    fn mode_in(self, group: u32) -> u32
        ensures { result ≡ mode_in self group }
    {
        let mode = self.mode & ALL;
        if group == self.owner.group {
            return mode;
        }
        mode & (NO_GROUP | ((mode & OTHERS) << BELOW_GROUP))
    }
}
