//! How what was renamed or made gets another mode: it is opened for that, so that what another program puts in its place does not get
//! the mode, and no link is followed.
ghost use Rattle.std.specs.Prelude.{◌≡◌, true};
ghost use Rattle.ados_transfer.specs.Stamps.{is_same_file};

use ados_transfer::{Rights, Stamp};
use std::fs::{Metadata, OpenFile, OpenOptions, Permissions};
use std::io::ErrorKind;
use std::os::unix::fs::PermissionsExt;
use std::rt::Files;
use std::{fs, io};

// The rights of the user, the group and others.
const ALL: u32 = 0o777;

// Those by which its user opens a file.
const READ_BY_USER: u32 = 0o400;

const OPENED_BY_USER: u32 = 0o600;

/// Sets the mode of a folder, and looks at it then. It is opened from within, which is no way through a link: `Below` refuses one.
pub fn set_folder_mode<R: AllocGlobal + Files>(
    rt: &R,
    path: &str,
    mode: u32,
) -> io::Result<Metadata> {
    let folder = fs::open(rt, format!(in rt.alloc(); "{path}/.")?.as_str())?;
    folder.set_permissions(Permissions::from_mode(mode))?;
    folder.metadata()
}

/// Leaves a file that was renamed no more than these rights, and gives the stamp that it has then. If it was changed before, it keeps the
/// old stamp, so that the change is seen.
pub fn restrict<R: Files>(rt: &R, path: &str, rights: Rights, stamp: Stamp) -> Stamp
    ensures { is_same_file result stamp ≡ true }
{
    match try_restrict(rt, path, rights.mode & ALL, &stamp) {
        Ok(new) if new.is_same_file(&stamp) => new,
        _ => stamp,
    }
}

// The same, with the error.
fn try_restrict<R: Files>(rt: &R, path: &str, mode: u32, stamp: &Stamp) -> io::Result<Stamp> {
    let found = fs::symlink_metadata(rt, path)?;
    let old = Rights::of(&found).mode & ALL;
    if old == mode || !Stamp::of(&found).is_same(stamp) {
        return Ok(*stamp);
    }
    match open_with(rt, path, old) {
        Ok(file) => set_file_mode(&file, mode, stamp),
        // Its user may not open it: it has only its name, and a link that takes that now is followed.
        Err(error) if error.kind() == ErrorKind::PermissionDenied && old & OPENED_BY_USER == 0 => {
            fs::set_permissions(rt, path, Permissions::from_mode(mode))?;
            Ok(Stamp::of(&fs::symlink_metadata(rt, path)?))
        }
        Err(error) => Err(error),
    }
}

// Opens a file of this mode, which is not changed by that.
fn open_with<R: Files>(rt: &R, path: &str, mode: u32) -> io::Result<R::File> {
    let is_read = mode & READ_BY_USER != 0;
    let mut options = OpenOptions::new();
    options.read(is_read);
    options.write(!is_read);
    options.open(rt, path)
}

// Sets the mode of an open file and gives its stamp, if it is the one of this stamp.
fn set_file_mode<F: OpenFile>(file: &F, mode: u32, stamp: &Stamp) -> io::Result<Stamp> {
    if !Stamp::of(&file.metadata()?).is_same(stamp) {
        return Ok(*stamp);
    }
    file.set_permissions(Permissions::from_mode(mode))?;
    Ok(Stamp::of(&file.metadata()?))
}
