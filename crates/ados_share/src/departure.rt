//! One object of the Shell's files on its way to the folder of a share.
ghost use Rattle.std.specs.Prelude.{◌≡◌, [], IfOk, string_bytes};
ghost use Rattle.ados_transfer.specs.Paths.{IsBelow, path_in};

use crate::around::Around;
use crate::elsewhere::Elsewhere;
use crate::modes::set_folder_mode;
use ados_ram::Entry;
use ados_transfer::{
    Below, Draft, Here, Last, Owner, Record, Rights, Stamp, TransferFault, enter, open_beside,
    path_of, place_whole,
};
use std::io::ErrorKind;
use std::rt::Files;
use std::{fs, io};

/// An object of the Shell's files that is not what it was at the last comparison.
#[derive(Drop)]
pub struct Departure<'a> {
    /// Its path below the folder.
    pub path: String,
    /// What is there; nothing if it is gone.
    pub entry: Option<&'a Entry>,
    /// It was not there at the last comparison.
    pub is_new: bool,
    /// It is a file and was a directory, or the other way round.
    pub changes_kind: bool,
    /// It changes its kind so, or is below an object that does.
    pub is_within_kind_change: bool,
    /// If it is a file that is to be deleted, where the Shell has one with its bytes outside of the directory; if it is one that is to be
    /// written over, where it has one anywhere; or where the script moved it, if that is outside of the directory.
    pub elsewhere: Option<Elsewhere>,
    /// If it is so, a file of the directory in which its bytes stand too, among others, and which the script made or changed.
    pub inside: Option<Around>,
}

/// When a departure is written.
#[derive(Clone, Copy, PartialEq, Eq)]
pub enum Stage {
    /// First, since it is new.
    New,
    /// Then, since it changed.
    Changed,
    /// At last, once there is room for what is of another kind now.
    KindChange,
}

impl<'a> Departure<'a> {
    /// The change of an object that was there at the last comparison.
    pub fn of(record: &Record, entry: Option<&'a Entry>) -> Result<Departure<'a>, TransferFault> {
        let was_directory = matches!(record.last, Last::Directory);
        let changes_kind = entry.is_some_and(|entry| entry.is_directory() != was_directory);
        Ok(Departure {
            path: record.path.clone()?,
            entry,
            is_new: false,
            changes_kind,
            is_within_kind_change: changes_kind,
            elsewhere: None,
            inside: None,
        })
    }

    /// One that was not there at the last comparison.
    pub fn new(path: String, entry: &'a Entry) -> Departure<'a> {
        Departure {
            path,
            entry: Some(entry),
            is_new: true,
            changes_kind: false,
            is_within_kind_change: false,
            elsewhere: None,
            inside: None,
        }
    }

    /// When it is written.
    pub fn stage(&self) -> Stage {
        if self.is_within_kind_change {
            Stage::KindChange
        } else if self.is_new {
            Stage::New
        } else {
            Stage::Changed
        }
    }

    /// What was there is gone, or of another kind.
    pub fn is_gone(&self) -> bool {
        !self.is_new && (self.entry.is_none() || self.changes_kind)
    }
}

/// Writes an object to this machine in place of what was looked at, and gives its new stamp; nothing if something else came to be
/// there since.
pub fn write_entry<R: AllocGlobal + Files>(
    rt: &R,
    path: &str,
    draft: &Draft<'_>,
) -> io::Result<Option<Stamp>> {
    let (folder, name) = way(rt, path)?;
    if draft.entry.is_directory() {
        return Ok(Some(make_folder(rt, folder.as_str(), name, draft)?));
    }
    let whole = path_of(rt.alloc(), folder.as_str(), name)?;
    if !place_whole(rt, folder.as_str(), whole.as_str(), draft)? {
        return Ok(None);
    }
    Ok(Some(Stamp::of(&fs::symlink_metadata(rt, whole.as_str())?)))
}

// Makes a folder in another one, unless it is there. A new one gets the permissions that the draft has for it.
fn make_folder<R: AllocGlobal + Files>(
    rt: &R,
    folder: &str,
    name: &str,
    draft: &Draft<'_>,
) -> io::Result<Stamp> {
    let made = enter(rt, folder, name)?;
    if let (Here::Absent, Some(manner)) = (draft.here, draft.manner) {
        let own = Owner::of(&fs::symlink_metadata(rt, made.as_str())?);
        if let Some(mode) = manner.folder_mode(own) {
            return Ok(Stamp::of(&set_folder_mode(rt, made.as_str(), mode)?));
        }
    }
    Ok(Stamp::of(&fs::symlink_metadata(rt, made.as_str())?))
}

/// Deletes a file or an empty folder that was looked at; `false` if something else came to be there since.
pub fn remove<R: AllocGlobal + Files>(
    rt: &Below<'_, R>,
    path: &str,
    here: &Here,
) -> io::Result<bool> {
    let whole = own_path(rt, path)?;
    if here.is_directory() {
        fs::remove_dir(rt, whole.as_str())?;
        return Ok(true);
    }
    rt.remove_unchanged(whole.as_str(), here)
}

/// Moves a file that was looked at to the name of a temporary file in a folder, or deletes an empty folder. Gives the path where the file
/// is then, and its permissions; nothing if something else came to be there since.
pub fn move_aside<R: AllocGlobal + Files>(
    rt: &R,
    folder: &str,
    path: &str,
    here: &Here,
) -> io::Result<Option<(Option<String>, Rights)>> {
    let whole = own_path(rt, path)?;
    let rights = Rights::of(&fs::symlink_metadata(rt, whole.as_str())?);
    if here.is_directory() {
        fs::remove_dir(rt, whole.as_str())?;
        return Ok(Some((None, rights)));
    }
    if !is_still(rt, whole.as_str(), here)? {
        return Ok(None);
    }
    let (beside, file) = open_beside(rt, folder, 0o600)?;
    drop(file);
    match fs::rename(rt, whole.as_str(), beside.as_str()) {
        Ok(()) => Ok(Some((Some(beside), rights))),
        Err(error) => {
            let _ = fs::remove_file(rt, beside.as_str());
            Err(error)
        }
    }
}

/// The path of an object below the folder of its volume, and in no other. Folders on the way are made; one that is a link is refused.
#[tactic(auto, using(crate::proofs::PathLemmas::below_step))]
pub fn own_path<R: AllocGlobal + Files>(rt: &R, path: &str) -> io::Result<String>
    ensures below { IfOk result (λ own. IsBelow [] (string_bytes own)) }
    ensures named { IfOk result (λ own. string_bytes own ≡ path.now) }
{
    let (folder, name) = way(rt, path)?;
    let whole = path_of(rt.alloc(), folder.as_str(), name)?;
    Ok(whole)
}

// What is at a path has the stamp of what was looked at.
fn is_still<R: Files>(rt: &R, path: &str, here: &Here) -> io::Result<bool> {
    Ok(here.has_stamp(&Stamp::of(&fs::symlink_metadata(rt, path)?)))
}

// The folder of a path's last name, and that name. Folders on the way are made; one that is a link is refused.
#[tactic(auto, using(crate::proofs::PathLemmas::below_itself, crate::proofs::PathLemmas::below_step))]
fn way<'a, R: AllocGlobal + Files>(rt: &R, path: &'a str) -> io::Result<(String, &'a str)>
    ensures below { IfOk result (λ way. IsBelow [] (string_bytes way.0)) }
    ensures named { IfOk result (λ way. path_in (string_bytes way.0) way.1.now ≡ path.now) }
{
    let mut folder = String::new(rt.alloc());
    let Some((above, name)) = path.rsplit_once('/') else {
        return Ok((folder, path));
    };
    for step in above.split('/') {
        folder = enter(rt, folder.as_str(), step)?;
    }
    // The steps are all of it.
    if path_of(rt.alloc(), folder.as_str(), name)?.as_str() != path {
        return Err(io::Error::from(ErrorKind::InvalidInput));
    }
    Ok((folder, name))
}
