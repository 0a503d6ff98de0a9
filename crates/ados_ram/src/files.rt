// The files of the RAM disk, each version of them: look-ups and changes.
ghost use Rattle.std.specs.{Prelude.{◌≡◌, IfOk}, Option.{option_copied}, Result.{result_err}};
ghost use Rattle.std.specs.FinMap as map;
ghost use Rattle.ados_ram.specs.{Place.{key_of, last_name}, Files.{AreFiles, entry_bytes, first_files}, InUse.{is_output}, FileOperations.{read_fault, list_fault, child_names, make_dir_of, make_dir_fault, delete_fault, rename_of, rename_fault, protect_of, protect_fault, comment_of, comment_fault}, Contents.{children, contents, directory_files}, Tree.{subtree_rows}, Written.{written_place, full_path}};
ghost use Rattle.ados_text.specs.Stop.{Answers};

use crate::contents::{child_names, children, directory_files};
use crate::cursors::Cursor;
use crate::entries::{Bits, COMMENT_LIMIT, Entry};
use crate::file_bytes::FileBytes;
use crate::in_use::Busy;
use crate::limits::Limits;
use crate::places::Place;
use crate::refusals::{
    changeable, delete_refusal, list_refusal, make_dir_refusal, readable, rename_refusal,
};
use crate::table::Table;
use ados_text::{Name, NoMemory, Result2, Stop, Text};
use std::alloc::Global;
use std::marker::Model;

/// One version of the files of the RAM disk. A change gives a new version and leaves the old one as it is; both share
/// what is unchanged.
#[derive(Drop)]
pub struct Ram {
    pub(crate) table: Table,
    pub(crate) alloc: Global,
}

impl Model for Ram {
    ghost use Rattle.ados_ram.specs.Files.{Files, AreFiles, coded_files};

    ghost Value = { Files };

    ghost coded = { coded_files };

    ghost view = { λ r. r.table };

    ghost invariant = { λ r. AreFiles r.table };
}

impl Ram {
    /// The initial files: the directories C, S, T and Env, with nothing in them.
    pub fn new(alloc: Global) -> Result<Ram, NoMemory>
        ensures { IfOk result (λ files. files ≡ first_files) }
    {
        Ok(Ram {
            table: Table::first(alloc)?,
            alloc,
        })
    }

    /// The entry at a place. Nothing is allocated. Whatever has an entry is in a directory and at the key of its names, and
    /// the limits hold.
    pub fn look(&self, place: &Place) -> Option<&Entry>
        ensures entry { option_copied result ≡ map.get self.now (key_of place.now) }
        ensures files { AreFiles self.now }
    {
        self.table.find(place.names())
    }

    /// The entries at a place and below it, for lookups from there without a walk from the root. Nothing is allocated.
    pub fn below(&self, place: &Place) -> Cursor<'_>
        ensures { result ≡ subtree_rows (key_of place.now) (map.entries self.now) }
    {
        self.table.below(place.names())
    }

    /// The bytes of a file. Nothing is allocated.
    ///
    /// 205 (object not found) if there is nothing, 212 (wrong type of object) for a directory, 202 (object in use)
    /// for an open output, 224 (read protected) without bit r.
    pub fn read(&self, busy: &Busy, place: &Place) -> Result<&FileBytes, Result2>
        ensures ok { IfOk result (λ bytes. bytes.now ≡ entry_bytes (map.get self.now (key_of place.now))) }
        ensures fault { result_err result ≡ read_fault (is_output busy.now (key_of place.now)) (map.get self.now (key_of place.now)) }
    {
        let entry = self.table.find(place.names());
        readable(busy.is_output(place.names()), entry)
    }

    /// The names directly in a directory, as they are written, in the order of the names in lower case.
    ///
    /// 205 (object not found) if there is nothing, 212 (wrong type of object) for a file.
    pub fn list(&self, place: &Place) -> Result<Vec<Name>, Stop>
        ensures ok { IfOk result (λ names. names.items ≡ child_names (key_of place.now) (map.entries self.now)) }
        ensures fault { Answers result (list_fault (map.get self.now (key_of place.now))) }
    {
        match list_refusal(self.table.find(place.names())) {
            Some(fault) => Err(Stop::Refused(fault)),
            None => {
                let rows = self.table.rows_below(place, false)?;
                Ok(child_names(self.alloc, &rows, place.names())?)
            }
        }
    }

    /// Creates a directory, which takes the name as it is written here and the bits `----rwed`.
    ///
    /// 204 (directory not found) if a directory above does not exist, 212 (wrong type of object) if a file is in its
    /// place; 203 (object exists) if there is an object already; 221 (disk full) for more objects than the limits allow.
    pub fn make_dir(&self, limits: Limits, place: &Place) -> Result<Ram, Stop>
        ensures ok { IfOk result (λ new. new ≡ make_dir_of self.now (key_of place.now) (last_name place.now)) }
        ensures fault { Answers result (make_dir_fault limits self.now (key_of place.now) (last_name place.now)) }
    {
        match make_dir_refusal(limits, &self.table, place.names()) {
            Some(fault) => Err(Stop::Refused(fault)),
            None => {
                let entry = Entry::directory(self.alloc, place.last_name()?)?;
                Ok(self.with(place, entry)?)
            }
        }
    }

    /// Deletes an object; with `force` bit d is not asked.
    ///
    /// 205 (object not found) if there is nothing, 202 (object in use) for what is in use and for the root, 222 (delete
    /// protected) without bit d unless forced, 216 (directory not empty) for a directory with something in it.
    pub fn delete(&self, busy: &Busy, force: bool, place: &Place) -> Result<Ram, Stop>
        ensures ok { IfOk result (λ new. new ≡ map.remove self.now (key_of place.now)) }
        ensures fault { Answers result (delete_fault busy.now force self.now (key_of place.now)) }
    {
        match delete_refusal(busy, force, &self.table, place.names()) {
            Some(fault) => Err(Stop::Refused(fault)),
            None => Ok(Ram {
                table: self.table.without(place.names())?,
                alloc: self.alloc,
            }),
        }
    }

    /// Moves an object, with all that is below it. The object takes the last name of the new place; bits, comments and
    /// bytes stay. Another spelling of the same place is a rename too.
    ///
    /// 204 (directory not found) if a directory above the new place does not exist, 212 (wrong type of object) if a file
    /// is in its place; 205 (object not found) if there is nothing to be moved; 202 (object in use) for an open output,
    /// a directory above one, the root, and a new place below the old one; 203 (object exists) if another object is at
    /// the new place.
    pub fn rename(&self, busy: &Busy, from: &Place, to: &Place) -> Result<Ram, Stop>
        ensures ok { IfOk result (λ new. new ≡ rename_of self.now (key_of from.now) (key_of to.now) (last_name to.now)) }
        ensures fault { Answers result (rename_fault busy.now self.now (key_of from.now) (key_of to.now)) }
    {
        match rename_refusal(busy, &self.table, from.names(), to.names()) {
            Some(fault) => Err(Stop::Refused(fault)),
            None => Ok(Ram {
                table: self.table.moved(from.names(), to)?,
                alloc: self.alloc,
            }),
        }
    }

    /// Gives an object other bits.
    ///
    /// 205 (object not found) if there is nothing, 212 (wrong type of object) for the root.
    pub fn protect(&self, place: &Place, bits: Bits) -> Result<Ram, Stop>
        ensures ok { IfOk result (λ new. new ≡ protect_of self.now (key_of place.now) bits) }
        ensures fault { Answers result (protect_fault self.now (key_of place.now)) }
    {
        match changeable(&self.table, place.names()) {
            Err(fault) => Err(Stop::Refused(fault)),
            Ok(entry) => Ok(self.with(place, entry.with_bits(bits)?)?),
        }
    }

    /// Gives an object another comment.
    ///
    /// 205 (object not found) if there is nothing, 212 (wrong type of object) for the root, 220 (comment too long) for a
    /// comment of more than 79 bytes.
    pub fn comment(&self, place: &Place, comment: &Text) -> Result<Ram, Stop>
        ensures ok { IfOk result (λ new. new ≡ comment_of self.now (key_of place.now) comment.now) }
        ensures fault { Answers result (comment_fault self.now (key_of place.now) comment.now) }
    {
        match changeable(&self.table, place.names()) {
            Err(fault) => Err(Stop::Refused(fault)),
            Ok(_) if comment.as_bytes().len() > COMMENT_LIMIT => Err(Stop::Refused(
                Result2::COMMENT_TOO_LONG,
            )),
            Ok(entry) => Ok(self.with(place, entry.with_comment(comment)?)?),
        }
    }

    /// The places directly in a directory, in lower case and in order; none if there is no directory.
    pub fn children(&self, place: &Place) -> Result<Vec<Place>, NoMemory>
        ensures { IfOk result (λ places. places.items ≡ children (key_of place.now) (map.entries self.now)) }
    {
        let rows = self.table.rows_below(place, false)?;
        children(self.alloc, &rows, place.names())
    }

    /// The places below a directory, in lower case and in order, except that each directory comes after what is in it.
    pub fn contents(&self, place: &Place) -> Result<Vec<Place>, NoMemory>
        ensures { IfOk result (λ places. places.items ≡ contents (key_of place.now) (map.entries self.now)) }
    {
        self.table.contents(place)
    }

    /// The places of the files directly in a directory, or of all that are below it, in lower case and in order.
    pub fn directory_files(&self, place: &Place, all: bool) -> Result<Vec<Place>, NoMemory>
        ensures { IfOk result (λ places. places.items ≡ directory_files all (key_of place.now) (map.entries self.now)) }
    {
        let rows = self.table.rows_below(place, all)?;
        directory_files(self.alloc, &rows, place.names(), all)
    }

    /// A place with its names as they are written in the files; names that are not there stay as they are given.
    pub fn written(&self, place: &Place) -> Result<Place, NoMemory>
        ensures { IfOk result (λ written. written ≡ written_place self.now place.now) }
    {
        self.table.written(place)
    }

    /// The full path of a place, as `RAM:a/b`, with its names as they are written in the files.
    pub fn full_path(&self, place: &Place) -> Result<Text, NoMemory>
        ensures { IfOk result (λ path. path ≡ full_path self.now place.now) }
    {
        self.written(place)?.path(self.alloc)
    }

    /// Another handle of the same version; all of it is shared.
    pub fn copy(&self) -> Result<Ram, NoMemory>
        ensures { IfOk result (λ new. new ≡ self.now) }
    {
        Ok(Ram {
            table: self.table.copy()?,
            alloc: self.alloc,
        })
    }
}
