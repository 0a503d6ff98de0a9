// Why the files refuse a call: for each call, the first of its refusals that applies.
ghost use Rattle.std.specs.{Prelude.{◌≡◌, ◌+◌, ℕ, List, Some, IfOk}, Option.{option_copied}, Result.{result_err}};
ghost use Rattle.std.specs.FinMap as map;
ghost use Rattle.ados_ram.specs.{declared.entries.Entry.{Entry}, Place.{key_of}, Entry.{size_of}, Files.{entry_bytes}, FileOperations.{read_fault, list_fault, write_target_fault, write_fault, full_fault, is_put, is_unarchived_file, put_open_fault, free_fault, make_dir_fault, delete_fault, rename_target_fault, rename_fault, change_fault}};

use crate::entries::{Body, Entry};
use crate::file_bytes::FileBytes;
use crate::in_use::Busy;
use crate::limits::Limits;
use crate::new_bytes::NewBytes;
use crate::places::{is_below, is_same};
use crate::table::{Table, entry_len};
use ados_text::{Name, Result2};

/// The bytes of a file, or why it is not read; `is_open` says that it is an open output.
pub fn readable(is_open: bool, entry: Option<&Entry>) -> Result<&FileBytes, Result2>
    ensures ok { IfOk result (λ bytes. bytes.now ≡ entry_bytes (option_copied entry.entry)) }
    ensures fault { result_err result ≡ read_fault is_open (option_copied entry.entry) }
{
    let Some(entry) = entry else {
        return Err(Result2::OBJECT_NOT_FOUND);
    };
    let Body::File(bytes) = &entry.body else {
        return Err(Result2::WRONG_TYPE);
    };
    if is_open {
        return Err(Result2::OBJECT_IN_USE);
    }
    if entry.bits.read {
        Ok(bytes)
    } else {
        Err(Result2::READ_PROTECTED)
    }
}

/// Why a directory is not listed: 205 (object not found) if there is nothing, 212 (wrong type of object) for a file.
pub fn list_refusal(entry: Option<&Entry>) -> Option<Result2>
    ensures { result ≡ list_fault (option_copied entry.entry) }
{
    match entry {
        None => Some(Result2::OBJECT_NOT_FOUND),
        Some(entry) if entry.is_directory() => None,
        Some(_) => Some(Result2::WRONG_TYPE),
    }
}

/// Why bytes are not written at a place; `is_open` says that it is an open output.
pub fn write_refusal(
    limits: Limits,
    is_open: bool,
    table: &Table,
    names: &[Name],
    bytes: &NewBytes<'_>,
) -> Option<Result2>
    ensures { (name : List ℕ) → result ≡ write_fault limits is_open table.now (key_of names.now) name bytes.now }
{
    let (kept, more) = bytes.lengths();
    table
        .way(names)
        .or(write_target(is_open, table.find(names)))
        .or(full(limits, table, names, kept, more))
}

/// Whether bytes that are appended to an open output change something: there is one or more, and there is a file.
pub fn is_put(entry: Option<&Entry>, bytes: &[u8]) -> bool
    ensures { result ≡ is_put (option_copied entry.entry) bytes.now }
{
    match entry {
        None => false,
        Some(entry) => !entry.is_directory() && !bytes.is_empty(),
    }
}

/// Whether there is a file without bit a: only new bytes change it.
pub fn is_unarchived_file(entry: Option<&Entry>) -> bool
    ensures { result ≡ is_unarchived_file (option_copied entry.entry) }
{
    match entry {
        None => false,
        Some(entry) => !entry.is_directory() && !entry.bits.archive,
    }
}

/// Why bytes are not appended to an open output.
pub fn put_refusal(limits: Limits, table: &Table, names: &[Name], bytes: &[u8]) -> Option<Result2>
    ensures { (name : List ℕ) → result ≡ put_open_fault limits table.now (key_of names.now) name bytes.now }
{
    let entry = table.find(names);
    if is_put(entry, bytes) {
        full(limits, table, names, entry_len(entry), bytes.len())
    } else {
        None
    }
}

/// Why a directory is not created.
pub fn make_dir_refusal(limits: Limits, table: &Table, names: &[Name]) -> Option<Result2>
    ensures { (name : List ℕ) → result ≡ make_dir_fault limits table.now (key_of names.now) name }
{
    table
        .way(names)
        .or(free(table.find(names)))
        .or(full(limits, table, names, 0, 0))
}

/// Why an object is not deleted; `force` says that bit d is not asked.
pub fn delete_refusal(busy: &Busy, force: bool, table: &Table, names: &[Name]) -> Option<Result2>
    ensures { result ≡ delete_fault busy.now force table.now (key_of names.now) }
{
    let Some(entry) = table.find(names) else {
        return Some(Result2::OBJECT_NOT_FOUND);
    };
    if busy.holds(names) || names.is_empty() {
        return Some(Result2::OBJECT_IN_USE);
    }
    if !force && !entry.bits.delete {
        return Some(Result2::DELETE_PROTECTED);
    }
    if table.has_descendants(names) {
        return Some(Result2::DIRECTORY_NOT_EMPTY);
    }
    None
}

/// Why an object is not renamed.
pub fn rename_refusal(busy: &Busy, table: &Table, from: &[Name], to: &[Name]) -> Option<Result2>
    ensures { result ≡ rename_fault busy.now table.now (key_of from.now) (key_of to.now) }
{
    table.way(to).or(rename_target(busy, table, from, to))
}

/// The entry that is to be changed, or why it is not.
pub fn changeable<'a>(table: &'a Table, names: &[Name]) -> Result<&'a Entry, Result2>
    ensures ok { IfOk result (λ entry. map.get table.now (key_of names.now) ≡ Some entry.now) }
    ensures fault { result_err result ≡ change_fault (key_of names.now) (map.get table.now (key_of names.now)) }
{
    let Some(entry) = table.find(names) else {
        return Err(Result2::OBJECT_NOT_FOUND);
    };
    if names.is_empty() {
        return Err(Result2::WRONG_TYPE);
    }
    Ok(entry)
}

fn free(entry: Option<&Entry>) -> Option<Result2>
    ensures { result ≡ free_fault (option_copied entry.entry) }
{
    match entry {
        None => None,
        Some(_) => Some(Result2::OBJECT_EXISTS),
    }
}

fn rename_target(busy: &Busy, table: &Table, from: &[Name], to: &[Name]) -> Option<Result2>
    ensures { result ≡ rename_target_fault busy.now (key_of from.now) (key_of to.now) (map.get table.now (key_of from.now)) (map.get table.now (key_of to.now)) }
{
    if table.find(from).is_none() {
        return Some(Result2::OBJECT_NOT_FOUND);
    }
    if busy.holds_output(from) || from.is_empty() || is_below(from, to) {
        return Some(Result2::OBJECT_IN_USE);
    }
    if table.find(to).is_some() && !is_same(from, to) {
        return Some(Result2::OBJECT_EXISTS);
    }
    None
}

// The fault of the entry at a place where a file is to be written.
fn write_target(is_open: bool, entry: Option<&Entry>) -> Option<Result2>
    ensures { result ≡ write_target_fault is_open (option_copied entry.entry) }
{
    let Some(entry) = entry else {
        return None;
    };
    if entry.is_directory() {
        return Some(Result2::WRONG_TYPE);
    }
    if is_open {
        return Some(Result2::OBJECT_IN_USE);
    }
    if entry.bits.write {
        None
    } else {
        Some(Result2::WRITE_PROTECTED)
    }
}

// The fault of the limits, if the object at a place then holds the bytes that are kept and more.
fn full(limits: Limits, table: &Table, names: &[Name], kept: usize, more: usize) -> Option<Result2>
    ensures { (new : Entry) → size_of new ≡ kept + more → result ≡ full_fault limits (kept + more) (map.insert table.now (key_of names.now) new) }
{
    let beside = table.bytes_beside(names);
    if kept > limits.file() || more > limits.file() - kept {
        return Some(Result2::DISK_FULL);
    }
    if beside > limits.bytes() || kept + more > limits.bytes() - beside {
        return Some(Result2::DISK_FULL);
    }
    if table.objects_with(names) > limits.objects() + 1 {
        return Some(Result2::DISK_FULL);
    }
    None
}
