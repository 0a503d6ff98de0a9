// What a directory's list holds, by the rows.
ghost use Rattle.std.specs.Prelude.{◌≡◌, IfOk};
ghost use Rattle.ados_ram.specs.{Place.{key_of}, FileOperations.{child_names}, Contents.{children, is_within, directory_files}};

use crate::places::Place;
use crate::rows::Row;
use ados_text::{Name, NoMemory};
use std::alloc::Global;

/// The names directly in a directory, in the order of the rows.
pub fn child_names(alloc: Global, rows: &[Row], directory: &[Name]) -> Result<Vec<Name>, NoMemory>
    ensures { IfOk result (λ names. names.items ≡ child_names (key_of directory.now) rows.now) }
{
    let mut names = Vec::new(alloc);
    for row in rows {
        if row.is_in(directory) {
            names.push(row.entry().name.copy()?)?;
        }
    }
    Ok(names)
}

/// The places directly in a directory, in order.
pub fn children(alloc: Global, rows: &[Row], directory: &[Name]) -> Result<Vec<Place>, NoMemory>
    ensures { IfOk result (λ places. places.items ≡ children (key_of directory.now) rows.now) }
{
    let mut places = Vec::new(alloc);
    for row in rows {
        if row.is_in(directory) {
            places.push(row.place().folded()?)?;
        }
    }
    Ok(places)
}

/// The places of the files directly in a directory, or of all that are below it, in order.
pub fn directory_files(
    alloc: Global,
    rows: &[Row],
    directory: &[Name],
    all: bool,
) -> Result<Vec<Place>, NoMemory>
    ensures { IfOk result (λ places. places.items ≡ directory_files all (key_of directory.now) rows.now) }
{
    let mut places = Vec::new(alloc);
    for row in rows {
        if is_within(row, directory, all) && !row.entry().is_directory() {
            places.push(row.place().folded()?)?;
        }
    }
    Ok(places)
}

// Whether a row is below a directory, or directly in it.
fn is_within(row: &Row, directory: &[Name], all: bool) -> bool
    ensures { result ≡ is_within all (key_of directory.now) row.now.0 }
{
    if all {
        row.is_below(directory)
    } else {
        row.is_in(directory)
    }
}
