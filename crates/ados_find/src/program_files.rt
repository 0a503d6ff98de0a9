// What a file is to a command line: a script, a program, or neither.
ghost use Rattle.std.specs.Prelude.{◌≡◌, IfOk};
ghost use Rattle.ados_ram.specs.Entry.{bytes_of};
ghost use Rattle.ados_find.specs.Search.{file_kind};
ghost use Rattle.ados_resident.specs.Programs.{recognized_program};

use crate::search::{Found, ProgramFile};
use crate::shared::Shared;
use ados_ram::{Entry, FileBytes, Place};
use ados_resident::{MARK, Program};
use ados_text::{NoMemory, Result2};
use std::alloc::Global;

impl Shared {
    /// What a word stands for that leads to this file.
    pub(crate) fn file_as(
        &self,
        alloc: Global,
        place: &Place,
        entry: &Entry,
    ) -> Result<Found, NoMemory>
        ensures { IfOk result (λ found. found ≡ file_kind self.now place.now entry.now) }
    {
        if entry.bits.script {
            return Ok(Found::Script(place.copy()?));
        }
        if !entry.bits.execute {
            return Ok(Found::NotExecutable(Result2::NOT_EXECUTABLE));
        }
        match entry_program(alloc, self, entry)? {
            Some(program) => Ok(Found::File(ProgramFile {
                place: place.copy()?,
                program,
            })),
            None => Ok(Found::NotExecutable(Result2::NO_PROGRAM_FILE)),
        }
    }
}

/// The program whose file holds these bytes, if they are those of one. Those of another kind are not copied, however many
/// they are.
pub fn program_of(
    alloc: Global,
    shared: &Shared,
    bytes: &FileBytes,
) -> Result<Option<Program>, NoMemory>
    ensures { IfOk result (λ program. program ≡ recognized_program shared.now.dialect shared.now.hosts bytes.now) }
{
    if !bytes.starts_with(&MARK) {
        return Ok(None);
    }
    let row = bytes.to_vec(alloc)?;
    Program::of_file(shared.dialect, &shared.hosts, &row)
}

/// The program whose file is an object, if it is that of one.
pub fn entry_program(
    alloc: Global,
    shared: &Shared,
    entry: &Entry,
) -> Result<Option<Program>, NoMemory>
    ensures { IfOk result (λ program. program ≡ recognized_program shared.now.dialect shared.now.hosts (bytes_of entry.now)) }
{
    match entry.bytes() {
        None => Ok(None),
        Some(bytes) => program_of(alloc, shared, bytes),
    }
}
