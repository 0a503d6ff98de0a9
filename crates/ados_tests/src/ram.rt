// Files in memory.
use crate::places::at;
use crate::wrong::{Wrong, expect};
use ados_ram::{Busy, Limits, Ram};
use ados_text::{NoMemory, Stop};
use std::alloc::Global;

// The files at first and the file `S/q`, which holds `Quit`.
fn with_script(alloc: Global) -> Result<Ram, Stop> {
    Ram::new(alloc)?.write(
        Limits::Small,
        &Busy::none(alloc),
        &at(alloc, "s/q")?,
        b"Quit",
    )
}

// How many files are below T.
fn directory_files(alloc: Global, ram: &Ram) -> Result<usize, NoMemory> {
    Ok(ram.directory_files(&at(alloc, "t")?, true)?.len())
}

// The files after a rename of S to `T/n`.
fn moved(alloc: Global, old: &Ram) -> Result<Ram, Stop> {
    old.rename(&Busy::none(alloc), &at(alloc, "S")?, &at(alloc, "T/n")?)
}

// One more file is below T after the rename, and none before it.
fn is_moved(alloc: Global, old: &Ram, new: &Ram) -> Result<bool, NoMemory> {
    Ok(directory_files(alloc, new)? == 1 && directory_files(alloc, old)? == 0)
}

// The files that are renamed are lent, and the new ones owned here.
fn stands(alloc: Global, old: &Ram) -> Result<bool, Stop> {
    let new = moved(alloc, old)?;
    Ok(is_moved(alloc, old, &new)?)
}

#[test]
fn an_older_version_stands(rt: HostRuntime) -> Result<(), Wrong> {
    let old = with_script(rt.alloc())?;
    expect(stands(rt.alloc(), &old)?, "T")
}
