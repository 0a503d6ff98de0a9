// A fresh world that is driven by lines, with calls that fail and breaks.
use crate::memory::{FlakyReader, FlakyWriter, NEVER};
use ados_launch::{BreakAt, Counted, Drive, DriveFault, End, Listed};
use ados_text::NoMemory;
use ados_world::World;
use std::alloc::Global;

/// What a world is driven by: lines, read three bytes at a time, and breaks; how many events it may take at most; and which
/// read fails and which write fails or takes nothing. Each write is of one byte.
#[derive(Clone, Copy)]
pub struct Given<'a> {
    pub lines: &'a [u8],
    pub breaks: &'a [BreakAt],
    pub turns: u64,
    pub failed_read: u64,
    pub failed_write: u64,
    pub stalled_write: u64,
}

/// Nothing fails, and there are no breaks.
pub const PLAIN: Given = Given {
    lines: b"",
    breaks: &[],
    turns: 100,
    failed_read: NEVER,
    failed_write: NEVER,
    stalled_write: NEVER,
};

// `NoMemory` for the world is passed on.
#[tactic(auto, using(ados_launch::proofs::NewPair::new_pair))]
fn drive(
    alloc: Global,
    given: Given,
    text: &mut Vec<u8>,
) -> Result<Result<End, DriveFault>, NoMemory> {
    let Ok(mut world) = World::new(alloc, &[]) else {
        return Err(NoMemory);
    };
    let mut launcher = Listed::new(Vec::new(alloc));
    let mut reader = Counted::new(FlakyReader::new(given.lines, 3, given.failed_read));
    let writer = FlakyWriter::new(text, 1, given.failed_write, given.stalled_write);
    let mut writer = Counted::new(writer);
    let drive = Drive {
        alloc,
        turns: given.turns,
        breaks: given.breaks,
    };
    Ok(drive.run(&mut world, &mut launcher, &mut reader, &mut writer))
}

/// How a world that was driven in this way ended, and how many bytes it wrote. `NoMemory` is passed on.
pub fn driven(alloc: Global, given: Given) -> Result<(Result<End, DriveFault>, usize), NoMemory> {
    let mut text = Vec::with_capacity(alloc, 200)?;
    match drive(alloc, given, &mut text)? {
        Err(DriveFault::Memory) => Err(NoMemory),
        ended => Ok((ended, text.len())),
    }
}
