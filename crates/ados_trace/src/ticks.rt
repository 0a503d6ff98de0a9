//! Which shells go on with a line after a command substitution in it.

use ados_flow::{Frame, FrameKind};
use ados_shell::Shell;
use ados_text::NoMemory;
use std::alloc::Global;

// Shells have the numbers from 1 to 20.
const NUMBERS: usize = 21;

/// The command substitutions that ran in each shell before its last turn.
#[derive(Drop)]
pub struct Ticks {
    // By the shells' numbers: for each frame, the newest last, whether it was one.
    shells: Vec<Vec<bool>>,
}

impl Ticks {
    /// None ran.
    pub fn new(alloc: Global) -> Result<Ticks, NoMemory> {
        let mut shells = Vec::with_capacity(alloc, NUMBERS)?;
        for _ in 0..NUMBERS {
            shells.push(Vec::new(alloc))?;
        }
        Ok(Ticks { shells })
    }

    /// Looks at a shell before each of its turns: whether it goes on with a line, since the oldest frame that ended after its last
    /// turn was a command substitution.
    pub fn goes_on(&mut self, shell: &Shell) -> Result<bool, NoMemory> {
        let Some(were) = self.shells.get_mut(usize::from(shell.number())) else {
            return Ok(false);
        };
        let frames = shell.frames();
        let goes_on = were.get(frames.len()).is_some_and(|was_tick| *was_tick);
        were.clear();
        for frame in frames {
            were.push(is_tick(frame))?;
        }
        Ok(goes_on)
    }

    /// A break ended what ran in this shell.
    pub fn forget(&mut self, shell: u8) {
        if let Some(were) = self.shells.get_mut(usize::from(shell)) {
            were.clear();
        }
    }
}

// The frame is one of a command substitution.
fn is_tick(frame: &Frame) -> bool {
    matches!(frame.kind(), FrameKind::Tick { .. })
}
