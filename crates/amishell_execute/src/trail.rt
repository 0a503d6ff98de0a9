//! The scripts of each shell, whose lines are kept from their beginning until their end is reported.
ghost use Rattle.std.specs.{Prelude.{◌≡◌, ◌++◌, IfOk, OnOk, length, nat_lt}, Option.{option_map}};
ghost use Rattle.amishell_execute.specs.Ends.{kept_after, script_at, script_of};

use ados_flow::Frame;
use ados_launch::Next;
use ados_script::Script;
use ados_shell::Shell;
use ados_text::{NoMemory, Result2, Text};
use ados_trace::script_name;
use ados_world::World;
use std::alloc::Global;

// Shells have the numbers from 1 to 20.
const NUMBERS: usize = 21;

/// What an event did to a shell.
#[derive(Clone, Copy, PartialEq, Eq, Debug)]
pub enum Change {
    /// A frame began in the shell of this number.
    Begun(u8),
    /// Frames ended, or nothing did.
    Same,
    /// It is gone, or the event was that of no shell.
    Ended(u8),
}

/// The frames of all shells, as they began.
#[derive(Drop)]
pub struct Trail {
    // By the shells' numbers.
    shells: Vec<Kept>,
    // The shell that had the last event, while it runs; 0 if none had.
    latest: u8,
    // How many frames are kept of it.
    count: usize,
    // There was no memory to keep what began.
    is_short: bool,
}

/// The frames of a shell, as they began.
#[derive(Drop)]
struct Kept {
    // The newest is the last.
    frames: Vec<Frame>,
}

impl Trail {
    /// No frame has begun.
    pub fn new(alloc: Global) -> Result<Trail, NoMemory> {
        let mut shells = Vec::with_capacity(alloc, NUMBERS)?;
        for _ in 0..NUMBERS {
            shells.push(Kept {
                frames: Vec::new(alloc),
            })?;
        }
        Ok(Trail {
            shells,
            latest: 0,
            count: 0,
            is_short: false,
        })
    }

    /// Before an event: which shell has it. Mostly it is a turn of the one that had the last.
    #[inline(always)]
    pub fn expect(&mut self, world: &World, next: Next) {
        match next {
            Next::Turn(number) if number == self.latest => {}
            _ => self.turn_to(world, shell_of(next)),
        }
    }

    // The next event is one of this shell.
    #[inline(never)]
    fn turn_to(&mut self, world: &World, number: u8) {
        self.latest = number;
        // Shell 1 begins with no frame, another one with the commands of a Run.
        if number > 1 && self.keep_new(world, number).is_err() {
            self.is_short = true;
            self.latest = 0;
        }
        self.count = match self.shells.get(usize::from(number)) {
            Some(kept) => kept.frames.len(),
            None => 0,
        };
    }

    /// Keeps the commands of a shell that is new: none of them was taken yet.
    pub fn keep_new(&mut self, world: &World, number: u8) -> Result<(), NoMemory> {
        let kept = self.shells.get_mut(usize::from(number));
        let (Some(shell), Some(kept)) = (world.shell(number), kept) else {
            return Ok(());
        };
        if shell
            .frames()
            .first()
            .is_some_and(|frame| frame.position() == 0)
        {
            kept.frames.clear();
            kept.look(shell.frames())?;
        }
        Ok(())
    }

    /// After an event: the shell that had it runs as many frames as are kept of it, and its last command found no bad directive.
    #[inline(always)]
    pub fn is_as_kept(&self, world: &World) -> bool {
        match world.shell(self.latest) {
            Some(shell) => {
                shell.frames().len() == self.count && shell.codes().result2 != Result2::BAD_TEMPLATE
            }
            None => false,
        }
    }

    /// After an event: the script of the shell that had it goes on after it could not call another one, which has a bad directive.
    pub fn has_lost_call(&self, world: &World) -> bool {
        world
            .shell(self.latest)
            .and_then(|shell| shell.frames().last())
            .is_some_and(|frame| {
                frame.is_script() && frame.last_codes().result2 == Result2::BAD_TEMPLATE
            })
    }

    /// After an event: what it did to the shell that had it.
    pub fn follow(&mut self, world: &World) -> Result<Change, NoMemory> {
        if self.is_short {
            return Err(NoMemory);
        }
        let number = self.latest;
        let kept = self.shells.get_mut(usize::from(number));
        let (Some(shell), Some(kept)) = (world.shell(number), kept) else {
            self.latest = 0;
            return Ok(Change::Ended(number));
        };
        let frames = shell.frames();
        let begins = kept.look(frames)?;
        self.count = frames.len();
        Ok(if begins {
            Change::Begun(number)
        } else {
            Change::Same
        })
    }

    /// The newest script of a shell, or the one that has this many newer ones.
    pub fn script(&self, shell: u8, newer: usize) -> Option<&Script> {
        let kept = self.shells.get(usize::from(shell))?;
        script_at(&kept.frames, newer)
    }

    /// The name of the oldest script of a shell.
    pub fn first_script(&self, shell: u8) -> Option<&Text> {
        let kept = self.shells.get(usize::from(shell))?;
        kept.frames.iter().find_map(script_name)
    }

    /// The first line of the oldest frame of a shell.
    pub fn first_line(&self, shell: u8) -> Option<&Text> {
        self.shells
            .get(usize::from(shell))?
            .frames
            .first()?
            .next_line()
    }
}

impl Kept {
    // After an event: what ended is given up, and what began is kept; it is shared, not copied. Mostly neither is so. Gives
    // whether a frame began.
    #[tactic(auto, using(crate::proofs::TrailLemmas::same_kept))]
    fn look(&mut self, frames: &[Frame]) -> Result<bool, NoMemory>
        ensures kept { OnOk result (self.new.frames.items ≡ kept_after self.old.frames.items frames.now) }
        ensures begun { IfOk result (λ begun. begun ≡ nat_lt (length self.old.frames.items) (length frames.now)) }
    {
        if self.frames.len() == frames.len() {
            return Ok(false);
        }
        let begins = self.frames.len() < frames.len();
        self.frames.truncate(frames.len());
        let begun = frames.get(self.frames.len()..).unwrap_or(&[]);
        share_into(&mut self.frames, begun)?;
        Ok(begins)
    }
}

// Appends shares of frames to a list.
fn share_into(kept: &mut Vec<Frame>, frames: &[Frame]) -> Result<(), NoMemory>
    ensures { OnOk result (kept.new.items ≡ kept.old.items ++ frames.now) }
{
    for frame in frames {
        kept.push(frame.share()?)?;
    }
    Ok(())
}

// The lines of the newest script of some frames, or of the one that has this many newer ones.
#[tactic(auto, using(crate::proofs::TrailLemmas::no_script, crate::proofs::TrailLemmas::newest_script, crate::proofs::TrailLemmas::older_script, crate::proofs::TrailLemmas::script_below))]
fn script_at(frames: &[Frame], newer: usize) -> Option<&Script>
    ensures { option_map (λ script. script.now) result ≡ script_at frames.now newer }
{
    let mut rest = frames;
    let mut left = newer;
    while let Some((frame, older)) = rest.split_last() {
        if let Some(script) = script_of(frame) {
            if left == 0 {
                return Some(script);
            }
            left -= 1;
        }
        rest = older;
    }
    None
}

// The lines of the script that a frame is.
#[tactic(auto, using(crate::proofs::TrailLemmas::called))]
fn script_of(frame: &Frame) -> Option<&Script>
    ensures { option_map (λ script. script.now) result ≡ script_of frame.now }
{
    let (script, _) = frame.script_line()?;
    Some(script)
}

// The shell whose event comes next; 0 for a line.
fn shell_of(next: Next) -> u8 {
    match next {
        Next::Line => 0,
        Next::Turn(number) | Next::Start(number) | Next::Further(number) => number,
    }
}
