// The frames of a shell, as a turn changes them.
ghost use Rattle.std.specs.{Prelude.{◌≡◌, ◌∷◌, ◌++◌, List, length, nat_le, reverse, IfOk, OnOk}, Option.{option_copied}};
ghost use Rattle.ados_flow.specs.Frames.{FrameState, frame_limit, limit_above_frames};
ghost use Rattle.ados_machine.specs.{Shells.{ShellState}, Sinks.{Console, newest_sink}, Breaks.{has_script}};
ghost use Rattle.ados_machine.specs.Sinks as machine;
ghost use Rattle.ados_shell.specs.Stacks.{sink_above, sink_by_way, sink_of};

use crate::shells::Shell;
use ados_find::Target;
use ados_flow::{FIRST_LIMIT, FRAME_LIMIT, Frame, FrameKind};
use ados_text::{Code, NoMemory};
use std::alloc::Global;

/// The frames of a shell, as a turn changes them: a number of the oldest stay as they are in the shell, and those above
/// them are new.
#[derive(Drop)]
pub struct Stack {
    /// How many of the shell's oldest frames stay as they are.
    pub kept_count: usize,
    /// The frames above them, the oldest first.
    pub own: Vec<Frame>,
}

impl Stack {
    ghost use Rattle.ados_machine.specs.Apply.{frames_at_line, newest};
    ghost use Rattle.ados_shell.specs.Stacks.{drafted_frames, oldest_frames, skipped_frames, NextLineFits, IsMovedOn, IsPopped};

    /// No frame.
    pub fn new(alloc: Global) -> Stack {
        Stack {
            kept_count: 0,
            own: Vec::new(alloc),
        }
    }

    /// The frames of the shell stay as they are.
    pub fn keep_all(&mut self, shell: &Shell)
        ensures { drafted_frames shell.now self.new ≡ shell.now.frames }
    {
        self.kept_count = shell.frames.len();
        self.own.clear();
    }

    /// The frames of the shell that stay as they are, the oldest first.
    fn lent<'a>(&self, shell: &'a Shell) -> &'a [Frame]
        ensures lent { reverse result.now ≡ oldest_frames self.now.kept_count shell.now.frames }
        ensures front { (above : List FrameState) × reverse shell.now.frames ≡ result.now ++ above }
    {
        let frames = shell.frames.as_slice();
        &frames[..self.kept_count.min(frames.len())]
    }

    /// The newest frame; `None` if none runs.
    pub fn newest<'b>(&'b self, shell: &'b Shell) -> Option<&'b Frame>
        ensures { option_copied result ≡ newest (drafted_frames shell.now self.now) }
    {
        match self.own.last() {
            Some(frame) => Some(frame),
            None => self.lent(shell).last(),
        }
    }

    /// There are as many frames as a shell may have.
    pub fn is_full(&self, shell: &Shell) -> bool
        ensures { result ≡ nat_le frame_limit (length (drafted_frames shell.now self.now)) }
    {
        FRAME_LIMIT <= self.own.len().saturating_add(self.lent(shell).len())
    }

    /// Pops the newest frame.
    pub fn pop(&mut self, shell: &Shell) -> Result<Option<Frame>, NoMemory>
        ensures { IfOk result (λ frame. IsPopped shell.now self.old self.new frame) }
    {
        if let Some(frame) = self.own.pop() {
            return Ok(Some(frame));
        }
        match self.lent(shell).split_last() {
            None => Ok(None),
            Some((frame, below)) => {
                let frame = frame.share()?;
                self.kept_count = below.len();
                Ok(Some(frame))
            }
        }
    }

    /// Pushes a frame.
    pub fn push(&mut self, frame: Frame) -> Result<(), NoMemory>
        ensures { OnOk result ((shell : ShellState) → drafted_frames shell self.new ≡ frame ∷ drafted_frames shell self.old) }
    {
        self.own.push(frame)?;
        Ok(())
    }

    /// The line of the newest frame is taken.
    pub fn move_on(&mut self, shell: &Shell) -> Result<(), NoMemory>
        requires { NextLineFits (drafted_frames shell.now self.old) }
        ensures { OnOk result (IsMovedOn shell.now self.new (drafted_frames shell.now self.old)) }
    {
        match self.pop(shell)? {
            None => Ok(()),
            Some(mut frame) => {
                frame.move_on();
                self.push(frame)
            }
        }
    }

    /// The newest frame goes on at a line, counted from 1.
    pub fn jump_to(&mut self, shell: &Shell, line: usize) -> Result<(), NoMemory>
        ensures { OnOk result (drafted_frames shell.now self.new ≡ frames_at_line line (drafted_frames shell.now self.old)) }
    {
        match self.pop(shell)? {
            None => Ok(()),
            Some(mut frame) => {
                frame.jump_to(line);
                self.push(frame)
            }
        }
    }

    /// More lines of the newest frame are taken, this many, or all that are left.
    pub fn skip(&mut self, shell: &Shell, taken: usize) -> Result<(), NoMemory>
        ensures { OnOk result (drafted_frames shell.now self.new ≡ skipped_frames taken (drafted_frames shell.now self.old)) }
    {
        match self.pop(shell)? {
            None => Ok(()),
            Some(mut frame) => {
                let left = frame.further().len();
                frame.skip(taken.min(left));
                self.push(frame)
            }
        }
    }

    /// The limit after a script above these frames that began at a limit ends: that limit is restored, or it is the
    /// first one if no script is left.
    pub fn limit_after(&self, shell: &Shell, limit: Code) -> Code
        ensures { result ≡ limit_above_frames (drafted_frames shell.now self.now) limit }
    {
        if self.has_script(shell) {
            limit
        } else {
            FIRST_LIMIT
        }
    }

    /// A script runs in these frames.
    pub fn has_script(&self, shell: &Shell) -> bool
        ensures { result ≡ has_script (drafted_frames shell.now self.now) }
    {
        any_script(self.own.as_slice(), self.lent(shell))
    }

    /// Where the output of the newest frame's commands goes.
    pub fn sink(&self, shell: &Shell) -> Result<Sink, NoMemory>
        ensures { IfOk result (λ sink. sink_of sink ≡ newest_sink (drafted_frames shell.now self.now)) }
    {
        match way_of(self.own.as_slice()) {
            Way::Below => sink_of(way_of(self.lent(shell))),
            Way::Kept => Ok(Sink::Kept),
            Way::To(target) => Ok(Sink::To(copy(target)?)),
        }
    }
}

/// Where output goes.
#[derive(Drop)]
pub enum Sink {
    /// To the console.
    Console,
    /// Into the output of the newest command substitution.
    Kept,
    /// Where a redirection leads.
    To(Target),
}

/// Where the output of some frames goes.
#[derive(Clone, Copy)]
enum Way<'f> {
    /// Where the output of what is below them goes.
    Below,
    /// Into the output of the newest command substitution.
    Kept,
    /// Where a redirection leads.
    To(&'f Target),
}

/// Where the output of the newest of these frames goes, the newest being the last.
fn way_of(frames: &[Frame]) -> Way<'_>
    ensures { (below : machine.Sink) → sink_above (reverse frames.now) below ≡ sink_by_way result below }
{
    let mut left = frames;
    while let Some((frame, older)) = left.split_last() {
        if let FrameKind::Tick { .. } = frame.kind() {
            return Way::Kept;
        }
        if let Some(target) = frame.output() {
            return Way::To(target);
        }
        left = older;
    }
    Way::Below
}

/// The sink to which a way leads; the console's, if nothing is below.
fn sink_of(way: Way) -> Result<Sink, NoMemory>
    ensures { IfOk result (λ sink. sink_of sink ≡ sink_by_way way.entry Console) }
{
    match way {
        Way::Below => Ok(Sink::Console),
        Way::Kept => Ok(Sink::Kept),
        Way::To(target) => Ok(Sink::To(copy(target)?)),
    }
}

/// A script is among some frames, or among those below them.
#[tactic(auto, using(crate::proofs::StackLemmas::script_append))]
fn any_script(frames: &[Frame], below: &[Frame]) -> bool
    ensures { result ≡ has_script (reverse frames.now ++ reverse below.now) }
{
    has_script(frames) || has_script(below)
}

/// One of these frames is a script.
#[tactic(auto, using(crate::proofs::StackLemmas::script_first))]
pub fn has_script(frames: &[Frame]) -> bool
    ensures { result ≡ has_script (reverse frames.now) }
{
    match frames.split_last() {
        None => false,
        Some((frame, older)) => frame.is_script() || has_script(older),
    }
}

/// The same target, if there is one.
pub fn copy_own(target: Option<&Target>) -> Result<Option<Target>, NoMemory>
    ensures { IfOk result (λ copy. copy ≡ option_copied target.entry) }
{
    Ok(target.cloned()?)
}

/// The same target.
pub fn copy(target: &Target) -> Result<Target, NoMemory>
    ensures { IfOk result (λ copy. copy ≡ target.now) }
{
    Ok(target.clone()?)
}
