// Ticks: a line that has one waits for it, and goes on with its output.
ghost use Rattle.std.specs.Prelude.{◌≡◌, ◌++◌, ◌∷◌, [], reverse, take, IfOk, OnOk, if◌then◌else◌};
ghost use Rattle.ados_machine.specs.{Course.{put, tick_limit}, Completions.{Ticks, line_fault}, Lines.{parted_completion}, Apply.{rule_state_of, enter_tick}, Sinks.{Kept}};
ghost use Rattle.ados_text.specs.declared.codes.TheConstants.Result2.{TOO_MANY_LEVELS};

use crate::drafts::{Draft, ShellDraft};
use crate::scenes::Scene;
use crate::suspensions::Suspension;
use ados_find::Codes;
use ados_flow::{Frame, FrameKind};
use ados_line::{Tick, resume};
use ados_machine::Parted;
use ados_script::Script;
use ados_text::{NoMemory, Octets, Result2, Text};
use std::alloc::Global;

/// A command substitution keeps at most this many bytes, the first ones.
const TICK_LIMIT: usize = 1024;

impl Draft {
    ghost use Rattle.ados_shell.specs.{Drafts.{IsRuled, IsTicked, IsUnset, IsApplied, course_of, frames_of, here_in}, Outputs.{IsPut}};

    /// A command substitution of a line begins: if there are as many frames as a shell may have, that is the line's fault.
    pub(crate) fn tick(&mut self, scene: &Scene, tick: Tick) -> Result<(), NoMemory>
        ensures { OnOk result (IsApplied scene.now self.old self.new
            (if (here_in scene.now self.old).is_full then line_fault TOO_MANY_LEVELS (course_of scene.now self.old)
            else Ticks tick.before tick.command tick.after (course_of scene.now self.old))) }
    {
        if self.shell.frames.is_full(scene.shell) {
            self.refuse_line(scene, Result2::TOO_MANY_LEVELS)
        } else {
            self.begin_tick(scene, tick)
        }
    }

    /// A command substitution begins, and takes its line at the next turn.
    fn begin_tick(&mut self, scene: &Scene, tick: Tick) -> Result<(), NoMemory>
        ensures { OnOk result (IsRuled scene.now self.old self.new
            (enter_tick tick.before tick.command tick.after (frames_of scene.now self.old) (rule_state_of (course_of scene.now self.old)))) }
    {
        let Tick {
            before,
            command,
            after,
        } = tick;
        let script = single(scene.alloc, command)?;
        let kind = FrameKind::Tick { before, after };
        let frame = Frame::new(scene.alloc, kind, script, self.shell.limit, None)?;
        let mut kept = self.shell.kept_copy(scene)?;
        kept.push(Octets::from_vec(Vec::new(scene.alloc)))?;
        self.shell.kept = Some(kept);
        self.shell.phase = None;
        self.shell.frames.push(frame)
    }

    /// The newest command substitution has ended and was popped: its line goes on with the output of it between these texts.
    pub(crate) fn end_tick(
        &mut self,
        scene: &Scene,
        before: &Text,
        after: &Text,
    ) -> Result<(), NoMemory>
        ensures { OnOk result (IsTicked scene.now self.old self.new before.now after.now) }
    {
        let mut kept = self.shell.kept_copy(scene)?;
        let output = match kept.pop() {
            Some(output) => output,
            None => Octets::from_vec(Vec::new(scene.alloc)),
        };
        let parted = Parted {
            before: before.copy()?,
            output,
            after: after.copy()?,
        };
        self.shell.phase = Some(Box::new(scene.alloc, Suspension::GoingOn(parted))?);
        self.shell.kept = Some(kept);
        Ok(())
    }

    /// The newest command substitution keeps the output of a command.
    pub(crate) fn keep(
        &mut self,
        scene: &Scene,
        output: &[u8],
        codes: Codes,
    ) -> Result<Codes, NoMemory>
        ensures { IfOk result (λ answered. IsPut scene.now self.old self.new answered (put Kept output.now codes (course_of scene.now self.old))) }
    {
        let mut kept = self.shell.kept_copy(scene)?;
        if let Some(newest) = kept.pop() {
            kept.push(joined(newest, output)?)?;
        }
        self.shell.kept = Some(kept);
        Ok(codes)
    }

    /// Goes on with a line whose command substitution has ended.
    pub(crate) fn go_on(&mut self, scene: &Scene, parted: &Parted) -> Result<(), NoMemory>
        requires { IsUnset self.old }
        ensures { OnOk result (IsApplied scene.now self.old self.new
            (parted_completion parted.now (here_in scene.now self.old) (course_of scene.now self.old))) }
    {
        let output = parted.output.as_bytes();
        let expanded = resume(scene.alloc, &parted.before, output, &parted.after);
        self.work_line(scene, expanded)
    }
}

impl ShellDraft {
    ghost use Rattle.ados_shell.specs.Drafts.{drafted_shell};

    /// A copy of the output of the command substitutions so far; that of the newest is the last.
    pub(crate) fn kept_copy(&self, scene: &Scene) -> Result<Vec<Octets>, NoMemory>
        ensures { IfOk result (λ kept. reverse kept.items ≡ (drafted_shell self.now scene.now.shell.now).kept) }
    {
        match &self.kept {
            None => copied(scene.alloc, scene.shell.kept()),
            Some(kept) => copied(scene.alloc, kept.as_slice()),
        }
    }
}

/// Equal outputs.
fn copied(alloc: Global, kept: &[Octets]) -> Result<Vec<Octets>, NoMemory>
    ensures { IfOk result (λ copy. copy.items ≡ kept.now) }
{
    Ok(kept.to_vec(alloc)?)
}

/// What a command substitution keeps that kept these bytes so far, after this output.
fn joined(kept: Octets, output: &[u8]) -> Result<Octets, NoMemory>
    ensures { IfOk result (λ joined. joined ≡ take tick_limit (kept ++ output.now)) }
{
    let mut bytes = kept.into_vec();
    bytes.extend_from_slice(output)?;
    bytes.truncate(TICK_LIMIT);
    Ok(Octets::from_vec(bytes))
}

/// The script of a single line.
fn single(alloc: Global, line: Text) -> Result<Script, NoMemory>
    ensures { IfOk result (λ script. script ≡ line ∷ []) }
{
    let mut lines = Vec::new(alloc);
    lines.push(line)?;
    Script::of(alloc, lines)
}
