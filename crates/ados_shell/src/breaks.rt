// Breaks: what a break is to a shell, and the turn that ends its scripts.
ghost use Rattle.std.specs.Prelude.{◌≡◌, true, IfOk, OnErr, OnOk};
ghost use Rattle.ados_flow.specs.Frames.{caller_word};
ghost use Rattle.ados_machine.specs.{Breaks.{broken_shell, flags_own, has_script}, Apply.{rule_state_of}, CodeRule.{end_at_break}, Turning.{turn_at_break}};
ghost use Rattle.ados_shell.specs.Reports.{broken_report};

use crate::drafts::Draft;
use crate::scenes::{Input, Scene};
use crate::shells::Shell;
use crate::stacks::has_script;
use crate::turnings::TurnKind;
use ados_find::{Breaking, Breaks, Codes};
use ados_flow::{Frame, FrameKind};
use ados_machine::EndReport;
use ados_text::{NoMemory, Result2, Text};

impl Shell {
    /// The shell is broken: by C, a program that it is to start, or reads, is marked; by D, its scripts end at its next turn.
    pub fn break_by(&mut self, breaks: Breaks)
        ensures { self.new ≡ broken_shell breaks self.old }
    {
        if breaks.marks {
            if let Some(phase) = &mut self.phase {
                phase.mark();
            }
        }
        self.flagged |= breaks.flags;
    }

    /// A script runs in it.
    pub(crate) fn has_script(&self) -> bool
        ensures { result ≡ has_script self.now.frames }
    {
        has_script(self.frames.as_slice())
    }
}

impl Draft {
    ghost use Rattle.ados_shell.specs.{Breaks.{GivesUp, ReportsBreak, broken_turning}, Turnings.{GivesTurning, MayLackMemory}, Drafts.{IsDrafted, IsRuled, course_of, frames_of, turn_start}};

    /// A turn of a shell that is flagged, in which a script runs: if it can take one, its scripts end instead of
    /// what it would have done, and its input stays.
    pub(crate) fn broken_turn(&mut self, scene: &Scene, input: &Input) -> Result<TurnKind, NoMemory>
        requires { has_script scene.now.shell.now.frames ≡ true }
        ensures turn { IfOk result (λ turn. GivesTurning scene.now input.now (broken_turning scene.now input.now) turn self.new) }
        ensures memory { OnErr result (MayLackMemory input.now (broken_turning scene.now input.now)) }
    {
        if scene.shell.can_take(input.has_lines()) {
            self.break_off(scene)?;
            Ok(TurnKind::Goes)
        } else {
            Ok(TurnKind::NotReady)
        }
    }

    /// The scripts of the shell end at a break.
    fn break_off(&mut self, scene: &Scene) -> Result<(), NoMemory>
        ensures { OnOk result (IsDrafted scene.now self.new (turn_at_break scene.now.shell.now.frames (turn_start scene.now))) }
    {
        self.begin_turn(scene.shell);
        self.printed.extend_from_slice(b"***Break\n")?;
        self.break_frames(scene)?;
        self.bind(scene)
    }

    /// Every frame ends from the newest to the outermost script, and none of their commands is finished. The command that made
    /// that script is finished, with 10 and 304, and the code rule follows.
    fn break_frames(&mut self, scene: &Scene) -> Result<(), NoMemory>
        ensures { OnOk result (IsRuled scene.now self.old self.new
            (end_at_break (frames_of scene.now self.old) (rule_state_of (course_of scene.now self.old)))) }
    {
        self.shell.phase = None;
        let Some(frame) = self.shell.frames.pop(scene.shell)? else {
            return Ok(());
        };
        self.report_break(scene, &frame)?;
        if self.shell.frames.has_script(scene.shell) {
            self.give_up(scene, &frame)?;
            self.break_frames(scene)
        } else {
            self.shell.limit = self.shell.frames.limit_after(scene.shell, frame.limit());
            self.finish(
                scene,
                caller_word(&frame),
                Codes::erred(Result2::BREAK),
                false,
            )
        }
    }

    /// Reports that a frame that was popped ended at a break, if it is a script's.
    fn report_break(&mut self, scene: &Scene, frame: &Frame) -> Result<(), NoMemory>
        ensures { OnOk result (ReportsBreak scene.now self.old self.new frame.now) }
    {
        if let FrameKind::Script { name, .. } = frame.kind() {
            self.reports
                .push(broken_report(scene.number, name, frame)?)?;
        }
        Ok(())
    }

    /// Drops the output of a frame that was popped, if it is that of a command substitution.
    fn give_up(&mut self, scene: &Scene, frame: &Frame) -> Result<(), NoMemory>
        ensures { OnOk result (GivesUp scene.now self.old self.new frame.now) }
    {
        if let FrameKind::Tick { .. } = frame.kind() {
            let mut kept = self.shell.kept_copy(scene)?;
            let _ = kept.pop();
            self.shell.kept = Some(kept);
        }
        Ok(())
    }
}

/// The report of the end at a break of the script with this name, whose shell has this number.
fn broken_report(shell: u8, name: &Text, frame: &Frame) -> Result<EndReport, NoMemory>
    ensures { IfOk result (λ report. report ≡ broken_report shell name.now frame.now) }
{
    Ok(EndReport {
        shell,
        name: name.copy()?,
        last_line: frame.last_line(),
        code: Codes::erred(Result2::BREAK).code,
        early: false,
        broken: true,
    })
}

/// The word of the command that made a frame; no word for one that no command made.
fn caller_word(frame: &Frame) -> &[u8]
    ensures { result.now ≡ caller_word frame.now.kind }
{
    match frame.kind() {
        FrameKind::Script { command, .. } => command.as_bytes(),
        FrameKind::RunCommands | FrameKind::Tick { .. } => &[],
    }
}

/// A shell with this number breaks itself, and by D.
pub fn flags_own(number: u8, breaking: Option<Breaking>) -> bool
    ensures { result ≡ flags_own number breaking }
{
    match breaking {
        None => false,
        Some(breaking) => breaking.breaks.flags && breaking.shell == number as usize,
    }
}
