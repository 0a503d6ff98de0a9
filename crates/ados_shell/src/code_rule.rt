// The code rule: when a frame ends, and what its end is to the command that made it.
ghost use Rattle.std.specs.Prelude.{◌≡◌, IfOk, OnOk};
ghost use Rattle.ados_shell.specs.{Completions.{line_after}, Reports.{report_of}};
ghost use Rattle.ados_machine.specs.{CodeRule.{finish}, Completions.{Answers, Calls, Jumps, Passes, refusal_completion}, Apply.{enter_script, rule_state_of}};

use crate::console::{push_failed, push_fault};
use crate::drafts::Draft;
use crate::scenes::Scene;
use ados_find::{Codes, Target};
use ados_flow::{Called, Frame, FrameKind};
use ados_machine::EndReport;
use ados_text::{NoMemory, Result2, Text};

impl Draft {
    ghost use Rattle.ados_shell.specs.Drafts.{IsReported, IsRuled, IsApplied, course_of, frames_of, here_in};

    /// No command was there to return: the newest frame ends if no line is left.
    pub(crate) fn pass(&mut self, scene: &Scene) -> Result<(), NoMemory>
        ensures { OnOk result (IsApplied scene.now self.old self.new (Passes (course_of scene.now self.old))) }
    {
        self.shell.phase = None;
        let Some(frame) = self.shell.frames.pop(scene.shell)? else {
            return Ok(());
        };
        if !frame.is_over() {
            return self.shell.frames.push(frame);
        }
        match frame.kind() {
            FrameKind::Script { name, command } => {
                self.report(scene, name, &frame)?;
                self.finish(scene, command.as_bytes(), frame.last_codes(), false)
            }
            FrameKind::RunCommands => Ok(()),
            FrameKind::Tick { before, after } => self.end_tick(scene, before, after),
        }
    }

    /// A command returned: the text of its fault is printed, and the code rule follows.
    #[inline(always)]
    pub(crate) fn answer(
        &mut self,
        scene: &Scene,
        word: &[u8],
        codes: Codes,
        quits: bool,
    ) -> Result<(), NoMemory>
        ensures { OnOk result (IsApplied scene.now self.old self.new (Answers word.now codes quits (course_of scene.now self.old))) }
    {
        push_fault(&mut self.printed, word, codes.result2)?;
        self.finish(scene, word, codes, quits)
    }

    /// A command is refused with 20.
    pub(crate) fn refuse(
        &mut self,
        scene: &Scene,
        word: &Text,
        fault: Result2,
    ) -> Result<(), NoMemory>
        ensures { OnOk result (IsApplied scene.now self.old self.new (refusal_completion word.now fault (course_of scene.now self.old))) }
    {
        self.answer(scene, word.as_bytes(), Codes::failed(fault), false)
    }

    /// A command returned, and the newest frame goes on at a line.
    #[inline(never)]
    pub(crate) fn jump(
        &mut self,
        scene: &Scene,
        word: &Text,
        codes: Codes,
        line: usize,
    ) -> Result<(), NoMemory>
        ensures { OnOk result (IsApplied scene.now self.old self.new (Jumps word.now codes line (course_of scene.now self.old))) }
    {
        self.shell.frames.jump_to(scene.shell, line)?;
        self.answer(scene, word.as_bytes(), codes, false)
    }

    /// A command returned that took this many more lines of the newest frame, or all that are left.
    #[inline(never)]
    pub(crate) fn skip(
        &mut self,
        scene: &Scene,
        word: &Text,
        codes: Codes,
        taken: usize,
    ) -> Result<(), NoMemory>
        ensures { OnOk result (IsApplied scene.now self.old self.new
            (Jumps word.now codes (line_after taken (here_in scene.now self.old).frame_lines) (course_of scene.now self.old))) }
    {
        self.shell.frames.skip(scene.shell, taken)?;
        self.answer(scene, word.as_bytes(), codes, false)
    }

    /// A script is called: if there are as many frames as a shell may have, that is the command's fault.
    #[inline(never)]
    pub(crate) fn call(
        &mut self,
        scene: &Scene,
        word: &Text,
        output: Option<Target>,
        script: Called,
    ) -> Result<(), NoMemory>
        ensures { OnOk result (IsApplied scene.now self.old self.new (Calls word.now output script (course_of scene.now self.old))) }
    {
        if self.shell.frames.is_full(scene.shell) {
            self.refuse(scene, word, Result2::TOO_MANY_LEVELS)
        } else {
            self.begin_script(scene, word, output, script)
        }
    }

    /// A script begins, with the current limit, and ends at once if it has no line.
    fn begin_script(
        &mut self,
        scene: &Scene,
        word: &Text,
        output: Option<Target>,
        called: Called,
    ) -> Result<(), NoMemory>
        ensures { OnOk result (IsRuled scene.now self.old self.new
            (enter_script word.now output called (frames_of scene.now self.old) (rule_state_of (course_of scene.now self.old)))) }
    {
        let kind = FrameKind::Script {
            name: called.name,
            command: word.copy()?,
        };
        let frame = Frame::new(scene.alloc, kind, called.script, self.shell.limit, output)?;
        self.shell.frames.push(frame)?;
        self.pass(scene)
    }

    /// The code rule: the newest frame ends if it quits, at the limit, or if no line is left,
    /// and its end is the return of the command that made it, and so on down.
    #[inline(always)]
    pub(crate) fn finish(
        &mut self,
        scene: &Scene,
        word: &[u8],
        codes: Codes,
        quits: bool,
    ) -> Result<(), NoMemory>
        ensures { OnOk result (IsRuled scene.now self.old self.new
            (finish word.now codes quits (frames_of scene.now self.old) (rule_state_of (course_of scene.now self.old)))) }
    {
        let limit = self.shell.limit;
        self.shell.phase = None;
        self.shell.codes = codes;
        push_failed(&mut self.printed, word, codes.code, limit)?;
        let Some(mut frame) = self.shell.frames.pop(scene.shell)? else {
            return Ok(());
        };
        frame.answer(codes, limit);
        if !frame.is_ended(quits, codes, limit) {
            return self.shell.frames.push(frame);
        }
        match frame.kind() {
            FrameKind::Script { name, command } => {
                self.report(scene, name, &frame)?;
                self.finish(scene, command.as_bytes(), codes, false)
            }
            FrameKind::RunCommands => Ok(()),
            FrameKind::Tick { before, after } => self.end_tick(scene, before, after),
        }
    }

    /// Reports the end of the script with this name that was popped, and restores the limit of its beginning.
    fn report(&mut self, scene: &Scene, name: &Text, frame: &Frame) -> Result<(), NoMemory>
        ensures { OnOk result (IsReported scene.now self.old self.new name.now frame.now) }
    {
        self.reports.push(report_of(scene.number, name, frame)?)?;
        self.shell.limit = self.shell.frames.limit_after(scene.shell, frame.limit());
        Ok(())
    }
}

/// The report of the end of the script with this name, whose shell has this number.
fn report_of(shell: u8, name: &Text, frame: &Frame) -> Result<EndReport, NoMemory>
    ensures { IfOk result (λ report. report ≡ report_of shell name.now frame.now) }
{
    Ok(EndReport {
        shell,
        name: name.copy()?,
        last_line: frame.last_line(),
        code: frame.last_codes().code,
        early: frame.is_early(),
        broken: false,
    })
}
