// Run: it makes a shell for the commands of its text.
ghost use Rattle.std.specs.{Prelude.{◌≡◌, ◌≤◌, ◌-◌, ◌++◌, ◌∷◌, [], drop, IfOk, IfSome, OnOk}, Option.{option_copied, option_map}};
ghost use Rattle.ados_flow.specs.Gathering.{before_plus, run_gathering, run_limit};
ghost use Rattle.ados_machine.specs.NewShells.{answered_put, console_run, gathered_completion, joined_completion, new_shell, run_at, run_completion, running_completion};
ghost use Rattle.ados_shell.specs.Completions.{lines_left};

use crate::begun::Begun;
use crate::completions::Completion;
use crate::drafts::Draft;
use crate::scenes::Scene;
use crate::seen::free_number;
use crate::stacks::copy_own;
use ados_find::{Codes, Target};
use ados_flow::{Gathered, RUN_LIMIT, before_plus, gather, has_no_command, number_line};
use ados_line::Line;
use ados_machine::{Gathering, Wait};
use ados_script::Script;
use ados_text::{NoMemory, Result2, Stop, Text, Texts};
use std::alloc::Global;

impl Draft {
    ghost use Rattle.ados_shell.specs.{Drafts.{HasBegun, IsUnset, IsApplied, course_of, here_in}, Completions.{HasEnded}, Outputs.{IsPut}};

    /// A Run: its input is read, although nothing takes it, and its text is run.
    pub(crate) fn run(&mut self, scene: &Scene, line: &Line) -> Result<Completion, Stop>
        requires { IsUnset self.old }
        ensures { HasEnded scene.now self.old self.new line.now.command result
            (run_completion line.now (here_in scene.now self.old) (course_of scene.now self.old)) }
    {
        self.read_own(scene, line.input.as_ref())?;
        self.run_into(scene, line)
    }

    /// Opens the output of a Run, and runs its text; without a command it is refused.
    fn run_into(&mut self, scene: &Scene, line: &Line) -> Result<Completion, Stop>
        requires { IsUnset self.old }
        ensures { HasEnded scene.now self.old self.new line.now.command result
            (running_completion line.now (here_in scene.now self.old) (course_of scene.now self.old)) }
    {
        let output = self.open_own(scene, line.output.as_ref())?;
        if has_no_command(&line.args) {
            Err(Stop::Refused(Result2::ARGUMENT_MISSING))
        } else {
            self.run_commands(scene, line, output)
        }
    }

    /// Runs the commands of a Run, whose output leads there: in a frame with more of its lines, on the console with
    /// those for which the shell waits.
    fn run_commands(
        &mut self,
        scene: &Scene,
        line: &Line,
        output: Option<Target>,
    ) -> Result<Completion, Stop>
        requires { IsUnset self.old }
        ensures { HasEnded scene.now self.old self.new line.now.command result
            (run_at line.now.command output line.now.args (here_in scene.now self.old).sink (course_of scene.now self.old) (here_in scene.now self.old).frame_lines) }
    {
        match self.gathered(scene, &line.args)? {
            None => self.run_typed(scene, line, output),
            Some(Gathered { commands, taken }) => {
                let codes = self.make_shell(scene, commands, output.as_ref())?;
                Ok(Completion::Took { codes, taken })
            }
        }
    }

    /// The commands of a Run with this text, and how many more lines of the newest frame it takes; `None` on the
    /// console.
    fn gathered(&self, scene: &Scene, text: &Text) -> Result<Option<Gathered>, NoMemory>
        ensures gathered { IfOk result (λ all. all ≡ option_map (λ frame. run_gathering (run_limit - 1) text.now (drop frame.position frame.lines)) (here_in scene.now self.now).frame_lines) }
        ensures within { IfOk result (λ all. IfSome all (λ a. a.taken ≤ lines_left (here_in scene.now self.now).frame_lines)) }
    {
        match self.shell.frames.newest(scene.shell) {
            None => Ok(None),
            Some(frame) => Ok(Some(gather(scene.alloc, text, frame.further())?)),
        }
    }

    /// Runs the text of a Run on the console: if it goes on the shell waits for more lines.
    fn run_typed(
        &mut self,
        scene: &Scene,
        line: &Line,
        output: Option<Target>,
    ) -> Result<Completion, Stop>
        requires { IsUnset self.old }
        ensures { HasEnded scene.now self.old self.new line.now.command result
            (console_run line.now.command output line.now.args (here_in scene.now self.old).sink (course_of scene.now self.old) (before_plus line.now.args)) }
    {
        match before_plus(line.args.as_bytes()) {
            None => {
                let commands = with_command(scene.alloc, &[], line.args.copy()?)?;
                let codes = self.make_shell(scene, commands, output.as_ref())?;
                Ok(Completion::Answered {
                    codes,
                    quits: false,
                })
            }
            Some(front) => {
                let command = Text::from_bytes(scene.alloc, front)?;
                let gathering = Gathering {
                    word: line.command.copy()?,
                    output,
                    commands: with_command(scene.alloc, &[], command)?,
                };
                Ok(Completion::waiting(scene.alloc, Wait::ForLines(gathering))?)
            }
        }
    }

    /// Takes another line for a Run that reads further lines. If that goes on the shell waits again, up to the last command that
    /// a new shell is given.
    pub(crate) fn join(
        &mut self,
        scene: &Scene,
        gathering: &Gathering,
        line: &Text,
    ) -> Result<(), NoMemory>
        requires { IsUnset self.old }
        ensures { OnOk result (IsApplied scene.now self.old self.new
            (joined_completion gathering.now line.now (here_in scene.now self.old).sink (course_of scene.now self.old))) }
    {
        let before = gathering.commands.as_slice();
        let Gathering { word, output, .. } = gathering;
        match before_plus(line.as_bytes()) {
            None => {
                let commands = with_command(scene.alloc, before, line.copy()?)?;
                self.answer_begun(scene, word, commands, output.as_ref())
            }
            Some(front) => {
                let command = Text::from_bytes(scene.alloc, front)?;
                let commands = with_command(scene.alloc, before, command)?;
                if before.len() < RUN_LIMIT - 1 {
                    let gathering = Gathering {
                        word: word.copy()?,
                        output: copy_own(output.as_ref())?,
                        commands,
                    };
                    self.wait(scene, Wait::ForLines(gathering))
                } else {
                    self.answer_begun(scene, word, commands, output.as_ref())
                }
            }
        }
    }

    /// Makes the shell of a Run that reads further lines, of which no more come.
    pub(crate) fn gather_no_more(
        &mut self,
        scene: &Scene,
        gathering: &Gathering,
    ) -> Result<(), NoMemory>
        requires { IsUnset self.old }
        ensures { OnOk result (IsApplied scene.now self.old self.new
            (gathered_completion gathering.now (here_in scene.now self.old).sink (course_of scene.now self.old))) }
    {
        let Gathering {
            word,
            output,
            commands,
        } = gathering;
        self.answer_begun(scene, word, commands.copy()?, output.as_ref())
    }

    /// Makes a shell for these commands, whose output leads there, and the Run with this word returns.
    fn answer_begun(
        &mut self,
        scene: &Scene,
        word: &Text,
        commands: Texts,
        output: Option<&Target>,
    ) -> Result<(), NoMemory>
        requires { IsUnset self.old }
        ensures { OnOk result (IsApplied scene.now self.old self.new
            (answered_put word.now (new_shell commands (option_copied output.entry) (here_in scene.now self.old).sink (course_of scene.now self.old)))) }
    {
        let codes = self.make_shell(scene, commands, output)?;
        self.answer(scene, word.as_bytes(), codes, false)
    }

    /// Makes a shell with the lowest free number for these commands, whose output leads there, and writes its number there;
    /// gives what Run returns then. If no number is free nothing is changed.
    fn make_shell(
        &mut self,
        scene: &Scene,
        commands: Texts,
        output: Option<&Target>,
    ) -> Result<Codes, NoMemory>
        requires { IsUnset self.old }
        ensures { IfOk result (λ codes. IsPut scene.now self.old self.new codes
            (new_shell commands (option_copied output.entry) (here_in scene.now self.old).sink (course_of scene.now self.old))) }
    {
        let Some(number) = free_number(scene.shells) else {
            return Ok(Codes::failed(Result2::OBJECT_IN_USE));
        };
        self.draft_shell(scene, number, commands, output)?;
        let line = number_line(scene.alloc, number)?;
        self.put(scene, output, line, Codes::NONE)
    }

    /// Drafts the shell with this number for these commands, whose output leads there.
    fn draft_shell(
        &mut self,
        scene: &Scene,
        number: u8,
        commands: Texts,
        output: Option<&Target>,
    ) -> Result<(), NoMemory>
        requires { IsUnset self.old }
        ensures { OnOk result (HasBegun scene.now self.old self.new number commands (option_copied output.entry)) }
    {
        let begun = Begun {
            directory: self.directory(scene).copy()?,
            settings: scene.shell.settings().copied(scene.alloc, number)?,
            commands: Script::of(scene.alloc, commands.into_vec())?,
            output: copy_own(output)?,
        };
        self.begun = Some(Box::new(scene.alloc, begun)?);
        Ok(())
    }
}

/// Commands with one more after them.
fn with_command(alloc: Global, commands: &[Text], command: Text) -> Result<Texts, NoMemory>
    ensures { IfOk result (λ all. all ≡ commands.now ++ command ∷ []) }
{
    let mut all = commands.to_vec(alloc)?;
    all.push(command)?;
    Ok(Texts::from_vec(all))
}
