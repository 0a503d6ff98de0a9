// A line whose command is a program: a disk command, or a program of the host, which is to be started.
ghost use Rattle.std.specs.{Prelude.{◌≡◌, ℕ, List, Option, Some, IfOk}, Option.{option_copied}};
ghost use Rattle.ados_machine.specs.{Hosted.{host_completion, start_completion, tested_completion}, Lines.{program_completion}, Opening.{line_output}};
ghost use Rattle.ados_items.specs.Items.{words_of};

use crate::completions::Completion;
use crate::drafts::Draft;
use crate::scenes::Scene;
use ados_items::words;
use ados_line::{Line, Redirection};
use ados_machine::{Starting, Wait};
use ados_resident::Program;
use ados_text::{NoMemory, Result2, Stop, Text, Texts};

impl Draft {
    ghost use Rattle.ados_shell.specs.{Completions.{HasEnded}, Drafts.{IsUnset, course_of, here_in}};

    /// Runs a line whose command is a program, which runs from an entry of the resident list, or from a file.
    pub(crate) fn run_program(
        &mut self,
        scene: &Scene,
        entry: Option<Text>,
        program: Program,
        line: &Line,
    ) -> Result<Completion, Stop>
        requires { IsUnset self.old }
        ensures { HasEnded scene.now self.old self.new line.now.command result
            (program_completion entry program line.now (here_in scene.now self.old) (course_of scene.now self.old)) }
    {
        match program {
            Program::Disk(command) => self.builtin(scene, command.builtin(), line),
            Program::Host(program) => self.host(scene, entry, program, line),
        }
    }

    /// A program of the host takes no input.
    fn host(
        &mut self,
        scene: &Scene,
        entry: Option<Text>,
        program: Text,
        line: &Line,
    ) -> Result<Completion, Stop>
        ensures { HasEnded scene.now self.old self.new line.now.command result (host_completion entry program line.now (course_of scene.now self.old)) }
    {
        match &line.input {
            Some(_) => Err(Stop::Refused(Result2::NOT_IMPLEMENTED)),
            None => self.test_output(scene, entry, program, line),
        }
    }

    /// Its output is only tested: nothing is opened before it has started.
    fn test_output(
        &mut self,
        scene: &Scene,
        entry: Option<Text>,
        program: Text,
        line: &Line,
    ) -> Result<Completion, Stop>
        ensures { HasEnded scene.now self.old self.new line.now.command result
            (tested_completion entry program line.now (course_of scene.now self.old) (line_output (course_of scene.now self.old) line.now.output)) }
    {
        self.open(scene, line.output.as_ref())?;
        self.ask_to_start(scene, entry, program, line)
    }

    /// The shell waits for the start of the program, with the words of its arguments.
    fn ask_to_start(
        &mut self,
        scene: &Scene,
        entry: Option<Text>,
        program: Text,
        line: &Line,
    ) -> Result<Completion, Stop>
        ensures { (words : Option (List (List ℕ))) → words ≡ words_of line.now.args →
            HasEnded scene.now self.old self.new line.now.command result (start_completion entry program line.now (course_of scene.now self.old) words) }
    {
        match words(scene.alloc, line.args.as_bytes())? {
            None => Err(Stop::Refused(Result2::UNMATCHED_QUOTES)),
            Some(args) => self.wait_for_start(scene, entry, program, args, line),
        }
    }

    /// The shell waits for the start of the program, with these arguments; nothing is used before it has started.
    fn wait_for_start(
        &mut self,
        scene: &Scene,
        entry: Option<Text>,
        program: Text,
        args: Texts,
        line: &Line,
    ) -> Result<Completion, Stop>
        ensures { HasEnded scene.now self.old self.new line.now.command result (start_completion entry program line.now (course_of scene.now self.old) (Some args)) }
    {
        let starting = Starting {
            word: line.command.copy()?,
            entry,
            program,
            args,
            output: copied(line.output.as_ref())?,
            marked: false,
        };
        self.use_nothing(scene);
        Ok(Completion::waiting(scene.alloc, Wait::ForStart(starting))?)
    }
}

/// A copy of a redirection, if there is one.
fn copied(output: Option<&Redirection>) -> Result<Option<Redirection>, NoMemory>
    ensures { IfOk result (λ copy. copy ≡ option_copied output.entry) }
{
    Ok(output.cloned()?)
}
