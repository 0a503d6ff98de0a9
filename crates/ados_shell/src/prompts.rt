// Prompts: a command that asks for its arguments.
ghost use Rattle.std.specs.{Prelude.{◌≡◌, ◌++◌, [], None, if◌then◌else◌, IfOk, OnOk, drop}, Option.{option_copied, option_map}};
ghost use Rattle.ados_find.specs.Targets.{target_of};
ghost use Rattle.ados_machine.specs.{Completions.{Waits}, Lines.{answer_completion, asks_silently, builtin_completion, is_nil, is_nil_sink, prints_to_nil, prompt_completion, resumed_completion}, Prompts.{first_of, input_lines, prompt}};
ghost use Rattle.ados_shell.specs.Stacks.{sink_of};
ghost use Rattle.ados_text.specs.Stop.{Gives};

use crate::completions::Completion;
use crate::drafts::Draft;
use crate::inputs::{completed_line, input_lines, query_of};
use crate::scenes::Scene;
use crate::seen::open_outputs;
use crate::stacks::Sink;
use crate::suspensions::Suspension;
use ados_find::{Shared, Target, target_of};
use ados_line::{Line, Redirection};
use ados_machine::{Asking, Builtin, Query, Wait, template};
use ados_ram::Place;
use ados_resident::Dialect;
use ados_text::{NoMemory, Stop, Text, Texts};
use std::alloc::Global;

impl Draft {
    ghost use Rattle.ados_shell.specs.{Drafts.{IsUnset, IsApplied, course_of, here_in}, Completions.{HasEnded}, Inputs.{HasRead}};

    /// Runs a command: its input is read, if it has one, and its arguments are asked for if there is a `?` that asks.
    #[inline(always)]
    pub(crate) fn builtin(
        &mut self,
        scene: &Scene,
        builtin: Builtin,
        line: &Line,
    ) -> Result<Completion, Stop>
        requires { IsUnset self.old }
        ensures { HasEnded scene.now self.old self.new line.now.command result
            (builtin_completion builtin line.now (here_in scene.now self.old) (course_of scene.now self.old)) }
    {
        let lines = self.read_own(scene, line.input.as_ref())?;
        let input = slice_of(lines.as_ref());
        let dialect = self.dialect(scene);
        match query_of(dialect, builtin, &line.args) {
            Some(query) => self.prompt(scene, builtin, line, query, input),
            None => self.command(scene, builtin, line, input),
        }
    }

    /// The dialect of the world.
    pub(crate) fn dialect(&self, scene: &Scene) -> Dialect
        ensures { result ≡ (course_of scene.now self.now).shared.dialect }
    {
        self.current(scene).dialect
    }

    /// The lines of an input, if there is one, with the shell and the shared state as it is now.
    fn input(&self, scene: &Scene, name: Option<&Text>) -> Result<Option<Texts>, Stop>
        ensures { Gives result (input_lines (course_of scene.now self.now) (option_copied name.entry)) }
    {
        match name {
            None => Ok(None),
            Some(name) => {
                let busy = open_outputs(scene.alloc, scene.shells)?;
                let shared = self.current(scene);
                input_lines(scene.alloc, shared, &busy, self.directory(scene), name)
            }
        }
    }

    /// Reads an input, if there is one, and uses its device. If it is refused nothing is changed.
    #[inline(always)]
    pub(crate) fn read_own(
        &mut self,
        scene: &Scene,
        name: Option<&Text>,
    ) -> Result<Option<Texts>, Stop>
        ensures { HasRead scene.now self.old self.new (option_copied name.entry) result (input_lines (course_of scene.now self.old) (option_copied name.entry)) }
    {
        let lines = self.input(scene, name)?;
        if let Some(name) = name {
            self.use_path(scene, name)?;
        }
        Ok(lines)
    }

    /// Prints a prompt; the first line of the input completes the arguments. Without an input the shell waits for a line.
    fn prompt(
        &mut self,
        scene: &Scene,
        builtin: Builtin,
        line: &Line,
        query: Query,
        input: Option<&[Text]>,
    ) -> Result<Completion, Stop>
        requires { IsUnset self.old }
        ensures { HasEnded scene.now self.old self.new line.now.command result
            (prompt_completion builtin line.now query (here_in scene.now self.old) (course_of scene.now self.old) (option_map (λ l. l.now) input.entry)) }
    {
        let is_silent = self.asks_silently(scene, line)?;
        let dialect = self.dialect(scene);
        push_prompt(&mut self.printed, is_silent, dialect, builtin)?;
        match input {
            None => {
                let line = line.copy()?;
                let asking = Asking::Arguments {
                    builtin,
                    line,
                    query,
                };
                Ok(Completion::waiting(scene.alloc, Wait::ForAnswer(asking))?)
            }
            Some(lines) => {
                let answer = first_of(scene.alloc, lines)?;
                let line = completed_line(scene.alloc, line, query, answer)?;
                self.command(scene, builtin, &line, Some(lines_after_first(lines)))
            }
        }
    }

    /// A line asks for arguments without a prompt: in Full, where what it prints goes to NIL:.
    fn asks_silently(&self, scene: &Scene, line: &Line) -> Result<bool, NoMemory>
        ensures { IfOk result (λ silent. silent ≡ asks_silently (course_of scene.now self.now).shared.dialect line.now.output (here_in scene.now self.now) (course_of scene.now self.now)) }
    {
        match self.dialect(scene) {
            Dialect::Core => Ok(false),
            Dialect::Full => self.prints_to_nil(scene, line.output.as_ref()),
        }
    }

    /// What a line prints goes to NIL:, by its own redirection, or else by those of its scripts, or of Run.
    fn prints_to_nil(&self, scene: &Scene, output: Option<&Redirection>) -> Result<bool, NoMemory>
        ensures { IfOk result (λ to_nil. to_nil ≡ prints_to_nil (option_copied output.entry) (here_in scene.now self.now) (course_of scene.now self.now)) }
    {
        match output {
            None => Ok(is_nil_sink(&self.shell.frames.sink(scene.shell)?)),
            Some(output) => leads_to_nil(
                scene.alloc,
                self.current(scene),
                self.directory(scene),
                &output.name,
            ),
        }
    }

    /// The shell waits.
    pub(crate) fn wait(&mut self, scene: &Scene, wait: Wait) -> Result<(), NoMemory>
        ensures { OnOk result (IsApplied scene.now self.old self.new (Waits wait (course_of scene.now self.old))) }
    {
        self.shell.phase = Some(Box::new(scene.alloc, Suspension::Waiting(wait))?);
        Ok(())
    }

    /// A command goes on with the arguments that an answer to its prompt completes.
    fn resume_command(
        &mut self,
        scene: &Scene,
        builtin: Builtin,
        line: &Line,
        query: Query,
        answer: &Text,
    ) -> Result<Completion, Stop>
        requires { IsUnset self.old }
        ensures { HasEnded scene.now self.old self.new line.now.command result
            (resumed_completion builtin line.now query answer.now None (here_in scene.now self.old) (course_of scene.now self.old)) }
    {
        let line = completed_line(scene.alloc, line, query, answer.copy()?)?;
        self.command(scene, builtin, &line, None)
    }

    /// Takes the answer to a prompt: it completes the arguments as it is, or replies to a question.
    pub(crate) fn resume(
        &mut self,
        scene: &Scene,
        asking: &Asking,
        answer: &Text,
    ) -> Result<(), NoMemory>
        requires { IsUnset self.old }
        ensures { OnOk result (IsApplied scene.now self.old self.new
            (answer_completion answer.now asking.now (here_in scene.now self.old) (course_of scene.now self.old))) }
    {
        match asking {
            Asking::Arguments {
                builtin,
                line,
                query,
            } => {
                let ended = self.resume_command(scene, *builtin, line, *query, answer);
                self.conclude(scene, &line.command, ended)
            }
            Asking::Reply(question) => {
                let ended = self.reply(scene, question, answer);
                self.conclude(scene, &question.word, ended)
            }
        }
    }
}

/// The lines of an input, if there is one.
fn slice_of(lines: Option<&Texts>) -> Option<&[Text]>
    ensures { option_map (λ l. l.now) result ≡ option_copied lines.entry }
{
    match lines {
        None => None,
        Some(lines) => Some(lines.as_slice()),
    }
}

/// The lines after the first.
fn lines_after_first(lines: &[Text]) -> &[Text]
    ensures { result.now ≡ drop 1 lines.now }
{
    match lines.split_first() {
        None => &[],
        Some((_, lines)) => lines,
    }
}

/// A copy of the first line; an empty one if there is none.
fn first_of(alloc: Global, lines: &[Text]) -> Result<Text, NoMemory>
    ensures { IfOk result (λ line. line ≡ first_of lines.now) }
{
    match lines.first() {
        None => Ok(Text::new(alloc)),
        Some(line) => line.copy(),
    }
}

/// A path leads to NIL:, from a current directory.
fn leads_to_nil(
    alloc: Global,
    shared: &Shared,
    directory: &Place,
    name: &Text,
) -> Result<bool, NoMemory>
    ensures { IfOk result (λ nil. nil ≡ is_nil (target_of shared.now directory.now name.now)) }
{
    match target_of(alloc, shared, directory, name) {
        Ok(Target::Nil) => Ok(true),
        Ok(Target::At(_)) | Err(Stop::Refused(_)) => Ok(false),
        Err(Stop::NoMemory) => Err(NoMemory),
    }
}

/// Output goes to NIL:.
fn is_nil_sink(sink: &Sink) -> bool
    ensures { result ≡ is_nil_sink (sink_of sink.now) }
{
    match sink {
        Sink::To(Target::Nil) => true,
        Sink::To(Target::At(_)) | Sink::Kept | Sink::Console => false,
    }
}

/// Prints a command's prompt, unless it asks silently: its template in a dialect, and `: `.
fn push_prompt(
    out: &mut Vec<u8>,
    is_silent: bool,
    dialect: Dialect,
    builtin: Builtin,
) -> Result<(), NoMemory>
    ensures { OnOk result (out.new.items ≡ out.old.items ++ (if is_silent then [] else prompt dialect builtin)) }
{
    if is_silent {
        return Ok(());
    }
    out.extend_from_slice(template(dialect, builtin).as_bytes())?;
    out.extend_from_slice(b": ")?;
    Ok(())
}
