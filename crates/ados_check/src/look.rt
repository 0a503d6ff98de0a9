//! The look at the lines of a script: the problem of each one.
ghost use Rattle.std.specs.{Prelude.{◌≡◌, Some, Ok, IfOk, IfSome, OnOk}, Option.{option_copied}};
ghost use Rattle.ados_script.specs.Lines.{line_of};
ghost use Rattle.ados_line.specs.declared.lines.Expanded.TheVariants.{Ready};
ghost use Rattle.ados_check.specs.{Directives.{IsSample}, Errors.{AreSo, IsCommand, IsHere, IsReadAs, IsSound}, LeftOut.{StayTold}, Signs.{SaysTheSame}};

use crate::arguments::argument_words;
use crate::command_words::name_in;
use crate::commands::{Meaning, argument_fault, template_text};
use crate::copies::flat_copy;
use crate::findings::{Finding, Problem};
use crate::jumps::jump_problem;
use crate::lines::push_sound;
use crate::made_aliases::MadeAliases;
use crate::readings::read_line;
use crate::signs::ends_in_return;
use crate::targets::are_targets_open;
use ados_flow::gather;
use ados_items::{between, first_word, trimmed};
use ados_line::{Expanded, Line, LineFault, without_comment};
use ados_machine::{Builtin, parsed_template};
use ados_resident::{Dialect, FlowCommand};
use ados_script::{Jump, Script};
use ados_text::{LINE_BYTES, NoMemory, Text, Texts, same_name};
use std::alloc::Global;

/// A look at all lines of a script.
#[derive(Drop)]
pub struct Look<'a> {
    alloc: Global,
    dialect: Dialect,
    // The lines as they are written, and with some arguments.
    written: &'a [Text],
    script: Script,
    // Arguments may give a jump a target: a Lab, or a line's first word, depends on them.
    are_targets_open: bool,
    // The words that may be aliases.
    made: MadeAliases,
}

impl<'a> Look<'a> {
    /// A look at lines as they are written, which with some arguments are those of the sample; `typed` are the lines that are typed before
    /// the script.
    pub fn of(
        alloc: Global,
        dialect: Dialect,
        typed: &[Text],
        written: &'a [Text],
        sample: Texts,
    ) -> Result<Look<'a>, NoMemory>
        ensures dialect { IfOk result (λ look. look.dialect ≡ dialect) }
        ensures written { IfOk result (λ look. look.written.now ≡ written.now) }
        ensures script { IfOk result (λ look. look.script ≡ sample) }
    {
        let script = Script::of(alloc, sample.into_vec())?;
        Ok(Look {
            alloc,
            dialect,
            written,
            are_targets_open: are_targets_open(written, script.lines()),
            script,
            made: MadeAliases::of(alloc, typed, written)?,
        })
    }

    /// Adds what is wrong with each line.
    #[tactic(auto, using(crate::proofs::ErrorLemmas::sound_told))]
    pub fn push_problems(&self, found: &mut Vec<Finding>) -> Result<(), NoMemory>
        requires { IsSample self.now.written.now self.now.script }
        ensures same { OnOk result (SaysTheSame found.old.items found.new.items) }
        ensures told { OnOk result (StayTold found.old.items found.new.items) }
        ensures so { OnOk result (AreSo self.now.dialect self.now.written.now found.old.items → AreSo self.now.dialect self.now.written.now found.new.items) }
    {
        let mut depth: usize = 0;
        let mut gathered: usize = 0;
        for place in 0..self.written.len() {
            let number = place.saturating_add(1);
            let of_block = self.block_problem(number, &mut depth);
            push_sound(found, number, of_block)?;
            let of_line = self.problem_unless(gathered > 0 || self.has_return(number), number)?;
            push_sound(found, number, of_line)?;
            gathered = if gathered > 0 {
                gathered - 1
            } else {
                self.gathered_by(number)?
            };
        }
        Ok(())
    }

    // How many of the lines after a line it takes, if it may be one of Run: of its own text without the comment, of theirs with it.
    fn gathered_by(&self, number: usize) -> Result<usize, NoMemory> {
        let lines = self.script.lines();
        let Some(line) = self.script.line(number) else {
            return Ok(0);
        };
        if !self.may_run(line.as_bytes())? {
            return Ok(0);
        }
        let text = Text::from_bytes(self.alloc, without_comment(line.as_bytes()))?;
        Ok(gather(self.alloc, &text, lines.get(number..).unwrap_or(&[]))?.taken)
    }

    // The command of a line is Run, or one that is not known before the script runs.
    fn may_run(&self, line: &[u8]) -> Result<bool, NoMemory> {
        let words = argument_words(self.alloc, line)?;
        let Some(word) = words.first() else {
            return Ok(false);
        };
        let name = name_in(between(line, word.from, word.to));
        let is_run = same_name(name, b"Run");
        let is_open = name.iter().any(|byte| matches!(*byte, b'$' | b'`' | b'<'));
        Ok(is_run || is_open || self.made.has(self.alloc, name)?)
    }

    // A line ends in a carriage return: what is said of its last word would be said of each such line.
    fn has_return(&self, number: usize) -> bool {
        match self.script.line(number) {
            Some(line) => ends_in_return(line.as_bytes()),
            None => false,
        }
    }

    // The problem of a line where a block begins or ends that is not whole; `depth` is how many blocks are open.
    fn block_problem(&self, number: usize, depth: &mut usize) -> Option<Problem>
        ensures { IfSome result (IsSound self.now.dialect self.now.written.now number) }
    {
        let line = self.script.line(number)?;
        let word = first_word(trimmed(line.as_bytes()));
        if same_name(word, b"If") {
            *depth = depth.saturating_add(1);
            let is_lost = self.script.after_if(number) == Jump::None && !self.has_return(number);
            return is_lost.then_some(Problem::IfWithoutEndIf);
        }
        if same_name(word, b"EndIf") {
            let is_first = *depth == 0;
            *depth = depth.saturating_sub(1);
            return is_first.then_some(Problem::EndIfWithoutIf);
        }
        None
    }

    // The problem of a line, unless it is passed over.
    fn problem_unless(&self, is_passed: bool, number: usize) -> Result<Option<Problem>, NoMemory>
        requires { IsSample self.now.written.now self.now.script }
        ensures { IfOk result (λ found. IfSome found (IsSound self.now.dialect self.now.written.now number)) }
    {
        if is_passed {
            return Ok(None);
        }
        self.line_problem(number)
    }

    // The problem of a line that depends neither on arguments nor on an alias of the script.
    fn line_problem(&self, number: usize) -> Result<Option<Problem>, NoMemory>
        requires { IsSample self.now.written.now self.now.script }
        ensures { IfOk result (λ found. IfSome found (IsSound self.now.dialect self.now.written.now number)) }
    {
        match self.plain_line(number) {
            Some(line) => self.plain_problem(number, line),
            None => Ok(None),
        }
    }

    // The line of a number as it is written.
    fn written_line(&self, number: usize) -> Option<&Text>
        ensures { option_copied result ≡ line_of self.now.written.now number }
    {
        self.written.get(number.checked_sub(1)?)
    }

    // The line of a number, if it stays as it is written.
    fn plain_line(&self, number: usize) -> Option<&Text>
        ensures written { IfSome result (λ line. line_of self.now.written.now number ≡ Some line.now) }
        ensures taken { IfSome result (λ line. line_of self.now.script number ≡ Some line.now) }
    {
        let written = self.written_line(number)?;
        let line = self.script.line(number)?;
        if *written != *line {
            return None;
        }
        Some(line)
    }

    // The problem of a line that stays as it is written, if its first word is no alias of the script.
    #[tactic(auto, using(crate::proofs::LookLemmas::ready_here, crate::proofs::LookLemmas::fault_so))]
    fn plain_problem(&self, number: usize, raw: &Text) -> Result<Option<Problem>, NoMemory>
        requires sample { IsSample self.now.written.now self.now.script }
        requires written { line_of self.now.written.now number ≡ Some raw.now }
        requires taken { line_of self.now.script number ≡ Some raw.now }
        ensures { IfOk result (λ found. IfSome found (IsSound self.now.dialect self.now.written.now number)) }
    {
        let bytes = raw.as_bytes();
        if bytes.len() > LINE_BYTES {
            return Ok(Some(Problem::LongLine(bytes.len())));
        }
        if self.is_alias(raw)? {
            return Ok(None);
        }
        match read_line(self.alloc, raw) {
            Some(Ok(Expanded::Ready(line))) => self.command_problem(number, &line),
            Some(Err(LineFault::NoMemory)) => Err(NoMemory),
            Some(Err(fault)) => Ok(Some(Problem::Line(fault))),
            Some(Ok(_)) | None => Ok(None),
        }
    }

    // The first word of a line may be an alias.
    fn is_alias(&self, line: &Text) -> Result<bool, NoMemory> {
        self.made
            .has(self.alloc, first_word(trimmed(line.as_bytes())))
    }

    // The problem of a command, as the line of that number is read.
    #[tactic(auto, using(crate::proofs::LookLemmas::command_here))]
    fn command_problem(&self, number: usize, line: &Line) -> Result<Option<Problem>, NoMemory>
        requires sample { IsSample self.now.written.now self.now.script }
        requires read { IsHere self.now.written.now self.now.script number (λ raw. IsReadAs raw (Ok (Ready line.now))) }
        ensures { IfOk result (λ found. IfSome found (IsSound self.now.dialect self.now.written.now number)) }
    {
        match Meaning::of(self.dialect, &line.command) {
            Meaning::Builtin(_) if self.may_ask(&line.args) => Ok(None),
            Meaning::Builtin(command) => self.argument_problem(number, command, line),
            Meaning::Run => Ok(None),
            Meaning::Other => Ok(Some(Problem::UnknownCommand(line.command.copy()?))),
        }
    }

    // Instead of these arguments others may be asked for, which are not known.
    fn may_ask(&self, args: &Text) -> bool {
        match self.dialect {
            Dialect::Core => args.is("?") || args.is(" ?"),
            Dialect::Full => trimmed(args.as_bytes()).ends_with(b"?"),
        }
    }

    // The problem of a command by its arguments.
    #[tactic(auto, using(crate::proofs::LookLemmas::refused_so))]
    fn argument_problem(
        &self,
        number: usize,
        command: Builtin,
        line: &Line,
    ) -> Result<Option<Problem>, NoMemory>
        requires sample { IsSample self.now.written.now self.now.script }
        requires read { IsHere self.now.written.now self.now.script number (λ raw. IsCommand self.now.dialect raw command line.now.args) }
        ensures { IfOk result (λ found. IfSome found (IsSound self.now.dialect self.now.written.now number)) }
    {
        match argument_fault(self.alloc, self.dialect, command, &line.args)? {
            Some(fault) => Ok(Some(Problem::Arguments {
                command: line.command.copy()?,
                template: template_text(self.alloc, self.dialect, command)?,
                fault,
            })),
            None => self.target_problem(number, command, &line.args),
        }
    }

    // The problem of what a command jumps to, calls, or copies.
    #[tactic(auto, using(crate::proofs::LookLemmas::jump_so))]
    fn target_problem(
        &self,
        number: usize,
        command: Builtin,
        text: &Text,
    ) -> Result<Option<Problem>, NoMemory>
        requires sample { IsSample self.now.written.now self.now.script }
        requires read { IsHere self.now.written.now self.now.script number (λ raw. IsCommand self.now.dialect raw command text.now) }
        ensures { IfOk result (λ found. IfSome found (IsSound self.now.dialect self.now.written.now number)) }
    {
        let Builtin::Flow(flow) = command else {
            return flat_copy(self.alloc, self.dialect, command, text);
        };
        let template = parsed_template(self.alloc, self.dialect, command)?;
        let Ok(args) = template.fill(self.alloc, text.as_bytes()) else {
            return Err(NoMemory);
        };
        if let FlowCommand::Execute = flow {
            let name = args.made_text(self.alloc, 0)?;
            return Ok(name.map(|name| Problem::NoScript(name)));
        }
        if self.are_targets_open {
            return Ok(None);
        }
        jump_problem(
            self.alloc,
            self.dialect,
            (&self.script, number),
            flow,
            &args,
        )
    }
}
