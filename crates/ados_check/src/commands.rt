//! The commands of the Shell by the words of a script, and the faults of their arguments.
ghost use Rattle.std.specs.{Prelude.{◌≡◌, Option, IfOk, IfSome}, Option.{option_map}};
ghost use Rattle.ados_find.specs.{Shared.{SharedState}, Views.{View}};
ghost use Rattle.ados_flow.specs.{Execute.{fault_answer}, Frames.{ScriptLine}};
ghost use Rattle.ados_machine.specs.Commands.{action_of};
ghost use Rattle.ados_readargs.specs.Faults.{result2_of};
ghost use Rattle.ados_check.specs.Commands.{after, meaning_of, name_in_c};

use ados_machine::{Builtin, parsed_template, template};
use ados_readargs::ArgFault;
use ados_resident::{Dialect, DiskCommand, InternalCommand};
use ados_text::{NoMemory, Text, same_name};
use std::alloc::Global;

/// What a word of a script stands for.
#[derive(Clone, Copy)]
pub enum Meaning {
    /// A command of the Shell with a template.
    Builtin(Builtin),
    /// Run, which has none.
    Run,
    /// Anything else.
    Other,
}

impl Meaning {
    /// What a word stands for in a dialect, if no file, alias or entry of the resident list has its name: an internal command by its
    /// name alone, and a command in C: also by a path.
    pub fn of(dialect: Dialect, word: &Text) -> Meaning
        ensures { result ≡ meaning_of dialect word.now }
    {
        if let Some(command) = InternalCommand::named(word) {
            return match command.builtin() {
                Some(builtin) => Meaning::Builtin(builtin),
                None => Meaning::Run,
            };
        }
        match DiskCommand::named(dialect, name_in_c(word.as_bytes())) {
            Some(command) => Meaning::Builtin(command.builtin()),
            None => Meaning::Other,
        }
    }
}

/// The name that a word has in C:, without a path that leads there, as the Shell has its devices at the start; the word itself if it has
/// none.
pub fn name_in_c(word: &[u8]) -> &[u8]
    ensures { result.now ≡ name_in_c word.now }
{
    if let Some(name) = after(word, b"C:") {
        return name;
    }
    if let Some(name) = after(word, b"SYS:C/") {
        return name;
    }
    if let Some(name) = after(word, b"RAM:C/") {
        return name;
    }
    match after(word, b":C/") {
        Some(name) => name,
        None => word,
    }
}

// What follows a text with which a word begins, ignoring case.
fn after<'a>(word: &'a [u8], start: &[u8]) -> Option<&'a [u8]>
    ensures { option_map (λ name. name.now) result ≡ after word.now start.now }
{
    if start.len() > word.len() {
        return None;
    }
    let (first, rest) = word.split_at(start.len());
    if same_name(first, start) {
        Some(rest)
    } else {
        None
    }
}

/// The text of a command's template in a dialect.
pub fn template_text(alloc: Global, dialect: Dialect, command: Builtin) -> Result<Text, NoMemory> {
    Text::from_bytes(alloc, template(dialect, command).as_bytes())
}

/// The fault that a command answers in a dialect for the text of its arguments, if it has one.
#[tactic(auto, unfolding(ados_machine::specs::Commands::action_of))]
pub fn argument_fault(
    alloc: Global,
    dialect: Dialect,
    command: Builtin,
    args: &Text,
) -> Result<Option<ArgFault>, NoMemory>
    // Wherever it is executed in a world of that dialect with these arguments, it answers that fault, and does nothing else.
    ensures { IfOk result (λ found. IfSome found (λ fault. (shared : SharedState) (script_line : Option ScriptLine) (view : View)
        → shared.dialect ≡ dialect → action_of command shared script_line view args.now ≡ fault_answer shared (result2_of fault))) }
{
    match parsed_template(alloc, dialect, command)?.fill(alloc, args.as_bytes()) {
        Ok(_) => Ok(None),
        Err(ArgFault::NoMemory) => Err(NoMemory),
        Err(fault) => Ok(Some(fault)),
    }
}
