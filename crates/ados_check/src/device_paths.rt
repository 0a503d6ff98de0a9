//! Which words of a line are paths, by the command whose words they are.
ghost use Rattle.std.specs.Prelude.{◌≡◌, IfOk};
ghost use Rattle.ados_check.specs.DevicePaths.{binds_later, first_path, is_word, meaning_at, past_run, path_words, paths_of_assign, paths_of_files};

use crate::arguments::Word;
use crate::command_words::name_in;
use crate::commands::Meaning;
use ados_items::between;
use ados_machine::Builtin;
use ados_resident::{Dialect, EnvCommand, FilesCommand, FlowCommand};
use ados_text::{NoMemory, Text, same_name};
use std::alloc::Global;

/// What the word of a command stands for.
pub fn meaning_at(
    alloc: Global,
    dialect: Dialect,
    line: &[u8],
    word: Word,
) -> Result<Meaning, NoMemory>
    ensures { IfOk result (λ meaning. meaning ≡ meaning_at dialect line.now word) }
{
    let name = Text::from_bytes(alloc, name_in(between(line, word.from, word.to)))?;
    Ok(Meaning::of(dialect, &name))
}

/// The words of a line from that of its command on, which may stand after Run.
pub fn past_run<'w>(line: &[u8], words: &'w [Word]) -> &'w [Word]
    ensures { result.now ≡ past_run line.now words.now }
{
    match words {
        [first, rest @ ..] if is_word(line, *first, b"Run") => rest,
        _ => words,
    }
}

/// Those of the words after a command that are paths. Of a command that also takes other texts, which may look like paths, only the first
/// is known to be one.
pub fn path_words<'w>(meaning: Meaning, line: &[u8], words: &'w [Word]) -> &'w [Word]
    ensures { result.now ≡ path_words line.now words.now meaning }
{
    match meaning {
        Meaning::Builtin(Builtin::Files(command)) => paths_of_files(command, words),
        Meaning::Builtin(Builtin::Env(EnvCommand::Assign)) => paths_of_assign(line, words),
        Meaning::Builtin(Builtin::Env(EnvCommand::Cd | EnvCommand::Path)) => words,
        Meaning::Builtin(Builtin::Flow(FlowCommand::Execute)) => first_path(words),
        _ => &[],
    }
}

// The same of a command on files.
fn paths_of_files(command: FilesCommand, words: &[Word]) -> &[Word]
    ensures { result.now ≡ paths_of_files words.now command }
{
    match command {
        FilesCommand::Filenote | FilesCommand::List | FilesCommand::Search => first_path(words),
        _ => words,
    }
}

// The same of Assign: none if its target is looked up later.
fn paths_of_assign<'w>(line: &[u8], words: &'w [Word]) -> &'w [Word]
    ensures { result.now ≡ paths_of_assign line.now words.now }
{
    if binds_later(line, words) { &[] } else { words }
}

// Assign has an option by which its target is looked up later.
fn binds_later(line: &[u8], words: &[Word]) -> bool
    ensures { result ≡ binds_later line.now words.now }
{
    words.iter().any(|word| is_word(line, *word, b"DEFER") || is_word(line, *word, b"PATH"))
}

// The first of some words, unless it may be an option with its value.
fn first_path(words: &[Word]) -> &[Word]
    ensures { result.now ≡ first_path words.now }
{
    match words {
        [first, ..] if first.name_to == first.from || first.name_to == first.to => &words[..1],
        _ => &[],
    }
}

// A word of a line is this one, ignoring case.
fn is_word(line: &[u8], word: Word, name: &[u8]) -> bool
    ensures { result ≡ is_word line.now name.now word }
{
    same_name(between(line, word.from, word.to), name)
}
