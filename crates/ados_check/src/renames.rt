//! Which words are other commands in a script than the Shell's own.
ghost use Rattle.std.specs.{Prelude.{◌≡◌, ◌||◌, is_some, map, IfOk}, List.{list_any}};
ghost use Rattle.ados_text.specs.Text.{to_ascii};
ghost use Rattle.ados_vars.specs.Vars.{value_in};
ghost use Rattle.ados_check.specs.{Aliases.{has_made}, Renames.{calls, is_resident, may_call, renames_printers}};

use crate::arguments::argument_words;
use crate::command_words::{alias_text, name_in};
use crate::commands::Meaning;
use crate::made_aliases::MadeAliases;
use crate::signs::is_dotted;
use ados_items::{between, first_word, trimmed};
use ados_line::without_comment;
use ados_machine::Builtin;
use ados_resident::{Dialect, FlowCommand};
use ados_text::{NoMemory, Text, same_name};
use ados_vars::Aliases;
use std::alloc::Global;

/// Echo or Ask may be another command in a script: an alias of its shell or its own, or a file in the place of one that it takes off the
/// resident list.
#[tactic(auto, using(crate::proofs::AliasLemmas::renamed))]
pub fn renames_printers(alloc: Global, aliases: &Aliases, lines: &[Text]) -> Result<bool, NoMemory>
    ensures { IfOk result (λ renames. renames ≡ renames_printers aliases.now lines.now) }
{
    let made = MadeAliases::of(alloc, &[], lines)?;
    if is_renamed(alloc, aliases, &made, b"Echo")? {
        return Ok(true);
    }
    if is_renamed(alloc, aliases, &made, b"Ask")? {
        return Ok(true);
    }
    Ok(has_resident(lines))
}

// The command of one of these lines is Resident.
fn has_resident(lines: &[Text]) -> bool
    ensures { result ≡ list_any is_resident lines.now }
{
    lines.iter().any(|line| is_resident(line))
}

// The command of a line is Resident.
fn is_resident(line: &Text) -> bool
    ensures { result ≡ is_resident line.now }
{
    same_name(first_word(trimmed(line.as_bytes())), b"Resident")
}

/// A line of a script may have another script run: what that one makes an alias of, or takes off the resident list, is not known.
pub fn may_call(alloc: Global, dialect: Dialect, lines: &[Text]) -> Result<bool, NoMemory>
    ensures { IfOk result (λ may. may ≡ may_call dialect lines.now) }
{
    for line in lines {
        if calls(alloc, dialect, without_comment(line.as_bytes()))? {
            return Ok(true);
        }
    }
    Ok(false)
}

// The command of a line may have another script run; one between back-ticks may too. A directive has none.
fn calls(alloc: Global, dialect: Dialect, line: &[u8]) -> Result<bool, NoMemory>
    ensures { IfOk result (λ may. may ≡ calls dialect line.now) }
{
    if line.contains(&b'`') {
        return Ok(true);
    }
    let words = argument_words(alloc, line)?;
    let Some(word) = words.first() else {
        return Ok(false);
    };
    if is_dotted(line) {
        return Ok(false);
    }
    let name = Text::from_bytes(alloc, name_in(between(line, word.from, word.to)))?;
    Ok(match Meaning::of(dialect, &name) {
        Meaning::Builtin(Builtin::Flow(FlowCommand::Execute)) | Meaning::Run | Meaning::Other =>
            true,
        Meaning::Builtin(_) => false,
    })
}

// A word is an alias of the shell, or the script makes it one.
fn is_renamed(
    alloc: Global,
    aliases: &Aliases,
    made: &MadeAliases,
    word: &[u8],
) -> Result<bool, NoMemory>
    ensures { IfOk result (λ is. is ≡ (is_some (value_in aliases.now (map to_ascii word.now)) || has_made made.now (map to_ascii word.now))) }
{
    Ok(alias_text(alloc, aliases, word)?.is_some() || made.has(alloc, word)?)
}
