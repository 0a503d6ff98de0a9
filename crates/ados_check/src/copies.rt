//! Copies that put what is in several directories into one.
ghost use Rattle.std.specs.{Prelude.{◌≡◌, is_some, IfOk, IfSome}, List.{list_any}};
ghost use Rattle.ados_check.specs.{Copies.{copies_flat, is_flat_copy, is_wild}, declared.findings.Problem.TheVariants.{FlatCopy}};

use crate::findings::Problem;
use ados_find::Refusal;
use ados_machine::{Builtin, parsed_template};
use ados_objects::{pattern_of, piece_of};
use ados_readargs::Args;
use ados_resident::{Dialect, FilesCommand};
use ados_text::{NoMemory, Text};
use std::alloc::Global;

// Where FROM and ALL stand in the template of Copy.
const FROM: usize = 0;

const ALL: usize = 2;

/// The note on a command whose arguments are this text and fill its template: it is a Copy that copies flat.
pub fn flat_copy(
    alloc: Global,
    dialect: Dialect,
    command: Builtin,
    text: &Text,
) -> Result<Option<Problem>, NoMemory>
    ensures told { IfOk result (λ found. is_some found ≡ is_flat_copy dialect command text.now) }
    ensures kind { IfOk result (λ found. IfSome found (λ what. what ≡ FlatCopy)) }
{
    let Builtin::Files(FilesCommand::Copy) = command else {
        return Ok(None);
    };
    let template = parsed_template(alloc, dialect, command)?;
    let Ok(args) = template.fill(alloc, text.as_bytes()) else {
        return Err(NoMemory);
    };
    Ok(copies_flat(alloc, &args)?.then_some(Problem::FlatCopy))
}

// A Copy with these arguments copies flat: it has ALL, and a pattern in FROM, whose directories give what is in them without their
// own names.
fn copies_flat(alloc: Global, args: &Args) -> Result<bool, NoMemory>
    ensures { IfOk result (λ flat. flat ≡ copies_flat args.now) }
{
    if !args.has_switch(ALL) {
        return Ok(false);
    }
    let texts = args.made_texts(alloc, FROM)?;
    has_wild(alloc, texts.as_slice())
}

// One of these arguments names what it names by a pattern.
fn has_wild(alloc: Global, texts: &[Text]) -> Result<bool, NoMemory>
    ensures { IfOk result (λ has. has ≡ list_any is_wild texts.now) }
{
    for text in texts {
        if is_wild(alloc, text)? {
            return Ok(true);
        }
    }
    Ok(false)
}

// The last piece of an argument is a pattern, and not a name.
fn is_wild(alloc: Global, text: &Text) -> Result<bool, NoMemory>
    ensures { IfOk result (λ is. is ≡ is_wild text.now) }
{
    match pattern_of(alloc, &piece_of(text)?) {
        Ok(pattern) => Ok(!pattern.is_literal()),
        Err(Refusal::NoMemory) => Err(NoMemory),
        Err(Refusal::Stopped(_)) => Ok(false),
    }
}
