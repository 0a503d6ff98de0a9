//! The check of a script's lines, all problems in their order.
ghost use Rattle.std.specs.{Prelude.{◌≡◌, ◌++◌, [], ◌∷◌, ℕ, None, IfOk, IfSome, OnOk, get_or, map}, List.{slice_split}};
ghost use Rattle.ados_text.specs.Lines.{is_newline};
ghost use Rattle.ados_check.specs.{Errors.{AreAlwaysSo, AreSoWith, AreSoWithFound, IsAlwaysSound, StaySo}, LeftOut.{StayTold, TellsLeftOut, TellsNone, ToldTheSame, ToldWith, gives_left_out, is_left_out}, Signs.{SaysTheSame, signs_at, signs_told, told_sign}};

use crate::findings::{Finding, Problem};
use crate::left_out::Reader;
use crate::renames::{may_call, renames_printers};
use crate::signs::{RETURN, are_plain, is_dotted, sign_in, sign_problem};
use ados_resident::Dialect;
use ados_text::{NoMemory, Text};
use ados_vars::Aliases;
use std::alloc::{AllocError, Global};

/// What is wrong with the lines of a script in a world of a dialect, in order.
///
/// `aliases` are those of its shell, `lines` are those that are to be taken, with the script's arguments in them, and `bytes` are
/// those of the file that they come from, in which bytes above 127 are still there; there may be none, if they are not known.
#[tactic(auto, using(crate::proofs::ErrorLemmas::stay_so))]
pub fn check(
    alloc: Global,
    dialect: Dialect,
    aliases: &Aliases,
    lines: &[Text],
    bytes: &[u8],
) -> Result<Vec<Finding>, NoMemory>
    // In each line of the file the first byte above 127 where it matters is found, and no other is said to be there.
    ensures signs { IfOk result (λ found. (number : ℕ) → signs_told number found.items ≡ signs_at bytes.now number) }
    // Of each line that gives an option left out to a command it is told, and of no other.
    ensures left_out { IfOk result (λ found. TellsLeftOut dialect aliases.now lines.now found.items) }
    // No error of another kind is told.
    ensures so { IfOk result (λ found. AreAlwaysSo found.items) }
{
    let reader = Reader::new(alloc, dialect, aliases);
    let mut found = signs_found(reader, lines, bytes)?;
    for place in 0..lines.len() {
        push_options(reader, place + 1, &lines[place], &mut found)?;
    }
    sort(&mut found)?;
    Ok(found)
}

/// Puts findings in the order of their lines; those of a line keep theirs.
pub fn sort(found: &mut Vec<Finding>) -> Result<(), NoMemory>
    ensures same { OnOk result (SaysTheSame found.old.items found.new.items) }
    ensures told { OnOk result (ToldTheSame found.old.items found.new.items) }
    ensures so { OnOk result (StaySo found.old.items found.new.items) }
{
    found.sort_by(|a, b| a.line.cmp(&b.line))?;
    Ok(())
}

// The problems of a file's signs. Nearly all files have none.
#[tactic(auto, using(crate::proofs::SignLemmas::plain_none, crate::proofs::SignLemmas::none_yet, crate::proofs::SignLemmas::none_more, crate::proofs::SignLemmas::one_more, crate::proofs::SignLemmas::told_all))]
fn signs_found(reader: Reader, lines: &[Text], bytes: &[u8]) -> Result<Vec<Finding>, NoMemory>
    ensures signs { IfOk result (λ found. (number : ℕ) → signs_told number found.items ≡ signs_at bytes.now number) }
    ensures told { IfOk result (λ found. TellsNone found.items) }
    ensures so { IfOk result (λ found. AreAlwaysSo found.items) }
{
    let alloc = reader.alloc;
    if are_plain(bytes) {
        return Ok(Vec::new(alloc));
    }
    let is_told_only = !renames_printers(alloc, reader.aliases, lines)?
        && !may_call(alloc, reader.dialect, lines)?;
    let is_dotted = is_dotted(bytes);
    let in_file = lines_in(alloc, bytes)?;
    let others = other_returns(is_dotted, &in_file);
    let mut found = Vec::new(alloc);
    for place in 0..in_file.len() {
        let line = line_at(&in_file, place);
        match sign_in(is_dotted, line) {
            None => {}
            Some(byte) => {
                let problem = sign_problem(place, is_told_only, line, byte, others);
                push_problem(&mut found, place + 1, problem)?;
            }
        }
    }
    Ok(found)
}

// How many lines end in a carriage return that is their sign, besides one of them.
fn other_returns(is_dotted: bool, lines: &[&[u8]]) -> usize {
    let mut count: usize = 0;
    for line in lines {
        if let Some(RETURN) = sign_in(is_dotted, line) {
            count = count.saturating_add(1);
        }
    }
    count.saturating_sub(1)
}

/// The lines of a file's bytes.
pub fn lines_in(alloc: Global, bytes: &[u8]) -> Result<Vec<&[u8]>, AllocError>
    ensures { IfOk result (λ lines. map (λ line. line.now) lines.items ≡ slice_split is_newline bytes.now) }
{
    bytes.split(|byte| *byte == b'\n').collect(alloc)
}

/// The line of a number, from 0; empty past the last.
pub fn line_at<'a>(lines: &[&'a [u8]], place: usize) -> &'a [u8]
    ensures { result.now ≡ get_or (map (λ line. line.now) lines.now) place [] }
{
    match lines.get(place) {
        Some(line) => line,
        None => &[],
    }
}

/// Adds a problem of a line.
pub fn push_problem(found: &mut Vec<Finding>, line: usize, problem: Problem) -> Result<(), NoMemory>
    ensures { OnOk result (found.new.items ≡ found.old.items ++ record { line = line; problem = problem } ∷ []) }
{
    found.push(Finding { line, problem })?;
    Ok(())
}

/// Adds a problem of a line that is not of a byte above 127.
#[tactic(auto, using(crate::proofs::ErrorLemmas::one_so, crate::proofs::SignLemmas::told_other, crate::proofs::LeftOutLemmas::told_one))]
pub fn push_other(found: &mut Vec<Finding>, line: usize, problem: Problem) -> Result<(), NoMemory>
    requires { told_sign problem ≡ None }
    ensures same { OnOk result (SaysTheSame found.old.items found.new.items) }
    ensures told { OnOk result (ToldWith line (is_left_out problem) found.old.items found.new.items) }
    ensures so { OnOk result (AreSoWith line problem found.old.items found.new.items) }
{
    push_problem(found, line, problem)
}

/// Adds what is no error of a line.
#[tactic(auto, using(crate::proofs::ErrorLemmas::note_so))]
pub fn push_note(found: &mut Vec<Finding>, line: usize, note: Problem) -> Result<(), NoMemory>
    requires { IsAlwaysSound line note }
    ensures same { OnOk result (SaysTheSame found.old.items found.new.items) }
    ensures told { OnOk result (ToldWith line (is_left_out note) found.old.items found.new.items) }
    ensures so { OnOk result (StaySo found.old.items found.new.items) }
{
    push_other(found, line, note)?;
    Ok(())
}

/// Adds the problem of a line, if it has one.
#[tactic(auto, using(crate::proofs::ErrorLemmas::found_so, crate::proofs::LeftOutLemmas::told_stays, crate::proofs::LeftOutLemmas::stays_itself))]
pub fn push_sound(
    found: &mut Vec<Finding>,
    number: usize,
    problem: Option<Problem>,
) -> Result<(), NoMemory>
    requires { IfSome problem (λ what. told_sign what ≡ None) }
    ensures same { OnOk result (SaysTheSame found.old.items found.new.items) }
    ensures told { OnOk result (StayTold found.old.items found.new.items) }
    ensures so { OnOk result (AreSoWithFound number problem found.old.items found.new.items) }
{
    match problem {
        Some(problem) => {
            push_other(found, number, problem)?;
            Ok(())
        }
        None => Ok(()),
    }
}

// Adds the options of a line that the Shell leaves out.
#[tactic(auto, using(crate::proofs::ErrorLemmas::stay_again, crate::proofs::LeftOutLemmas::any_shown, crate::proofs::LeftOutLemmas::told_itself))]
fn push_options(
    reader: Reader,
    line: usize,
    text: &Text,
    found: &mut Vec<Finding>,
) -> Result<(), NoMemory>
    ensures same { OnOk result (SaysTheSame found.old.items found.new.items) }
    ensures told { OnOk result (ToldWith line (gives_left_out reader.entry.commands.now reader.entry.dialect reader.entry.aliases.now text.now) found.old.items found.new.items) }
    ensures so { OnOk result (StaySo found.old.items found.new.items) }
{
    for left_out in reader.options_left_out(text.as_bytes())? {
        push_note(found, line, Problem::LeftOut(left_out))?;
    }
    Ok(())
}
