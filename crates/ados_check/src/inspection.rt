//! The look at a script that is not to run: all that is wrong with it, as far as that does not depend on variables, on arguments
//! or on what commands print.
ghost use Rattle.std.specs.{Prelude.{◌≡◌, ℕ, IfOk, OnOk}, List.{All}};
ghost use Rattle.ados_check.specs.{Directives.{IfBad, IfLines, IsNeverCalled, IsSample}, Errors.{AreSo, IsSo, StaySo}, LeftOut.{StayTold, TellsEach}, Signs.{SaysTheSame, signs_at, signs_told}};
ghost use Rattle.ados_text.specs.Lines.{lines_of};

use crate::directives::{Sample, is_directive, sample_of};
use crate::findings::{Finding, Problem};
use crate::lines::{check, push_note, push_other, sort};
use crate::look::Look;
use crate::signs::is_dotted;
use ados_resident::Dialect;
use ados_text::{NoMemory, Text, lines_of};
use ados_vars::Aliases;
use std::alloc::Global;

/// What is wrong with a script of these bytes in a world of a dialect, in the order of its lines; `typed` are the lines that are typed
/// before it.
///
/// Each word that is no command of the Shell is an `UnknownCommand`, and each name of a file for Execute a `NoScript`: who calls
/// this drops those that exist.
pub fn inspect(
    alloc: Global,
    dialect: Dialect,
    typed: &[Text],
    bytes: &[u8],
) -> Result<Vec<Finding>, NoMemory>
    // In each line of the file the first byte above 127 where it matters is found, and no other is said to be there.
    ensures signs { IfOk result (λ found. (number : ℕ) → signs_told number found.items ≡ signs_at bytes.now number) }
    // Of each line that gives an option left out to a command it is told.
    ensures left_out { IfOk result (λ found. TellsEach dialect (lines_of bytes.now) found.items) }
    // What each error says of its line is so.
    ensures so { IfOk result (λ found. All (IsSo dialect bytes.now) found.items) }
{
    let written = lines_of(alloc, bytes)?;
    let lines = written.as_slice();
    let mut found = check(alloc, dialect, &Aliases::new(alloc), lines, bytes)?;
    push_idle_directives(lines, is_dotted(bytes), &mut found)?;
    let sample = sample_of(alloc, lines, bytes)?;
    push_problems(dialect, typed, lines, sample, &mut found)?;
    sort(&mut found)?;
    Ok(found)
}

// Adds the bad directive of a script, or what is wrong with its lines, as they are written and with some arguments.
#[tactic(auto, using(crate::proofs::ErrorLemmas::bad_so, crate::proofs::ErrorLemmas::same_so, crate::proofs::LeftOutLemmas::stays_itself, crate::proofs::LeftOutLemmas::told_stays))]
fn push_problems(
    dialect: Dialect,
    typed: &[Text],
    written: &[Text],
    sample: Sample,
    found: &mut Vec<Finding>,
) -> Result<(), NoMemory>
    requires bad { IfBad sample (IsNeverCalled written.now) }
    requires lines { IfLines sample (IsSample written.now) }
    ensures same { OnOk result (SaysTheSame found.old.items found.new.items) }
    ensures told { OnOk result (StayTold found.old.items found.new.items) }
    ensures so { OnOk result (AreSo dialect written.now found.old.items → AreSo dialect written.now found.new.items) }
{
    match sample {
        Sample::Unknown => Ok(()),
        Sample::Bad(line) => {
            push_other(found, line, Problem::BadDirective)?;
            Ok(())
        }
        Sample::Lines(sample) => {
            let look = Look::of(*found.allocator(), dialect, typed, written, sample)?;
            look.push_problems(found)?;
            Ok(())
        }
    }
}

// Adds each directive of a script that has none, since its first line does not begin with a dot.
#[tactic(auto, using(crate::proofs::ErrorLemmas::stay_again, crate::proofs::LeftOutLemmas::stays_itself))]
fn push_idle_directives(
    written: &[Text],
    is_dotted: bool,
    found: &mut Vec<Finding>,
) -> Result<(), NoMemory>
    ensures same { OnOk result (SaysTheSame found.old.items found.new.items) }
    ensures told { OnOk result (StayTold found.old.items found.new.items) }
    ensures so { OnOk result (StaySo found.old.items found.new.items) }
{
    if is_dotted {
        return Ok(());
    }
    for (place, line) in written.iter().enumerate() {
        if is_directive(line.as_bytes()) {
            push_note(found, place.saturating_add(1), Problem::IdleDirective)?;
        }
    }
    Ok(())
}
