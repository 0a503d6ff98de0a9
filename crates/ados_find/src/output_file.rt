// TO: what a command prints is written to a file at the end.
ghost use Rattle.std.specs.{Prelude.{◌≡◌, [], Option, IfOk}, Option.{option_copied}};
ghost use Rattle.ados_find.specs.{Effects.{effect_of}, OutputFile.{output_at, output_in, output_for, output_to}};
ghost use Rattle.ados_ram.specs.Files.{Files};
ghost use Rattle.ados_text.specs.{Stop.{Answers}, declared.codes.Result2.{Result2}};

use crate::codes::Codes;
use crate::outcomes::{CommandResult, Outcome};
use crate::shared::Shared;
use crate::targets::{Target, target_of};
use crate::views::ShellView;
use crate::work::current;
use ados_ram::{Place, Ram};
use ados_text::{NoMemory, Octets, Stop, Text};
use std::alloc::Global;

/// The outcome of a command with TO, given its outcome without: what it printed is written to the file to which the text
/// of TO leads, which is created or truncated, and nothing is printed. NIL: discards it.
///
/// Of a command that returned a code nothing is written. The refusals of the path (210, 204, 205, 212, 218) and of
/// writing (204, 212, 202, 223, 221) are returned with code 10.
pub fn output_to(
    alloc: Global,
    shared: &Shared,
    view: &ShellView,
    to: Option<&Text>,
    outcome: Outcome,
) -> CommandResult
    ensures { IfOk result (λ after. effect_of shared.now after ≡ output_to view.now (option_copied to.entry) (effect_of shared.now outcome)) }
{
    match to {
        None => Ok(outcome),
        Some(text) => output_for(alloc, shared, view, text, outcome),
    }
}

fn output_for(
    alloc: Global,
    shared: &Shared,
    view: &ShellView,
    text: &Text,
    outcome: Outcome,
) -> CommandResult
    ensures { IfOk result (λ after. effect_of shared.now after ≡ output_for view.now text.now (effect_of shared.now outcome)) }
{
    let codes = outcome.codes;
    if codes.code.0 != 0 {
        return Ok(silent(alloc, outcome, codes));
    }
    let state = current(shared, &outcome.shared);
    match target_of(alloc, state, view.directory, text) {
        Err(Stop::NoMemory) => Err(NoMemory),
        Err(Stop::Refused(fault)) => Ok(silent(alloc, outcome, Codes::erred(fault))),
        Ok(Target::Nil) => Ok(silent(alloc, outcome, codes)),
        Ok(Target::At(place)) => output_at(alloc, shared, view, &place, outcome),
    }
}

// The output is the content of the file at a place, unless the writing is refused.
fn output_at(
    alloc: Global,
    shared: &Shared,
    view: &ShellView,
    place: &Place,
    outcome: Outcome,
) -> CommandResult
    ensures { IfOk result (λ after. effect_of shared.now after ≡ output_at view.now (effect_of shared.now outcome) place.now) }
{
    let old = current(shared, &outcome.shared);
    let limits = old.limits();
    let bytes = outcome.output.as_bytes();
    let change = old.ram.write(limits, &view.busy, place, bytes);
    output_in(alloc, shared, outcome, change)
}

// The output is in the changed files, unless the change is refused.
fn output_in(
    alloc: Global,
    shared: &Shared,
    outcome: Outcome,
    change: Result<Ram, Stop>,
) -> CommandResult
    ensures { (fault : Option Result2) → (files : Files) → Answers change fault → IfOk change (λ new. new ≡ files) →
        IfOk result (λ after. effect_of shared.now after ≡ output_in fault files (effect_of shared.now outcome)) }
{
    match change {
        Err(Stop::NoMemory) => Err(NoMemory),
        Err(Stop::Refused(fault)) => Ok(silent(alloc, outcome, Codes::erred(fault))),
        Ok(ram) => {
            let new = current(shared, &outcome.shared).with_files(ram)?;
            let codes = outcome.codes;
            let mut outcome = silent(alloc, outcome, codes);
            outcome.shared = Some(new);
            Ok(outcome)
        }
    }
}

// The same outcome, but nothing is printed, and these codes are returned.
fn silent(alloc: Global, outcome: Outcome, codes: Codes) -> Outcome
    ensures { result ≡ record outcome { codes = codes; output = [] } }
{
    let mut outcome = outcome;
    outcome.codes = codes;
    outcome.output = Octets::from_vec(Vec::new(alloc));
    outcome
}
