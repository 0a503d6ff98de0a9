// Execute: the call of a script.
ghost use Rattle.std.specs.{Prelude.{◌≡◌, ◌++◌, IfOk, codes}, Fmt.{decimal}};
ghost use Rattle.ados_text.specs.Lines.{lines_of};
ghost use Rattle.ados_find.specs.{Paths.{place_of, Gives}, Shared.{SharedState}};
ghost use Rattle.ados_subst.specs.Scripts.{script_of};
ghost use Rattle.ados_flow.specs.{Actions.{action_effect}, Execute.{call_of_lines, execute_row, found_script, script_row}};

use crate::actions::Action;
use crate::called::Called;
use ados_find::{Codes, Lookup, Refusal, Shared, ShellView, is_path, place_of};
use ados_ram::Place;
use ados_readargs::Args;
use ados_script::Script;
use ados_text::{NoMemory, Result2, Text};
use std::alloc::Global;

/// Execute calls the script FILE with ARGS. Its path is looked up; if that is a name alone, and no object is there, S:
/// is searched.
///
/// What finding, reading and substituting refuse: 202 for an open output, 204, 205, 210, 212, 218, 224 with 10; 114 to
/// 119 with 20.
pub fn execute(
    alloc: Global,
    shared: &Shared,
    view: &ShellView,
    args: &Args,
) -> Result<Action, NoMemory>
    ensures { IfOk result (λ action. action_effect shared.now action ≡ execute_row shared.now view.now args.now) }
{
    let Some(word) = args.made_text(alloc, 0)? else {
        return Ok(Action::answering(alloc, Codes::failed(Result2::ARGUMENT_MISSING)));
    };
    match found_script(alloc, shared, view.directory, &word) {
        Err(Refusal::NoMemory) => Err(NoMemory),
        Err(Refusal::Stopped(codes)) => Ok(Action::answering(alloc, codes)),
        Ok(place) => call_script(alloc, shared, view, &place, args.text(1).unwrap_or(&[])),
    }
}

/// Where the script of a word is: at the place to which it leads, or in S: if the word is not a path and no object is there.
fn found_script(alloc: Global, shared: &Shared, directory: &Place, word: &Text) -> Lookup<Place>
    ensures { Gives result (found_script shared.now directory.now word.now) }
{
    let place = place_of(alloc, shared, directory, word)?;
    if !is_path(word) && shared.ram.look(&place).is_none() {
        place_in_scripts(alloc, shared, directory, word)
    } else {
        Ok(place)
    }
}

/// The place of a word in S:, where Execute looks too for one that is not a path. `Stopped` if it leads to none.
pub fn place_in_scripts(
    alloc: Global,
    shared: &Shared,
    directory: &Place,
    word: &Text,
) -> Lookup<Place>
    ensures { Gives result (place_of shared.now directory.now (codes "S:" ++ word.now)) }
{
    let mut path = Text::from_bytes(alloc, b"S:")?;
    path.push_bytes(word.as_bytes())?;
    place_of(alloc, shared, directory, &path)
}

/// Calls the script at a place with these arguments: it is read, and the arguments are substituted.
///
/// What reading refuses (202 for an open output, 205, 212, 224) with 10; what substituting refuses (114 to 119) with 20.
#[tactic(auto, unfolding(crate::specs::Execute::script_row))]
pub fn call_script(
    alloc: Global,
    shared: &Shared,
    view: &ShellView,
    place: &Place,
    args: &[u8],
) -> Result<Action, NoMemory>
    ensures { IfOk result (λ action. action_effect shared.now action ≡ script_row shared.now view.now args.now place.now) }
{
    match shared.ram.read(&view.busy, place) {
        Err(fault) => Ok(Action::answering(alloc, Codes::erred(fault))),
        Ok(bytes) => {
            let name = shared.ram.full_path(place)?;
            let row = bytes.to_vec(alloc)?;
            call_lines(alloc, name, &row, args, view.number)
        }
    }
}

/// Calls the script of a file's bytes, with these arguments substituted.
fn call_lines(
    alloc: Global,
    name: Text,
    bytes: &[u8],
    args: &[u8],
    number: u8,
) -> Result<Action, NoMemory>
    ensures { IfOk result (λ action. (shared : SharedState) → action_effect shared action ≡ call_of_lines shared name (script_of (lines_of bytes.now) args.now (decimal number))) }
{
    match ados_subst::script(alloc, bytes, args, number) {
        Err(fault) => Ok(Action::answering(alloc, Codes::failed(fault.result2()?))),
        Ok(lines) => {
            let script = Script::of(alloc, lines.into_vec())?;
            Ok(Action::Calls(Called { name, script }))
        }
    }
}
