// The devices that the arguments of a command use.
ghost use Rattle.std.specs.{Prelude.{◌≡◌, ◌++◌, OnOk, IfOk}, List.{flat_map}};
ghost use Rattle.ados_assign.specs.Uses.{reached_devices};
ghost use Rattle.ados_readargs.specs.Args.{option_text};
ghost use Rattle.ados_find.specs.Paths.{place_of};
ghost use Rattle.ados_flow.specs.Devices.{devices_of, is_absent, script_devices};

use ados_find::{Refusal, Shared, ShellView, is_path, place_of};
use ados_ram::Place;
use ados_readargs::Args;
use ados_resident::FlowCommand;
use ados_text::{Name, NoMemory, Text};
use std::alloc::Global;

/// Adds the devices that the arguments of a command use to the end of a list, each with the devices to which the
/// texts of assigns lead on from it.
pub fn push_devices(
    alloc: Global,
    command: FlowCommand,
    shared: &Shared,
    view: &ShellView,
    args: &Args,
    used: &mut Vec<Name>,
) -> Result<(), NoMemory>
    ensures { OnOk result (used.new.items ≡ used.old.items ++ flat_map (reached_devices shared.now.assigns) (devices_of command shared.now view.now.parts args.now)) }
{
    match command {
        FlowCommand::Execute => push_of_script(alloc, shared, view, args, used),
        FlowCommand::If => {
            let texts = args.made_texts(alloc, 9)?;
            shared.push_devices_of(used, texts.as_slice())
        }
        _ => Ok(()),
    }
}

// Those of Execute: of its word, and S: if it looks there.
#[tactic(auto, using(crate::proofs::DeviceLemmas::two_parts))]
fn push_of_script(
    alloc: Global,
    shared: &Shared,
    view: &ShellView,
    args: &Args,
    used: &mut Vec<Name>,
) -> Result<(), NoMemory>
    ensures { OnOk result (used.new.items ≡ used.old.items ++ flat_map (reached_devices shared.now.assigns) (script_devices shared.now view.now.parts (option_text args.now 0))) }
{
    let Some(word) = args.made_text(alloc, 0)? else {
        return Ok(());
    };
    shared.push_device_of(used, &word)?;
    if !is_path(&word) && is_absent(alloc, shared, view.directory, &word)? {
        shared.push_device(alloc, used, b"S")
    } else {
        Ok(())
    }
}

// Nothing is at the place to which a path leads.
fn is_absent(
    alloc: Global,
    shared: &Shared,
    directory: &Place,
    word: &Text,
) -> Result<bool, NoMemory>
    ensures { IfOk result (λ absent. absent ≡ is_absent shared.now.files (place_of shared.now directory.now word.now)) }
{
    match place_of(alloc, shared, directory, word) {
        Err(Refusal::NoMemory) => Err(NoMemory),
        Err(Refusal::Stopped(_)) => Ok(false),
        Ok(place) => Ok(shared.ram.look(&place).is_none()),
    }
}
