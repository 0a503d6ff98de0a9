// The devices that the arguments of a command use.
ghost use Rattle.std.specs.{Prelude.{◌≡◌, ◌++◌, OnOk}, List.{flat_map}};
ghost use Rattle.ados_assign.specs.Uses.{reached_devices};
ghost use Rattle.ados_readargs.specs.Args.{has_switch, option_text, option_texts};
ghost use Rattle.ados_find.specs.Devices.{device_named};
ghost use Rattle.ados_resident.specs.declared.commands.EnvCommand.TheVariants.{Assign};
ghost use Rattle.ados_env.specs.{declared.options.TheConstants.{WHICH_FILE}, Sought.{sought_of}, Devices.{devices_of, paths_in, program_paths, search_devices}};

use crate::options::{EVAL_TO, WHICH_FILE};
use crate::sought::Sought;
use ados_find::{Shared, ShellView};
use ados_readargs::Args;
use ados_resident::EnvCommand;
use ados_text::{Name, NoMemory};
use std::alloc::Global;

/// Adds the devices that the arguments of a command use to the end of a list, each with the devices to which the
/// texts of assigns lead on from it.
pub fn push_devices(
    alloc: Global,
    command: EnvCommand,
    shared: &Shared,
    view: &ShellView,
    args: &Args,
    used: &mut Vec<Name>,
) -> Result<(), NoMemory>
    ensures { OnOk result (used.new.items ≡ used.old.items ++ flat_map (reached_devices shared.now.assigns) (devices_of command shared.now view.now.parts args.now)) }
{
    match command {
        EnvCommand::SetEnv | EnvCommand::GetEnv | EnvCommand::UnsetEnv => {
            shared.push_device(alloc, used, b"ENV")
        }
        EnvCommand::Which => push_sought(alloc, shared, view, args, used),
        EnvCommand::Assign => push_targets(alloc, shared, args, used),
        EnvCommand::Cd | EnvCommand::Path => {
            shared.push_devices_of(used, args.made_texts(alloc, 0)?.as_slice())
        }
        EnvCommand::Eval => {
            shared.push_devices_of(used, args.made_texts(alloc, EVAL_TO)?.as_slice())
        }
        EnvCommand::Resident => push_program(alloc, shared, args, used),
        _ => Ok(()),
    }
}

// Those of TARGET of Assign, unless it is kept as a text.
fn push_targets(
    alloc: Global,
    shared: &Shared,
    args: &Args,
    used: &mut Vec<Name>,
) -> Result<(), NoMemory>
    ensures { OnOk result (used.new.items ≡ used.old.items ++ flat_map (reached_devices shared.now.assigns) (flat_map device_named (paths_in Assign args.now))) }
{
    if args.has_switch(3) || args.has_switch(4) {
        Ok(())
    } else {
        shared.push_devices_of(used, args.made_texts(alloc, 1)?.as_slice())
    }
}

// Those of Resident: of FILE, or without it of NAME.
fn push_program(
    alloc: Global,
    shared: &Shared,
    args: &Args,
    used: &mut Vec<Name>,
) -> Result<(), NoMemory>
    ensures { OnOk result (used.new.items ≡ used.old.items ++ flat_map (reached_devices shared.now.assigns)
        (flat_map device_named (program_paths (has_switch args.now 2) (option_text args.now 1) (option_texts args.now 0)))) }
{
    match args.made_text(alloc, 1)? {
        Some(file) => shared.push_device_of(used, &file),
        None if args.has_switch(2) => Ok(()),
        None => shared.push_devices_of(used, args.made_texts(alloc, 0)?.as_slice()),
    }
}

// Those that the search of a word reaches.
fn push_sought(
    alloc: Global,
    shared: &Shared,
    view: &ShellView,
    args: &Args,
    used: &mut Vec<Name>,
) -> Result<(), NoMemory>
    ensures { OnOk result (used.new.items ≡ used.old.items ++ flat_map (reached_devices shared.now.assigns) (search_devices shared.now view.now.parts (sought_of args.now) (option_text args.now WHICH_FILE))) }
{
    let Some(word) = args.made_text(alloc, WHICH_FILE)? else {
        return Ok(());
    };
    let sought = Sought::of(args);
    if !sought.files {
        return Ok(());
    }
    let route = sought.route(alloc, shared, view, &word)?;
    shared.push_searched(alloc, used, route, &word)
}
