// The devices that the arguments of a command use.
ghost use Rattle.std.specs.{Prelude.{◌≡◌, ◌++◌, OnOk}, List.{flat_map}};
ghost use Rattle.ados_assign.specs.Uses.{reached_devices};
ghost use Rattle.ados_files.specs.Devices.{devices_of, to_place};

use crate::options::{COPY_TO, JOIN_TO, LIST_TO, RENAME_TO, SORT_TO, TYPE_TO};
use ados_find::Shared;
use ados_readargs::Args;
use ados_resident::FilesCommand;
use ados_text::{Name, NoMemory};
use std::alloc::Global;

/// Appends the devices that the arguments of a command use to a list, each with the devices to which the texts of
/// assigns lead from it.
#[tactic(auto, using(crate::proofs::DeviceLemmas::both_texts))]
pub fn push_devices(
    alloc: Global,
    command: FilesCommand,
    shared: &Shared,
    args: &Args,
    used: &mut Vec<Name>,
) -> Result<(), NoMemory>
    ensures { OnOk result (used.new.items ≡ used.old.items ++ flat_map (reached_devices shared.now.assigns) (devices_of command args.now)) }
{
    shared.push_devices_of(used, args.made_texts(alloc, 0)?.as_slice())?;
    match to_place(command) {
        None => Ok(()),
        Some(place) => shared.push_devices_of(used, args.made_texts(alloc, place)?.as_slice()),
    }
}

// The place of TO, if the command has it.
fn to_place(command: FilesCommand) -> Option<usize>
    ensures { result ≡ to_place command }
{
    match command {
        FilesCommand::Copy => Some(COPY_TO),
        FilesCommand::Join => Some(JOIN_TO),
        FilesCommand::List => Some(LIST_TO),
        FilesCommand::Rename => Some(RENAME_TO),
        FilesCommand::Sort => Some(SORT_TO),
        FilesCommand::Type => Some(TYPE_TO),
        _ => None,
    }
}
