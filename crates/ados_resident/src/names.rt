// The commands by their names.
ghost use Rattle.std.specs.Prelude.{◌≡◌};
ghost use Rattle.ados_resident.specs.{Commands.{disk_name, internal_name}, Names.{disk_named, first_with_name, internal_named}};

use crate::dialects::Dialect;
use crate::disk_commands::DiskCommand;
use crate::internal_commands::InternalCommand;
use ados_text::{Text, same_name};

impl InternalCommand {
    /// The internal command with this name; case is ignored.
    #[tactic(auto, unfolding(crate::specs::Names::internal_named))]
    pub fn named(word: &Text) -> Option<InternalCommand>
        ensures { result ≡ internal_named word.now }
    {
        first_internal(word, &InternalCommand::ALL)
    }
}

// The first of these that has this name.
fn first_internal(word: &Text, commands: &[InternalCommand]) -> Option<InternalCommand>
    ensures { result ≡ first_with_name internal_name word.now commands.now }
{
    for command in commands {
        if word.is(command.name()) {
            return Some(*command);
        }
    }
    None
}

impl DiskCommand {
    /// The disk command of a dialect with this name; case is ignored.
    #[tactic(auto, unfolding(crate::specs::Names::disk_named))]
    pub fn named(dialect: Dialect, name: &[u8]) -> Option<DiskCommand>
        ensures { result ≡ disk_named dialect name.now }
    {
        first_disk(name, DiskCommand::of_dialect(dialect))
    }
}

// The first of these that has this name.
fn first_disk(name: &[u8], commands: &[DiskCommand]) -> Option<DiskCommand>
    ensures { result ≡ first_with_name disk_name name.now commands.now }
{
    for command in commands {
        if same_name(name, command.name().as_bytes()) {
            return Some(*command);
        }
    }
    None
}
