// The two parts of the resident list: internal commands, and the entries that programs were loaded into.
ghost use Rattle.std.specs.{Prelude.{◌≡◌, ◌++◌, IfOk, OnOk, map}, Option.{option_copied}};
ghost use Rattle.ados_resident.specs.{Commands.{internal_name}, Names.{first_with_name}, Residents.{count_of, enabled_internal, switched_internal, put_entry}};

use crate::internal_commands::InternalCommand;
use crate::residents::{Internal, Resident};
use ados_text::{NoMemory, Text, same_name};
use std::alloc::Global;

/// How many of these uses name the entry with a name: as many shells run from it.
pub fn count(uses: &[Text], name: &Text) -> usize
    ensures { result ≡ count_of uses.now name.now }
{
    uses.iter()
        .filter(|entry| same_name(entry.as_bytes(), name.as_bytes()))
        .count()
}

// The commands, each enabled.
pub fn enabled(alloc: Global, commands: &[InternalCommand]) -> Result<Vec<Internal>, NoMemory>
    ensures { IfOk result (λ internals. internals.items ≡ map enabled_internal commands.now) }
{
    let mut internals = Vec::with_capacity(alloc, commands.len())?;
    for command in commands {
        internals.push(Internal {
            command: *command,
            is_disabled: false,
        })?;
    }
    Ok(internals)
}

// The internal commands; the one with a name is disabled, or enabled again.
pub fn switched(
    alloc: Global,
    internals: &[Internal],
    is_disabled: bool,
    name: &Text,
) -> Result<Vec<Internal>, NoMemory>
    ensures { IfOk result (λ new. new.items ≡ map (switched_internal is_disabled name.now) internals.now) }
{
    let mut new = Vec::with_capacity(alloc, internals.len())?;
    for internal in internals {
        new.push(internal.switched(is_disabled, name))?;
    }
    Ok(new)
}

impl Internal {
    // The same, disabled or enabled again if this is its name.
    fn switched(self, is_disabled: bool, name: &Text) -> Internal
        ensures { result ≡ switched_internal is_disabled name.now self }
    {
        if name.is(self.command.name()) {
            Internal {
                command: self.command,
                is_disabled,
            }
        } else {
            self
        }
    }
}

// The internal command with a name.
pub fn resident_internal(internals: &[Internal], name: &Text) -> Option<Internal>
    ensures { result ≡ first_with_name (λ internal. internal_name internal.command) name.now internals.now }
{
    for internal in internals {
        if name.is(internal.command.name()) {
            return Some(*internal);
        }
    }
    None
}

// The entry with a name.
pub fn entry_in<'a>(entries: &'a [Resident], name: &Text) -> Option<&'a Resident>
    ensures { option_copied result ≡ first_with_name (λ entry. entry.name) name.now entries.now }
{
    for entry in entries {
        if same_name(name.as_bytes(), entry.name.as_bytes()) {
            return Some(entry);
        }
    }
    None
}

// Appends the entries, with one that replaces the one with its name, or else comes after them all.
pub fn put_into(
    out: &mut Vec<Resident>,
    entries: &[Resident],
    entry: Resident,
) -> Result<(), NoMemory>
    ensures { OnOk result (out.new.items ≡ out.old.items ++ put_entry entry entries.now) }
{
    let Some((old, further)) = entries.split_first() else {
        out.push(entry)?;
        return Ok(());
    };
    if same_name(entry.name.as_bytes(), old.name.as_bytes()) {
        out.push(entry)?;
        return copy_into(out, further);
    }
    out.push(old.clone()?)?;
    put_into(out, further, entry)
}

// Appends the entries.
pub fn copy_into(out: &mut Vec<Resident>, entries: &[Resident]) -> Result<(), NoMemory>
    ensures { OnOk result (out.new.items ≡ out.old.items ++ entries.now) }
{
    out.extend_from_slice(entries)?;
    Ok(())
}
