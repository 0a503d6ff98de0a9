// The resident list as Resident prints it: a line for each internal command, and one for each entry.
ghost use Rattle.std.specs.{Prelude.{◌≡◌, ◌++◌, IfOk, OnOk}, List.{flat_map}};
ghost use Rattle.ados_env.specs.Resident.{entry_line, internal_line, resident_line, list_lines};

use ados_resident::{Internal, Resident, Residents, count};
use ados_text::{NoMemory, Text, push_left, push_right};
use std::alloc::Global;

// The minimum widths of a name and of its state, which is printed after it.
const NAME_WIDTH: usize = 20;

const STATE_WIDTH: usize = 4;

// The lines of the list; those of entries of the system only if they are asked for.
pub fn list_lines(
    alloc: Global,
    residents: &Residents,
    system: bool,
    uses: &[Text],
) -> Result<Vec<u8>, NoMemory>
    ensures { IfOk result (λ lines. lines.items ≡ list_lines system uses.now residents.now) }
{
    let mut lines = Vec::new(alloc);
    push_internals(&mut lines, residents.internals())?;
    push_entries(&mut lines, residents.entries(), system, uses)?;
    Ok(lines)
}

fn push_internals(output: &mut Vec<u8>, internals: &[Internal]) -> Result<(), NoMemory>
    ensures { OnOk result (output.new.items ≡ output.old.items ++ flat_map internal_line internals.now) }
{
    for internal in internals {
        push_internal(output, *internal)?;
    }
    Ok(())
}

// An internal command is marked as one by a number, or as disabled.
fn push_internal(output: &mut Vec<u8>, internal: Internal) -> Result<(), NoMemory>
    ensures { OnOk result (output.new.items ≡ output.old.items ++ internal_line internal) }
{
    let state = if internal.is_disabled {
        "DISABLED"
    } else {
        "-2"
    };
    push_line(output, internal.command.name().as_bytes(), state.as_bytes())
}

fn push_entries(
    output: &mut Vec<u8>,
    entries: &[Resident],
    system: bool,
    uses: &[Text],
) -> Result<(), NoMemory>
    ensures { OnOk result (output.new.items ≡ output.old.items ++ flat_map (entry_line system uses.now) entries.now) }
{
    for entry in entries {
        push_entry(output, entry, system, uses)?;
    }
    Ok(())
}

// An entry is printed with the number of shells that run from it, and one of the system with a number of its own.
fn push_entry(
    output: &mut Vec<u8>,
    entry: &Resident,
    system: bool,
    uses: &[Text],
) -> Result<(), NoMemory>
    ensures { OnOk result (output.new.items ≡ output.old.items ++ entry_line system uses.now entry.now) }
{
    let name = entry.name.as_bytes();
    if !entry.is_system {
        let state = Text::of_number(*output.allocator(), count(uses, &entry.name))?;
        return push_line(output, name, state.as_bytes());
    }
    if !system {
        return Ok(());
    }
    push_line(output, name, b"-1")
}

// Adds a line of the list to the output.
fn push_line(output: &mut Vec<u8>, name: &[u8], state: &[u8]) -> Result<(), NoMemory>
    ensures { OnOk result (output.new.items ≡ output.old.items ++ resident_line name.now state.now) }
{
    push_left(output, NAME_WIDTH, name)?;
    output.push(b' ')?;
    push_right(output, STATE_WIDTH, state)?;
    output.push(b'\n')?;
    Ok(())
}
