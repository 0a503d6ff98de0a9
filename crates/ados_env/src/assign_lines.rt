// The lines in which an assign is printed.
ghost use Rattle.std.specs.{Prelude.{◌≡◌, ◌++◌, OnOk}, List.{flat_map}};
ghost use Rattle.ados_env.specs.AssignLines.{further_line, directory_lines, assign_lines};

use ados_assign::{Assign, Binding};
use ados_ram::{Place, Ram};
use ados_text::{NoMemory, Text};

/// Adds the lines of assigns to an output.
pub fn push_assigns(output: &mut Vec<u8>, ram: &Ram, assigns: &[Assign]) -> Result<(), NoMemory>
    ensures { OnOk result (output.new.items ≡ output.old.items ++ flat_map (assign_lines ram.now) assigns.now) }
{
    for assign in assigns {
        push_assign(output, ram, assign)?;
    }
    Ok(())
}

/// Adds the lines of an assign to an output: its name and its directories by their full paths, or its text.
pub fn push_assign(output: &mut Vec<u8>, ram: &Ram, assign: &Assign) -> Result<(), NoMemory>
    ensures { OnOk result (output.new.items ≡ output.old.items ++ assign_lines ram.now assign.now) }
{
    let name = assign.name.text();
    match &assign.binding {
        Binding::Dirs(places) => push_directories(output, ram, name, places.as_slice()),
        Binding::Path(text) => push_text(output, name, b": [", text, b"]\n"),
        Binding::Defer(text) => push_text(output, name, b": <", text, b">\n"),
    }
}

fn push_directories(
    output: &mut Vec<u8>,
    ram: &Ram,
    name: &Text,
    places: &[Place],
) -> Result<(), NoMemory>
    ensures { OnOk result (output.new.items ≡ output.old.items ++ directory_lines ram.now name.now places.now) }
{
    let Some((first, further)) = places.split_first() else {
        return Ok(());
    };
    output.extend_from_slice(name.as_bytes())?;
    output.extend_from_slice(b": ")?;
    output.extend_from_slice(ram.full_path(first)?.as_bytes())?;
    output.extend_from_slice(b"\n")?;
    push_further(output, ram, further)
}

fn push_further(output: &mut Vec<u8>, ram: &Ram, places: &[Place]) -> Result<(), NoMemory>
    ensures { OnOk result (output.new.items ≡ output.old.items ++ flat_map (further_line ram.now) places.now) }
{
    for place in places {
        push_further_line(output, ram, place)?;
    }
    Ok(())
}

fn push_further_line(output: &mut Vec<u8>, ram: &Ram, place: &Place) -> Result<(), NoMemory>
    ensures { OnOk result (output.new.items ≡ output.old.items ++ further_line ram.now place.now) }
{
    output.extend_from_slice(b"+ ")?;
    output.extend_from_slice(ram.full_path(place)?.as_bytes())?;
    output.extend_from_slice(b"\n")?;
    Ok(())
}

// A name and a text, with what is printed before and after the text.
fn push_text(
    output: &mut Vec<u8>,
    name: &Text,
    before: &[u8],
    text: &Text,
    after: &[u8],
) -> Result<(), NoMemory>
    ensures { OnOk result (output.new.items ≡ output.old.items ++ name.now ++ before.now ++ text.now ++ after.now) }
{
    output.extend_from_slice(name.as_bytes())?;
    output.extend_from_slice(before)?;
    output.extend_from_slice(text.as_bytes())?;
    output.extend_from_slice(after)?;
    Ok(())
}
