// Lines of a listing.
ghost use Rattle.std.specs.{Prelude.{◌≡◌, ℕ, List, Option, ◌++◌, ◌∷◌, [], OnOk}, Option.{option_copied}};
ghost use Rattle.ados_text.specs.Columns.{right_aligned_text};
ghost use Rattle.ados_ram.specs.{Entry.{bits_text}, Written.{full_path}, declared.entries.Entry.{Entry}};
ghost use Rattle.ados_objects.specs.Lines.{say, keeps, entry_lines, size_text, comment_line, list_line};

use ados_ram::{Bits, Body, Entry, Place, Ram};
use ados_text::{NoMemory, Text, push_left, push_right};

/// Appends a text between two others.
pub fn put_between(
    output: &mut Vec<u8>,
    before: &[u8],
    text: &[u8],
    after: &[u8],
) -> Result<(), NoMemory>
    ensures { OnOk result (output.new.items ≡ output.old.items ++ (before.now ++ (text.now ++ after.now))) }
{
    output.extend_from_slice(before)?;
    output.extend_from_slice(text)?;
    output.extend_from_slice(after)?;
    Ok(())
}

/// Reports the path of a place with some words after it, unless QUIET.
pub fn say_path(
    quiet: bool,
    output: &mut Vec<u8>,
    ram: &Ram,
    place: &Place,
    words: &[u8],
) -> Result<(), NoMemory>
    ensures { OnOk result (output.new.items ≡ say quiet output.old.items (full_path ram.now place.now ++ words.now)) }
{
    if quiet {
        return Ok(());
    }
    output.extend_from_slice(ram.full_path(place)?.as_bytes())?;
    output.extend_from_slice(words)?;
    Ok(())
}

/// The line of the entry at a place.
pub trait Line {
    ghost line: { Self → Option Entry → List ℕ };

    /// Appends it to the output.
    fn push(&self, output: &mut Vec<u8>, there: Option<&Entry>) -> Result<(), NoMemory>
        ensures { OnOk result (output.new.items ≡ output.old.items ++ line self.now (option_copied there.entry)) };
}

/// Appends the lines of places.
pub fn push_lines<L: Line>(
    output: &mut Vec<u8>,
    line: &L,
    ram: &Ram,
    places: &[Place],
) -> Result<(), NoMemory>
    ensures { OnOk result (output.new.items ≡ output.old.items ++ entry_lines (L.line line.now) ram.now places.now) }
{
    for place in places {
        line.push(output, ram.look(place))?;
    }
    Ok(())
}

/// Whether a kind is listed: if its own switch is on, or the other one is off.
pub fn keeps(own: bool, other: bool) -> bool
    ensures { result ≡ keeps own other }
{
    own || !other
}

/// Appends the line of an object.
pub fn push_line(output: &mut Vec<u8>, entry: &Entry) -> Result<(), NoMemory>
    ensures { OnOk result (output.new.items ≡ output.old.items ++ list_line entry.now) }
{
    push_left(output, 30, entry.name.text().as_bytes())?;
    output.push(b' ')?;
    push_size(output, &entry.body)?;
    push_bits(output, entry.bits)?;
    push_comment(output, entry.comment.as_bytes())
}

fn push_size(output: &mut Vec<u8>, body: &Body) -> Result<(), NoMemory>
    ensures { OnOk result (output.new.items ≡ output.old.items ++ right_aligned_text 7 (size_text body.now)) }
{
    match body {
        Body::Directory => push_right(output, 7, b"Dir"),
        Body::File(bytes) => {
            let size = Text::of_number(*output.allocator(), bytes.len())?;
            push_right(output, 7, size.as_bytes())
        }
    }
}

// The bits, with a space before them and the end of the line after them.
fn push_bits(output: &mut Vec<u8>, bits: Bits) -> Result<(), NoMemory>
    ensures { OnOk result (output.new.items ≡ output.old.items ++ (32 ∷ (bits_text bits ++ 10 ∷ []))) }
{
    put_between(output, b" ", &bits.letters(), b"\n")
}

fn push_comment(output: &mut Vec<u8>, comment: &[u8]) -> Result<(), NoMemory>
    ensures { OnOk result (output.new.items ≡ output.old.items ++ comment_line comment.now) }
{
    if comment.is_empty() {
        return Ok(());
    }
    put_between(output, b": ", comment, b"\n")
}
