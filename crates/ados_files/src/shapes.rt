// What List shows of objects, and of what is below them.
ghost use Rattle.std.specs.{Prelude.{◌≡◌, ◌++◌, ◌∷◌, [], IfOk, OnOk}, Option.{option_copied}};

use crate::formats::Format;
use crate::parts::stands_in;
use ados_objects::{Line, keeps, push_line, push_lines};
use ados_pattern::Pattern;
use ados_ram::{Entry, Place, Ram};
use ados_text::{NoMemory, Text};

/// What List shows: the names that match a pattern, those in which a text stands, the name alone, files, directories, a
/// line by LFORMAT; and how far below what its arguments stand for it looks.
#[derive(Drop)]
pub struct Shape {
    pub pattern: Option<Pattern>,
    pub part: Option<Text>,
    pub quick: bool,
    pub files: bool,
    pub dirs: bool,
    pub format: Option<Format>,
    pub depth: usize,
}

ghost use Rattle.ados_files.specs.Shapes.{passes, has_part, is_selected, plain_line, kept_line, line_by_shape, group_lines};

/// The lines of objects, given the path before their names.
#[derive(Drop)]
pub struct Shown<'a> {
    pub shape: &'a Shape,
    pub path: &'a Text,
}

impl<'a> Line for Shown<'a> {
    ghost line = { λ s. line_by_shape s.shape.now s.path.now };

    fn push(&self, output: &mut Vec<u8>, there: Option<&Entry>) -> Result<(), NoMemory> {
        push_there(output, self.shape, self.path, there)
    }
}

/// Appends the lines of objects, and behind them those of what is in the directories among them, down to a depth.
pub fn push_group(
    output: &mut Vec<u8>,
    shown: &Shown,
    depth: usize,
    ram: &Ram,
    places: &[Place],
) -> Result<(), NoMemory>
    ensures { OnOk result (output.new.items ≡ output.old.items ++ group_lines shown.now.shape.now ram.now depth shown.now.path.now places.now) }
{
    push_lines(output, shown, ram, places)?;
    if depth == 0 {
        return Ok(());
    }
    let shape = shown.shape;
    for place in places {
        match ram.look(place) {
            Some(entry) if entry.is_directory() => {
                let path = path_below(shown.path, entry)?;
                let inside = Shown { shape, path: &path };
                push_group(output, &inside, depth - 1, ram, &ram.children(place)?)?;
            }
            _ => {}
        }
    }
    Ok(())
}

// The path before the names of the objects in a directory.
fn path_below(path: &Text, entry: &Entry) -> Result<Text, NoMemory>
    ensures { IfOk result (λ below. below ≡ path.now ++ (entry.now.name ++ 47 ∷ [])) }
{
    let mut below = path.join(entry.name.text())?;
    below.push(b'/')?;
    Ok(below)
}

fn push_there(
    output: &mut Vec<u8>,
    shape: &Shape,
    path: &Text,
    there: Option<&Entry>,
) -> Result<(), NoMemory>
    ensures { OnOk result (output.new.items ≡ output.old.items ++ line_by_shape shape.now path.now (option_copied there.entry)) }
{
    match there {
        None => Ok(()),
        Some(entry) => push_kept(output, shape, path, entry),
    }
}

fn push_kept(
    output: &mut Vec<u8>,
    shape: &Shape,
    path: &Text,
    entry: &Entry,
) -> Result<(), NoMemory>
    ensures { OnOk result (output.new.items ≡ output.old.items ++ kept_line shape.now path.now entry.now) }
{
    if !is_selected(shape, entry)
        || !has_part(shape.part.as_ref(), entry)
        || !passes(&shape.pattern, entry)?
    {
        return Ok(());
    }
    match &shape.format {
        None => push_plain(output, shape.quick, entry),
        Some(format) => format.push_line(output, path, entry),
    }
}

fn is_selected(shape: &Shape, entry: &Entry) -> bool
    ensures { result ≡ is_selected shape.now entry.now }
{
    if entry.is_directory() {
        keeps(shape.dirs, shape.files)
    } else {
        keeps(shape.files, shape.dirs)
    }
}

fn has_part(part: Option<&Text>, entry: &Entry) -> bool
    ensures { result ≡ has_part (option_copied part.entry) entry.now }
{
    match part {
        None => true,
        Some(part) => stands_in(part.as_bytes(), entry.name.text().as_bytes()),
    }
}

fn passes(pattern: &Option<Pattern>, entry: &Entry) -> Result<bool, NoMemory>
    ensures { IfOk result (λ b. b ≡ passes pattern.now entry.now) }
{
    match pattern {
        None => Ok(true),
        Some(pattern) => pattern.matches(entry.name.text()),
    }
}

fn push_plain(output: &mut Vec<u8>, quick: bool, entry: &Entry) -> Result<(), NoMemory>
    ensures { OnOk result (output.new.items ≡ output.old.items ++ plain_line quick entry.now) }
{
    if quick {
        output.extend_from_slice(entry.name.text().as_bytes())?;
        output.push(b'\n')?;
        return Ok(());
    }
    push_line(output, entry)
}
