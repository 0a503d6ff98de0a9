// Global variables: each is a file of ENV:.
ghost use Rattle.std.specs.{Prelude.{◌≡◌, IfOk}, Option.{option_copied}};
ghost use Rattle.ados_ram.specs.Entry.{bytes_or_none};
ghost use Rattle.ados_text.specs.Lines.{first_line};
ghost use Rattle.ados_vars.specs.Global.{value_of, global_of};

use ados_assign::Assigns;
use ados_names::Path;
use ados_ram::{Entry, FileBytes, Place, Ram};
use ados_text::{NoMemory, Stop, Text, first_line};
use std::alloc::Global;

/// The value of a global variable: the first line of the file of its name in `ENV:`, if bit r of that is set. The file
/// of an output that is open counts too.
///
/// `None` if there is no such file, or if its name leads nowhere.
#[tactic(auto, unfolding(crate::specs::Global::global_of))]
pub fn global(
    alloc: Global,
    ram: &Ram,
    assigns: &Assigns,
    name: &Text,
) -> Result<Option<Text>, NoMemory>
    ensures { IfOk result (λ value. value ≡ global_of assigns.now ram.now name.now) }
{
    let mut text = Text::new(alloc);
    text.push_bytes(b"ENV:")?;
    text.push_bytes(name.as_bytes())?;
    match Path::parse(alloc, &text) {
        Err(Stop::NoMemory) => Err(NoMemory),
        Err(Stop::Refused(_)) => Ok(None),
        Ok(path) => match assigns.resolve(&path, &Place::root(alloc), ram) {
            Err(Stop::NoMemory) => Err(NoMemory),
            Err(Stop::Refused(_)) => Ok(None),
            Ok(place) => value(alloc, ram.look(&place)),
        },
    }
}

// The value in the entry at a place.
fn value(alloc: Global, entry: Option<&Entry>) -> Result<Option<Text>, NoMemory>
    ensures { IfOk result (λ value. value ≡ value_of (option_copied entry.entry)) }
{
    match entry {
        Some(entry) if !entry.is_directory() && entry.bits.read => {
            Ok(Some(line_of(alloc, entry.bytes())?))
        }
        _ => Ok(None),
    }
}

// The first line of a file's bytes.
fn line_of(alloc: Global, bytes: Option<&FileBytes>) -> Result<Text, NoMemory>
    ensures { IfOk result (λ line. line ≡ first_line (bytes_or_none (option_copied bytes.entry))) }
{
    match bytes {
        None => Ok(Text::new(alloc)),
        Some(bytes) => first_line(alloc, &bytes.to_vec(alloc)?),
    }
}
