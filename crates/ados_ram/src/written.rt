// Places as paths.
ghost use Rattle.std.specs.Prelude.{◌≡◌, ◌++◌, IfOk, OnOk};
ghost use Rattle.ados_ram.specs.Written.{slash_before, slash_joined, given_path};

use crate::places::Place;
use ados_text::{Name, NoMemory, Text};
use std::alloc::Global;

impl Place {
    /// The place as a path, as `RAM:a/b`, with its names as they are spelled.
    pub fn path(&self, alloc: Global) -> Result<Text, NoMemory>
        ensures { IfOk result (λ path. path ≡ given_path self.now) }
    {
        let mut path = Text::from_bytes(alloc, b"RAM:")?;
        push_names(&mut path, self.names())?;
        Ok(path)
    }
}

// Appends names to a text, with a slash between each two.
fn push_names(text: &mut Text, names: &[Name]) -> Result<(), NoMemory>
    ensures { OnOk result (text.new ≡ text.old ++ slash_joined names.now) }
{
    let Some((name, rest)) = names.split_first() else {
        return Ok(());
    };
    text.push_bytes(name.text().as_bytes())?;
    push_slash(text, rest)?;
    push_names(text, rest)
}

// Appends a slash before names, unless there are none.
fn push_slash(text: &mut Text, names: &[Name]) -> Result<(), NoMemory>
    ensures { OnOk result (text.new ≡ text.old ++ slash_before names.now) }
{
    if names.is_empty() {
        return Ok(());
    }
    text.push(b'/')
}
