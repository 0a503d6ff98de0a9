//! What the next turn of a shell takes, if that is a line of a script.

use ados_flow::Frame;
use ados_items::trimmed;
use ados_ram::Place;
use ados_shell::Shell;
use ados_text::{Name, NoMemory, Text};
use ados_trace::script_name;
use ados_world::World;
use std::alloc::Global;

/// The script that is the newest frame of a shell which has its turn.
#[derive(Drop)]
pub struct ScriptTurn<'a> {
    /// The shell.
    pub shell: &'a Shell,
    /// The script's frame.
    pub frame: &'a Frame,
    /// The full path of its file.
    pub name: &'a Text,
    /// No line of it was taken yet.
    pub is_first: bool,
}

impl<'a> ScriptTurn<'a> {
    /// That of the shell of this number, if it runs a script.
    pub fn of(world: &'a World, number: u8) -> Option<ScriptTurn<'a>> {
        let shell = world.shell(number)?;
        let frame = shell.frames().last()?;
        let name = script_name(frame)?;
        let (_, line) = frame.script_line()?;
        Some(ScriptTurn {
            shell,
            frame,
            name,
            is_first: line == 0,
        })
    }

    /// The line that is taken, if one is: none while the line before it waits for an answer, or goes on with what stood between back-ticks.
    pub fn line(&self) -> Option<&'a Text> {
        if self.shell.asks_for_line() || self.goes_on() {
            None
        } else {
            self.frame.next_line()
        }
    }

    /// The bytes of the script's file; none if it is gone.
    pub fn bytes(&self, alloc: Global, world: &World) -> Result<Vec<u8>, NoMemory> {
        let place = place_at(alloc, self.name)?;
        match world.files().look(&place).and_then(|entry| entry.bytes()) {
            Some(bytes) => bytes.to_vec(alloc),
            None => Ok(Vec::new(alloc)),
        }
    }

    // The line before goes on with what stood between back-ticks: its command has not returned.
    fn goes_on(&self) -> bool {
        let Some((script, line)) = self.frame.script_line() else {
            return false;
        };
        if line == self.frame.last_line() {
            return false;
        }
        match script.line(line) {
            Some(line) => has_ticks(line.as_bytes()),
            None => false,
        }
    }
}

// A line has a command with back-ticks. A comment has none, and returns nothing.
fn has_ticks(line: &[u8]) -> bool {
    line.contains(&b'`') && !trimmed(line).starts_with(b";")
}

// The place of a full path: the names after the colon, which slashes separate.
fn place_at(alloc: Global, path: &Text) -> Result<Place, NoMemory> {
    let bytes = path.as_bytes();
    let names = bytes.strip_prefix(b"RAM:").unwrap_or(bytes);
    let mut place = Place::root(alloc);
    for name in names.split(|byte| *byte == b'/') {
        place = place.with(Name::new(Text::from_bytes(alloc, name)?))?;
    }
    Ok(place)
}
