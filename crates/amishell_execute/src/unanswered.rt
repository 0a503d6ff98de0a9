//! Where shell 1 asked, if standard input has no answer.

use crate::origins::Origins;
use ados_flow::Frame;
use ados_text::{NoMemory, Text};
use ados_trace::{ScriptNames, script_name, shown};
use ados_world::World;

/// The command that asked and where it stands, as `Ask: build: line 3`. `typed` is the line that was typed last, for a question that
/// no script asks.
pub fn question_asked(
    origins: &Origins<'_>,
    world: &World,
    typed: Option<&Text>,
) -> Result<String, NoMemory> {
    let frames = match world.shell(1) {
        Some(shell) => shell.frames(),
        None => &[],
    };
    for frame in frames.iter().rev() {
        if let Some((name, line, text)) = script_line(frame) {
            let (word, name) = (first_word(text), origins.name(name)?);
            return Ok(format!(in origins.alloc; "{word}: {name}: line {line}")?);
        }
    }
    let word = typed.map_or("", first_word);
    Ok(format!(in origins.alloc; "{word}: a line of --type")?)
}

// Where a script's frame is: its name, the line's number, and the line.
fn script_line(frame: &Frame) -> Option<(&Text, usize, &Text)> {
    let name = script_name(frame)?;
    let (script, line) = frame.script_line()?;
    Some((name, line, script.line(line)?))
}

// The first word of a line.
fn first_word(line: &Text) -> &str {
    shown(line).split_ascii_whitespace().next().unwrap_or("")
}
