//! `--trace`: the line on a command that is taken.

use crate::escapes::shown_bytes;
use crate::names::{ScriptNames, script_name};
use ados_flow::Frame;
use ados_items::trimmed;
use ados_shell::Shell;
use ados_text::{NoMemory, Text};
use std::alloc::Global;

/// The line for the next line of a shell's newest frame, if that is a command: a `+` for each frame, the shell's number if that is not
/// 1, the newest script with its line, and the text.
pub fn command_line<N: ScriptNames>(
    alloc: Global,
    names: &N,
    shell: &Shell,
) -> Result<Option<String>, NoMemory> {
    let frames = shell.frames();
    let Some(text) = frames.last().and_then(|frame| frame.next_line()) else {
        return Ok(None);
    };
    if !is_command(text) {
        return Ok(None);
    }
    let mut line = String::new(alloc);
    for _ in frames {
        line.push('+')?;
    }
    let number = shell.number();
    if number != 1 {
        write!(line, " [{number}]")?;
    }
    push_script(&mut line, names, frames)?;
    let text = shown_bytes(trimmed(text.as_bytes()));
    write!(line, " {text}")?;
    Ok(Some(line))
}

// Adds the newest script and its line: the one that is taken, or the one in which there is a command substitution.
fn push_script<N: ScriptNames>(
    line: &mut String,
    names: &N,
    frames: &[Frame],
) -> Result<(), NoMemory> {
    let mut is_newest = true;
    for frame in frames.iter().rev() {
        if let (Some(name), Some((_, begun))) = (script_name(frame), frame.script_line()) {
            let name = names.name(name)?;
            let number = if is_newest {
                frame.position().saturating_add(1)
            } else {
                begun
            };
            write!(line, " {name}:{number}:")?;
            return Ok(());
        }
        is_newest = false;
    }
    Ok(())
}

// The line is neither empty nor a comment.
fn is_command(text: &Text) -> bool {
    match trimmed(text.as_bytes()).first() {
        Some(sign) => *sign != b';',
        None => false,
    }
}
