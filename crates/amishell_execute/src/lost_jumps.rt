//! A jump of a script that finds nothing, as its line shows.

use ados_check::label_in;
use ados_items::{first_word, trimmed};
use ados_machine::EndReport;
use ados_resident::Dialect;
use ados_script::{Jump, Script};
use ados_text::{NoMemory, Result2, Text, same_name};
use ados_trace::shown;
use ados_world::World;
use std::alloc::Global;
use std::fmt;

/// A jump that finds nothing.
#[derive(Drop)]
pub enum LostJump {
    /// That of an If whose test fails.
    If,
    /// That of an Else.
    Else,
    /// That of a Skip to this label; it is empty if none is given.
    Skip(Text),
}

impl fmt::Display for LostJump {
    fn fmt<W: fmt::Write>(&self, f: &mut fmt::Formatter<W>) -> fmt::Result {
        match self {
            LostJump::If => f.write_str("If without EndIf"),
            LostJump::Else => f.write_str("Else without EndIf"),
            LostJump::Skip(label) if label.as_bytes().is_empty() => f.write_str("no Lab"),
            LostJump::Skip(label) => {
                f.write_str("no Lab ")?;
                f.write_str(shown(label))
            }
        }
    }
}

/// The jump that ended a script, if that is what the last line did, and what the shell's last command returned.
pub fn lost_jump(
    alloc: Global,
    world: &World,
    report: &EndReport,
    script: &Script,
) -> Result<Option<LostJump>, NoMemory> {
    let codes = world.codes(report.shell);
    if report.broken || report.code.0 != 20 || codes.result2 != Result2::OBJECT_NOT_FOUND {
        return Ok(None);
    }
    jump_at(alloc, world.dialect(), script, report.last_line)
}

// The jump of a line that finds nothing. Whether a Skip finds its Lab shows only once its label is read.
fn jump_at(
    alloc: Global,
    dialect: Dialect,
    script: &Script,
    number: usize,
) -> Result<Option<LostJump>, NoMemory> {
    let Some(line) = script.line(number) else {
        return Ok(None);
    };
    let word = first_word(trimmed(line.as_bytes()));
    Ok(if same_name(word, b"If") && script.after_if(number) == Jump::None {
        Some(LostJump::If)
    } else if same_name(word, b"Else") && script.after_else(number) == Jump::None {
        Some(LostJump::Else)
    } else if same_name(word, b"Skip") {
        Some(LostJump::Skip(label_in(alloc, dialect, line)?))
    } else {
        None
    })
}
