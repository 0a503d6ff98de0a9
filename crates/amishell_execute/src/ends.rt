//! The line on the end of a script.
ghost use Rattle.std.specs.Prelude.{◌≡◌, ◌||◌, is_some};
ghost use Rattle.amishell_execute.specs.Ends.{cause_of};

use crate::lost_jumps::LostJump;
use ados_items::trimmed;
use ados_machine::EndReport;
use ados_text::{NoMemory, Text};
use ados_trace::shown_bytes;
use std::alloc::Global;

/// Why the end of a script is told.
#[derive(Drop)]
pub enum Cause {
    /// It was broken.
    Break,
    /// A jump found nothing.
    Jump(LostJump),
    /// The code of its last command reached the limit.
    Limit,
}

/// Why an end is told: exactly if it was early or broken, or a jump found nothing.
pub fn cause_of(report: &EndReport, jump: Option<LostJump>) -> Option<Cause>
    ensures told { is_some result ≡ (report.now.early || report.now.broken || is_some jump) }
    ensures cause { result ≡ cause_of report.now jump }
{
    if report.broken {
        return Some(Cause::Break);
    }
    match jump {
        Some(jump) => Some(Cause::Jump(jump)),
        None if report.early => Some(Cause::Limit),
        None => None,
    }
}

/// The line on an end: the script by the name that its user knows, the line of its last command, the cause, and that line's text.
pub fn end_line(
    alloc: Global,
    name: &str,
    report: &EndReport,
    cause: Cause,
    text: Option<&Text>,
) -> Result<String, NoMemory> {
    let line = report.last_line;
    let code = report.code.0;
    let told = match cause {
        Cause::Break if line == 0 => format!(in alloc; "{name}: broken")?,
        Cause::Break => format!(in alloc; "{name}: line {line}: broken")?,
        Cause::Jump(jump) => return Ok(format!(in alloc; "{name}: line {line}: {jump}")?),
        Cause::Limit => format!(in alloc; "{name}: line {line}: code {code}, at its limit")?,
    };
    with_text(alloc, told, text)
}

/// A line that ends in the text of a script's line, if there is one.
pub fn with_text(alloc: Global, told: String, text: Option<&Text>) -> Result<String, NoMemory> {
    match text {
        Some(text) => {
            let text = shown_bytes(trimmed(text.as_bytes()));
            Ok(format!(in alloc; "{told}: {text}")?)
        }
        None => Ok(told),
    }
}
