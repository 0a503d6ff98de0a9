//! Why a command that is a program of the host is refused.

use crate::faults::Fault;
use ados_items::{first_word, rest_of, trimmed};
use ados_text::{NoMemory, Text, lines_of, same_name};
use ados_trace::shown;
use ados_world::{Dialect, HostEntry, NewFault, hosts_fault};
use std::alloc::Global;

/// Why a command is refused beside these: its name is given twice, or is that of a command of the Shell, or is no name.
pub fn refusal(
    alloc: Global,
    dialect: Dialect,
    host: &HostEntry,
    hosts: &[HostEntry],
) -> Result<Option<Fault>, Fault> {
    let is_given = hosts.iter().any(|other| same_name(other.name.as_bytes(), host.name.as_bytes()));
    match reason(alloc, dialect, host, is_given)? {
        Some(reason) => Ok(Some(Fault::HostWords(reason))),
        None => Ok(None),
    }
}

/// The fault of a line of a file of hosts, by the line's number from 1.
pub fn bad_line(alloc: Global, dialect: Dialect, file: &str, line: usize, bytes: &[u8]) -> Fault {
    match line_fault(alloc, dialect, file, line, bytes) {
        Ok(fault) => fault,
        Err(_) => Fault::Memory,
    }
}

fn line_fault(
    alloc: Global,
    dialect: Dialect,
    file: &str,
    line: usize,
    bytes: &[u8],
) -> Result<Fault, NoMemory> {
    let lines = lines_of(alloc, bytes)?;
    let before = lines
        .as_slice()
        .get(..line.saturating_sub(1))
        .unwrap_or(&[]);
    let words = match lines.get(line.saturating_sub(1)) {
        Some(words) => trimmed(words.as_bytes()),
        None => &[],
    };
    Ok(Fault::HostLine {
        file: String::from_str(alloc, file)?,
        line,
        reason: line_reason(alloc, dialect, before, words)?,
    })
}

// What is wrong with the words of a line after these lines.
fn line_reason(
    alloc: Global,
    dialect: Dialect,
    before: &[Text],
    words: &[u8],
) -> Result<String, NoMemory> {
    let name = first_word(words);
    let host = HostEntry {
        name: Text::from_bytes(alloc, name)?,
        program: Text::from_bytes(alloc, rest_of(words))?,
    };
    if host.program.as_bytes().is_empty() {
        let name = shown(&host.name);
        return Ok(format!(in alloc; "{name} has no program")?);
    }
    let is_given = before.iter().any(|line| same_name(first_word(trimmed(line.as_bytes())), name));
    match reason(alloc, dialect, &host, is_given)? {
        Some(reason) => Ok(reason),
        None => Ok(String::from_str(alloc, "more than 64 commands")?),
    }
}

// Why a command is refused, if it is not for their number.
fn reason(
    alloc: Global,
    dialect: Dialect,
    host: &HostEntry,
    is_given: bool,
) -> Result<Option<String>, NoMemory> {
    let name = shown(&host.name);
    if is_given {
        return Ok(Some(format!(in alloc; "{name} is given twice")?));
    }
    let mut alone = Vec::new(alloc);
    alone.push(host.clone()?)?;
    match hosts_fault(dialect, alone.as_slice()) {
        None => Ok(None),
        Some(NewFault::Double(_)) => Ok(Some(format!(in alloc;
            "{name} is a command of the Shell"
        )?)),
        Some(_) => Ok(Some(format!(in alloc; "{name} is not a name of the Shell")?)),
    }
}
