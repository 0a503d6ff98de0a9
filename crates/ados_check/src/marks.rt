//! Bytes above 127 in whose place `_` is written, which no pattern has.
ghost use Rattle.std.specs.{Prelude.{◌≡◌, is_some, map, OnOk}, List.{slice_split}};
ghost use Rattle.ados_text.specs.Lines.{is_newline};
ghost use Rattle.ados_check.specs.{LeftOut.{is_between}, Marks.{IsMarked, is_in_printed, is_printed_in, marked, prints_sign}, Signs.{is_dotted, sign_of}};

use crate::findings::{Finding, Problem};
use crate::lines::{line_at, lines_in, push_problem};
use crate::renames::renames_printers;
use crate::signs::{is_dotted, sign_in, sign_problem};
use ados_text::{NoMemory, lines_of};
use ados_vars::Aliases;
use std::alloc::Global;

/// Writes `_` in the place of each byte above 127.
pub fn mark(script: &mut [u8])
    ensures { script.new ≡ map marked script.old }
{
    for byte in script.iter_mut() {
        *byte = marked(*byte);
    }
}

/// Writes `_` in the place of each byte above 127 in the lines of a script that only print their words, and gives the problem of each
/// of these lines: none if Echo or Ask may be another command in it.
pub fn mark_printed(alloc: Global, script: &mut [u8]) -> Result<Vec<Finding>, NoMemory>
    ensures { OnOk result (IsMarked (is_printed_in script.old) script.old script.new) }
{
    if script.is_ascii() {
        return Ok(Vec::new(alloc));
    }
    let lines = lines_of(alloc, script)?;
    if renames_printers(alloc, &Aliases::new(alloc), lines.as_slice())? {
        return Ok(Vec::new(alloc));
    }
    let bytes = Vec::from_slice(alloc, script)?;
    mark_lines(alloc, bytes.as_slice(), script)
}

// The same in a script of these bytes where Echo and Ask are no other commands.
fn mark_lines(alloc: Global, bytes: &[u8], script: &mut [u8]) -> Result<Vec<Finding>, NoMemory>
    ensures { OnOk result (IsMarked (is_in_printed (is_dotted bytes.now) 0 0 (slice_split is_newline bytes.now)) script.old script.new) }
{
    let is_dotted = is_dotted(bytes);
    let lines = lines_in(alloc, bytes)?;
    let mut found = Vec::new(alloc);
    let mut from: usize = 0;
    for place in 0..lines.len() {
        let line = line_at(&lines, place);
        let to = from.saturating_add(line.len());
        if let Some(problem) = printed_problem(is_dotted, place, line) {
            mark_between(script, from, to);
            push_problem(&mut found, place + 1, problem)?;
        }
        from = to.saturating_add(1);
    }
    Ok(found)
}

// The problem of a line, at this place from 0, if it only prints its first byte above 127, in a script that lets it do only that.
fn printed_problem(is_dotted: bool, place: usize, line: &[u8]) -> Option<Problem>
    ensures { is_some result ≡ prints_sign place line.now (sign_of is_dotted line.now) }
{
    let byte = sign_in(is_dotted, line)?;
    match sign_problem(place, true, line, byte, 0) {
        problem @ Problem::PrintedByte(_) => Some(problem),
        _ => None,
    }
}

// Writes `_` in the place of each byte above 127 from one place up to another.
fn mark_between(script: &mut [u8], from: usize, to: usize)
    ensures { IsMarked (is_between from to) script.old script.new }
{
    for place in from..to.min(script.len()) {
        script[place] = marked(script[place]);
    }
}

// A byte, or `_` in the place of one above 127.
fn marked(byte: u8) -> u8
    ensures { result ≡ marked byte }
{
    if byte.is_ascii() { byte } else { b'_' }
}
