// What a raw line is read as: the order of comment, alias, variables, back-ticks and cut.
ghost use Rattle.std.specs.{Prelude.{◌≡◌, ◌<◌, ◌++◌, map, Err, IfOk, OnOk, length}, List.{list_any}};
ghost use Rattle.ados_text.specs.Text.{IsText};
ghost use Rattle.ados_line.specs.{Answers.{Gives}, Alias.{with_alias}, Comment.{without_comment, IsUpToComment}, Expansion.{expand_raw_line, expanded_line, read_rest_of_text, read_resumed_text, resume_line, newline_to_space, without_newline, tick_text, IsMade, IsResumed}, Signs.{is_special}, Values.{visible_variables}};

use crate::aliases::replace_alias;
use crate::comments::without_comment;
use crate::faults::LineFault;
use crate::letters::read_letters;
use crate::lines::{Expanded, cut_plain_text, cut_text};
use crate::scopes::Scope;
use crate::ticks::{Parted, part_after};
use crate::values::put_values;
use ados_text::{LINE_BYTES, NoMemory, Text};
use std::alloc::Global;

/// What a raw line that may hold aliases, variables and back-ticks is read as. It has at most 512 bytes; its comment is
/// dropped; the alias that its first word names is expanded, once; then the variables that it names are expanded. The
/// resulting text has at most 512 bytes too. If it has a pair of back-ticks, even inside quotes, the line is a `Tick` at
/// the first pair, and otherwise it is cut.
///
/// Quotes are read before values are inserted, and no value is expanded again: the text is the segments of the line, in
/// order, each a character of the line or the value of one variable. Inside quotes of the text a star before a back-tick
/// is removed, and the back-tick stands for itself. `LineTooLong` comes first, then `UnmatchedQuotes` for a single
/// back-tick; the other faults are those of the cut: the first one in the text.
#[tactic(auto, unfolding(crate::specs::Expansion::expand_raw_line))]
pub fn expand(scope: &Scope, raw: &Text) -> Result<Expanded, LineFault>
    ensures value { Gives result (expand_raw_line scope.now.aliases.now (visible_variables scope.now) raw.now) }
    ensures long { 512 < length raw.now → result ≡ Err LineFault.LineTooLong }
    ensures comment { IsUpToComment raw.now (without_comment raw.now) }
    ensures made { IfOk result (IsMade (visible_variables scope.now) (with_alias scope.now.aliases.now (without_comment raw.now))) }
{
    let bytes = raw.as_bytes();
    if bytes.len() > LINE_BYTES {
        return Err(LineFault::LineTooLong);
    }
    let line = without_comment(bytes);
    match replace_alias(scope.alloc, scope.aliases, line)? {
        None => put_and_read(scope, line),
        Some(text) => put_and_read(scope, text.as_bytes()),
    }
}

/// What a line is read as after its command substitution has ended: the command's output replaces the pair of
/// back-ticks, without one newline at its end, with a blank for each other newline and `?` for each byte past ASCII. The
/// next pair is looked for after it.
///
/// The text up to the end of the output is not read for back-ticks again; quotes are read in the whole text, so that a
/// star at the end of the output escapes the byte after it. `LineTooLong` for more than 512 bytes of the whole text
/// comes before `UnmatchedQuotes` for a single back-tick; the other faults are those of the cut.
#[tactic(auto, unfolding(crate::specs::Expansion::resume_line))]
pub fn resume(
    alloc: Global,
    before: &Text,
    output: &[u8],
    after: &Text,
) -> Result<Expanded, LineFault>
    ensures value { Gives result (resume_line before.now output.now after.now) }
    ensures long { 512 < length (before.now ++ (tick_text output.now ++ after.now)) → result ≡ Err LineFault.LineTooLong }
    ensures made { IfOk result (IsResumed before.now output.now after.now) }
{
    put_and_go_on(alloc, before, without_newline(output), after)
}

// Expands the variables of a line and reads it. Nearly all lines are plain, and are cut in place.
#[tactic(auto, using(crate::proofs::UnmarkedLemmas::plain_values, crate::proofs::UnmarkedLemmas::plain_ticks, crate::proofs::UnmarkedLemmas::plain_bytes))]
fn put_and_read(scope: &Scope, line: &[u8]) -> Result<Expanded, LineFault>
    requires { IsText line.now }
    ensures { Gives result (expanded_line (visible_variables scope.now) line.now) }
{
    let is_plain = !has_special(line);
    if !is_plain && line.contains(&b'$') {
        let text = put_values(scope, &read_letters(scope.alloc, line)?)?;
        read_text(scope.alloc, text.as_bytes(), 0)
    } else if line.len() > LINE_BYTES {
        Err(LineFault::LineTooLong)
    } else if is_plain {
        cut_plain_text(scope.alloc, line)
    } else {
        read_text(scope.alloc, line, 0)
    }
}

// Whether a line has a special byte: that of a variable, of a command substitution, of a quote or of a redirection.
fn has_special(line: &[u8]) -> bool
    ensures { result ≡ list_any is_special line.now }
{
    line.iter().any(is_special)
}

fn is_special(byte: &u8) -> bool
    ensures { result ≡ is_special byte.now }
{
    matches!(*byte, b'$' | b'`' | b'"' | b'<' | b'>')
}

// Reads a text whose first `size` bytes are kept; one without a back-tick is cut in place.
#[inline(always)]
#[tactic(auto, using(crate::proofs::UnmarkedLemmas::plain_ticks))]
fn read_text(alloc: Global, text: &[u8], size: usize) -> Result<Expanded, LineFault>
    requires { IsText text.now }
    ensures { Gives result (read_rest_of_text size text.now) }
{
    if text.contains(&b'`') {
        part_and_cut(alloc, text, size)
    } else {
        cut_text(alloc, text)
    }
}

// Reads a text with a back-tick: it is a tick, or it is cut if each back-tick has a star before it.
#[inline(never)]
fn part_and_cut(alloc: Global, text: &[u8], size: usize) -> Result<Expanded, LineFault>
    requires { IsText text.now }
    ensures { Gives result (read_rest_of_text size text.now) }
{
    match part_after(alloc, text, size)? {
        Parted::Whole(text) => cut_text(alloc, text.as_bytes()),
        Parted::Ticked(tick) => Ok(Expanded::Tick(tick)),
    }
}

// Reads a line with the output of its command substitution in place, if that has no newline at its end; reading starts
// after the output.
fn put_and_go_on(
    alloc: Global,
    before: &Text,
    output: &[u8],
    after: &Text,
) -> Result<Expanded, LineFault>
    ensures value { Gives result (read_resumed_text (before.now ++ map newline_to_space output.now) after.now) }
    ensures long { 512 < length (before.now ++ (map newline_to_space output.now ++ after.now)) → result ≡ Err LineFault.LineTooLong }
{
    let size = before.as_bytes().len() + output.len();
    if size > LINE_BYTES || size + after.as_bytes().len() > LINE_BYTES {
        return Err(LineFault::LineTooLong);
    }
    let mut text = before.copy()?;
    push_spaced(&mut text, output)?;
    text.push_bytes(after.as_bytes())?;
    read_text(alloc, text.as_bytes(), size)
}

// The bytes without one newline at their end.
fn without_newline(bytes: &[u8]) -> &[u8]
    ensures { result.now ≡ without_newline bytes.now }
{
    match bytes.split_last() {
        Some((b'\n', rest)) => rest,
        _ => bytes,
    }
}

// Appends bytes, with blanks for newlines.
fn push_spaced(text: &mut Text, bytes: &[u8]) -> Result<(), NoMemory>
    ensures { OnOk result (text.new ≡ text.old ++ map newline_to_space bytes.now) }
{
    for byte in bytes {
        text.push(if *byte == b'\n' { b' ' } else { *byte })?;
    }
    Ok(())
}
