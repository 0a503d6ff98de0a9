//! Signs in a script that the Shell takes for something else: a byte above 127 is read as `?`, which in a name is a pattern that other
//! names fit, and a carriage return at the end of a line is a byte of its last word.
ghost use Rattle.std.specs.{Prelude.{◌≡◌, ◌&&◌, true, false, is_some, not, Some}, List.{find, list_any}, Str.{IsAscii}};
ghost use Rattle.ados_text.specs.Text.{is_past_ascii};
ghost use Rattle.ados_line.specs.Comment.{without_comment};
ghost use Rattle.ados_check.specs.{Printing.{only_prints}, Problems.{is_harmless, is_printed_byte}, Marks.{is_order_mark}, Signs.{end_return, first_sign, is_dotted, is_remark, is_return, sign_of, told_sign}};

use crate::arguments::has_redirection;
use crate::findings::Problem;
use ados_items::{first_word, is_blank, rest_of, trimmed};
use ados_line::without_comment;

// What a line that was written on another system ends in, before its newline.
pub const RETURN: u8 = b'\r';

// The byte order mark of UTF-8, which editors write at the beginning of a file.
const ORDER_MARK: [u8; 3] = [0xef, 0xbb, 0xbf];

/// The file has directives: its first byte is a dot.
pub fn is_dotted(bytes: &[u8]) -> bool
    ensures { result ≡ is_dotted bytes.now }
{
    match bytes {
        [first, ..] => *first == b'.',
        [] => false,
    }
}

/// No line has a sign: all bytes are ASCII, and none is a carriage return.
pub fn are_plain(bytes: &[u8]) -> bool
    ensures ascii { result ≡ true → IsAscii bytes.now }
    ensures no_return { result ≡ true → list_any is_return bytes.now ≡ false }
{
    bytes.is_ascii() && !bytes.contains(&RETURN)
}

/// The line ends in a carriage return that no comment takes.
pub fn ends_in_return(line: &[u8]) -> bool
    ensures { result ≡ is_some (end_return line.now (without_comment line.now)) }
{
    end_return(line, without_comment(line)).is_some()
}

/// The sign of a line: the first byte above 127 before its comment, or otherwise the carriage return at its end, unless that is in its
/// comment. `is_dotted`: its script has directives.
pub fn sign_in(is_dotted: bool, line: &[u8]) -> Option<u8>
    ensures { result ≡ sign_of is_dotted line.now }
{
    if is_dotted && is_remark(line) {
        return None;
    }
    first_sign(line, without_comment(line))
}

/// The problem of a line, which is at this place from 0, with a sign. `is_told_only`: in its script Echo and Ask only print their
/// words. `others` is how many other lines end in a carriage return.
pub fn sign_problem(
    place: usize,
    is_told_only: bool,
    line: &[u8],
    byte: u8,
    others: usize,
) -> Problem
    ensures told { told_sign result ≡ Some byte }
    // Harmless is only what the line prints, if its script lets it do only that.
    ensures harmless { is_harmless result ≡ true → (is_told_only && only_prints (without_comment line.now)) ≡ true }
    ensures printed { is_printed_byte result ≡ (is_told_only && only_prints (without_comment line.now) && not (is_return byte) && not (is_order_mark place byte line.now)) }
{
    if place == 0 && byte == 0xef && line.starts_with(&ORDER_MARK) {
        return Problem::ByteOrderMark;
    }
    let is_harmless = is_told_only && is_printed(without_comment(line));
    match byte {
        RETURN if is_harmless => Problem::PrintedReturn(others),
        RETURN => Problem::EndReturn(others),
        _ if is_harmless => Problem::PrintedByte(byte),
        _ => Problem::NotAscii(byte),
    }
}

// The sign of a line, which is this text without its comment.
fn first_sign(line: &[u8], text: &[u8]) -> Option<u8>
    ensures { result ≡ first_sign line.now text.now }
{
    match first_past_ascii(text) {
        Some(byte) => Some(byte),
        None => end_return(line, text),
    }
}

// The carriage return at the end of a line, which is this text without its comment.
fn end_return(line: &[u8], text: &[u8]) -> Option<u8>
    ensures { result ≡ end_return line.now text.now }
{
    match line {
        [.., b'\r'] if text.len() == line.len() => Some(RETURN),
        _ => None,
    }
}

// The first byte above 127.
fn first_past_ascii(line: &[u8]) -> Option<u8>
    ensures { result ≡ find is_past_ascii line.now }
{
    for byte in line {
        if *byte >= 128 {
            return Some(*byte);
        }
    }
    None
}

// The line is a directive that says nothing.
fn is_remark(line: &[u8]) -> bool
    ensures { result ≡ is_remark line.now }
{
    match line {
        [dot, next, ..] => *dot == b'.' && (is_blank(*next) || *next == b'\\'),
        _ => false,
    }
}

// The line only prints its words: its command is Echo or Ask, and it has neither a redirection nor a command between back-ticks.
// A single byte as its only argument would be read as the `?` that asks for arguments.
fn is_printed(line: &[u8]) -> bool
    ensures { result ≡ only_prints line.now }
{
    let line = trimmed(line);
    let name = first_word(line);
    let is_printer = name.eq_ignore_ascii_case(b"Echo") || name.eq_ignore_ascii_case(b"Ask");
    is_printer && rest_of(line).len() > 1 && !line.contains(&b'`') && !has_redirection(line)
}
