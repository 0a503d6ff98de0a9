// The lines of a file, and the order in which Sort puts them.
ghost use Rattle.std.specs.{Prelude.{◌≡◌, ◌<◌, ◌≤◌, length, position, IfOk, IfSome, OnOk}, Cmp.Lexicographic.{slice_cmp}, List.Sorted.{IsPermutation, IsSortedBy, IsStableBy}, Ordering.{nat_cmp}};
ghost use Rattle.ados_text.specs.Lines.{is_newline};
ghost use Rattle.ados_files.specs.SortOrder.{digit_count, is_before, is_no_digit, leading_number, line_cmp, line_len, number_key, number_text, part_of, plain_lines, sign_count, sorted_lines, text_key};

use ados_text::{NoMemory, Octets, at_most, bounded_number, name_order, without};
use std::alloc::Global;
use std::cmp::Ordering;
use std::mem;

/// How Sort compares lines.
#[derive(Clone, Copy)]
pub struct SortOrder {
    /// How many bytes stand before the column from which on lines are compared.
    pub before: usize,
    /// CASE: capitals and small letters differ.
    pub case: bool,
    /// NUMERIC: the numbers with which the compared parts begin come first.
    pub numeric: bool,
}

/// The lines of a file, with their bytes as they are.
pub fn plain_lines(alloc: Global, bytes: &[u8]) -> Result<Vec<Octets>, NoMemory>
    ensures { IfOk result (λ lines. lines.items ≡ plain_lines bytes.now) }
{
    let mut lines = Vec::new(alloc);
    let mut line = Vec::new(alloc);
    for byte in bytes {
        if *byte == b'\n' {
            let whole = mem::replace(&mut line, Vec::new(alloc));
            lines.push(Octets::from_vec(whole))?;
        } else {
            line.push(*byte)?;
        }
    }
    if !line.is_empty() {
        lines.push(Octets::from_vec(line))?;
    }
    Ok(lines)
}

/// How many bytes the first line of some bytes has.
#[tactic(auto, using(crate::proofs::PlainLines::up_to_newline, crate::proofs::PlainLines::line_fits))]
pub fn line_len(bytes: &[u8]) -> usize
    ensures value { result ≡ line_len bytes.now }
    ensures within { result ≤ length bytes.now }
{
    newline(bytes).unwrap_or(bytes.len())
}

// The place of the first newline.
fn newline(bytes: &[u8]) -> Option<usize>
    ensures place { result ≡ position is_newline bytes.now }
    ensures within { IfSome result (λ place. place < length bytes.now) }
{
    bytes.iter().position(|byte| *byte == b'\n')
}

/// Puts lines in an order. Lines of which neither comes before the other stay as they stood.
pub fn sort_lines(order: SortOrder, lines: &mut Vec<Octets>) -> Result<(), NoMemory>
    ensures value { OnOk result (lines.new.items ≡ sorted_lines order lines.old.items) }
    ensures permutation { OnOk result (IsPermutation lines.old.items lines.new.items) }
    ensures sorted { OnOk result (IsSortedBy (is_before order) lines.new.items) }
    ensures stable { OnOk result (IsStableBy (is_before order) lines.old.items lines.new.items) }
{
    lines.sort_by(|a, b| order.compare(a.as_bytes(), b.as_bytes()))?;
    Ok(())
}

impl SortOrder {
    // Compares two lines.
    fn compare(self, a: &[u8], b: &[u8]) -> Ordering
        ensures { result ≡ line_cmp self a.now b.now }
    {
        let by_number = self.number_key(a).cmp(&self.number_key(b));
        by_number.then(self.compare_texts(a, b))
    }

    // Compares them without their numbers.
    fn compare_texts(self, a: &[u8], b: &[u8]) -> Ordering
        ensures { result ≡ slice_cmp nat_cmp (text_key self a.now) (text_key self b.now) }
    {
        if self.case {
            self.part_of(a).cmp(self.part_of(b))
        } else {
            name_order(self.part_of(a), self.part_of(b))
        }
    }

    // The number by which a line is compared.
    fn number_key(self, line: &[u8]) -> i32
        ensures { result ≡ number_key self line.now }
    {
        if self.numeric {
            leading_number(self.part_of(line))
        } else {
            0
        }
    }

    // The line from the column on.
    fn part_of(self, line: &[u8]) -> &[u8]
        ensures { result.now ≡ part_of self line.now }
    {
        without(line, self.before)
    }
}

// The number with which a text begins; 0 if it begins with none.
fn leading_number(text: &[u8]) -> i32
    ensures { result ≡ leading_number text.now }
{
    match bounded_number(number_text(text)) {
        Some(number) => number,
        None => 0,
    }
}

// An optional `-` and the longest run of digits, with which a text begins.
fn number_text(text: &[u8]) -> &[u8]
    ensures { result.now ≡ number_text text.now }
{
    let sign = sign_count(text);
    let count = digit_count(without(text, sign));
    at_most(text, sign + count)
}

// How many bytes the sign of a number takes.
fn sign_count(text: &[u8]) -> usize
    ensures count { result ≡ sign_count text.now }
    ensures within { result ≤ 1 }
{
    match text.first() {
        Some(b'-') => 1,
        _ => 0,
    }
}

// How many digits a text begins with.
fn digit_count(text: &[u8]) -> usize
    ensures count { result ≡ digit_count text.now }
    ensures within { result ≤ length text.now }
{
    first_other(text).unwrap_or(text.len())
}

// The place of the first byte that is no digit.
fn first_other(text: &[u8]) -> Option<usize>
    ensures place { result ≡ position is_no_digit text.now }
    ensures within { IfSome result (λ place. place < length text.now) }
{
    text.iter().position(|byte| is_no_digit(*byte))
}

fn is_no_digit(byte: u8) -> bool
    ensures { result ≡ is_no_digit byte }
{
    !byte.is_ascii_digit()
}
