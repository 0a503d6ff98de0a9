//! Which pieces of a text a part of a pattern matches.

ghost use Rattle.std.specs.{Prelude.{◌≡◌, ◌+◌, ◌*◌, ◌<◌, ◌^◌, ◌≤◌, ◌-◌, ◌&&◌, ℕ, length, IfOk}, List.{list_any, range_with_len}};
ghost use Rattle.ados_pattern.specs.{CharTest.{has_test, test_of}, Table.{IsBuilt, IsRuleTable, byte_at, cell_of, cells_in, cells_of, column_of, is_set, leads, row_cell, table_word}};

use crate::bytes::CharTest;
use crate::words::{before, below, has_bit, led_to, single, up_to, word_at};
use ados_text::NoMemory;
use std::alloc::Global;

/// For each start and end, both given as the number of bytes after them, whether the piece matches. A column holds
/// 64 ends, each a bit of the word of its start; for a name there is only the first column.
#[derive(Drop)]
pub struct Table {
    first: Vec<u64>,
    more: Vec<Vec<u64>>,
}

/// How a table results from the tables of the parts.
#[derive(Drop)]
pub enum Rule {
    /// The empty piece.
    Empty,
    /// One character.
    One(CharTest),
    /// One character, followed by a piece of the table.
    Next(CharTest, Table),
    /// One character that is not a piece of the table.
    Outside(Table),
    /// Pieces of the table, one after the other; or the empty piece.
    Many(Table),
    /// What is not a piece of the table.
    Other(Table),
    /// A piece of the first, followed by one of the second.
    Then(Table, Table),
    /// A piece of the one or of the other.
    Either(Table, Table),
}

impl Table {
    /// Whether the piece from a start to an end matches.
    pub fn at(&self, start: usize, end: usize) -> bool
        ensures { result ≡ cells_of self.now start end }
    {
        has_bit(word_at(self.column(end / 64), start), end % 64)
    }

    /// The ends below 64 of the pieces from some starts below 64, each a bit.
    pub fn ends_of(&self, starts: u64) -> u64
        ensures { (b : ℕ) → b < 64 → is_set result b ≡ leads starts 0 (column_of self.now 0) b }
    {
        led_to(starts, 0, self.column(0))
    }

    fn column(&self, group: usize) -> &[u64]
        ensures { result.now ≡ column_of self.now group }
    {
        if group == 0 {
            return &self.first;
        }
        match self.more.get(group - 1) {
            Some(column) => column,
            None => &[],
        }
    }

    /// The table of a rule, for a text.
    pub fn filled(alloc: Global, rule: &Rule, text: &[u8]) -> Result<Table, NoMemory>
        requires { length text.now < 2 ^ 63 }
        ensures { IfOk result (λ t. IsRuleTable rule.now text.now (cells_of t)) }
    {
        let first = column_for(alloc, rule, text, 0)?;
        let mut more = Vec::new(alloc);
        for group in 1..text.len() / 64 + 1 {
            let column = column_for(alloc, rule, text, group)?;
            more.push(column)?;
        }
        Ok(Table { first, more })
    }
}

// The words of all starts for the 64 ends of a group.
fn column_for(alloc: Global, rule: &Rule, text: &[u8], group: usize) -> Result<Vec<u64>, NoMemory>
    requires short { length text.now < 2 ^ 63 }
    requires within { group * 64 ≤ length text.now }
    ensures { IfOk result (λ column. IsBuilt rule.now text.now group column.items (length text.now + 1)) }
{
    let len = text.len();
    let mut column = Vec::with_capacity(alloc, len + 1)?;
    for start in 0..len + 1 {
        let word = word_for(rule, text, &column, group, start);
        column.push(word)?;
    }
    Ok(column)
}

// The ends of one start, given the words of the starts before it.
fn word_for(rule: &Rule, text: &[u8], known: &[u64], group: usize, start: usize) -> u64
    requires short { length text.now < 2 ^ 63 }
    requires within { start ≤ length text.now }
    requires in_column { group * 64 ≤ length text.now }
    ensures { (b : ℕ) → b < 64 → is_set result b ≡ row_cell rule.now text.now (cells_in known.now group) start (group * 64 + b) }
{
    ends(rule, text, known, group, start) & up_to(group, start)
}

// What the rule says of the ends of one start, including those that come before it.
fn ends(rule: &Rule, text: &[u8], known: &[u64], group: usize, start: usize) -> u64
    requires short { length text.now < 2 ^ 63 }
    requires within { start ≤ length text.now }
    requires in_column { group * 64 ≤ length text.now }
    ensures { (b : ℕ) → b < 64 → is_set result b ≡ cell_of rule.now text.now (cells_in known.now group) start (group * 64 + b) }
{
    match rule {
        Rule::Empty => single(group, start),
        Rule::One(test) => before(group, start, test.holds(next_byte(text, start))),
        Rule::Next(test, rest) => next_ends(*test, rest, text, group, start),
        Rule::Outside(inner) => before(group, start, !inner.at(start, start.saturating_sub(1))),
        Rule::Many(inner) => single(group, start) | through(inner, start, known, start),
        Rule::Other(inner) => !word_at(inner.column(group), start),
        Rule::Then(first, rest) => through(first, start, rest.column(group), start + 1),
        Rule::Either(one, other) => {
            word_at(one.column(group), start) | word_at(other.column(group), start)
        }
    }
}

// The ends after one character.
fn next_ends(test: CharTest, rest: &Table, text: &[u8], group: usize, start: usize) -> u64
    requires { start ≤ length text.now }
    ensures { (b : ℕ) → b < 64 → is_set result b ≡ (has_test (test_of test) (byte_at text.now start) && cells_of rest.now (start - 1) (group * 64 + b)) }
{
    if test.holds(next_byte(text, start)) {
        word_at(rest.column(group), start.saturating_sub(1))
    } else {
        0
    }
}

/// The byte after a start.
pub fn next_byte(text: &[u8], start: usize) -> Option<u8>
    requires { start ≤ length text.now }
    ensures { result ≡ byte_at text.now start }
{
    text.get(text.len() - start).copied()
}

// The ends, in the words of the rest, to which the middles of the first table lead that are below a
// limit.
fn through(first: &Table, start: usize, rest: &[u64], limit: usize) -> u64
    requires { limit < 2 ^ 63 + 1 }
    ensures { (b : ℕ) → b < 64 → is_set result b ≡ list_any (λ k. cells_of first.now start k && is_set (table_word rest.now k) b) (range_with_len 0 limit) }
{
    let mut word = 0;
    for group in 0..limit / 64 + 1 {
        let middles = word_at(first.column(group), start) & below(group, limit);
        word |= led_to(middles, group, rest);
    }
    word
}
