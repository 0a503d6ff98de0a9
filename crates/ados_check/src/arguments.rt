//! The parts of a line: the words that a command reads as its arguments, and the names of redirections.

ghost use Rattle.std.specs.Prelude.{◌≡◌, ◌==◌, ◌≤◌, length, false, true, IfOk, IfSome};
ghost use Rattle.ados_items.specs.Items.{bytes_between, item_at};
ghost use Rattle.ados_check.specs.Arguments.{argument_of, argument_words, has_redirection, name_after, next_end_of_run, part_at, part_end, parts_of, redirected_of, redirected_words, run_end, sign_width, word_at};

use ados_items::{Item, between, next_item, next_word};
use std::alloc::{AllocError, Global};

/// A word: a text in quotes, or a touching run of words and equal signs.
#[derive(Clone, Copy)]
pub struct Word {
    /// Where it begins, with its quote if it has one.
    pub from: usize,
    /// Where its first piece ends, up to `=`, which may be the name of an option; for a text in quotes its beginning.
    pub name_to: usize,
    /// Where it ends, after its quote if it has one.
    pub to: usize,
}

impl Word {
    /// The word is one piece without `=`, as the name of a switch is.
    pub fn is_whole(&self) -> bool
        ensures { result ≡ (self.now.name_to == self.now.to) }
    {
        self.name_to == self.to
    }
}

// A part of a line: a word, or what a redirection names.
#[derive(Clone, Copy)]
enum Part {
    // A word that its command reads as an argument.
    Argument(Word),
    // The name of a redirection, after its sign.
    Redirection(Word),
}

impl Part {
    // Where it ends.
    fn end(&self) -> usize
        ensures { result ≡ part_end self.now }
    {
        match self {
            Part::Argument(word) => word.to,
            Part::Redirection(name) => name.to,
        }
    }

    // The word, if it is an argument.
    fn argument(&self) -> Option<Word>
        ensures { result ≡ argument_of self.now }
    {
        match self {
            Part::Argument(word) => Some(*word),
            Part::Redirection(_) => None,
        }
    }

    // The name, if it is that of a redirection.
    fn redirected(&self) -> Option<Word>
        ensures { result ≡ redirected_of self.now }
    {
        match self {
            Part::Argument(_) => None,
            Part::Redirection(name) => Some(*name),
        }
    }
}

/// The words of a line that its command reads as arguments: those that are no redirections, up to its end, to a comment, to a quote that is
/// open or to a redirection without a name.
pub fn argument_words(alloc: Global, line: &[u8]) -> Result<Vec<Word>, AllocError>
    ensures { IfOk result (λ words. words.items ≡ argument_words line.now) }
{
    let parts = parts_of(alloc, line)?;
    parts
        .iter()
        .filter_map(|part| part.argument())
        .collect(alloc)
}

/// The names after the redirections of a line, as far as `argument_words` reads the line.
pub fn redirected_words(alloc: Global, line: &[u8]) -> Result<Vec<Word>, AllocError>
    ensures { IfOk result (λ words. words.items ≡ redirected_words line.now) }
{
    let parts = parts_of(alloc, line)?;
    parts
        .iter()
        .filter_map(|part| part.redirected())
        .collect(alloc)
}

/// A redirection is in the line.
pub fn has_redirection(line: &[u8]) -> bool
    ensures { result ≡ has_redirection line.now }
{
    let mut place = 0;
    for step in 0..line.len() {
        match word_at(line, place) {
            None => return false,
            Some(word) => {
                if sign_width(line, word) > 0 {
                    return true;
                }
                place = word.to;
            }
        }
    }
    false
}

// The parts of a line, up to its end, to a comment, to a quote that is open or to a redirection without a name.
fn parts_of(alloc: Global, line: &[u8]) -> Result<Vec<Part>, AllocError>
    ensures { IfOk result (λ parts. parts.items ≡ parts_of line.now) }
{
    let mut parts = Vec::new(alloc);
    let mut place = 0;
    for step in 0..line.len() {
        let Some(part) = part_at(line, place) else {
            return Ok(parts);
        };
        parts.push(part)?;
        place = part.end();
    }
    Ok(parts)
}

// The first part of a line from a place on.
fn part_at(line: &[u8], place: usize) -> Option<Part>
    ensures { result ≡ part_at line.now place }
{
    let word = word_at(line, place)?;
    match sign_width(line, word) {
        0 => Some(Part::Argument(word)),
        width => name_after(line, word.from + width).map(Part::Redirection),
    }
}

// The word at a place.
fn word_at(line: &[u8], place: usize) -> Option<Word>
    ensures value { result ≡ word_at line.now place }
    ensures within { IfSome result (λ word. word.from ≤ length line.now) }
{
    match next_item(line, place) {
        Item::Word { from, to } => Some(Word {
            from,
            name_to: to,
            to: run_end(line, to),
        }),
        Item::Equal(at) => Some(Word {
            from: at,
            name_to: at,
            to: run_end(line, at + 1),
        }),
        Item::Quoted { from, to } => Some(Word {
            from: from.saturating_sub(1),
            name_to: from.saturating_sub(1),
            to: to + 1,
        }),
        Item::End(_) | Item::Unmatched(_) => None,
    }
}

// Where a run ends that goes up to a place at least.
fn run_end(line: &[u8], place: usize) -> usize
    ensures { result ≡ run_end line.now place }
{
    let mut end = place;
    for step in 0..line.len() {
        match next_end_of_run(line, end) {
            Some(to) => end = to,
            None => return end,
        }
    }
    end
}

// Where the item ends with which a run goes on from a place; `None` if it ends there.
fn next_end_of_run(line: &[u8], end: usize) -> Option<usize>
    ensures { result ≡ next_end_of_run end (item_at true line.now end) }
{
    match next_item(line, end) {
        Item::Word { from, to } => (from == end).then_some(to),
        Item::Equal(at) => (at == end).then_some(at + 1),
        Item::Quoted { .. } | Item::End(_) | Item::Unmatched(_) => None,
    }
}

// How many bytes the redirection sign has with which a word begins; 0 if it begins with none. A word `<name>`
// is a value of the script's arguments.
fn sign_width(line: &[u8], word: Word) -> usize
    ensures value { result ≡ sign_width (bytes_between line.now word.from word.to) }
    ensures short { result ≤ 2 }
{
    match between(line, word.from, word.to) {
        [b'>', b'>', ..] => 2,
        [b'>', ..] => 1,
        [b'<', rest @ ..] if !rest.contains(&b'>') => 1,
        _ => 0,
    }
}

// The name of a redirection whose sign ends at a place.
fn name_after(line: &[u8], place: usize) -> Option<Word>
    ensures { result ≡ name_after (item_at false line.now place) }
{
    match next_word(line, place) {
        Item::Word { from, to } => Some(Word {
            from,
            name_to: to,
            to,
        }),
        Item::Quoted { from, to } => Some(Word {
            from: from.saturating_sub(1),
            name_to: from.saturating_sub(1),
            to: to + 1,
        }),
        Item::Equal(_) | Item::End(_) | Item::Unmatched(_) => None,
    }
}
