// The first pair of back-ticks in a line.
ghost use Rattle.std.specs.Prelude.{◌≡◌, ◌≤◌, ◌<◌, length, position, IfSome};
ghost use Rattle.ados_text.specs.Text.{IsText};
ghost use Rattle.ados_line.specs.{Answers.{Gives}, Letters.{letter_bytes}, Ticks.{is_tick, within_bytes, split_at_pair, split_after_bytes}};

use crate::faults::LineFault;
use crate::letters::{Letter, read_letters};
use crate::lines::Tick;
use crate::references::is_plain;
use crate::spelling::{push_bared, push_spelled};
use ados_text::Text;
use std::alloc::Global;

/// A line at its first pair of back-ticks.
#[derive(Drop)]
pub enum Parted {
    /// It has none: the line without the stars before back-ticks.
    Whole(Text),
    /// The text before the pair, between the two and after it.
    Ticked(Tick),
}

/// Splits a line at the first pair of back-ticks after its first `size` bytes, which stay as they are.
///
/// Inside quotes a star before a back-tick is removed, and the back-tick stands for itself. Gives `UnmatchedQuotes` for
/// a single back-tick.
pub fn part_after(alloc: Global, line: &[u8], size: usize) -> Result<Parted, LineFault>
    requires { IsText line.now }
    ensures { Gives result (split_after_bytes size line.now) }
{
    let letters = read_letters(alloc, line)?;
    let count = count_within(&letters, size);
    let mut kept = Text::new(alloc);
    push_spelled(&mut kept, &letters[..count])?;
    part(alloc, kept, &letters[count..])
}

// Splits the characters at their first two back-ticks, after a text that is kept as it is.
fn part(alloc: Global, kept: Text, letters: &[Letter]) -> Result<Parted, LineFault>
    ensures { Gives result (split_at_pair kept letters.now) }
{
    let mut before = kept;
    let Some(first) = tick(letters) else {
        push_bared(&mut before, letters, b'`')?;
        return Ok(Parted::Whole(before));
    };
    push_bared(&mut before, &letters[..first], b'`')?;
    let rest = &letters[first + 1..];
    let Some(second) = tick(rest) else {
        return Err(LineFault::UnmatchedQuotes);
    };
    let mut command = Text::new(alloc);
    push_bared(&mut command, &rest[..second], b'`')?;
    let mut after = Text::new(alloc);
    push_spelled(&mut after, &rest[second + 1..])?;
    Ok(Parted::Ticked(Tick {
        before,
        command,
        after,
    }))
}

// The place of the first back-tick without a star before it.
fn tick(letters: &[Letter]) -> Option<usize>
    ensures place { result ≡ position is_tick letters.now }
    ensures within { IfSome result (λ place. place < length letters.now) }
{
    letters.iter().position(|letter| is_plain(*letter, b'`'))
}

// How many characters end within `size` bytes.
fn count_within(letters: &[Letter], size: usize) -> usize
    ensures value { result ≡ within_bytes size letters.now }
    ensures within { result ≤ length letters.now }
{
    let mut left = size;
    for place in 0..letters.len() {
        let width = width(letters[place]);
        if width > left {
            return place;
        }
        left -= width;
    }
    letters.len()
}

// How many bytes a character has.
fn width(letter: Letter) -> usize
    ensures { result ≡ length (letter_bytes letter) }
{
    match letter {
        Letter::Plain(_) => 1,
        Letter::Starred(_) => 2,
    }
}
