// The cut of a whole line.
ghost use Rattle.std.specs.{Prelude.{◌≡◌, false, Ok, IfOk}, List.{list_any}};
ghost use Rattle.ados_text.specs.Text.{IsText};
ghost use Rattle.ados_line.specs.{Cut.{cut_of}, Signs.{is_mark}, Steps.{IsCut}};

use crate::cuts::{Cut, Reading};
use crate::faults::LineFault;
use ados_items::{Item, next_item};
use ados_text::NoMemory;
use std::alloc::Global;

/// The cut of a line of ASCII, or the first fault in it.
pub fn cut_line(alloc: Global, line: &[u8]) -> Result<Cut, LineFault>
    requires { IsText line.now }
    ensures { IsCut result (cut_of line.now) }
{
    if has_mark(line) {
        cut_items(alloc, line)
    } else {
        Ok(cut_plain(alloc, line)?)
    }
}

/// The cut of a line of ASCII without quotes and signs, as nearly all are: the text after the command is taken unchanged.
#[tactic(auto, using(crate::proofs::PlainLemmas::plain_cut))]
pub fn cut_plain(alloc: Global, line: &[u8]) -> Result<Cut, NoMemory>
    requires ascii { IsText line.now }
    requires plain { list_any is_mark line.now ≡ false }
    ensures { IfOk result (λ read. cut_of line.now ≡ Ok read) }
{
    let item = next_item(line, 0);
    match item {
        Item::Word { to, .. } => Cut::of_command(alloc, line, &item, to),
        Item::Equal(at) => Cut::of_command(alloc, line, &item, at + 1),
        _ => Ok(Cut::of_nothing(alloc)),
    }
}

// The cut of a line, item by item.
fn cut_items(alloc: Global, line: &[u8]) -> Result<Cut, LineFault>
    requires { IsText line.now }
    ensures { IsCut result (cut_of line.now) }
{
    let mut read = Cut::of_nothing(alloc);
    let mut place = 0;
    for step in 0..line.len() + 1 {
        match read.take_next(alloc, line, place)? {
            Reading::Onward(to) => place = to,
            Reading::Done => return Ok(read),
        }
    }
    Ok(read)
}

// Whether a line holds a quote or the sign of a redirection.
fn has_mark(line: &[u8]) -> bool
    ensures { result ≡ list_any is_mark line.now }
{
    line.iter().any(is_mark)
}

// Whether a byte is a quote, or a byte of the sign of a redirection.
fn is_mark(byte: &u8) -> bool
    ensures { result ≡ is_mark byte.now }
{
    matches!(*byte, b'"' | b'<' | b'>')
}
