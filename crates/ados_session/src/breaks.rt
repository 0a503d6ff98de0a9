// The breaks that a recording writes.
ghost use Rattle.std.specs.Prelude.{◌≡◌, ◌++◌, ◌∷◌, [], true, IfOk, OnErr};
ghost use Rattle.ados_text.specs.Text.{IsText};
ghost use Rattle.ados_session.specs.Breaks.{are_rising, break_of, kind_of, last_event, bounded_number};

use crate::parts::{parted, unsigned_number};
use ados_machine::BreakAt;
use ados_text::NoMemory;
use ados_world::BreakKind;

// The highest number of an event that a break may name.
const EVENTS: u64 = 1_000_000_000;

// The highest number of a shell.
const SHELLS: u8 = 20;

/// The break that a text writes, if it writes one: the number of an event, that of a shell, and `C` or `D`.
pub fn break_of(text: &[u8]) -> Option<BreakAt>
    requires { IsText text.now }
    ensures { result ≡ break_of text.now }
{
    let (event, rest) = parted(text)?;
    let (shell, kind) = parted(rest)?;
    Some(BreakAt {
        event: event_in(event)?,
        shell: shell_in(shell)?,
        kind: kind_of(kind)?,
    })
}

/// Adds a break; `false` if it names an earlier event than the one before it. At `NoMemory` the list is unchanged.
pub fn add_break(breaks: &mut Vec<BreakAt>, at: BreakAt) -> Result<bool, NoMemory>
    requires { are_rising breaks.old.items ≡ true }
    ensures rising { IfOk result (λ is_rising. is_rising ≡ are_rising (breaks.old.items ++ at ∷ [])) }
    ensures breaks { IfOk result (λ _. breaks.new.items ≡ breaks.old.items ++ at ∷ []) }
    ensures err { OnErr result (breaks.new.items ≡ breaks.old.items) }
{
    let is_rising = last_event(breaks.as_slice()) <= at.event;
    breaks.push(at)?;
    Ok(is_rising)
}

// The event that the last break names, 0 if there is none.
fn last_event(breaks: &[BreakAt]) -> u64
    ensures { result ≡ last_event 0 breaks.now }
{
    match breaks {
        [.., last] => last.event,
        [] => 0,
    }
}

// The number of an event.
fn event_in(digits: &[u8]) -> Option<u64>
    ensures { result ≡ bounded_number 1_000_000_000 digits.now }
{
    unsigned_number(digits)
        .map(u64::from)
        .filter(|number| (1..=EVENTS).contains(number))
}

// The number of a shell.
fn shell_in(digits: &[u8]) -> Option<u8>
    ensures { result ≡ bounded_number 20 digits.now }
{
    unsigned_number(digits)
        .and_then(|number| u8::try_from(number).ok())
        .filter(|number| (1..=SHELLS).contains(number))
}

// The kind of a break.
fn kind_of(word: &[u8]) -> Option<BreakKind>
    ensures { result ≡ kind_of word.now }
{
    if word == b"C".as_slice() {
        Some(BreakKind::C)
    } else if word == b"D".as_slice() {
        Some(BreakKind::D)
    } else {
        None
    }
}
