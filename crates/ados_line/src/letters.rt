// The characters of a line: inside quotes a star and the byte after it are one.
ghost use Rattle.std.specs.{Prelude.{◌≡◌, ◌++◌, ℕ, List, true, false, IfOk, OnOk}, List.{flat_map}};
ghost use Rattle.ados_text.specs.Text.{IsText};
ghost use Rattle.ados_items.specs.Items.{item_at};
ghost use Rattle.ados_line.specs.{declared.letters.Letter.{Letter}, Letters.{plain_letters, starred_letters, letters_after_item, letters_of, following_letters, letter_bytes}};

use ados_items::{Item, between, next_item};
use ados_text::NoMemory;
use std::alloc::Global;

/// A character of a line, as it is read inside or outside quotes.
#[derive(Clone, Copy, PartialEq, Eq)]
pub enum Letter {
    /// This byte.
    Plain(u8),
    /// Inside quotes, a star and this byte after it.
    Starred(u8),
}

/// The characters of a line: inside quotes a star and the byte after it are one, anything else is a byte on its own.
/// Written one after another, they are the line.
pub fn read_letters(alloc: Global, line: &[u8]) -> Result<Vec<Letter>, NoMemory>
    requires { IsText line.now }
    ensures letters { IfOk result (λ letters. letters.items ≡ letters_of line.now) }
    ensures written { IfOk result (λ letters. flat_map letter_bytes letters.items ≡ line.now) }
{
    let mut letters = Vec::with_capacity(alloc, line.len())?;
    let mut place = 0;
    for step in 0..line.len() + 1 {
        match push_item(&mut letters, line, place)? {
            Some(to) => place = to,
            None => return Ok(letters),
        }
    }
    Ok(letters)
}

// Appends the characters from a place up to the end of the item there; gives that end, if anything may follow it.
fn push_item(
    letters: &mut Vec<Letter>,
    line: &[u8],
    place: usize,
) -> Result<Option<usize>, NoMemory>
    requires { IsText line.now }
    ensures { (next : ℕ → List Letter) →
        IfOk result (λ to. letters.old.items ++ letters_after_item next line.now place (item_at true line.now place) ≡ letters.new.items ++ following_letters next to) }
{
    match next_item(line, place) {
        Item::Word { to, .. } => {
            push_singly(letters, between(line, place, to))?;
            Ok(Some(to))
        }
        Item::Quoted { from, to } => {
            push_singly(letters, between(line, place, from))?;
            push_paired(letters, between(line, from, to))?;
            push_singly(letters, between(line, to, to + 1))?;
            Ok(Some(to + 1))
        }
        Item::Equal(at) => {
            push_singly(letters, between(line, place, at + 1))?;
            Ok(Some(at + 1))
        }
        Item::End(_) => {
            push_singly(letters, between(line, place, line.len()))?;
            Ok(None)
        }
        Item::Unmatched(from) => {
            push_singly(letters, between(line, place, from))?;
            push_paired(letters, between(line, from, line.len()))?;
            Ok(None)
        }
    }
}

// Appends bytes outside quotes.
fn push_singly(letters: &mut Vec<Letter>, bytes: &[u8]) -> Result<(), NoMemory>
    ensures { OnOk result (letters.new.items ≡ letters.old.items ++ plain_letters bytes.now) }
{
    for byte in bytes {
        letters.push(Letter::Plain(*byte))?;
    }
    Ok(())
}

// Appends bytes inside quotes.
fn push_paired(letters: &mut Vec<Letter>, bytes: &[u8]) -> Result<(), NoMemory>
    ensures { OnOk result (letters.new.items ≡ letters.old.items ++ starred_letters false bytes.now) }
{
    let mut starred = false;
    for byte in bytes {
        if starred {
            letters.push(Letter::Starred(*byte))?;
            starred = false;
        } else if *byte == b'*' {
            starred = true;
        } else {
            letters.push(Letter::Plain(*byte))?;
        }
    }
    if starred {
        letters.push(Letter::Plain(b'*'))?;
    }
    Ok(())
}
