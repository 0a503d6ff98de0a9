//! The phrase of a Lab line: the words behind its first one, with one blank between two.
ghost use Rattle.std.specs.{Prelude.{◌≡◌, ◌+◌, ◌++◌, [], ◌∷◌, true, false, length, drop, if◌then◌else◌, IfOk, OnOk}, Option.{option_map}};
ghost use Rattle.ados_items.specs.Items.{item_at, value_of};
ghost use Rattle.ados_script.specs.Phrases.{piece_of, phrase_of, spaced_from};

use ados_items::{Item, next_item, value};
use ados_text::{Name, NoMemory, Text};
use std::alloc::Global;

/// A word, a quoted text or an equal sign of a line, by its places.
#[derive(Clone, Copy)]
pub struct Piece {
    /// Where it begins; that of a quoted text is after its quote.
    pub from: usize,
    /// Where what follows it begins.
    pub to: usize,
    /// A word or an equal sign that touches it at its end is of the same word.
    pub runs: bool,
}

/// The phrase of a Lab line; empty if no word follows the first one. `NoMemory` only if an allocation fails.
pub fn read_phrase(alloc: Global, line: &Text) -> Result<Name, NoMemory>
    ensures { IfOk result (λ text. text ≡ phrase_of line.now) }
{
    let bytes = line.as_bytes();
    let text = match next_item(bytes, 0) {
        Item::Word { to, .. } => words_from(alloc, bytes, to)?,
        _ => Text::new(alloc),
    };
    Ok(Name::new(text))
}

// The words from a place on, with one blank between two.
fn words_from(alloc: Global, line: &[u8], place: usize) -> Result<Text, NoMemory>
    ensures { IfOk result (λ text. text ≡ drop 1 (spaced_from (length line.now + 1) line.now false place)) }
{
    let spaced = spaced_words(alloc, line, place)?;
    match spaced.as_bytes().len() {
        0 => Ok(spaced),
        len => spaced.part(1, len),
    }
}

// The words from a place on, each after a blank.
fn spaced_words(alloc: Global, line: &[u8], from: usize) -> Result<Text, NoMemory>
    ensures { IfOk result (λ text. text ≡ spaced_from (length line.now + 1) line.now false from) }
{
    let mut spaced = Text::new(alloc);
    let mut place = from;
    let mut runs = false;
    for step in 0..line.len() + 1 {
        let Some((item, piece)) = piece_at(line, place) else {
            return Ok(spaced);
        };
        push_piece(alloc, &mut spaced, line, &item, runs && piece.from == place)?;
        place = piece.to;
        runs = piece.runs;
    }
    Ok(spaced)
}

// Adds the text of an item, after a blank if it does not go on with the word before it.
fn push_piece(
    alloc: Global,
    spaced: &mut Text,
    line: &[u8],
    item: &Item,
    goes_on: bool,
) -> Result<(), NoMemory>
    ensures { OnOk result (spaced.new ≡ (spaced.old ++ (if goes_on then [] else 32 ∷ [])) ++ value_of line.now item.now) }
{
    let text = value(alloc, line, item)?;
    if !goes_on {
        spaced.push(b' ')?;
    }
    spaced.push_bytes(text.as_bytes())
}

// The item at a place, and the piece that it is; none at the end of the line, and for an open quote.
fn piece_at(line: &[u8], place: usize) -> Option<(Item, Piece)>
    ensures { result ≡ option_map (λ piece. (item_at true line.now place, piece)) (piece_of (item_at true line.now place)) }
{
    let item = next_item(line, place);
    let piece = match item {
        Item::Word { from, to } => Piece {
            from,
            to,
            runs: true,
        },
        Item::Equal(place) => Piece {
            from: place,
            to: place + 1,
            runs: true,
        },
        Item::Quoted { from, to } => Piece {
            from,
            to: to + 1,
            runs: false,
        },
        Item::End(_) | Item::Unmatched(_) => return None,
    };
    Some((item, piece))
}
