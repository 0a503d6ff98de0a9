// The pieces of a path's text, between its colon and its slashes.
ghost use Rattle.std.specs.{Prelude.{◌≡◌, ◌≤◌, ◌<◌, ◌-◌, IfOk, IfSome, length, take, drop, position}, List.{list_all, slice_split, suffix_len}};
ghost use Rattle.ados_names.specs.{Names.{is_colon, is_slash}, Path.{path_step, steps_of, is_path_piece, is_piece_byte, last_piece_of}};

use crate::names::are_a_name;
use crate::steps::{SHORT, Step};
use ados_text::{NoMemory, Text};
use smallvec::SmallVec;
use std::alloc::Global;

/// The place of the first colon.
pub fn colon(text: &[u8]) -> Option<usize>
    ensures place { result ≡ position is_colon text.now }
    ensures within { IfSome result (λ place. place < length text.now) }
{
    text.iter().position(|byte| *byte == b':')
}

// The place of the first slash.
fn slash(text: &[u8]) -> Option<usize>
    ensures place { result ≡ position is_slash text.now }
    ensures within { IfSome result (λ place. place < length text.now) }
{
    text.iter().position(|byte| *byte == b'/')
}

/// The bytes are empty or a name.
pub fn is_path_piece(piece: &[u8]) -> bool
    ensures { result ≡ is_path_piece piece.now }
{
    piece.is_empty() || are_a_name(piece)
}

/// Each piece of a text is empty or a name.
pub fn are_pieces(text: &[u8]) -> bool
    ensures { result ≡ list_all is_path_piece (slice_split is_slash text.now) }
{
    text.split(|byte| *byte == b'/').all(is_path_piece)
}

// The step of the piece between two places.
fn step(text: &Text, from: usize, to: usize) -> Result<Step, NoMemory>
    requires ordered { from ≤ to }
    requires within { to ≤ length text.now }
    ensures { IfOk result (λ step. step ≡ path_step (take (to - from) (drop from text.now))) }
{
    if from == to {
        Ok(Step::Up)
    } else {
        Ok(Step::Name(text.part(from, to)?))
    }
}

/// The steps of a text from a place on.
pub fn steps(alloc: Global, text: &Text, start: usize) -> Result<SmallVec<Step, SHORT>, NoMemory>
    requires { start ≤ length text.now }
    ensures { IfOk result (λ steps. steps.items ≡ steps_of (slice_split is_slash (drop start text.now))) }
{
    let bytes = text.as_bytes();
    let mut steps = SmallVec::new(alloc);
    let mut from = start;
    while let Some(length) = slash(&bytes[from..]) {
        steps.push(step(text, from, from + length)?)?;
        from += length + 1;
    }
    if from == bytes.len() {
        return Ok(steps);
    }
    steps.push(step(text, from, bytes.len())?)?;
    Ok(steps)
}

// The byte does not separate pieces.
fn is_piece_byte(byte: u8) -> bool
    ensures { result ≡ is_piece_byte byte }
{
    byte != b':' && byte != b'/'
}

// How many bytes the last piece has.
fn last_len(text: &[u8]) -> usize
    ensures value { result ≡ suffix_len is_piece_byte text.now }
    ensures within { result ≤ length text.now }
{
    text.iter()
        .rev()
        .take_while(|byte| is_piece_byte(**byte))
        .count()
}

/// The place in a path's text at which its last piece begins: after the last colon or slash, or at the text's
/// beginning. The text before it names a path if the whole text does; before the last piece of `a:b:c`, which
/// names none, is `a:b:`, which names none either.
pub fn last_piece(text: &Text) -> usize
    ensures place { result ≡ last_piece_of text.now }
    ensures within { result ≤ length text.now }
{
    let bytes = text.as_bytes();
    bytes.len() - last_len(bytes)
}
