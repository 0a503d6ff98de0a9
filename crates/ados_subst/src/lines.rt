// A line with its references replaced.
ghost use Rattle.std.specs.{Prelude.{◌≡◌, ◌<◌, ◌++◌, IfOk}, List.{position_or_len}};
ghost use Rattle.ados_text.specs.Text.{IsText};
ghost use Rattle.ados_subst.specs.{References.{is_byte, reference_value}, Lines.{first_segment, segment_tail_len, segment_text, substituted_line}};

use crate::above::Above;
use crate::next::{next_place, place_or_len};
use crate::references::referred;
use ados_text::{NoMemory, Text};
use std::alloc::Global;

/// A line with its references replaced by what they stand for.
pub fn substituted(
    alloc: Global,
    above: &Above,
    process: &Text,
    line: &[u8],
) -> Result<Text, NoMemory>
    requires { IsText line.now }
    ensures { IfOk result (λ text. text ≡ substituted_line above.now.marks (reference_value above.now process.now) line.now) }
{
    let mut text = Text::new(alloc);
    let mut taken = 0;
    let mut ket = place_or_len(above.marks.ket, line);
    let mut dollar = place_or_len(above.marks.dollar, line);
    for place in 0..line.len() {
        ket = next_place(above.marks.ket, line, place, ket);
        dollar = next_place(above.marks.dollar, line, place, dollar);
        if taken > 0 {
            taken -= 1;
        } else {
            let from = place + 1;
            let rest = Rest {
                bytes: &line[from..],
                ket: ket - from,
                dollar: dollar - from,
            };
            taken = push_segment(above, process, line[place], rest, &mut text)?;
        }
    }
    Ok(text)
}

// What follows a byte of a line.
#[derive(Clone, Copy)]
struct Rest<'a> {
    bytes: &'a [u8],
    // The place of its first ket; if there is none, its length.
    ket: usize,
    // The place of its first dollar; if there is none, its length.
    dollar: usize,
}

// Adds the text of the segment that begins with a byte; returns how many of the rest belong to it.
#[tactic(auto, using(ados_text::proofs::TextLemmas::parts))]
fn push_segment(
    above: &Above,
    process: &Text,
    byte: u8,
    rest: Rest,
    text: &mut Text,
) -> Result<usize, NoMemory>
    requires byte { byte < 128 }
    requires rest { IsText rest.bytes.now }
    requires ket { rest.ket ≡ position_or_len (is_byte above.now.marks.ket) rest.bytes.now }
    requires dollar { rest.dollar ≡ position_or_len (is_byte above.now.marks.dollar) rest.bytes.now }
    ensures { let segment = first_segment above.now.marks (reference_value above.now process.now) byte rest.entry.bytes.now in
        IfOk result (λ count. (count ≡ segment_tail_len segment) × (text.new ≡ text.old ++ segment_text segment)) }
{
    if byte == above.marks.bra && rest.ket < rest.bytes.len() {
        let name = &rest.bytes[..rest.ket];
        if let Some(value) = referred(above, process, name, rest.dollar.min(rest.ket)) {
            text.push_bytes(value)?;
            return Ok(rest.ket + 1);
        }
    }
    text.push(byte)?;
    Ok(0)
}
