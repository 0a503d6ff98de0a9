// What a reference stands for.
ghost use Rattle.std.specs.{Prelude.{◌≡◌, IfSome}, List.{position_or_len}, Option.{option_copied}};
ghost use Rattle.ados_text.specs.Text.{IsText};
ghost use Rattle.ados_subst.specs.References.{is_byte, reference_value};

use crate::above::Above;
use ados_text::Text;

/// What the text of a reference stands for, with the shell's number; `None` if it refers to nothing. The place is that
/// of the first dollar in the text; if there is none, it is the text's length.
#[tactic(auto, using(ados_text::proofs::TextLemmas::parts))]
pub fn referred<'a>(
    above: &'a Above,
    process: &'a Text,
    text: &'a [u8],
    place: usize,
) -> Option<&'a [u8]>
    requires text { IsText text.now }
    requires place { place ≡ position_or_len (is_byte above.now.marks.dollar) text.now }
    ensures value { option_copied result ≡ reference_value above.now process.now text.now }
    ensures ascii { IfSome result (λ value. IsText value.now) }
{
    let dollar = above.marks.dollar;
    if text == [dollar, dollar].as_slice() {
        return Some(process.as_bytes());
    }
    if let Some(slot) = above.slot(text) {
        return Some(slot.value());
    }
    if place == text.len() {
        return None;
    }
    let slot = above.slot(&text[..place])?;
    Some(slot.value_or(&text[place + 1..]))
}
