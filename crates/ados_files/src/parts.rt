// Where a text stands in another; case is ignored.
ghost use Rattle.std.specs.Prelude.{◌≡◌};
ghost use Rattle.ados_files.specs.Parts.{begins_with, stands_in};

use ados_text::{at_most, same_name, without};

/// Whether a text stands in another, however long that is.
#[tactic(auto, using(crate::proofs::PartLemmas::stands_next, crate::proofs::PartLemmas::stands_here, crate::proofs::PartLemmas::stands_end))]
pub fn stands_in(part: &[u8], text: &[u8]) -> bool
    ensures { result ≡ stands_in part.now text.now }
{
    for start in 0..text.len() {
        if begins_with(part, without(text, start)) {
            return true;
        }
    }
    begins_with(part, &[])
}

// Whether a text begins with another.
fn begins_with(part: &[u8], text: &[u8]) -> bool
    ensures { result ≡ begins_with part.now text.now }
{
    same_name(part, at_most(text, part.len()))
}
