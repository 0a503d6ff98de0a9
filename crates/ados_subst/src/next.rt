// The next of certain bytes in a line.
ghost use Rattle.std.specs.{Prelude.{◌≡◌, ◌+◌, ◌<◌, ◌≤◌, length}, List.{position_or_len}};
ghost use Rattle.ados_subst.specs.{Next.{next_place}, References.{is_byte}};

/// The place of the first such byte; if there is none, the text's length.
pub fn place_or_len(byte: u8, text: &[u8]) -> usize
    ensures value { result ≡ position_or_len (is_byte byte) text.now }
    ensures within { result ≤ length text.now }
{
    text.iter().take_while(|b| **b != byte).count()
}

/// The place of the first such byte after a place, given that of the first at or after it; if there is none, the line's
/// length. It only searches from one such byte to the next, so that along a line each byte is looked at once.
#[tactic(auto, using(crate::proofs::NextLemmas::next))]
pub fn next_place(byte: u8, line: &[u8], place: usize, here: usize) -> usize
    requires place { place < length line.now }
    requires here { here ≡ next_place byte line.now place }
    ensures value { result ≡ next_place byte line.now (place + 1) }
    ensures within { (place < result) × (result ≤ length line.now) }
{
    if here > place {
        return here;
    }
    let from = place + 1;
    from + place_or_len(byte, &line[from..])
}
