// The parts of a line of a file, and the numbers in it.
ghost use Rattle.std.specs.Prelude.{◌≡◌, ◌<◌, length, position, IfSome, option_map};
ghost use Rattle.ados_text.specs.Text.{IsText};
ghost use Rattle.ados_session.specs.Parts.{is_space, split_at_space, unsigned_number};

use ados_text::bounded_number;

/// The bytes before the first space and those after it; `None` if there is no space.
#[tactic(auto, using(ados_text::proofs::TextLemmas::parts))]
pub fn parted(line: &[u8]) -> Option<(&[u8], &[u8])>
    requires { IsText line.now }
    ensures value { option_map (λ p. (p.0.now, p.1.now)) result ≡ split_at_space line.now }
    ensures ascii { IfSome result (λ p. IsText p.1.now) }
{
    let end = space(line)?;
    Some((&line[..end], &line[end + 1..]))
}

// The place of the first space.
fn space(line: &[u8]) -> Option<usize>
    ensures value { result ≡ position is_space line.now }
    ensures within { IfSome result (λ place. place < length line.now) }
{
    line.iter().position(|byte| *byte == b' ')
}

/// The number that digits without a sign write, if they write one.
pub fn unsigned_number(digits: &[u8]) -> Option<u32>
    ensures { result ≡ unsigned_number digits.now }
{
    if matches!(digits, [b'-', ..]) {
        return None;
    }
    bounded_number(digits).and_then(|number| u32::try_from(number).ok())
}
