//! Which single bytes a part of a pattern matches; case is ignored.

ghost use Rattle.std.specs.Prelude.{◌≡◌};
ghost use Rattle.ados_pattern.specs.{Form.{form_of}, Matches.{in_range}, Range.{is_between_of, upper_of}, CharTest.{has_test, test_in, test_of}};

use crate::parts::Part;
use ados_text::fold;

/// A part that matches one character, by a test of it.
#[derive(Clone, Copy)]
pub enum CharTest {
    /// The character.
    Is(u8),
    /// Any character.
    Any,
    /// The characters of a range, both ends included.
    Within(u8, u8),
}

impl CharTest {
    /// The test of a part that matches one character and contains no other part.
    pub fn of(part: &Part) -> Option<CharTest>
        ensures { result ≡ test_in (form_of part.now) }
    {
        match part {
            Part::Char(c) => Some(CharTest::Is(*c)),
            Part::Any => Some(CharTest::Any),
            Part::Range(low, high) => Some(CharTest::Within(*low, *high)),
            _ => None,
        }
    }

    /// Whether there is a byte and it passes the test.
    pub fn holds(self, byte: Option<u8>) -> bool
        ensures { result ≡ has_test (test_of self) byte }
    {
        match byte {
            None => false,
            Some(byte) => self.holds_of(byte),
        }
    }

    fn holds_of(self, byte: u8) -> bool
        ensures { result ≡ test_of self byte }
    {
        match self {
            CharTest::Is(c) => fold(c) == fold(byte),
            CharTest::Any => true,
            CharTest::Within(low, high) => is_in_range(low, high, byte),
        }
    }
}

// A character folds as the byte does if it is the byte in lower or in upper case.
#[tactic(auto, using(crate::proofs::Ranges::two_members))]
fn is_in_range(low: u8, high: u8, byte: u8) -> bool
    ensures { result ≡ in_range low high byte }
{
    let has_lower = is_between(low, high, fold(byte));
    let has_upper = is_between(low, high, raised(byte));
    has_lower || has_upper
}

fn is_between(low: u8, high: u8, byte: u8) -> bool
    ensures { result ≡ is_between_of low high byte }
{
    low <= byte && byte <= high
}

fn raised(byte: u8) -> u8
    ensures { result ≡ upper_of byte }
{
    byte.to_ascii_uppercase()
}
