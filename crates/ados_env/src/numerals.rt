// The numbers that runs of digits write.
ghost use Rattle.std.specs.{Prelude.{◌≡◌}, List.{prefix_len}};
ghost use Rattle.ados_env.specs.Numerals.{based_sum, bits_checked, digit_value, digits_in, digits_value, is_digit_in, number_written};

use ados_text::{at_most, fold};

/// A number's base.
#[derive(Clone, Copy)]
pub enum Base {
    Octal,
    Decimal,
    Hexadecimal,
}

impl Base {
    /// The digits of the base with which bytes begin.
    pub fn digits_in(self, bytes: &[u8]) -> &[u8]
        ensures { result.now ≡ digits_in self bytes.now }
    {
        at_most(bytes, self.digits_len(bytes))
    }

    // How many digits of the base bytes begin with.
    fn digits_len(self, bytes: &[u8]) -> usize
        ensures { result ≡ prefix_len (is_digit_in self) bytes.now }
    {
        bytes
            .iter()
            .take_while(|byte| self.has_digit(**byte))
            .count()
    }

    // The byte is a digit of the base.
    fn has_digit(self, byte: u8) -> bool
        ensures { result ≡ is_digit_in self byte }
    {
        match self {
            Base::Octal => b'0' <= byte && byte <= b'7',
            Base::Decimal => byte.is_ascii_digit(),
            Base::Hexadecimal => byte.is_ascii_hexdigit(),
        }
    }

    /// The number that digits of the base write: there is one digit at least, and the number has at most 32 bits.
    pub fn number(self, digits: &[u8]) -> Option<u32>
        ensures { result ≡ number_written self digits.now }
    {
        match digits {
            [] => None,
            [_, ..] => self.value(0, digits),
        }
    }

    // The number that digits write after those that write a value.
    fn value(self, value: u32, digits: &[u8]) -> Option<u32>
        ensures { result ≡ digits_value self value digits.now }
    {
        match digits {
            [] => Some(value),
            [digit, rest @ ..] => self.value(self.sum(value, *digit)?, rest),
        }
    }

    // The number with one more digit.
    fn sum(self, value: u32, digit: u8) -> Option<u32>
        ensures { result ≡ bits_checked (based_sum self value (digit_value digit)) }
    {
        let value = u64::from(value);
        let moved = match self {
            Base::Octal => value * 8,
            Base::Decimal => value * 10,
            Base::Hexadecimal => value * 16,
        };
        u32::try_from(moved + u64::from(digit_value(digit))).ok()
    }
}

// What a digit is worth; a letter of either case is one of a hexadecimal number.
fn digit_value(digit: u8) -> u8
    ensures { result ≡ digit_value digit }
{
    if digit < 58 {
        digit.saturating_sub(48)
    } else {
        fold(digit).saturating_sub(87)
    }
}
