//! The options whose values are numbers.
ghost use Rattle.std.specs.{Prelude.{◌≡◌, ◌≤◌, IfOk, IfSome, is_some}, Option.{option_or}};
ghost use Rattle.clap.specs.Matches.{first_value, found_of};
ghost use Rattle.execute_options.specs.Numbers.{AreInRange, number_given, number_written, numbers_of};

use crate::mistakes::bad_line;
use crate::request::Refused;
use ados_text::bounded_number;
use clap::ArgMatches;
use std::alloc::Global;

// The most turns or seconds that may be given.
const MOST: u64 = 1_000_000_000;

/// The numbers among options.
#[derive(Clone, Copy)]
pub struct Numbers {
    /// The most events and long lines that are taken.
    pub turns: Option<u64>,
    /// The most seconds that the run takes.
    pub seconds: Option<u64>,
    /// A code of the script below this one is success.
    pub least: Option<u8>,
}

impl Numbers {
    /// Those that are given. `BadLine` if one is not in its range.
    pub fn of(alloc: Global, matches: &ArgMatches<'_>) -> Result<Numbers, Refused>
        ensures numbers { IfOk result (λ numbers. numbers ≡ numbers_of (found_of matches.now)) }
        ensures range { IfOk result (AreInRange (found_of matches.now)) }
    {
        Ok(Numbers {
            turns: given(alloc, matches, "turns", MOST)?,
            seconds: given(alloc, matches, "seconds", MOST)?,
            least: match given(alloc, matches, "ok-below", 255)? {
                Some(least) => Some(u8::try_from(least).unwrap_or(u8::MAX)),
                None => None,
            },
        })
    }

    /// These, and others for those that are not given.
    pub fn or(self, others: Numbers) -> Numbers
        ensures { result ≡ record { turns = option_or self.turns others.turns; seconds = option_or self.seconds others.seconds; least = option_or self.least others.least } }
    {
        Numbers {
            turns: self.turns.or(others.turns),
            seconds: self.seconds.or(others.seconds),
            least: self.least.or(others.least),
        }
    }
}

// The number that an option gives, from 1 to the most that it may be.
fn given(
    alloc: Global,
    matches: &ArgMatches<'_>,
    name: &str,
    most: u64,
) -> Result<Option<u64>, Refused>
    ensures number { IfOk result (λ number. number ≡ number_given (found_of matches.now) name.now most) }
    ensures range { IfOk result (λ number. is_some number ≡ is_some (first_value (found_of matches.now) name.now)) }
    ensures most { IfOk result (λ number. IfSome number (λ number. number ≤ most)) }
{
    let Some(word) = matches.get_str(name) else {
        return Ok(None);
    };
    match number_written(word, most) {
        Some(number) => Ok(Some(number)),
        None => Err(bad_line(format!(in alloc; "--{name}: a number from 1 to {most}"))),
    }
}

// The number that a word writes, if it is from 1 to the most that it may be.
fn number_written(word: &str, most: u64) -> Option<u64>
    ensures number { result ≡ number_written most word.now }
    ensures most { IfSome result (λ number. number ≤ most) }
{
    match u64::try_from(bounded_number(word.as_bytes())?) {
        Ok(number) if 1 <= number && number <= most => Some(number),
        _ => None,
    }
}
