//! Where a part of a pattern leads from a set of places, in a text of less than 64 bytes.
//!
//! A place is given as the number of bytes after it, and a set of places is one word. Rows and alternatives are
//! walked without a table; `#`, `~` and `[~ ..]` need the table of their part.

ghost use Rattle.std.specs.Prelude.{◌≡◌, ◌&&◌, ◌+◌, ◌<◌, ◌≤◌, ℕ, length, nat_lt, IfOk};
ghost use Rattle.ados_pattern.specs.{CharTest.{has_test, test_of}, Form.{form_of}, Matches.{Matches}, Reach.{AreWithin, Reaches}, Table.{byte_at, is_set}};

use crate::bytes::CharTest;
use crate::matching::table;
use crate::parts::Part;
use crate::tables::next_byte;
use crate::words::{before, has_bit};
use ados_text::NoMemory;
use std::alloc::Global;

/// The places to which texts that the part matches lead from the starts.
pub fn reached(alloc: Global, part: &Part, text: &[u8], starts: u64) -> Result<u64, NoMemory>
    requires short { length text.now < 64 }
    requires within { AreWithin text.now starts }
    ensures { IfOk result (λ ends. Reaches (Matches (form_of part.now)) text.now starts ends) }
{
    match part {
        Part::Empty => Ok(starts),
        Part::Char(c) => Ok(stepped(CharTest::Is(*c), text, starts)),
        Part::Any => Ok(stepped(CharTest::Any, text, starts)),
        Part::Range(low, high) => Ok(stepped(CharTest::Within(*low, *high), text, starts)),
        Part::Then(first, rest) => {
            let middles = reached(alloc, first, text, starts)?;
            reached(alloc, rest, text, middles)
        }
        Part::Either(one, other) => {
            let ends = reached(alloc, one, text, starts)?;
            let others = reached(alloc, other, text, starts)?;
            Ok(ends | others)
        }
        _ => {
            let table = table(alloc, part, text)?;
            Ok(table.ends_of(starts))
        }
    }
}

// The places after one character that passes the test.
fn stepped(test: CharTest, text: &[u8], starts: u64) -> u64
    requires { length text.now < 64 }
    ensures { (b : ℕ) → b < 64 → is_set result b ≡ (nat_lt (b + 1) (length text.now + 1) && (is_set starts (b + 1) && has_test (test_of test) (byte_at text.now (b + 1)))) }
{
    let mut ends = 0;
    for start in 1..text.len() + 1 {
        ends |= before(0, start, steps_from(test, text, starts, start));
    }
    ends
}

// Whether a start is one of the starts, and the byte after it passes the test.
fn steps_from(test: CharTest, text: &[u8], starts: u64, start: usize) -> bool
    requires short { length text.now < 64 }
    requires within { start ≤ length text.now }
    ensures { result ≡ (is_set starts start && has_test (test_of test) (byte_at text.now start)) }
{
    has_bit(starts, start) && test.holds(next_byte(text, start))
}
