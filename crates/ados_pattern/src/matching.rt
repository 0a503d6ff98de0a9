//! Whether a text is what a pattern says.

ghost use Rattle.std.specs.Prelude.{◌<◌, ◌^◌, ◌↔◌, length, IfOk, IsTrue};
ghost use Rattle.ados_pattern.specs.{Form.{form_of}, Matches.{Matches}, Table.{IsTable, cells_of}};

use crate::bytes::CharTest;
use crate::parts::Part;
use crate::patterns::Pattern;
use crate::reaching::reached;
use crate::tables::{Rule, Table};
use crate::words::has_bit;
use ados_text::{NoMemory, Text};
use std::alloc::Global;

impl Pattern {
    ghost use Rattle.std.specs.Prelude.{◌≡◌, ◌↔◌, IsTrue, IfOk};
    ghost use Rattle.ados_pattern.specs.{Matches.{Matches}, Matching.{is_match}};

    /// Whether the text is what the pattern says; case is ignored.
    ///
    /// `NoMemory` if an allocation fails. The work is bounded: for each byte of the pattern's
    /// text, by the square of the name's length, and by a 64th of its cube from 64 bytes on.
    pub fn matches(&self, text: &Text) -> Result<bool, NoMemory>
        ensures said { IfOk result (λ b. IsTrue b ↔ Matches self.now.form text.now) }
        ensures computed { IfOk result (λ b. b ≡ is_match self.now.form text.now) }
    {
        self.matched(text)
    }

    fn matched(&self, text: &Text) -> Result<bool, NoMemory>
        ensures { IfOk result (λ b. IsTrue b ↔ Matches self.now.form text.now) }
    {
        let text = text.as_bytes();
        if text.len() < 64 {
            matches_short(self.alloc(), self.part(), text)
        } else {
            matches_long(self.alloc(), self.part(), text)
        }
    }
}

// A text of less than 64 bytes, as each name is: its places are the bits of one word.
fn matches_short(alloc: Global, part: &Part, text: &[u8]) -> Result<bool, NoMemory>
    requires { length text.now < 64 }
    ensures { IfOk result (λ b. IsTrue b ↔ Matches (form_of part.now) text.now) }
{
    let ends = reached(alloc, part, text, 1 << text.len())?;
    Ok(has_bit(ends, 0))
}

fn matches_long(alloc: Global, part: &Part, text: &[u8]) -> Result<bool, NoMemory>
    requires { length text.now < 2 ^ 63 }
    ensures { IfOk result (λ b. IsTrue b ↔ Matches (form_of part.now) text.now) }
{
    let table = table(alloc, part, text)?;
    Ok(table.at(text.len(), 0))
}

/// Which pieces of the text the part matches.
pub fn table(alloc: Global, part: &Part, text: &[u8]) -> Result<Table, NoMemory>
    requires { length text.now < 2 ^ 63 }
    ensures { IfOk result (λ t. IsTable (Matches (form_of part.now)) text.now (cells_of t)) }
{
    match part {
        Part::Empty => Table::filled(alloc, &Rule::Empty, text),
        Part::Char(c) => Table::filled(alloc, &Rule::One(CharTest::Is(*c)), text),
        Part::Any => Table::filled(alloc, &Rule::One(CharTest::Any), text),
        Part::Range(low, high) => {
            Table::filled(alloc, &Rule::One(CharTest::Within(*low, *high)), text)
        }
        Part::Outside(inner) => {
            let inner = table(alloc, inner, text)?;
            Table::filled(alloc, &Rule::Outside(inner), text)
        }
        Part::Many(inner) => {
            let inner = table(alloc, inner, text)?;
            Table::filled(alloc, &Rule::Many(inner), text)
        }
        Part::Other(inner) => {
            let inner = table(alloc, inner, text)?;
            Table::filled(alloc, &Rule::Other(inner), text)
        }
        Part::Then(first, rest) => {
            let rest = table(alloc, rest, text)?;
            match CharTest::of(first) {
                Some(test) => Table::filled(alloc, &Rule::Next(test, rest), text),
                None => {
                    let first = table(alloc, first, text)?;
                    Table::filled(alloc, &Rule::Then(first, rest), text)
                }
            }
        }
        Part::Either(one, other) => {
            let one = table(alloc, one, text)?;
            let other = table(alloc, other, text)?;
            Table::filled(alloc, &Rule::Either(one, other), text)
        }
    }
}
