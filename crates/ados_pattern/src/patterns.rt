//! A pattern, from its text.

ghost use Rattle.std.specs.Prelude.{◌≡◌, IfOk};
ghost use Rattle.ados_pattern.specs.Form.{Any, Many, form_of};

use crate::builds::whole;
use crate::errors::PatternFault;
use crate::faults::first_fault;
use crate::literals::name_of;
use crate::parts::Part;
use crate::tokens::Mode;
use ados_text::{NoMemory, Text};
use std::alloc::Global;
use std::marker::Model;

/// The most bytes that the text of a pattern may have.
const TEXT_LIMIT: usize = 255;

/// A pattern of names.
#[derive(Drop)]
pub struct Pattern {
    part: Part,
    name: Option<Text>,
    alloc: Global,
}

impl Model for Pattern {
    ghost use Rattle.ados_pattern.specs.{Form.{form_of}, Meaning.{Meaning, meaning_code}};

    ghost Value = { Meaning };

    ghost coded = { meaning_code };

    ghost view = { λ p. record { form = form_of p.part; name = p.name } };
}

impl Pattern {
    ghost use Rattle.std.specs.Prelude.{◌≡◌, ◌<◌, ◌≤◌, ◌↔◌, ℕ, length, IfOk, IsOkUnless, MatchOption, is_some, option_copied};
    ghost use Rattle.ados_pattern.specs.{Fault.{fault_of}, FaultPlace.{IsFirstFault}, Form.{Form, form_of}, Grammar.{IsPattern}, Literal.{name_in}, Meaning.{anywhere, meaning_of}};

    /// The pattern that a text is.
    ///
    /// `TooLong` if it has more than 255 bytes; otherwise `BadPattern` with the least place, from 0,
    /// at which there is a fault. `NoMemory` only if nothing else is refused.
    pub fn parse(alloc: Global, text: &Text) -> Result<Pattern, PatternFault>
        ensures long { (result ≡ Err PatternFault.TooLong) ↔ (255 < length text.now) }
        ensures bad { (place : ℕ) → (result ≡ Err (PatternFault.BadPattern place)) ↔ (length text.now ≤ 255) × IsFirstFault text.now place }
        ensures pattern { IfOk result (λ pattern. IsPattern text.now pattern.form × (pattern.name ≡ name_in pattern.form)) }
        ensures only { (form : Form) → IsPattern text.now form → length text.now ≤ 255 → IsOkUnless result PatternFault.NoMemory × IfOk result (λ pattern. pattern.form ≡ form) }
        ensures computed_fault { MatchOption (fault_of text.now)
            (IsOkUnless result PatternFault.NoMemory)
            (λ fault. result ≡ Err fault) }
        ensures computed { IfOk result (λ pattern. pattern ≡ meaning_of text.now) }
    {
        Pattern::parsed(alloc, text)
    }

    fn parsed(alloc: Global, text: &Text) -> Result<Pattern, PatternFault>
        ensures fault { MatchOption (fault_of text.now)
            (IsOkUnless result PatternFault.NoMemory)
            (λ fault. result ≡ Err fault) }
        ensures pattern { IfOk result (λ pattern. pattern ≡ meaning_of text.now) }
    {
        let bytes = text.as_bytes();
        if bytes.len() > TEXT_LIMIT {
            return Err(PatternFault::TooLong);
        }
        match first_fault(0, 0, Mode::Plain, bytes) {
            Some(place) => Err(PatternFault::BadPattern(place)),
            None => Ok(Pattern::made(alloc, text)?),
        }
    }

    /// The pattern that a text matches if a part of it matches this one.
    pub fn anywhere(self) -> Result<Pattern, NoMemory>
        ensures { IfOk result (λ pattern. pattern ≡ anywhere self) }
    {
        let alloc = self.alloc;
        let after = Part::Then(any_text(alloc)?, Box::new(alloc, Part::Empty)?);
        let within = Part::Then(Box::new(alloc, self.part)?, Box::new(alloc, after)?);
        Ok(Pattern {
            part: Part::Then(any_text(alloc)?, Box::new(alloc, within)?),
            name: None,
            alloc,
        })
    }

    /// Whether the text was literal: one alternative, in which every item is a character, quoted
    /// or not.
    pub fn is_literal(&self) -> bool
        ensures { result ≡ is_some self.now.name }
    {
        self.name.is_some()
    }

    /// The name of a literal pattern: its characters, without their quotes.
    pub fn literal(&self) -> Option<&Text>
        ensures { option_copied result ≡ self.now.name }
    {
        self.name.as_ref()
    }

    /// What the pattern says.
    pub(crate) fn part(&self) -> &Part
        ensures { form_of result.now ≡ self.now.form }
    {
        &self.part
    }

    /// The allocator by which the pattern was made.
    pub(crate) fn alloc(&self) -> Global {
        self.alloc
    }

    fn made(alloc: Global, text: &Text) -> Result<Pattern, NoMemory>
        ensures { IfOk result (λ pattern. pattern ≡ meaning_of text.now) }
    {
        let part = whole(alloc, text.as_bytes())?;
        let name = name_of(alloc, text)?;
        Ok(Pattern { part, name, alloc })
    }
}

// The part that any text matches.
fn any_text(alloc: Global) -> Result<Box<Part>, NoMemory>
    ensures { IfOk result (λ part. form_of part.value ≡ Many Any) }
{
    Ok(Box::new(alloc, Part::Many(Box::new(alloc, Part::Any)?))?)
}
