//! All short patterns over all short texts.

use crate::texts::texts_of;
use ados_pattern::{Pattern, PatternFault};
use ados_text::{NoMemory, Text};
use std::alloc::Global;
use std::fmt;

const SIGNS: [u8; 13] = [
    b'a', b'b', b'#', b'~', b'?', b'%', b'(', b')', b'|', b'[', b']', b'\'', b'-',
];

// All texts of up to three letters `a` and `b`, the shorter ones first.
const TEXTS: [&str; 15] = [
    "", "a", "b", "aa", "ab", "ba", "bb", "aaa", "aab", "aba", "abb", "baa", "bab", "bba", "bbb",
];

/// What the patterns of one length are, and what they match.
#[derive(Clone, Copy, Default)]
pub struct Tally {
    patterns: u32,
    bad: u32,
    literal: u32,
    matches: u32,
    digest: u32,
}

impl fmt::Display for Tally {
    fn fmt<W: fmt::Write>(&self, f: &mut fmt::Formatter<W>) -> Result<(), fmt::Error> {
        write!(
            f,
            "{} patterns, {} bad, {} literal, {} matches, digest {}",
            self.patterns, self.bad, self.literal, self.matches, self.digest
        )
    }
}

impl Tally {
    fn mix(&mut self, value: u32) {
        self.digest = self.digest.wrapping_mul(31).wrapping_add(value);
    }

    fn add_bad(&mut self, place: usize) {
        self.bad = self.bad.wrapping_add(1);
        self.mix((place % 1000) as u32 + 2);
    }

    fn add_literal(&mut self, name: &Text) {
        self.literal = self.literal.wrapping_add(1);
        self.mix(100);
        for byte in name.as_bytes() {
            self.mix(u32::from(*byte));
        }
    }

    fn add_match(&mut self, matched: bool) {
        let value = u32::from(matched);
        self.matches = self.matches.wrapping_add(value);
        self.mix(value);
    }

    fn add(&mut self, pattern: &Pattern, texts: &[Text]) -> Result<(), PatternFault> {
        self.patterns = self.patterns.wrapping_add(1);
        if let Some(name) = pattern.literal() {
            self.add_literal(name);
        }
        for text in texts {
            self.add_match(pattern.matches(text)?);
        }
        Ok(())
    }

    fn add_parsed(
        &mut self,
        parsed: Result<Pattern, PatternFault>,
        texts: &[Text],
    ) -> Result<(), PatternFault> {
        match parsed {
            Ok(pattern) => self.add(&pattern, texts),
            Err(PatternFault::BadPattern(place)) => {
                self.add_bad(place);
                Ok(())
            }
            Err(other) => Err(other),
        }
    }
}

/// The tally of all patterns with this many characters.
pub fn of_length(alloc: Global, length: u32) -> Result<Tally, PatternFault> {
    let texts = texts_of(alloc, &TEXTS)?;
    tally_over(alloc, length, &texts)
}

fn tally_over(alloc: Global, length: u32, texts: &[Text]) -> Result<Tally, PatternFault> {
    let mut tally = Tally::default();
    for index in 0..13_u32.saturating_pow(length) {
        let text = written(alloc, &SIGNS, length, index)?;
        tally.add_parsed(Pattern::parse(alloc, &text), texts)?;
    }
    Ok(tally)
}

// The text with this many characters whose places in the list of characters are the digits of the index.
fn written(alloc: Global, signs: &[u8], length: u32, index: u32) -> Result<Text, NoMemory> {
    let mut bytes = Vec::new(alloc);
    let mut left = index as usize;
    for _ in 0..length {
        let sign = signs
            .get(left % signs.len().max(1))
            .copied()
            .unwrap_or(b'a');
        bytes.insert(0, sign)?;
        left /= signs.len().max(1);
    }
    Ok(Text::from_bytes(alloc, &bytes)?)
}
