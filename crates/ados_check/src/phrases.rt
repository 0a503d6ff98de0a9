//! The options among the words of a command that the Shell leaves out.
ghost use Rattle.std.specs.{Prelude.{◌≡◌, IfOk}, List.{find}};
ghost use Rattle.ados_check.specs.Phrases.{end_of_first, given_options, is_equal, is_number, is_value_byte, omitted, option_phrase, parted_value, phrase_after, phrase_of, value_of};

use crate::arguments::Word;
use crate::release_two::{Command, Naming, Omission, Takes};
use crate::ticks::TICK_BYTE;
use ados_items::between;
use ados_resident::Dialect;
use ados_text::NoMemory;
use std::alloc::Global;

/// An option that is left out, and its place in the text, with its value if it takes one.
#[derive(Clone, Copy)]
pub struct Given {
    /// The option.
    pub option: Omission,
    /// Where it begins.
    pub from: usize,
    /// Where it ends, after its value.
    pub to: usize,
}

// What stands at a word: an option that is left out, if it is one; and how many of the words after it belong to it.
#[derive(Clone, Copy)]
struct Phrase {
    given: Option<Given>,
    further: usize,
}

// The value of an option: so many of the words after its own, up to this place.
#[derive(Clone, Copy)]
struct Value {
    words: usize,
    to: usize,
}

// A word as any other.
const PLAIN: Phrase = Phrase {
    given: None,
    further: 0,
};

/// The words of a command in a text.
#[derive(Clone, Copy)]
pub struct Phrases<'a> {
    /// Where memory comes from.
    pub alloc: Global,
    /// The dialect in which it is read.
    pub dialect: Dialect,
    /// The command.
    pub command: &'static Command,
    /// The text.
    pub line: &'a [u8],
}

impl<'a> Phrases<'a> {
    /// The options that are left out among these words, in order.
    pub fn given_options(&self, words: &[Word]) -> Result<Vec<Given>, NoMemory>
        ensures { IfOk result (λ options. options.items ≡ given_options self.now.dialect self.now.command.now self.now.line.now words.now) }
    {
        let mut options = Vec::new(self.alloc);
        let mut further = 0;
        for place in 0..words.len() {
            let phrase = self.phrase_after(further, &words[place..])?;
            if let Some(given) = phrase.given {
                options.push(given)?;
            }
            further = phrase.further;
        }
        Ok(options)
    }

    // What stands at the first of these words, of which so many belong to an option before.
    fn phrase_after(&self, further: usize, words: &[Word]) -> Result<Phrase, NoMemory>
        ensures { IfOk result (λ phrase. phrase ≡ phrase_after (phrase_of self.now.dialect self.now.command.now self.now.line.now) further words.now) }
    {
        match further {
            0 => self.phrase(words),
            _ => Ok(Phrase {
                given: None,
                further: further - 1,
            }),
        }
    }

    // What stands at the first of these words.
    fn phrase(&self, words: &[Word]) -> Result<Phrase, NoMemory>
        ensures { IfOk result (λ phrase. phrase ≡ phrase_of self.now.dialect self.now.command.now self.now.line.now words.now) }
    {
        let [word, rest @ ..] = words else {
            return Ok(PLAIN);
        };
        let name = between(self.line, word.from, word.name_to);
        let value = self.value(*word, rest);
        Ok(match self.command.naming(self.alloc, self.dialect, name)? {
            Some(Naming::Kept) => Phrase {
                given: None,
                further: value.words,
            },
            Some(Naming::LeftOut(option)) => self.omitted(option, *word, value),
            None => PLAIN,
        })
    }

    // The value of an option whose name a word begins with: it follows `=`, or it is the next word.
    fn value(&self, word: Word, rest: &[Word]) -> Value
        ensures { result ≡ value_of self.now.line.now word rest.now }
    {
        match between(self.line, word.name_to, word.to) {
            [b'=', _, ..] => Value {
                words: 0,
                to: word.to,
            },
            [b'='] => Value {
                words: 1,
                to: end_of_first(word, rest),
            },
            _ => self.parted_value(word, rest),
        }
    }

    // The same if `=` is not in the same word.
    fn parted_value(&self, word: Word, rest: &[Word]) -> Value
        ensures { result ≡ parted_value self.now.line.now word rest.now }
    {
        match rest {
            [sign, after @ ..] if self.is_equal(*sign) => Value {
                words: 2,
                to: end_of_first(*sign, after),
            },
            _ => Value {
                words: 1,
                to: end_of_first(word, rest),
            },
        }
    }

    // The word is `=` alone.
    fn is_equal(&self, word: Word) -> bool
        ensures { result ≡ is_equal self.now.line.now word }
    {
        matches!(between(self.line, word.from, word.to), [b'='])
    }

    // An option that is left out; a word as any other if what it takes does not follow.
    fn omitted(&self, option: Omission, word: Word, value: Value) -> Phrase
        ensures { result ≡ omitted self.now.line.now option word value }
    {
        let text = between(self.line, word.name_to, value.to);
        match option.takes {
            Takes::Nothing if word.is_whole() => option_phrase(option, word.from, word.to, 0),
            Takes::Word if text.len() > 1 => option_phrase(
                option,
                word.from,
                value.to,
                value.words,
            ),
            Takes::Number if is_number(text) => option_phrase(
                option,
                word.from,
                value.to,
                value.words,
            ),
            _ => PLAIN,
        }
    }
}

// An option from one place up to another, to which so many further words belong.
fn option_phrase(option: Omission, from: usize, to: usize, further: usize) -> Phrase
    ensures { result ≡ option_phrase option from to further }
{
    Phrase {
        given: Some(Given { option, from, to }),
        further,
    }
}

// Where the first of some words ends, or the one before them if there is none.
fn end_of_first(before: Word, words: &[Word]) -> usize
    ensures { result ≡ end_of_first before words.now }
{
    match words {
        [first, ..] => first.to,
        [] => before.to,
    }
}

// The value of an option may be a number: after blanks and `=` comes a digit, or what something is put in place of.
fn is_number(value: &[u8]) -> bool
    ensures { result ≡ is_number value.now }
{
    match first_of_value(value) {
        Some(byte) => matches!(byte, b'0'..=b'9' | b'-' | b'$' | b'<' | TICK_BYTE),
        None => false,
    }
}

// The first byte of a value after blanks and `=`.
fn first_of_value(value: &[u8]) -> Option<u8>
    ensures { result ≡ find is_value_byte value.now }
{
    for byte in value {
        if !matches!(*byte, b' ' | b'\t' | b'=') {
            return Some(*byte);
        }
    }
    None
}
