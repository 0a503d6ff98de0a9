// What one word of a line says.
ghost use Rattle.std.specs.Prelude.{◌≡◌};
ghost use Rattle.ados_readargs.specs.Meanings.{is_full, given_meaning, keyword_value_meaning, switch_meaning, keyword_meaning, plain_meaning, word_meaning, value_meaning, rest_of, free_meaning, meaning_of};

use crate::errors::ArgFault;
use crate::keywords::{keyword_of, trimmed_len};
use crate::option_list::OptionList;
use crate::options::{Qualifiers, TemplateOption, option_qualifiers};
use crate::readings::{Reading, first_vacant, is_filled};
use crate::words::LineWord;
use ados_items::Item;

/// Whether an option waits for its value.
#[derive(Clone, Copy)]
pub enum Pending {
    /// None does.
    Free,
    /// The option at a place does; an `=` alone may come before the value.
    Value { option: usize, equal: bool },
}

/// What a word of a line says.
#[derive(Clone, Copy)]
pub enum Meaning {
    /// It is this reading.
    Read(Reading),
    /// It is a plain word, the text of an item.
    Plain(Item),
    /// The option at a place waits for its value; an `=` alone may come before that.
    Wait { option: usize, equal: bool },
    /// It and what follows, to the end of the line, are this reading.
    Stop(Reading),
    /// It is refused.
    Refuse(ArgFault),
}

// Whether the option takes no more, given whether it was filled.
fn is_full(q: Qualifiers, filled: bool) -> bool
    ensures { result ≡ is_full q filled }
{
    filled && !q.many
}

fn given_meaning(full: bool, place: usize, item: Item) -> Meaning
    ensures { result ≡ given_meaning full place item }
{
    if full {
        Meaning::Refuse(ArgFault::TooMany)
    } else {
        Meaning::Read(Reading::Given(place, item))
    }
}

fn value_after(full: bool, place: usize, word: LineWord) -> Meaning
    ensures { result ≡ keyword_value_meaning full place word }
{
    match word {
        LineWord::Run { key, to, .. } => {
            if key < to && to - key > 1 {
                given_meaning(full, place, Item::Word { from: key + 1, to })
            } else {
                Meaning::Wait {
                    option: place,
                    equal: key == to,
                }
            }
        }
        LineWord::Quoted { .. } => Meaning::Wait {
            option: place,
            equal: false,
        },
        LineWord::Open(_) => Meaning::Wait {
            option: place,
            equal: false,
        },
    }
}

fn switch_meaning(filled: bool, place: usize) -> Meaning
    ensures { result ≡ switch_meaning filled place }
{
    if filled {
        Meaning::Refuse(ArgFault::TooMany)
    } else {
        Meaning::Read(Reading::Named(place))
    }
}

fn keyword_meaning(q: Qualifiers, filled: bool, place: usize, word: LineWord) -> Meaning
    ensures { result ≡ keyword_meaning q filled place word }
{
    if q.toggle {
        Meaning::Read(Reading::Named(place))
    } else if q.switch {
        switch_meaning(filled, place)
    } else {
        value_after(is_full(q, filled), place, word)
    }
}

fn plain_meaning(vacant: Option<usize>, word: LineWord) -> Meaning
    ensures { result ≡ plain_meaning vacant word }
{
    match vacant {
        None => Meaning::Plain(word.item()),
        Some(place) => Meaning::Read(Reading::Given(place, word.item())),
    }
}

fn word_meaning(
    options: &[TemplateOption],
    given: &[Reading],
    vacant: Option<usize>,
    word: LineWord,
    keyword: Option<usize>,
) -> Meaning
    ensures { result ≡ word_meaning options.now given.now vacant word keyword }
{
    match keyword {
        None => plain_meaning(vacant, word),
        Some(place) => keyword_meaning(
            option_qualifiers(options, place),
            is_filled(given, place),
            place,
            word,
        ),
    }
}

fn value_meaning(full: bool, place: usize, equal: bool, word: LineWord) -> Meaning
    ensures { result ≡ value_meaning full place equal word }
{
    if word.is_open_quote() {
        Meaning::Refuse(ArgFault::Unmatched)
    } else if equal && word.is_equals_sign() {
        Meaning::Wait {
            option: place,
            equal: false,
        }
    } else {
        given_meaning(full, place, word.item())
    }
}

// The text from a word to the line's end, without the blanks there.
fn rest_of(line: &[u8], word: LineWord) -> Item
    ensures { result ≡ rest_of line.now word }
{
    Item::Word {
        from: word.start(),
        to: trimmed_len(line),
    }
}

fn free_meaning(
    options: &[TemplateOption],
    line: &[u8],
    given: &[Reading],
    word: LineWord,
    vacant: Option<usize>,
) -> Meaning
    ensures { result ≡ free_meaning options.now line.now given.now word vacant }
{
    match vacant {
        Some(place) if option_qualifiers(options, place).rest => {
            Meaning::Stop(Reading::Given(place, rest_of(line, word)))
        }
        _ if word.is_open_quote() => Meaning::Refuse(ArgFault::Unmatched),
        _ => word_meaning(
            options,
            given,
            vacant,
            word,
            keyword_of(options, line, word),
        ),
    }
}

pub fn meaning_of(
    options: &OptionList,
    line: &[u8],
    given: &[Reading],
    pending: Pending,
    word: LineWord,
) -> Meaning
    ensures { result ≡ meaning_of options.now line.now given.now pending word }
{
    let items = options.as_slice();
    match pending {
        Pending::Free => {
            let vacant = if options.with_rest() {
                first_vacant(items, given)
            } else {
                None
            };
            free_meaning(items, line, given, word, vacant)
        }
        Pending::Value { option, equal } => {
            let full = is_full(option_qualifiers(items, option), is_filled(given, option));
            value_meaning(full, option, equal, word)
        }
    }
}
