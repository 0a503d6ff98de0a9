// The pass over the words of a line: what each says is kept, up to the first fault.
ghost use Rattle.std.specs.Prelude.{◌≡◌, true, None, Ok, IfSome, IfOk, IfErr, OnOk, position};
ghost use Rattle.ados_readargs.specs.{Faults.{IsFaultOf}, Words.{line_words_of}, Steps.{IsPlainAt, ReadsOn, StopsReading}, Meanings.{is_keyword, read_end, read_from, read_of, quotes_first}, Readings.{Readings, no_readings}, declared.meanings.Pending.TheVariants.{Free}};

use crate::errors::ArgFault;
use crate::keywords::option_named;
use crate::meanings::{Meaning, Pending, meaning_of};
use crate::option_list::OptionList;
use crate::readings::{Reading, Readings};
use crate::words::{is_run_over, is_unclosed, word_at};
use ados_items::{Item, between, next_item};

// What it means that no word is left.
fn read_end(pending: Pending) -> Result<(), ArgFault>
    ensures ok { OnOk result ((readings : Readings) → read_end readings pending ≡ Ok readings) }
    ensures fault { IfErr result (λ e. (readings : Readings) → IsFaultOf (read_end readings pending) e) }
{
    match pending {
        Pending::Free => Ok(()),
        Pending::Value { .. } => Err(ArgFault::ValueMissing),
    }
}

// A plain word: its text is the line's from one place up to another.
#[derive(Clone, Copy)]
struct PlainWord {
    from: usize,
    to: usize,
}

// Whether a name is a keyword of no option. Nearly always no option has a name of that length.
#[tactic(auto, using(crate::proofs::OptionLemmas::none_named))]
#[inline(always)]
fn is_no_keyword(options: &OptionList, name: &[u8]) -> bool
    ensures { result ≡ true → position (is_keyword name.now true) options.now ≡ None }
{
    options.has_none_as_long(name.len()) || option_named(options.as_slice(), name, true).is_none()
}

// The plain word at a place, if that is seen at once: a word with no quote and no equal sign that
// is not a keyword, in a template with no /F. `None` if that is not known.
#[inline(always)]
fn plain_word(options: &OptionList, line: &[u8], place: usize) -> Option<PlainWord>
    ensures { IfSome result (λ word. IsPlainAt options.now line.now place word) }
{
    if options.with_rest() {
        return None;
    }
    match next_item(line, place) {
        Item::Word { from, to } => {
            if is_run_over(line, to) && is_no_keyword(options, between(line, from, to)) {
                return Some(PlainWord { from, to });
            }
            None
        }
        Item::Quoted { .. } => None,
        Item::Equal(_) => None,
        Item::End(_) => None,
        Item::Unmatched(_) => None,
    }
}

// Reads the word at a place: gives the place after it, and `None` if the line says no more.
#[inline(never)]
fn read_word(
    options: &OptionList,
    line: &[u8],
    place: usize,
    pending: &mut Pending,
    given: &mut Vec<Reading>,
    plain: &mut Vec<Item>,
) -> Result<Option<usize>, ArgFault>
    ensures on { IfOk result (λ next. ReadsOn options.now line.now place
        (record { given = given.old.items; plain = plain.old.items }) pending.old
        (record { given = given.new.items; plain = plain.new.items }) pending.new next) }
    ensures fault { IfErr result (λ e. StopsReading options.now line.now place
        (record { given = given.old.items; plain = plain.old.items }) pending.old e) }
{
    let Some((word, after)) = word_at(line, place) else {
        return match read_end(*pending) {
            Ok(()) => Ok(None),
            Err(fault) => Err(fault),
        };
    };
    match meaning_of(options, line, given.as_slice(), *pending, word) {
        Meaning::Read(reading) => {
            given.push(reading)?;
            *pending = Pending::Free;
            return Ok(Some(after));
        }
        Meaning::Plain(item) => {
            plain.push(item)?;
            *pending = Pending::Free;
            return Ok(Some(after));
        }
        Meaning::Wait { option, equal } => {
            *pending = Pending::Value { option, equal };
            return Ok(Some(after));
        }
        Meaning::Stop(reading) => {
            given.push(reading)?;
            return Ok(None);
        }
        Meaning::Refuse(fault) => return Err(fault),
    }
}

// The same, but a plain word is read at once, as nearly all are, and so is the line's end.
#[inline(always)]
fn read_next(
    options: &OptionList,
    line: &[u8],
    place: usize,
    pending: &mut Pending,
    given: &mut Vec<Reading>,
    plain: &mut Vec<Item>,
) -> Result<Option<usize>, ArgFault>
    ensures on { IfOk result (λ next. ReadsOn options.now line.now place
        (record { given = given.old.items; plain = plain.old.items }) pending.old
        (record { given = given.new.items; plain = plain.new.items }) pending.new next) }
    ensures fault { IfErr result (λ e. StopsReading options.now line.now place
        (record { given = given.old.items; plain = plain.old.items }) pending.old e) }
{
    if place >= line.len() {
        return match read_end(*pending) {
            Ok(()) => Ok(None),
            Err(fault) => Err(fault),
        };
    }
    match *pending {
        Pending::Free => match plain_word(options, line, place) {
            Some(word) => {
                plain.push(Item::Word {
                    from: word.from,
                    to: word.to,
                })?;
                return Ok(Some(word.to));
            }
            None => return read_word(options, line, place, pending, given, plain),
        },
        Pending::Value { .. } => return read_word(options, line, place, pending, given, plain),
    }
}

// What the words of a line say, in place of what is there, with the faults in the order of the words.
fn read_words(
    options: &OptionList,
    line: &[u8],
    given: &mut Vec<Reading>,
    plain: &mut Vec<Item>,
) -> Result<(), ArgFault>
    ensures ok { OnOk result (read_from options.now line.now no_readings Free (line_words_of line.now) ≡ Ok (record { given = given.new.items; plain = plain.new.items })) }
    ensures fault { IfErr result (λ e. IsFaultOf (read_from options.now line.now no_readings Free (line_words_of line.now)) e) }
{
    given.clear();
    plain.clear();
    let mut pending = Pending::Free;
    let mut place = 0;
    for step in 0..line.len() + 1 {
        match read_next(options, line, place, &mut pending, given, plain) {
            Ok(Some(after)) => place = after,
            Ok(None) => return Ok(()),
            Err(fault) => return Err(fault),
        }
    }
    read_end(pending)
}

fn quotes_first(unclosed: bool, fault: ArgFault) -> ArgFault
    ensures { result ≡ quotes_first unclosed fault }
{
    if unclosed && fault == ArgFault::TooMany {
        ArgFault::Unmatched
    } else {
        fault
    }
}

/// What the words of a line say, from left to right, in place of what is there.
///
/// `Unmatched` comes before `TooMany`, wherever the open quote is; `ValueMissing` if a
/// keyword is the last word. After a fault the contents are unspecified.
pub fn read(options: &OptionList, line: &[u8], readings: &mut Readings) -> Result<(), ArgFault>
    ensures ok { OnOk result (read_of options.now line.now (line_words_of line.now) ≡ Ok readings.new) }
    ensures fault { IfErr result (λ e. IsFaultOf (read_of options.now line.now (line_words_of line.now)) e) }
{
    match read_words(options, line, &mut readings.given, &mut readings.plain) {
        Ok(()) => Ok(()),
        Err(fault) => Err(quotes_first(is_unclosed(line), fault)),
    }
}
