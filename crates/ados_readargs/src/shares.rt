// The shares of the plain words: which go to `/M`, and which to the options with `/A` after it.
ghost use Rattle.std.specs.Prelude.{◌≡◌, ◌≤◌, ◌<◌, true, false, take, drop, length};
ghost use Rattle.ados_readargs.specs.Shares.{vacant_count, middle_of, front_share, middle_share, back_share, option_share, is_left, TakesAll};

use crate::option_list::OptionList;
use crate::options::{TemplateOption, option_qualifiers};
use crate::readings::{Reading, Readings, is_vacant};
use ados_items::Item;

// How many options from a place on are vacant, and have /A if `needed` says so.
fn vacant_count(needed: bool, from: usize, options: &[TemplateOption], given: &[Reading]) -> usize
    ensures value { result ≡ vacant_count needed from (drop from options.now) given.now }
    ensures within { result ≤ length options.now }
{
    let mut count = 0;
    for place in from..options.len() {
        let q = options[place].qualifiers;
        if is_vacant(place, q, given) && (!needed || q.required) {
            count += 1;
        }
    }
    count
}

// At most `count` of the items from a place on.
fn piece(items: &[Item], from: usize, count: usize) -> &[Item]
    ensures { result.now ≡ take count (drop from items.now) }
{
    if from >= items.len() {
        return &[];
    }
    let rest = &items[from..];
    let count = count.min(rest.len());
    &rest[..count]
}

// How many vacant options are before a place.
fn front_count(options: &[TemplateOption], given: &[Reading], place: usize) -> usize
    requires { place < length options.now }
    ensures { result ≡ vacant_count false 0 (take place options.now) given.now }
{
    vacant_count(false, 0, &options[..place], given)
}

// The plain word of an option with no /M before it.
fn front_share<'a>(options: &[TemplateOption], readings: &'a Readings, place: usize) -> &'a [Item]
    requires { place < length options.now }
    ensures { result.now ≡ front_share options.now readings.now place }
{
    let given = readings.given.as_slice();
    if is_vacant(place, option_qualifiers(options, place), given) {
        let front = front_count(options, given, place);
        piece(readings.plain.as_slice(), front, 1)
    } else {
        &[]
    }
}

// How many options from a place on are vacant and have /A. Most templates with /M have no /A.
#[tactic(auto, using(crate::proofs::OptionLemmas::none_needed))]
fn needed_count(options: &OptionList, given: &[Reading], from: usize) -> usize
    ensures { result ≡ vacant_count true from (drop from options.now) given.now }
{
    if options.with_required() {
        vacant_count(true, from, options.as_slice(), given)
    } else {
        0
    }
}

// The plain words of the /M.
fn middle_share<'a>(options: &OptionList, readings: &'a Readings, middle: usize) -> &'a [Item]
    requires { middle < length options.now }
    ensures { result.now ≡ middle_share options.now readings.now middle }
{
    let given = readings.given.as_slice();
    let plain = readings.plain.as_slice();
    let front = front_count(options.as_slice(), given, middle);
    let after = needed_count(options, given, middle + 1);
    piece(
        plain,
        front,
        plain.len().saturating_sub(front).saturating_sub(after),
    )
}

// The plain word of an option after the /M.
fn back_share<'a>(
    options: &[TemplateOption],
    readings: &'a Readings,
    middle: usize,
    place: usize,
) -> &'a [Item]
    requires middle { middle < length options.now }
    requires place { place < length options.now }
    ensures { result.now ≡ back_share options.now readings.now middle place }
{
    let given = readings.given.as_slice();
    let plain = readings.plain.as_slice();
    let front = front_count(options, given, middle);
    let after = vacant_count(true, place + 1, options, given);
    let q = option_qualifiers(options, place);
    if is_vacant(place, q, given) && q.required && after < plain.len().saturating_sub(front) {
        piece(plain, plain.len() - 1 - after, 1)
    } else {
        &[]
    }
}

/// The plain words that the option at a place takes.
pub fn share<'a>(options: &OptionList, readings: &'a Readings, place: usize) -> &'a [Item]
    requires { place < length options.now }
    ensures { result.now ≡ option_share (middle_of options.now) options.now readings.now place }
{
    let items = options.as_slice();
    match options.middle() {
        None => front_share(items, readings, place),
        Some(middle) => {
            if place < middle {
                front_share(items, readings, place)
            } else if place == middle {
                middle_share(options, readings, middle)
            } else {
                back_share(items, readings, middle, place)
            }
        }
    }
}

/// Whether a plain word is left over; otherwise each is taken by one option, in order.
pub fn is_left(options: &OptionList, readings: &Readings) -> bool
    ensures value { result ≡ is_left options.now readings.now }
    ensures taken { result ≡ false → TakesAll options.now readings.now }
{
    let given = readings.given.as_slice();
    let plain = readings.plain.as_slice();
    match options.middle() {
        None => vacant_count(false, 0, options.as_slice(), given) < plain.len(),
        Some(_) => false,
    }
}
