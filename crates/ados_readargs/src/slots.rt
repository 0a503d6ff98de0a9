// What each option was given, by places of texts in a buffer.
ghost use Rattle.std.specs.{Prelude.{◌≡◌, ◌++◌, ◌≤◌, [], ◌∷◌, length, map, get_or, slice_get, IfOk, OnOk, IfSome}, Option.{option_map}};
ghost use Rattle.ados_text.specs.Text.{IsText};
ghost use Rattle.ados_items.specs.Items.{value_of};
ghost use Rattle.ados_readargs.specs.{Args.{has_switch, switch_arg, or_absent, option_text, option_texts, value_arg}, Checks.{is_absent}, Readings.{given_items}, Slots.{slot_of, switch_slot}};

use crate::args::Arg;
use crate::buffers::Buffer;
use crate::options::Qualifiers;
use crate::readings::Reading;
use ados_items::Item;
use ados_text::{NoMemory, Text, Texts};
use std::alloc::Global;
use std::marker::Model;

/// What an option was given; its texts by their places among those of all options.
#[derive(Clone, Copy)]
pub enum Slot {
    /// Nothing; an `/M` without a value, too.
    Absent,
    /// A switch or toggle that is on.
    On,
    /// The text at a place.
    One(usize),
    /// The texts from one place up to another, at least one.
    Many { from: usize, to: usize },
}

/// What a line gives to each option of a template, in the order of the options, in buffers that are
/// reused from line to line.
#[derive(Drop)]
pub struct Slots {
    texts: Buffer,
    slots: Vec<Slot>,
}

impl Model for Slots {
    ghost use Rattle.std.specs.{Prelude.{List, length}, List.{All}};
    ghost use Rattle.ados_readargs.specs.{Slots.{HoldsIn, args_in}, declared.args.Arg.{Arg}};

    ghost Value = { List Arg };

    ghost view = { λ s. args_in s.texts s.slots.items };

    ghost invariant = { λ s. All (HoldsIn (length s.texts)) s.slots.items };
}

impl Slots {
    /// No option.
    pub fn new(alloc: Global) -> Slots
        ensures { result ≡ [] }
    {
        Slots {
            texts: Buffer::new(alloc),
            slots: Vec::new(alloc),
        }
    }

    /// Removes all options, and keeps the allocations.
    pub fn clear(&mut self)
        ensures { self.new ≡ [] }
    {
        self.slots.clear();
        self.texts.clear();
    }

    /// How many options there are.
    pub fn len(&self) -> usize
        ensures { result ≡ length self.now }
    {
        self.slots.len()
    }

    /// The switch or toggle at a place is on.
    pub fn has_switch(&self, place: usize) -> bool
        ensures { result ≡ has_switch self.now place }
    {
        matches!(slot_at(self.slots.as_slice(), place), Some(Slot::On))
    }

    /// The text of the option without `/M` at a place; `None` if it was given none.
    pub fn text(&self, place: usize) -> Option<&[u8]>
        ensures value { option_map (λ t. t.now) result ≡ option_text self.now place }
        ensures ascii { IfSome result (λ t. IsText t.now) }
    {
        match slot_at(self.slots.as_slice(), place) {
            Some(Slot::One(text)) => Some(self.texts.get(text)),
            _ => None,
        }
    }

    /// How many texts the option at a place was given.
    pub fn texts_len(&self, place: usize) -> usize
        ensures { result ≡ length (option_texts self.now place) }
    {
        match slot_at(self.slots.as_slice(), place) {
            Some(Slot::One(_)) => 1,
            Some(Slot::Many { from, to }) => to - from,
            _ => 0,
        }
    }

    /// The text with an index, from 0, of the option at a place; the empty text past its last.
    pub fn text_of(&self, place: usize, number: usize) -> &[u8]
        ensures value { result.now ≡ get_or (option_texts self.now place) number [] }
        ensures ascii { IsText result.now }
    {
        match slot_at(self.slots.as_slice(), place) {
            Some(Slot::One(text)) => {
                if number == 0 {
                    self.texts.get(text)
                } else {
                    &[]
                }
            }
            Some(Slot::Many { from, to }) => {
                if number < to - from {
                    self.texts.get(from + number)
                } else {
                    &[]
                }
            }
            Some(Slot::Absent) => &[],
            Some(Slot::On) => &[],
            None => &[],
        }
    }

    /// Whether the option at a place was given nothing, as any past the last.
    pub fn is_absent(&self, place: usize) -> bool
        ensures { result ≡ is_absent (or_absent (slice_get self.now place)) }
    {
        match slot_at(self.slots.as_slice(), place) {
            Some(Slot::Absent) => true,
            Some(Slot::On) => false,
            Some(Slot::One(_)) => false,
            Some(Slot::Many { .. }) => false,
            None => true,
        }
    }

    /// The argument of the option at a place, with owned texts; `None` past the last.
    pub fn arg(&self, alloc: Global, place: usize) -> Result<Option<Arg>, NoMemory>
        ensures { IfOk result (λ arg. arg ≡ slice_get self.now place) }
    {
        match slot_at(self.slots.as_slice(), place) {
            Some(Slot::Absent) => Ok(Some(Arg::Absent)),
            Some(Slot::On) => Ok(Some(Arg::On)),
            Some(Slot::One(text)) => Ok(Some(Arg::One(Text::of_ascii(
                alloc,
                self.texts.get(text),
            )?))),
            Some(Slot::Many { .. }) => Ok(Some(Arg::Many(self.made_texts(alloc, place)?))),
            None => Ok(None),
        }
    }

    /// The text of the option without `/M` at a place, owned.
    pub fn made_text(&self, alloc: Global, place: usize) -> Result<Option<Text>, NoMemory>
        ensures { IfOk result (λ text. text ≡ option_text self.now place) }
    {
        match self.text(place) {
            None => Ok(None),
            Some(text) => Ok(Some(Text::of_ascii(alloc, text)?)),
        }
    }

    /// The texts of the option at a place, in order, owned.
    pub fn made_texts(&self, alloc: Global, place: usize) -> Result<Texts, NoMemory>
        ensures { IfOk result (λ texts. texts ≡ option_texts self.now place) }
    {
        let mut texts = Texts::new(alloc);
        for number in 0..self.texts_len(place) {
            texts.push(Text::of_ascii(alloc, self.text_of(place, number))?)?;
        }
        Ok(texts)
    }

    /// Adds a switch or toggle, on or not; at `NoMemory` the contents are unspecified.
    pub fn push_switch(&mut self, on: bool) -> Result<(), NoMemory>
        ensures { OnOk result (self.new ≡ self.old ++ switch_arg on ∷ []) }
    {
        self.slots.push(switch_slot(on))?;
        Ok(())
    }

    /// Adds an option that takes values: what readings give to the option at a place, and after that
    /// its plain words. At `NoMemory` the contents are unspecified.
    pub fn push_values(
        &mut self,
        q: Qualifiers,
        line: &[u8],
        given: &[Reading],
        place: usize,
        plain: &[Item],
    ) -> Result<(), NoMemory>
        ensures { OnOk result (self.new ≡ self.old ++ value_arg q line.now (given_items place given.now ++ plain.now) ∷ []) }
    {
        let from = self.texts.len();
        push_given(&mut self.texts, line, given, place)?;
        self.texts.push_all(line, plain)?;
        let to = self.texts.len();
        self.slots.push(slot_of(q.many, from, to))?;
        Ok(())
    }
}

// The slot at a place.
fn slot_at(slots: &[Slot], place: usize) -> Option<Slot>
    ensures { result ≡ slice_get slots.now place }
{
    slots.get(place).copied()
}

// The slot of an option, with `/M` or without, that holds the texts from one place up to another.
fn slot_of(many: bool, from: usize, to: usize) -> Slot
    ensures { result ≡ slot_of many from to }
{
    if from == to {
        Slot::Absent
    } else if many {
        Slot::Many { from, to }
    } else {
        Slot::One(from)
    }
}

fn switch_slot(on: bool) -> Slot
    ensures { result ≡ switch_slot on }
{
    if on { Slot::On } else { Slot::Absent }
}

// Adds the texts of what readings give to the option at a place.
fn push_given(
    texts: &mut Buffer,
    line: &[u8],
    given: &[Reading],
    place: usize,
) -> Result<(), NoMemory>
    ensures ok { OnOk result (texts.new ≡ texts.old ++ map (value_of line.now) (given_items place given.now)) }
    ensures grown { length texts.old ≤ length texts.new }
{
    for reading in given {
        if let Some(item) = reading.given_to(place) {
            texts.push(line, &item)?;
        }
    }
    Ok(())
}
