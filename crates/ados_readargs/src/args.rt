// What the options of a template were given.
ghost use Rattle.std.specs.{Prelude.{◌≡◌, [], Ok, false, length, get_or, slice_get, IfOk, IfErr, IfSome, OnOk}, Option.{option_map}};
ghost use Rattle.ados_text.specs.Text.{IsText};
ghost use Rattle.ados_readargs.specs.{Args.{has_switch, option_text, option_texts, option_number}, Checks.{has_bad}, Faults.{IsFaultOf}, Fill.{parsed_args, LosesNoWord}, Phrases.{IsFilled}};

use crate::errors::ArgFault;
use crate::fill::args_read;
use crate::option_list::OptionList;
use crate::pass::read;
use crate::readings::Readings;
use crate::slots::Slots;
use ados_text::{NoMemory, Text, Texts, bounded_number};
use std::alloc::Global;
use std::marker::Model;

/// What an option was given.
#[derive(Drop)]
pub enum Arg {
    /// Nothing; an `/M` without a value, too.
    Absent,
    /// A switch that was named, or a toggle that was named an odd number of times.
    On,
    /// The value of an option without `/M`.
    One(Text),
    /// The values of an `/M`, at least one: those by keyword first, then the plain words.
    Many(Texts),
}

/// What a line gives to each option of a template, in the order of the options.
///
/// The texts are kept in a buffer that is reused from line to line, and are borrowed as bytes; `made_text` and
/// `made_texts` make owned texts that outlive the line.
#[derive(Drop)]
pub struct Args {
    slots: Slots,
    // Room for what the words of a line are read as; between two lines its contents mean nothing.
    readings: Readings,
}

impl Model for Args {
    ghost use Rattle.std.specs.Prelude.{List};
    ghost use Rattle.ados_readargs.specs.declared.args.Arg.{Arg};

    ghost Value = { List Arg };

    ghost view = { λ a. a.slots };
}

impl Args {
    /// No argument yet, for lines to fill in.
    pub fn new(alloc: Global) -> Args
        ensures { result ≡ [] }
    {
        Args {
            slots: Slots::new(alloc),
            readings: Readings::new(alloc),
        }
    }

    /// How many there are: one for each option.
    pub fn len(&self) -> usize
        ensures { result ≡ length self.now }
    {
        self.slots.len()
    }

    /// The argument of the option at a place, counted from 0, with owned texts; `None` past the
    /// last. `NoMemory` only if an allocation fails.
    pub fn get(&self, alloc: Global, place: usize) -> Result<Option<Arg>, NoMemory>
        ensures { IfOk result (λ arg. arg ≡ slice_get self.now place) }
    {
        self.slots.arg(alloc, place)
    }

    /// The switch or toggle at a place is on.
    pub fn has_switch(&self, place: usize) -> bool
        ensures { result ≡ has_switch self.now place }
    {
        self.slots.has_switch(place)
    }

    /// The text of the option without `/M` at a place; `None` if it was given none.
    pub fn text(&self, place: usize) -> Option<&[u8]>
        ensures value { option_map (λ t. t.now) result ≡ option_text self.now place }
        ensures ascii { IfSome result (λ t. IsText t.now) }
    {
        self.slots.text(place)
    }

    /// How many texts the option at a place was given.
    pub fn texts_len(&self, place: usize) -> usize
        ensures { result ≡ length (option_texts self.now place) }
    {
        self.slots.texts_len(place)
    }

    /// The text with an index, from 0, of the option at a place; the empty text past its last.
    pub fn text_of(&self, place: usize, number: usize) -> &[u8]
        ensures value { result.now ≡ get_or (option_texts self.now place) number [] }
        ensures ascii { IsText result.now }
    {
        self.slots.text_of(place, number)
    }

    /// The number of the option without `/M` at a place; `None` if it was given none, or if
    /// its text is not a number: with `/N` it always is one.
    pub fn number(&self, place: usize) -> Option<i32>
        ensures { result ≡ option_number self.now place }
    {
        bounded_number(self.text(place)?)
    }

    /// The text of the option without `/M` at a place, owned, for a value that outlives the line; `None`
    /// if it was given none. `NoMemory` only if an allocation fails.
    pub fn made_text(&self, alloc: Global, place: usize) -> Result<Option<Text>, NoMemory>
        ensures { IfOk result (λ text. text ≡ option_text self.now place) }
    {
        self.slots.made_text(alloc, place)
    }

    /// The texts of the option at a place, in order, owned, for values that outlive the line; none if it
    /// was given none. `NoMemory` only if an allocation fails.
    pub fn made_texts(&self, alloc: Global, place: usize) -> Result<Texts, NoMemory>
        ensures { IfOk result (λ texts. texts ≡ option_texts self.now place) }
    {
        self.slots.made_texts(alloc, place)
    }

    /// Replaces the arguments by what a line gives to the options. After a fault the contents are
    /// unspecified.
    pub fn refill(&mut self, options: &OptionList, line: &[u8]) -> Result<(), ArgFault>
        ensures ok { OnOk result (parsed_args options.now line.now ≡ Ok self.new) }
        ensures numbers { OnOk result (has_bad options.now self.new ≡ false) }
        ensures taken { OnOk result (LosesNoWord options.now line.now) }
        ensures said { OnOk result (IsFilled options.now line.now self.new) }
        ensures fault { IfErr result (λ e. IsFaultOf (parsed_args options.now line.now) e) }
    {
        read(options, line, &mut self.readings)?;
        args_read(options, line, &self.readings, &mut self.slots)
    }
}
