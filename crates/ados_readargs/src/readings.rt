// What the words of a line were read as.
ghost use Rattle.std.specs.Prelude.{◌≡◌};
ghost use Rattle.ados_readargs.specs.Readings.{fills_option, is_filled, is_vacant, first_vacant, given_item, names_option, named_count, no_readings};

use crate::options::{Qualifiers, TemplateOption};
use ados_items::Item;
use std::alloc::Global;
use std::marker::Model;

/// What words of a line say of an option.
#[derive(Clone, Copy)]
pub enum Reading {
    /// The option at a place, a switch or a toggle, is named.
    Named(usize),
    /// The option at a place is given the text of an item.
    Given(usize, Item),
}

impl Reading {
    // Whether it fills the option at a place.
    fn fills(self, place: usize) -> bool
        ensures { result ≡ fills_option place self }
    {
        match self {
            Reading::Named(option) => option == place,
            Reading::Given(option, _) => option == place,
        }
    }

    // Whether it names the option at a place.
    fn names(self, place: usize) -> bool
        ensures { result ≡ names_option place self }
    {
        match self {
            Reading::Named(option) => option == place,
            Reading::Given(..) => false,
        }
    }

    /// What it gives to the option at a place.
    pub fn given_to(self, place: usize) -> Option<Item>
        ensures { result ≡ given_item place self }
    {
        match self {
            Reading::Named(_) => None,
            Reading::Given(option, item) => { if option == place { Some(item) } else { None } }
        }
    }
}

/// What the words of a line were read as.
#[derive(Drop)]
pub struct Readings {
    /// What they say of options, in order.
    pub given: Vec<Reading>,
    /// The plain words, in order, which are assigned to options once all words are read.
    pub plain: Vec<Item>,
}

impl Model for Readings {
    ghost use Rattle.ados_readargs.specs.Readings.{Readings};

    ghost Value = { Readings };

    ghost view = { λ r. record { given = r.given.items; plain = r.plain.items } };
}

impl Readings {
    /// Nothing is read yet.
    pub fn new(alloc: Global) -> Readings
        ensures { result ≡ no_readings }
    {
        Readings {
            given: Vec::new(alloc),
            plain: Vec::new(alloc),
        }
    }
}

/// Whether one of the readings fills the option at a place.
pub fn is_filled(given: &[Reading], place: usize) -> bool
    ensures { result ≡ is_filled place given.now }
{
    given.iter().any(|reading| reading.fills(place))
}

/// Whether the option is plain, and no reading fills it.
pub fn is_vacant(place: usize, q: Qualifiers, given: &[Reading]) -> bool
    ensures { result ≡ is_vacant place q given.now }
{
    q.is_positional() && !is_filled(given, place)
}

/// The first option that is vacant.
pub fn first_vacant(options: &[TemplateOption], given: &[Reading]) -> Option<usize>
    ensures { result ≡ first_vacant options.now given.now }
{
    for place in 0..options.len() {
        if is_vacant(place, options[place].qualifiers, given) {
            return Some(place);
        }
    }
    None
}

/// How often the option at a place is named.
pub fn named_count(given: &[Reading], place: usize) -> usize
    ensures { result ≡ named_count place given.now }
{
    given.iter().filter(|reading| reading.names(place)).count()
}
