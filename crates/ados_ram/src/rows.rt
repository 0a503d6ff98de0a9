// Rows: entries of the files, each with its place.
ghost use Rattle.std.specs.Prelude.{◌≡◌};
ghost use Rattle.ados_ram.specs.Place.{key_of, is_child, is_below};

use crate::entries::Entry;
use crate::places::{Place, is_below, strip_directory};
use ados_text::Name;
use std::marker::Model;

/// An entry with its place. The spelling of the place does not matter.
#[derive(Drop)]
pub struct Row {
    place: Place,
    entry: Entry,
}

impl Model for Row {
    ghost use Rattle.std.specs.{Prelude.{List, ℕ}, Coded.{coded×, coded_list, coded_ℕ}};
    ghost use Rattle.ados_ram.specs.{Place.{key_of}, Entry.{coded_entry}, declared.entries.Entry.{Entry}};

    ghost Value = { List (List ℕ) × Entry };

    ghost coded = { coded× (coded_list (coded_list coded_ℕ)) coded_entry };

    ghost view = { λ r. (key_of r.place, r.entry) };
}

impl Row {
    pub fn new(place: Place, entry: Entry) -> Row
        ensures { result ≡ (key_of place, entry) }
    {
        Row { place, entry }
    }

    pub fn entry(&self) -> &Entry
        ensures { result.now ≡ self.now.1 }
    {
        &self.entry
    }

    /// The place, spelled in some way.
    pub fn place(&self) -> &Place
        ensures { key_of result.now ≡ self.now.0 }
    {
        &self.place
    }

    /// Whether it is directly in a directory.
    pub fn is_in(&self, directory: &[Name]) -> bool
        ensures { result ≡ is_child (key_of directory.now) self.now.0 }
    {
        match strip_directory(directory, self.place().names()) {
            None => false,
            Some(way) => way.len() == 1,
        }
    }

    /// Whether it is below a directory.
    pub fn is_below(&self, directory: &[Name]) -> bool
        ensures { result ≡ is_below (key_of directory.now) self.now.0 }
    {
        is_below(directory, self.place().names())
    }
}
