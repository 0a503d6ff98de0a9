// Names with their values, in the order in which they were first set.
ghost use Rattle.std.specs.{Prelude.{◌≡◌, [], None, option_map, IfOk, OnOk, OnErr}, Option.{option_copied}};
ghost use Rattle.ados_vars.specs.Vars.{AreDistinct, first_spelling, set_pair, value_in, remove_pair};

use ados_text::{Name, NoMemory, Text};
use indexmap::IndexMap;
use indexmap::map::Slice;
use std::alloc::Global;
use std::marker::Model;

/// Names with their values, in the order in which the names were first set. Case is ignored in names.
#[derive(Clone)]
pub struct Vars {
    map: IndexMap<Name, Text>,
}

// Implemented by hand, so that dropping a list is one step for the caller, and not one for each part.
impl Drop for Vars {
    fn drop(self) {
        let Vars { map: _map } = self;
    }
}

/// Aliases: words with the texts that stand for them.
pub type Aliases = Vars;

impl Model for Vars {
    ghost use Rattle.ados_vars.specs.Vars.{Pairs};

    ghost Value = { Pairs };

    ghost view = { λ v. v.map.entries };
}

impl Vars {
    /// No names.
    pub fn new(alloc: Global) -> Vars
        ensures { result ≡ [] }
    {
        Vars {
            map: IndexMap::new(alloc),
        }
    }

    /// Sets the value of a name. A new name goes last; an existing one keeps its position and its first spelling.
    ///
    /// `NoMemory` only for a new name; nothing is changed then.
    pub fn set(&mut self, name: Name, value: Text) -> Result<(), NoMemory>
        ensures ok { OnOk result (self.new ≡ set_pair self.old name value) }
        ensures err { OnErr result (self.new ≡ self.old) }
        ensures absent { OnErr result (value_in self.old name ≡ None) }
    {
        self.map.insert(name, value)?;
        Ok(())
    }

    /// The value of a name. Nothing is allocated.
    pub fn get(&self, name: &Name) -> Option<&Text>
        ensures { option_copied result ≡ value_in self.now name.now }
    {
        self.map.get(name)
    }

    /// A name as it was first spelled, with its value, if it has one. Nothing is allocated.
    pub fn pair(&self, name: &Name) -> Option<(&Name, &Text)>
        ensures name { option_map (λ p. p.0.now) result ≡ first_spelling self.now name.now }
        ensures value { option_map (λ p. p.1.now) result ≡ value_in self.now name.now }
    {
        self.map.get_key_value(name)
    }

    /// Removes a name, if it exists; the others keep their order. Nothing is allocated.
    pub fn unset(&mut self, name: &Name)
        ensures { self.new ≡ remove_pair self.old name.now }
    {
        self.map.shift_remove(name);
    }

    /// The names with their values, in order. Nothing is allocated.
    pub fn list(&self) -> Slice<'_, Name, Text>
        ensures list { result ≡ self.now }
        ensures distinct { AreDistinct self.now }
    {
        self.map.as_slice()
    }

    /// An equal list.
    pub fn copy(&self) -> Result<Vars, NoMemory>
        ensures { IfOk result (λ vars. vars ≡ self.now) }
    {
        Ok(self.clone()?)
    }
}
