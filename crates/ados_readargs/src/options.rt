// An option: its names and its qualifiers.
ghost use Rattle.std.specs.{Prelude.{◌≡◌}, List.{list_any}};
ghost use Rattle.ados_readargs.specs.Options.{has_name, is_positional, takes_value, no_qualifiers, option_qualifiers, is_rest};

use ados_text::{Texts, same_name};

/// The qualifiers of an option.
#[derive(Clone, Copy)]
pub struct Qualifiers {
    /// `/A`: it has to be filled.
    pub required: bool,
    /// `/K`: it is filled by keyword alone.
    pub keyword: bool,
    /// `/S`: a switch, which takes no value.
    pub switch: bool,
    /// `/T`: a switch that changes over each time that it is named.
    pub toggle: bool,
    /// `/N`: its values are numbers.
    pub number: bool,
    /// `/M`: it takes any number of values.
    pub many: bool,
    /// `/F`: it takes the rest of the line.
    pub rest: bool,
}

impl Qualifiers {
    /// No qualifier.
    pub fn none() -> Qualifiers
        ensures { result ≡ no_qualifiers }
    {
        Qualifiers {
            required: false,
            keyword: false,
            switch: false,
            toggle: false,
            number: false,
            many: false,
            rest: false,
        }
    }

    /// Whether plain words can fill the option: it has none of `/K`, `/S` and `/T`.
    pub fn is_positional(self) -> bool
        ensures { result ≡ is_positional self }
    {
        !(self.keyword || self.switch || self.toggle)
    }

    /// Whether a keyword of the option comes before a value: it has neither `/S` nor `/T`.
    pub fn takes_value(self) -> bool
        ensures { result ≡ takes_value self }
    {
        !(self.switch || self.toggle)
    }
}

/// One option of a template.
#[derive(Drop)]
pub struct TemplateOption {
    /// Its names, in order; a name may be empty.
    pub names: Texts,
    /// What follows the names.
    pub qualifiers: Qualifiers,
}

impl TemplateOption {
    /// Whether the option has the name; case is ignored.
    pub fn has_name(&self, name: &[u8]) -> bool
        ensures { result ≡ has_name name.now self.now }
    {
        self.names
            .as_slice()
            .iter()
            .any(|own| same_name(own.as_bytes(), name))
    }
}

/// The qualifiers of the option at a place; past the last option there are none.
pub fn option_qualifiers(options: &[TemplateOption], place: usize) -> Qualifiers
    ensures { result ≡ option_qualifiers options.now place }
{
    match options.get(place) {
        Some(option) => option.qualifiers,
        None => Qualifiers::none(),
    }
}

/// Whether one of the options has `/F`.
pub fn has_rest(options: &[TemplateOption]) -> bool
    ensures { result ≡ list_any is_rest options.now }
{
    options.iter().any(|option| option.qualifiers.rest)
}
