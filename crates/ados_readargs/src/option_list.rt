// The options of a template, with what is asked of them for each line.
ghost use Rattle.std.specs.{Prelude.{◌≡◌, ◌==◌, ◌<◌, ℕ, true, false, length, get_or, IfSome}, List.{list_any}};
ghost use Rattle.ados_readargs.specs.{NameLengths.{has_as_long, one_is_as_long}, Options.{is_required, is_rest, takes_number}, Shares.{is_middle, middle_of}};

use crate::options::{TemplateOption, has_rest};
use std::marker::Model;

/// The options of a template, with what is asked of them for each line, found once.
#[derive(Drop)]
pub struct OptionList {
    items: Vec<TemplateOption>,
    with_rest: bool,
    with_required: bool,
    with_number: bool,
    middle: Option<usize>,
    // Whether an option has a name of each length, from 0 on; of longer names nothing is said.
    lengths: [bool; 32],
}

impl Model for OptionList {
    ghost use Rattle.std.specs.{Prelude.{◌≡◌, ℕ, true, false, List, get_or}, List.{list_any}};
    ghost use Rattle.ados_readargs.specs.{NameLengths.{one_is_as_long}, Options.{is_required, is_rest, takes_number}, Shares.{middle_of}, declared.options.TemplateOption.{TemplateOption}};

    ghost Value = { List TemplateOption };

    ghost view = { λ o. o.items.items };

    ghost invariant = { λ o. (o.with_rest ≡ list_any is_rest o.items.items) × (o.with_required ≡ list_any is_required o.items.items)
        × (o.with_number ≡ list_any takes_number o.items.items) × (o.middle ≡ middle_of o.items.items)
        × ((size : ℕ) → get_or o.lengths size true ≡ false → one_is_as_long size o.items.items ≡ false) };
}

impl OptionList {
    /// The options of a vector, which is moved: nothing is allocated.
    pub fn new(items: Vec<TemplateOption>) -> OptionList
        ensures { result ≡ items.items }
    {
        let with_rest = has_rest(items.as_slice());
        let with_number = has_number(items.as_slice());
        let with_required = has_required(items.as_slice());
        let middle = middle_of(items.as_slice());
        let lengths = name_lengths(items.as_slice());
        OptionList {
            items,
            with_rest,
            with_required,
            with_number,
            middle,
            lengths,
        }
    }

    /// All options, in order.
    pub fn as_slice(&self) -> &[TemplateOption]
        ensures { result.now ≡ self.now }
    {
        self.items.as_slice()
    }

    /// Whether one has `/F`.
    pub fn with_rest(&self) -> bool
        ensures { result ≡ list_any is_rest self.now }
    {
        self.with_rest
    }

    /// Whether one has `/A`.
    pub fn with_required(&self) -> bool
        ensures { result ≡ list_any is_required self.now }
    {
        self.with_required
    }

    /// Whether one has `/N`.
    pub fn with_number(&self) -> bool
        ensures { result ≡ list_any takes_number self.now }
    {
        self.with_number
    }

    /// The place of the plain `/M`.
    #[tactic(auto, using(crate::proofs::OptionLemmas::middle_within))]
    pub fn middle(&self) -> Option<usize>
        ensures value { result ≡ middle_of self.now }
        ensures within { IfSome result (λ middle. middle < length self.now) }
    {
        self.middle
    }

    /// Whether it is known that no option has a name of this length.
    pub fn has_none_as_long(&self, size: usize) -> bool
        ensures { result ≡ true → one_is_as_long size self.now ≡ false }
    {
        match self.lengths.get(size) {
            Some(has) => !*has,
            None => false,
        }
    }
}

// Whether an option has a name of each length, from 0 on.
fn name_lengths(options: &[TemplateOption]) -> [bool; 32]
    ensures { (size : ℕ) → get_or result size true ≡ false → one_is_as_long size options.now ≡ false }
{
    let mut lengths = [false; 32];
    for option in options {
        mark_lengths(option, &mut lengths);
    }
    lengths
}

// Marks the lengths of an option's names.
fn mark_lengths(option: &TemplateOption, lengths: &mut [bool; 32])
    ensures { (size : ℕ) → get_or lengths.new size true ≡ false → (get_or lengths.old size true ≡ false) × (has_as_long size option.now ≡ false) }
{
    for name in option.names.as_slice() {
        mark_length(name.as_bytes().len(), lengths);
    }
}

// Marks one length, if it is short enough.
fn mark_length(length: usize, lengths: &mut [bool; 32])
    ensures { (size : ℕ) → get_or lengths.new size true ≡ false → (get_or lengths.old size true ≡ false) × ((length == size) ≡ false) }
{
    if length < 32 {
        lengths[length] = true;
    }
}

fn has_required(options: &[TemplateOption]) -> bool
    ensures { result ≡ list_any is_required options.now }
{
    options.iter().any(|option| option.qualifiers.required)
}

fn has_number(options: &[TemplateOption]) -> bool
    ensures { result ≡ list_any takes_number options.now }
{
    options.iter().any(|option| option.qualifiers.number)
}

// Whether the option is plain and has /M.
fn is_middle(option: &TemplateOption) -> bool
    ensures { result ≡ is_middle option.now }
{
    option.qualifiers.is_positional() && option.qualifiers.many
}

// The place of the plain /M.
fn middle_of(options: &[TemplateOption]) -> Option<usize>
    ensures { result ≡ middle_of options.now }
{
    options.iter().position(is_middle)
}
