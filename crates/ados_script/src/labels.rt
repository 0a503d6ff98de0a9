//! The labels of Lab lines, in the order of their texts. A search compares the bytes in place, and allocates nothing.
ghost use Rattle.std.specs.{Prelude.{◌≡◌, ℕ, List, reverse, nat_lt, IfOk, OnOk}, List.{filter, find}, List.Sorted.{IsNonDecreasingBy, IsSortedByKey}, Option.{option_copied, option_map}};
ghost use Rattle.ados_text.specs.{Text.{folded_text}, Name.{name_cmp}};
ghost use Rattle.ados_script.specs.{Heads.{label_of}, Tables.{has_text}, declared.labels.Label.{Label}};

use ados_items::{Item, next_item, value};
use ados_text::{Name, NoMemory, Text, fold};
use std::alloc::Global;
use std::cmp::Ordering;

/// The label of a Lab line.
#[derive(Drop)]
pub struct Label {
    /// Its text, which is compared without regard to case.
    pub text: Name,
    /// The number of the line.
    pub line: usize,
}

impl Label {
    /// A label of the line of a number.
    pub fn new(text: Name, line: usize) -> Label
        ensures { result ≡ record { text = text; line = line } }
    {
        Label { text, line }
    }
}

/// The label of a Lab line: the text of its second item, empty if there is none and for an open quote.
pub fn read_label(alloc: Global, line: &Text) -> Result<Name, NoMemory>
    ensures { IfOk result (λ text. text ≡ label_of line.now) }
{
    let bytes = line.as_bytes();
    let text = match next_item(bytes, 0) {
        Item::Word { to, .. } => value(alloc, bytes, &next_item(bytes, to))?,
        _ => Text::new(alloc),
    };
    Ok(Name::new(text))
}

/// Labels that were read from the last one up, in the order of their texts; those with the same text in that of their lines.
pub fn in_order(labels: Vec<Label>) -> Result<Vec<Label>, NoMemory>
    ensures sorted { IfOk result (λ sorted. IsSortedByKey (λ (label : Label). folded_text label.text) name_cmp sorted.items) }
    ensures all { IfOk result (λ sorted. (text : List ℕ) → filter (has_text text) sorted.items ≡ filter (has_text text) (reverse labels.items)) }
{
    let mut labels = labels;
    labels.reverse();
    sort(&mut labels)?;
    Ok(labels)
}

// Sorts labels by their texts; those with the same text keep their order.
fn sort(labels: &mut Vec<Label>) -> Result<(), NoMemory>
    ensures sorted { OnOk result (IsSortedByKey (λ (label : Label). folded_text label.text) name_cmp labels.new.items) }
    ensures stable { OnOk result ((text : List ℕ) → filter (has_text text) labels.new.items ≡ filter (has_text text) labels.old.items) }
{
    labels.sort_by(|a, b| a.text.cmp(&b.text))?;
    Ok(())
}

/// The first line below line `i` that has this label.
pub fn first_of(labels: &[Label], text: &[u8], i: usize) -> Option<usize>
    requires sorted { IsSortedByKey (λ (label : Label). folded_text label.text) name_cmp labels.now }
    requires rising { IsNonDecreasingBy (λ (label : Label). label.line) (filter (has_text text.now) labels.now) }
    ensures { result ≡ option_map (λ (label : Label). label.line) (find (λ (label : Label). nat_lt i label.line) (filter (has_text text.now) labels.now)) }
{
    Some(first_label_after(all_of(labels, text), i)?.line)
}

// The first of these labels that is below line `i`.
fn first_label_after(labels: &[Label], i: usize) -> Option<&Label>
    requires { IsNonDecreasingBy (λ (label : Label). label.line) labels.now }
    ensures { option_copied result ≡ find (λ (label : Label). nat_lt i label.line) labels.now }
{
    labels.get(labels.partition_point(|label| label.line <= i))
}

// The labels with this text.
fn all_of<'a>(labels: &'a [Label], text: &[u8]) -> &'a [Label]
    requires { IsSortedByKey (λ (label : Label). folded_text label.text) name_cmp labels.now }
    ensures { result.now ≡ filter (has_text text.now) labels.now }
{
    let from = labels.partition_point(|label| order(label, text).is_lt());
    let rest = &labels[from..];
    &rest[..rest.partition_point(|label| order(label, text).is_eq())]
}

// How the text of a label compares to another.
fn order(label: &Label, text: &[u8]) -> Ordering
    ensures { result ≡ name_cmp (folded_text label.now.text) (folded_text text.now) }
{
    let theirs = text.iter().map(|byte| fold(*byte));
    label
        .text
        .text()
        .as_bytes()
        .iter()
        .map(|byte| fold(*byte))
        .cmp(theirs)
}
