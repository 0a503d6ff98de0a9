// The options of a script's template, and their values.
ghost use Rattle.std.specs.{Prelude.{◌≡◌, position, IfOk}, List.{join_with_byte}, Option.{option_copied}};
ghost use Rattle.ados_text.specs.Text.{IsText};
ghost use Rattle.ados_readargs.specs.Template.{options_of};
ghost use Rattle.ados_subst.specs.Slots.{with_default, given_text, is_named, new_slot, slots_of};

use ados_readargs::{Arg, Args, Template, TemplateOption};
use ados_text::{NoMemory, Text, Texts, same_name};
use std::alloc::Global;
use std::marker::Model;

/// An option of a script's template.
#[derive(Drop)]
pub struct Slot {
    /// Its names, in order.
    pub names: Texts,
    /// The text that it was given.
    pub given: Option<Text>,
    /// The text for an option that was given none.
    pub default: Option<Text>,
}

impl Slot {
    ghost use Rattle.ados_subst.specs.Slots.{value_of, value_or};

    // The slot of an option and its argument; it has no default yet.
    fn new(alloc: Global, option: &TemplateOption, arg: Arg) -> Result<Slot, NoMemory>
        ensures { IfOk result (λ slot. slot ≡ new_slot option.now arg) }
    {
        Ok(Slot {
            names: option.names.copy()?,
            given: given_text(alloc, &option.names, arg)?,
            default: None,
        })
    }

    // Whether the option has the name; case is ignored.
    fn is_named(&self, name: &[u8]) -> bool
        ensures { result ≡ is_named name.now self.now }
    {
        self.names
            .as_slice()
            .iter()
            .any(|own| same_name(own.as_bytes(), name))
    }

    /// What the option stands for: the text that it was given, otherwise its default, otherwise nothing.
    pub fn value(&self) -> &[u8]
        ensures value { result.now ≡ value_of self.now }
        ensures ascii { IsText result.now }
    {
        match &self.default {
            None => self.value_or(&[]),
            Some(text) => self.value_or(text.as_bytes()),
        }
    }

    /// The text that the option was given, otherwise another one.
    pub fn value_or<'a>(&'a self, other: &'a [u8]) -> &'a [u8]
        requires { IsText other.now }
        ensures value { result.now ≡ value_or other.now self.now }
        ensures ascii { IsText result.now }
    {
        match &self.given {
            None => other,
            Some(text) => text.as_bytes(),
        }
    }
}

/// The options of a script's template, in order.
#[derive(Drop)]
pub struct Slots {
    items: Vec<Slot>,
}

impl Model for Slots {
    ghost use Rattle.std.specs.Prelude.{List};
    ghost use Rattle.ados_subst.specs.declared.slots.Slot.{Slot};

    ghost Value = { List Slot };

    ghost view = { λ s. s.items.items };
}

impl Slots {
    ghost use Rattle.ados_subst.specs.Slots.{find_slot};

    /// The options of a template with their arguments; none has a default yet.
    pub fn filled(alloc: Global, template: &Template, args: &Args) -> Result<Slots, NoMemory>
        ensures { IfOk result (λ slots. slots ≡ slots_of (options_of template.now) args.now) }
    {
        let options = template.options();
        let mut items = Vec::with_capacity(alloc, options.len())?;
        for place in 0..options.len() {
            if let Some(arg) = args.get(alloc, place)? {
                items.push(Slot::new(alloc, &options[place], arg)?)?;
            }
        }
        Ok(Slots { items })
    }

    /// The option with a name.
    pub fn get(&self, name: &[u8]) -> Option<&Slot>
        ensures { option_copied result ≡ find_slot self.now name.now }
    {
        self.items.iter().find(|slot| slot.is_named(name))
    }

    /// The same options, with a default for the one with a name; `None` if no option has the name, or it is empty.
    pub fn with_default(self, name: &[u8], text: Text) -> Option<Slots>
        ensures { result ≡ with_default self name.now text }
    {
        if name.is_empty() {
            return None;
        }
        let mut items = self.items;
        let place = place_named(items.as_slice(), name)?;
        items[place].default = Some(text);
        Some(Slots { items })
    }
}

// The place of the first option that has the name.
fn place_named(slots: &[Slot], name: &[u8]) -> Option<usize>
    ensures { result ≡ position (is_named name.now) slots.now }
{
    slots.iter().position(|slot| slot.is_named(name))
}

// The text that an argument gives to the option with these names.
fn given_text(alloc: Global, names: &Texts, arg: Arg) -> Result<Option<Text>, NoMemory>
    ensures { IfOk result (λ text. text ≡ given_text names.now arg) }
{
    match arg {
        Arg::Absent => Ok(None),
        Arg::On => match names.get(0) {
            None => Ok(None),
            Some(name) => Ok(Some(name.copy()?)),
        },
        Arg::One(text) => Ok(Some(text)),
        Arg::Many(texts) => Ok(Some(joined(alloc, texts.as_slice())?)),
    }
}

// The texts with a blank between each two.
fn joined(alloc: Global, texts: &[Text]) -> Result<Text, NoMemory>
    ensures { IfOk result (λ text. text ≡ join_with_byte 32 texts.now) }
{
    let mut all = Text::new(alloc);
    for place in 0..texts.len() {
        if place > 0 {
            all.push(b' ')?;
        }
        all.push_bytes(texts[place].as_bytes())?;
    }
    Ok(all)
}
