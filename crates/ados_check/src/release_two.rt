//! Which option of Release 2 a word names, and which of them the Shell leaves out in a dialect: those of whose name its template has none,
//! and those that are not implemented.
ghost use Rattle.std.specs.{Prelude.{◌≡◌, ◌||◌, not, true, IfOk}, List.{list_any}, Option.{option_copied}};
ghost use Rattle.ados_text.specs.Text.{is_same};
ghost use Rattle.ados_readargs.specs.{Options.{has_name}, Template.{options_of}};
ghost use Rattle.ados_machine.specs.Commands.{template_of};
ghost use Rattle.ados_check.specs.ReleaseTwo.{first_named, IfLeftOut, is_unimplemented, named, named_command, naming_of, omission_of};

use ados_machine::{Builtin, parsed_template};
use ados_readargs::Template;
use ados_resident::Dialect;
use ados_text::NoMemory;
use std::alloc::Global;

/// A command of the Shell that has more options in Release 2 than in some dialect, with all its options of Release 2.
pub struct Command {
    /// Its name.
    pub name: &'static str,
    /// The command itself.
    pub builtin: Builtin,
    /// Its options by their names: those that take no value,
    pub switches: &'static [&'static str],
    /// those that take the word after their name,
    pub values: &'static [&'static str],
    /// and those that take it if it is a number.
    pub numbers: &'static [&'static str],
    /// Those of all these that have no effect which matters here.
    pub idle: &'static [&'static str],
    /// Those that are not implemented: with one of them the command does nothing.
    pub unimplemented: &'static [&'static str],
}

/// The one of this name among some commands; case is ignored.
pub fn command_in(commands: &'static [Command], name: &[u8]) -> Option<&'static Command>
    ensures { option_copied result ≡ named_command commands.now name.now }
{
    commands.iter().find(|command| command.is_named(name))
}

/// An option that a word names.
#[derive(Clone, Copy)]
pub enum Naming {
    /// One that the Shell has too; it takes the word after its name.
    Kept,
    /// One that it leaves out.
    LeftOut(Omission),
}

/// What an option takes.
#[derive(Clone, Copy, PartialEq, Eq)]
pub enum Takes {
    /// Nothing: it is a switch.
    Nothing,
    /// The word after its name.
    Word,
    /// The same, which is a number.
    Number,
}

/// An option that the Shell leaves out.
#[derive(Clone, Copy)]
pub struct Omission {
    /// Its name.
    pub name: &'static str,
    /// What it takes.
    pub takes: Takes,
    /// It has no effect which matters here.
    pub is_idle: bool,
}

impl Command {
    // It has this name; case is ignored.
    fn is_named(&self, name: &[u8]) -> bool
        ensures { result ≡ is_same self.now.name.now name.now }
    {
        self.name.as_bytes().eq_ignore_ascii_case(name)
    }

    /// The option that a word names in a dialect; `None` if it names none of Release 2, or a switch that the Shell has.
    pub fn naming(
        &self,
        alloc: Global,
        dialect: Dialect,
        word: &[u8],
    ) -> Result<Option<Naming>, NoMemory>
        ensures value { IfOk result (λ naming. naming ≡ naming_of dialect self.now word.now) }
        // What is left out is no option of the command in this dialect, or one that is not implemented.
        ensures omitted { IfOk result (IfLeftOut (λ name. (not (list_any (has_name name) (options_of (template_of dialect self.now.builtin))) || is_unimplemented self.now name) ≡ true)) }
    {
        let Some(option) = self.option(word) else {
            return Ok(None);
        };
        let name = option.name.as_bytes();
        let template = parsed_template(alloc, dialect, self.builtin)?;
        if !has_option(&template, name) || self.is_unimplemented(name) {
            return Ok(Some(Naming::LeftOut(option)));
        }
        Ok(match option.takes {
            Takes::Nothing => None,
            Takes::Word | Takes::Number => Some(Naming::Kept),
        })
    }

    // The option with this name is not implemented.
    fn is_unimplemented(&self, name: &[u8]) -> bool
        ensures { result ≡ is_unimplemented self.now name.now }
    {
        first_named(self.unimplemented, name).is_some()
    }

    // The option of Release 2 that a word names.
    fn option(&self, word: &[u8]) -> Option<Omission>
        ensures { result ≡ named self.now word.now }
    {
        if let Some(name) = first_named(self.switches, word) {
            return Some(self.omission(name, Takes::Nothing));
        }
        if let Some(name) = first_named(self.values, word) {
            return Some(self.omission(name, Takes::Word));
        }
        let name = first_named(self.numbers, word)?;
        Some(self.omission(name, Takes::Number))
    }

    // The option with this name.
    fn omission(&self, name: &'static str, takes: Takes) -> Omission
        ensures { result ≡ omission_of self.now takes name.entry }
    {
        Omission {
            name,
            takes,
            is_idle: first_named(self.idle, name.as_bytes()).is_some(),
        }
    }
}

// A template has an option of this name; case is ignored.
fn has_option(template: &Template, name: &[u8]) -> bool
    ensures { result ≡ list_any (has_name name.now) (options_of template.now) }
{
    template
        .options()
        .iter()
        .any(|option| option.has_name(name))
}

// The first of these names that is this word; case is ignored.
fn first_named(names: &'static [&'static str], word: &[u8]) -> Option<&'static str>
    ensures { result ≡ first_named (λ name. name.now) word.now names.now }
{
    for name in names {
        if is_named(name, word) {
            return Some(*name);
        }
    }
    None
}

// The word is this name; case is ignored.
fn is_named(name: &str, word: &[u8]) -> bool
    ensures { result ≡ is_same name.now word.now }
{
    name.as_bytes().eq_ignore_ascii_case(word)
}
