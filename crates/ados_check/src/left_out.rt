//! The commands of a line that are given an option of Release 2 which the Shell leaves out, and so takes for a plain word.
ghost use Rattle.std.specs.{Prelude.{◌≡◌, ◌++◌, map, IfOk, IfSome, OnOk}, Option.{option_map}};
ghost use Rattle.ados_check.specs.{LeftOut.{IsBlanked, IsRidOfIdle, IsStruck, are_idle, command_text, given_in, given_of, is_between, is_idle_in_line, is_in_idle, left_out_in, name_in, name_of, part_of, shown}, Table.{AreReleaseTwo}};

use crate::arguments::argument_words;
use crate::command_words::CommandWords;
use crate::phrases::{Given, Phrases};
use crate::release_two::{Command, command_in};
use crate::table::commands;
use crate::ticks::{around, texts_in_ticks};
use ados_flow::before_plus;
use ados_items::between;
use ados_line::without_comment;
use ados_resident::Dialect;
use ados_text::{NoMemory, lines_of};
use ados_vars::Aliases;
use std::alloc::Global;
use std::fmt;

/// A command with options that the Shell leaves out.
#[derive(Drop)]
pub struct LeftOut {
    command: &'static str,
    // The place of the line at which its text begins.
    from: usize,
    options: Vec<Given>,
}

/// What the lines of a script are read with.
#[derive(Clone, Copy)]
pub struct Reader<'a> {
    /// Where the memory comes from.
    pub alloc: Global,
    /// The dialect of the world.
    pub dialect: Dialect,
    /// Those of its shell.
    pub aliases: &'a Aliases,
    // The commands that have more options in Release 2.
    commands: &'static [Command],
}

impl fmt::Display for LeftOut {
    fn fmt<W: fmt::Write>(&self, f: &mut fmt::Formatter<W>) -> Result<(), fmt::Error> {
        write!(f, "{} has no ", self.command)?;
        for (place, given) in self.options.iter().enumerate() {
            let mark = if place == 0 { "" } else { ", " };
            write!(f, "{}{}", mark, given.option.name)?;
        }
        write!(f, " here")
    }
}

impl LeftOut {
    /// The command's name.
    pub fn command(&self) -> &'static str
        ensures { result ≡ self.now.command }
    {
        self.command
    }

    /// None of its options has an effect which matters here: `strike` writes blanks over them all.
    pub fn is_idle(&self) -> bool
        ensures { result ≡ are_idle self.now.options.items }
    {
        self.options.iter().all(|given| given.option.is_idle)
    }
}

/// Writes blanks over those options in a script that the Shell leaves out in a dialect and that have no effect which matters here.
///
/// The script keeps its length. Each byte is a blank if it lies in such an option of one of the lines, and otherwise unchanged.
pub fn strike(alloc: Global, dialect: Dialect, script: &mut [u8]) -> Result<(), NoMemory>
    ensures blanked { IsBlanked script.old script.new }
    ensures struck { OnOk result (IsRidOfIdle dialect script.old script.new) }
{
    let aliases = Aliases::new(alloc);
    let reader = Reader::new(alloc, dialect, &aliases);
    let mut from: usize = 0;
    let lines = lines_of(alloc, script)?;
    for line in lines.as_slice() {
        strike_line(reader, script, from, line.as_bytes())?;
        from = from.saturating_add(line.as_bytes().len()).saturating_add(1);
    }
    Ok(())
}

// The same in a line that begins at a place of the script.
fn strike_line(reader: Reader, script: &mut [u8], from: usize, line: &[u8]) -> Result<(), NoMemory>
    ensures blanked { IsBlanked script.old script.new }
    ensures struck { OnOk result (IsStruck (is_idle_in_line reader.entry.commands.now reader.entry.dialect reader.entry.aliases.now from line.now) script.old script.new) }
{
    let found = reader.options_left_out(line)?;
    for one in &found {
        strike_options(script, from.saturating_add(one.from), &one.options);
    }
    Ok(())
}

// Writes blanks over the options without effect among those of a text that begins at a place.
fn strike_options(script: &mut [u8], from: usize, options: &[Given])
    ensures { IsStruck (is_in_idle from options.now) script.old script.new }
{
    for given in options {
        if given.option.is_idle {
            blank(
                script,
                from.saturating_add(given.from),
                from.saturating_add(given.to),
            );
        }
    }
}

// Writes blanks over the bytes from one place up to another.
fn blank(script: &mut [u8], from: usize, to: usize)
    ensures { IsStruck (is_between from to) script.old script.new }
{
    for place in from..to.min(script.len()) {
        script[place] = b' ';
    }
}

/// A line without its comment, and then without the `+` at its end by which a Run takes the next line.
pub fn command_text(line: &[u8]) -> &[u8]
    ensures { result.now ≡ command_text line.now }
{
    let plain = without_comment(line);
    match before_plus(plain) {
        Some(front) => front,
        None => plain,
    }
}

impl<'a> Reader<'a> {
    /// That of a shell with these aliases in a world of a dialect.
    pub fn new(alloc: Global, dialect: Dialect, aliases: &'a Aliases) -> Reader<'a>
        ensures dialect { result.dialect ≡ dialect }
        ensures aliases { result.aliases.now ≡ aliases.now }
        ensures commands { AreReleaseTwo result.commands.now }
    {
        Reader {
            alloc,
            dialect,
            aliases,
            commands: commands(),
        }
    }

    /// The commands of a line that are given options which the Shell leaves out: those between back-ticks, and then that of the line
    /// itself.
    ///
    /// A line is read as it is, before its variables are put in, and without the `+` at its end by which a Run takes the next line. An
    /// alias is the first word of its text. A command after Run and one that an alias is to stand for count like any other. What is in
    /// quotes or in a comment, the name in a redirection, and the value of an option are not options.
    pub fn options_left_out(&self, line: &[u8]) -> Result<Vec<LeftOut>, NoMemory>
        ensures { IfOk result (λ found. map shown found.items ≡ left_out_in self.now.commands.now self.now.dialect self.now.aliases.now line.now) }
    {
        let plain = command_text(line);
        let mut found = Vec::new(self.alloc);
        let texts = texts_in_ticks(self.alloc, plain)?;
        for text in &texts {
            self.push_part(text.from, between(plain, text.from, text.to), &mut found)?;
        }
        let around = around(self.alloc, plain)?;
        self.push_part(0, around.as_slice(), &mut found)?;
        Ok(found)
    }

    // Adds the command of a text without back-ticks, which begins at a place of the line, if it is given such options.
    fn push_part(&self, from: usize, text: &[u8], found: &mut Vec<LeftOut>) -> Result<(), NoMemory>
        ensures { OnOk result (map shown found.new.items ≡ map shown found.old.items ++ part_of from (given_in self.now.commands.now self.now.dialect self.now.aliases.now text.now)) }
    {
        if let Some(one) = self.command_given(from, text)? {
            if !one.options.is_empty() {
                found.push(one)?;
            }
        }
        Ok(())
    }

    // The command of a text without back-ticks, which begins at a place of the line, with the options that it is given.
    fn command_given(&self, from: usize, text: &[u8]) -> Result<Option<LeftOut>, NoMemory>
        ensures command { IfOk result (λ found. option_map name_of found ≡ name_in self.now.commands.now self.now.aliases.now text.now) }
        ensures given { IfOk result (λ found. given_of found ≡ given_in self.now.commands.now self.now.dialect self.now.aliases.now text.now) }
        ensures place { IfOk result (λ found. IfSome found (λ one. one.from ≡ from)) }
    {
        let words = argument_words(self.alloc, text)?;
        let line = CommandWords {
            alloc: self.alloc,
            aliases: self.aliases,
            line: text,
        };
        let [word, rest @ ..] = line.from_command(words.as_slice())? else {
            return Ok(None);
        };
        let Some(command) = command_in(self.commands, line.command_name(*word)?) else {
            return Ok(None);
        };
        let phrases = Phrases {
            alloc: self.alloc,
            dialect: self.dialect,
            command,
            line: text,
        };
        Ok(Some(LeftOut {
            command: command.name,
            from,
            options: phrases.given_options(rest)?,
        }))
    }
}
