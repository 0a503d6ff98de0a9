//! The word of a line that is its command, and the name of the command that it stands for.
ghost use Rattle.std.specs.{Prelude.{◌≡◌, ◌≤◌, length, map, IfOk}, List.{suffix_len}, Option.{option_copied}};
ghost use Rattle.ados_text.specs.Text.{to_ascii};
ghost use Rattle.ados_vars.specs.Vars.{value_in};
ghost use Rattle.ados_check.specs.CommandWords.{command_name, from_command, is_name_byte, last_name, lead_after, lead_of, name_in, unquoted, without_first};

use crate::arguments::Word;
use crate::commands::name_in_c;
use ados_items::{between, first_word, trimmed};
use ados_text::{Name, NoMemory, Text, same_name};
use ados_vars::Aliases;
use std::alloc::Global;

/// The words of a text that stands for a line.
#[derive(Clone, Copy)]
pub struct CommandWords<'a> {
    /// Where memory comes from.
    pub alloc: Global,
    /// The aliases of the shell.
    pub aliases: &'a Aliases,
    /// The text.
    pub line: &'a [u8],
}

impl<'a> CommandWords<'a> {
    /// These words from that of the command on: after Run comes another command, and the same holds after Alias and a name.
    pub fn from_command<'w>(&self, words: &'w [Word]) -> Result<&'w [Word], NoMemory>
        ensures { IfOk result (λ rest. rest.now ≡ from_command (lead_of self.now.aliases.now self.now.line.now) 0 words.now) }
    {
        let mut further = 0;
        for place in 0..words.len() {
            match self.lead_after(further, words[place])? {
                Some(next) => further = next,
                None => return Ok(&words[place..]),
            }
        }
        Ok(&[])
    }

    // How many of the words after a word are passed over too; `None` if it is the command. It is one of so many that are passed over.
    fn lead_after(&self, further: usize, word: Word) -> Result<Option<usize>, NoMemory>
        ensures { IfOk result (λ lead. lead ≡ lead_after (lead_of self.now.aliases.now self.now.line.now) further word) }
    {
        match further {
            0 => self.lead(word),
            _ => Ok(Some(further - 1)),
        }
    }

    // The same of one that may be the command: none after Run, and one after Alias.
    fn lead(&self, word: Word) -> Result<Option<usize>, NoMemory>
        ensures { IfOk result (λ lead. lead ≡ lead_of self.now.aliases.now self.now.line.now word) }
    {
        let name = self.command_name(word)?;
        Ok(if same_name(name, b"Run") {
            Some(0)
        } else if same_name(name, b"Alias") {
            Some(1)
        } else {
            None
        })
    }

    /// The name of the command for which a word stands, whatever path it has: that of the first word of its text if it is an alias.
    pub fn command_name(&self, word: Word) -> Result<&'a [u8], NoMemory>
        ensures { IfOk result (λ name. name.now ≡ command_name self.now.aliases.now self.now.line.now word) }
    {
        let written = between(self.line, word.from, word.to);
        Ok(match alias_text(self.alloc, self.aliases, written)? {
            Some(text) => last_name(first_word(trimmed(text.as_bytes()))),
            None => last_name(written),
        })
    }
}

/// The text for which a word stands, if it is an alias.
#[tactic(auto, unfolding(ados_vars::specs::Vars::value_in))]
pub fn alias_text<'a>(
    alloc: Global,
    aliases: &'a Aliases,
    word: &[u8],
) -> Result<Option<&'a Text>, NoMemory>
    ensures { IfOk result (λ text. option_copied text ≡ value_in aliases.now (map to_ascii word.now)) }
{
    if aliases.list().is_empty() {
        return Ok(None);
    }
    let name = Name::from_bytes(alloc, word)?;
    Ok(aliases.get(&name))
}

/// The name of a command, as a word has it: there may be quotes, and a path to C: before it.
pub fn name_in(word: &[u8]) -> &[u8]
    ensures { result.now ≡ name_in word.now }
{
    name_in_c(unquoted(word))
}

// The name at the end of a word, which may have quotes: what follows its last `:` or `/`.
fn last_name(word: &[u8]) -> &[u8]
    ensures { result.now ≡ last_name word.now }
{
    let path = unquoted(word);
    &path[path.len() - last_len(path)..]
}

// How many bytes the name at the end of a path has.
fn last_len(path: &[u8]) -> usize
    ensures value { result ≡ suffix_len is_name_byte path.now }
    ensures within { result ≤ length path.now }
{
    path.iter()
        .rev()
        .take_while(|byte| is_name_byte(**byte))
        .count()
}

// The byte does not end a part of a path.
fn is_name_byte(byte: u8) -> bool
    ensures { result ≡ is_name_byte byte }
{
    byte != b':' && byte != b'/'
}

/// A word without the quote before it and the one after it.
pub fn unquoted(word: &[u8]) -> &[u8]
    ensures { result.now ≡ unquoted word.now }
{
    match without_first(word) {
        [text @ .., b'"'] => text,
        text => text,
    }
}

// A word without the quote before it.
fn without_first(word: &[u8]) -> &[u8]
    ensures { result.now ≡ without_first word.now }
{
    match word {
        [b'"', text @ ..] => text,
        _ => word,
    }
}
