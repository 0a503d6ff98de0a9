//! The words that lines of a script make aliases of: sought out once for all of its lines.
ghost use Rattle.std.specs.{Prelude.{◌≡◌, ◌≤◌, length, map, IfOk, IfSome, OnOk}, List.{prefix_len}, Option.{option_map}};
ghost use Rattle.ados_text.specs.Text.{IsText, to_ascii};
ghost use Rattle.ados_check.specs.Aliases.{HasAll, HasLine, HasLines, HasNone, alias_name, bare, has_made, is_open, may_be_alias, not_quote};

use ados_items::{first_word, rest_of, trimmed};
use ados_text::{Name, NoMemory, Text, same_name};
use ados_vars::Aliases;
use std::alloc::Global;

/// The words that lines make aliases of.
#[derive(Drop)]
pub struct MadeAliases {
    // The name of one depends on arguments or variables: it may be any word.
    is_any: bool,
    // The names of the others, each with an empty text.
    names: Aliases,
}

impl MadeAliases {
    // None.
    #[tactic(auto, unfolding(ados_vars::specs::Vars::value_in))]
    fn new(alloc: Global) -> MadeAliases
        ensures { HasNone result }
    {
        MadeAliases {
            is_any: false,
            names: Aliases::new(alloc),
        }
    }

    /// Those of the lines that are typed before a script, and of its own.
    #[tactic(auto, using(crate::proofs::AliasLemmas::both_added))]
    pub fn of(alloc: Global, typed: &[Text], lines: &[Text]) -> Result<MadeAliases, NoMemory>
        ensures { IfOk result (λ made. HasAll made typed.now lines.now) }
    {
        let mut made = MadeAliases::new(alloc);
        made.add_lines(alloc, typed)?;
        made.add_lines(alloc, lines)?;
        Ok(made)
    }

    /// The word is one of them, ignoring case, or may be. A byte above 127 counts as `?`.
    pub fn has(&self, alloc: Global, word: &[u8]) -> Result<bool, NoMemory>
        ensures { IfOk result (λ has. has ≡ has_made self.now (map to_ascii word.now)) }
    {
        if self.is_any {
            return Ok(true);
        }
        let name = Name::from_bytes(alloc, word)?;
        Ok(self.names.get(&name).is_some())
    }

    // Adds those of lines.
    fn add_lines(&mut self, alloc: Global, lines: &[Text]) -> Result<(), NoMemory>
        ensures { OnOk result (HasLines self.old self.new lines.now) }
    {
        for line in lines {
            self.add_line(alloc, line)?;
        }
        Ok(())
    }

    // Adds that of a line, if it makes one.
    #[tactic(auto, using(crate::proofs::AliasLemmas::one_known, crate::proofs::AliasLemmas::all_known, crate::proofs::AliasLemmas::none_known))]
    fn add_line(&mut self, alloc: Global, line: &Text) -> Result<(), NoMemory>
        ensures { OnOk result (HasLine self.old self.new line.now) }
    {
        let Some(name) = alias_name(line.as_bytes()) else {
            return Ok(());
        };
        if is_open(name) {
            self.is_any = true;
            return Ok(());
        }
        let name = Name::new(Text::of_ascii(alloc, name)?);
        self.names.set(name, Text::new(alloc))
    }
}

/// One of these lines makes an alias of a word, ignoring case, or may.
pub fn may_make_alias(alloc: Global, lines: &[Text], word: &[u8]) -> Result<bool, NoMemory>
    ensures { IfOk result (λ may. may ≡ may_be_alias lines.now (map to_ascii word.now)) }
{
    MadeAliases::of(alloc, lines, &[])?.has(alloc, word)
}

// The name of which a line makes an alias, if it does.
#[tactic(auto, using(ados_text::proofs::TextLemmas::parts))]
fn alias_name(line: &[u8]) -> Option<&[u8]>
    requires { IsText line.now }
    ensures value { option_map (λ name. name.now) result ≡ alias_name line.now }
    ensures ascii { IfSome result (λ name. IsText name.now) }
{
    let line = trimmed(line);
    if !same_name(first_word(line), b"Alias") {
        return None;
    }
    Some(bare(first_word(rest_of(line))))
}

// The word without quotes around it.
#[tactic(auto, using(ados_text::proofs::TextLemmas::parts))]
fn bare(word: &[u8]) -> &[u8]
    requires { IsText word.now }
    ensures value { result.now ≡ bare word.now }
    ensures ascii { IsText result.now }
{
    match word {
        [b'"', inside @ ..] => &inside[..text_len(inside)],
        _ => word,
    }
}

// How many bytes come before a quote.
fn text_len(text: &[u8]) -> usize
    ensures value { result ≡ prefix_len not_quote text.now }
    ensures within { result ≤ length text.now }
{
    text.iter().take_while(|byte| **byte != b'"').count()
}

// Arguments or variables stand in a name.
fn is_open(name: &[u8]) -> bool
    ensures { result ≡ is_open name.now }
{
    name.contains(&b'<') || name.contains(&b'$')
}
