// The alias of the first word of a line.
ghost use Rattle.std.specs.Prelude.{◌≡◌, ◌+◌, ◌++◌, ◌≤◌, length, unwrap_or, IfOk, IfSome, OnOk};
ghost use Rattle.ados_text.specs.Text.{IsText};
ghost use Rattle.ados_line.specs.Alias.{hole_from, text_with_rest, with_alias};

use ados_items::{Item, blanks, next_item, value};
use ados_text::{Name, NoMemory, Text};
use ados_vars::Aliases;
use std::alloc::Global;

/// A line whose first word names an alias, with the alias's text in place of the word; `None` if it names none.
#[tactic(auto, using(ados_text::proofs::TextLemmas::parts, crate::proofs::AliasLemmas::no_aliases))]
#[inline(always)]
pub fn replace_alias(
    alloc: Global,
    aliases: &Aliases,
    line: &[u8],
) -> Result<Option<Text>, NoMemory>
    requires { IsText line.now }
    ensures { IfOk result (λ replaced. unwrap_or replaced line.now ≡ with_alias aliases.now line.now) }
{
    if aliases.list().is_empty() {
        return Ok(None);
    }
    let item = next_item(line, 0);
    let Item::Word { from, to } = item else {
        return Ok(None);
    };
    let name = Name::new(value(alloc, line, &item)?);
    let Some(text) = aliases.get(&name) else {
        return Ok(None);
    };
    let mut replaced = Text::new(alloc);
    replaced.push_bytes(&line[..from])?;
    push_filled(&mut replaced, text, &line[to..])?;
    Ok(Some(replaced))
}

// Appends an alias's text with the rest of the line: in place of the text's first `[]`, or after it.
#[tactic(auto, using(ados_text::proofs::TextLemmas::parts))]
fn push_filled(out: &mut Text, text: &Text, rest: &[u8]) -> Result<(), NoMemory>
    requires { IsText rest.now }
    ensures { OnOk result (out.new ≡ out.old ++ text_with_rest text.now rest.now (hole_from 0 text.now)) }
{
    let bytes = text.as_bytes();
    match hole(bytes) {
        None => {
            out.push_bytes(bytes)?;
            out.push_bytes(rest)
        }
        Some(place) => {
            out.push_bytes(&bytes[..place])?;
            out.push_bytes(&rest[blanks(rest)..])?;
            out.push_bytes(&bytes[place + 2..])
        }
    }
}

// The place of the first `[]`.
fn hole(text: &[u8]) -> Option<usize>
    ensures place { result ≡ hole_from 0 text.now }
    ensures within { IfSome result (λ place. place + 2 ≤ length text.now) }
{
    for place in 0..text.len() {
        if text[place] == b'[' && place + 1 < text.len() && text[place + 1] == b']' {
            return Some(place);
        }
    }
    None
}
