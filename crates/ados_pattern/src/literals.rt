//! The names of literal patterns.

ghost use Rattle.std.specs.Prelude.{◌≡◌, if◌then◌else◌, IfOk};
ghost use Rattle.ados_pattern.specs.{Literal.{chars_after, literal_name}, Tokens.{tokens_from}};

use crate::tokens::{Mode, Token};
use ados_text::{NoMemory, Text};
use std::alloc::Global;

/// The name of a literal pattern's text: its characters without their quotes. `None` if the
/// text is not literal.
#[tactic(auto, using(crate::proofs::Names::name_read))]
pub fn name_of(alloc: Global, text: &Text) -> Result<Option<Text>, NoMemory>
    ensures { IfOk result (λ name. name ≡ literal_name text.now) }
{
    let mut name = Vec::new(alloc);
    if !reads(&mut name, Mode::Plain, text.as_bytes())? {
        return Ok(None);
    }
    let name = Text::from_bytes(alloc, &name)?;
    Ok(Some(name))
}

// Adds the characters of the bytes at the end of the name. False if the text is not literal.
fn reads(name: &mut Vec<u8>, mode: Mode, bytes: &[u8]) -> Result<bool, NoMemory>
    ensures { IfOk result (λ literal. chars_after name.old.items (tokens_from mode bytes.now) ≡ (if literal then Some name.new.items else None)) }
{
    match bytes {
        [] => Ok(true),
        [byte, rest @ ..] => {
            let (token, next) = mode.read(*byte, rest);
            match token {
                Token::Char(c) => {
                    name.push(c)?;
                    reads(name, next, rest)
                }
                Token::Silent => reads(name, next, rest),
                _ => Ok(false),
            }
        }
    }
}
