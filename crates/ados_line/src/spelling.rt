// Characters as text.
ghost use Rattle.std.specs.{Prelude.{◌≡◌, ◌++◌, OnOk}, List.{flat_map}};
ghost use Rattle.ados_line.specs.Letters.{letter_text, starless_text};

use crate::letters::Letter;
use ados_text::{NoMemory, Text};

/// Appends characters as they are written.
pub fn push_spelled(text: &mut Text, letters: &[Letter]) -> Result<(), NoMemory>
    ensures { OnOk result (text.new ≡ text.old ++ flat_map letter_text letters.now) }
{
    for letter in letters {
        match *letter {
            Letter::Plain(c) => text.push(c)?,
            Letter::Starred(c) => {
                text.push(b'*')?;
                text.push(c)?;
            }
        }
    }
    Ok(())
}

/// Appends characters without the stars before a mark.
pub fn push_bared(text: &mut Text, letters: &[Letter], mark: u8) -> Result<(), NoMemory>
    ensures { OnOk result (text.new ≡ text.old ++ flat_map (starless_text mark) letters.now) }
{
    for letter in letters {
        push_one(text, *letter, mark)?;
    }
    Ok(())
}

/// Appends one character, without the star before a mark.
pub fn push_one(text: &mut Text, letter: Letter, mark: u8) -> Result<(), NoMemory>
    ensures { OnOk result (text.new ≡ text.old ++ starless_text mark letter) }
{
    match letter {
        Letter::Plain(c) => text.push(c),
        Letter::Starred(c) => {
            if c != mark {
                text.push(b'*')?;
            }
            text.push(c)
        }
    }
}
