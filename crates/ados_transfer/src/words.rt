//! Texts as words of a typed line.
ghost use Rattle.std.specs.{Prelude.{◌≡◌, ◌<◌, ◌++◌, ◌∷◌, [], List, ℕ, length, true, false, OnOk, if◌then◌else◌}, List.{list_all}};
ghost use Rattle.ados_text.specs.Text.{IsText};
ghost use Rattle.ados_transfer.specs.Words.{equal_signs, escaped_byte, has_plain_ends, quoted_body, needs_no_quotes, is_first_sign, is_literal_byte, needs_star, quoted_word, word_of, IsApart, ReadsAs};

use ados_text::{NoMemory, Text};

// The characters that a line reads as themselves outside quotes.
const PLAIN_SIGNS: &[u8] = b"_.,:/#?%~()|'@!^&+-=";

/// Adds a blank to a line, and a text as a word that is read as exactly this text.
///
/// It is quoted, unless `quotes` is false and it stands for itself unquoted: so it may be the name of an option of
/// `.KEY`, or set one by `=`. What follows it has to begin with a blank.
pub fn push_word(line: &mut Text, text: &Text, quotes: bool) -> Result<(), NoMemory>
    ensures line { OnOk result (line.new ≡ line.old ++ 32 ∷ word_of quotes text.now) }
    // Whatever follows it: the word is the next one of the line, and its value is the text.
    ensures reads { OnOk result ((after : List ℕ) → IsApart after → ReadsAs false (line.new ++ after) (length line.old) (length line.new) text.now) }
    // In quotes it is one item even if `=` is an item of its own.
    ensures item { OnOk result (quotes ≡ true → (after : List ℕ) → ReadsAs true (line.new ++ after) (length line.old) (length line.new) text.now) }
{
    line.push(b' ')?;
    push_written(line, text, quotes)
}

// Adds a text as it is written as a word.
fn push_written(line: &mut Text, text: &Text, quotes: bool) -> Result<(), NoMemory>
    ensures line { OnOk result (line.new ≡ line.old ++ word_of quotes text.now) }
    ensures text { IsText text.now }
{
    let bytes = text.as_bytes();
    if !quotes && needs_no_quotes(bytes) {
        line.push_bytes(bytes)
    } else {
        push_quoted(line, bytes)
    }
}

// Adds a text in quotes.
fn push_quoted(line: &mut Text, text: &[u8]) -> Result<(), NoMemory>
    requires { IsText text.now }
    ensures { OnOk result (line.new ≡ line.old ++ quoted_word text.now) }
{
    line.push(b'"')?;
    push_inside(line, text)?;
    line.push(b'"')
}

// Adds a text as it is written inside quotes.
fn push_inside(line: &mut Text, text: &[u8]) -> Result<(), NoMemory>
    requires { IsText text.now }
    ensures { OnOk result (line.new ≡ line.old ++ quoted_body text.now) }
{
    for byte in text {
        push_escaped(line, *byte)?;
    }
    Ok(())
}

// Adds a byte as it is written inside quotes.
fn push_escaped(line: &mut Text, byte: u8) -> Result<(), NoMemory>
    requires { byte < 128 }
    ensures { OnOk result (line.new ≡ line.old ++ escaped_byte byte) }
{
    match byte {
        b'\n' => line.push_bytes(b"*N"),
        27 => line.push_bytes(b"*E"),
        byte => push_printed(line, byte),
    }
}

// Adds a byte other than a newline and the byte 27.
fn push_printed(line: &mut Text, byte: u8) -> Result<(), NoMemory>
    requires { byte < 128 }
    ensures { OnOk result (line.new ≡ line.old ++ (if needs_star byte then 42 ∷ byte ∷ [] else byte ∷ [])) }
{
    if needs_star(byte) {
        line.push(b'*')?;
    }
    line.push(byte)
}

// The byte has a special meaning inside quotes.
fn needs_star(byte: u8) -> bool
    ensures { result ≡ needs_star byte }
{
    matches!(byte, b'"' | b'*' | b'$' | b'`')
}

// The text stands for itself outside quotes.
fn needs_no_quotes(text: &[u8]) -> bool
    ensures { result ≡ needs_no_quotes text.now }
{
    has_plain_ends(text) && are_plain(text) && equal_signs(text) < 2
}

// The text is not empty, and can begin and end a word without quotes.
fn has_plain_ends(text: &[u8]) -> bool
    ensures { result ≡ has_plain_ends text.now }
{
    !text.is_empty() && !is_first_sign(text[0]) && text[text.len() - 1] != b'='
}

// Each byte stands for itself outside quotes.
fn are_plain(text: &[u8]) -> bool
    ensures { result ≡ list_all is_literal_byte text.now }
{
    text.iter().all(|byte| is_literal_byte(*byte))
}

// How many equal signs are in a text.
fn equal_signs(text: &[u8]) -> usize
    ensures { result ≡ equal_signs text.now }
{
    text.iter().filter(|byte| **byte == b'=').count()
}

// A word without quotes cannot begin with this byte.
fn is_first_sign(byte: u8) -> bool
    ensures { result ≡ is_first_sign byte }
{
    matches!(byte, b'?' | b'+' | b'=')
}

// The byte stands for itself outside quotes.
fn is_literal_byte(byte: u8) -> bool
    ensures { result ≡ is_literal_byte byte }
{
    byte.is_ascii_alphanumeric() || PLAIN_SIGNS.contains(&byte)
}
