//! The lines of a file of options, each an option as it would be typed.
ghost use Rattle.std.specs.{Prelude.{◌≡◌, ◌==◌, ◌++◌, [], true, IfErr, IfOk, None, OnOk, Some, if◌then◌else◌, map}, List.{cons_option, slice_split}, Option.{option_map}, Str.Lines.{strip_carriage_return}};
ghost use Rattle.execute_options.specs.OptionLines.{IsOptionFault, first_bad_line, numbered_option, one_word, option_of, options_of, words_of_line};

use ados_items::{first_word, rest_of, trimmed};
use ados_session::FileFault;
use ados_text::NoMemory;
use std::alloc::{AllocError, Global};
use std::convert::AsStr;
use std::marker::Model;

/// An option of a file, as one word of a command line: `--NAME` or `--NAME=VALUE`.
#[derive(Drop)]
pub struct OptionLine {
    number: usize,
    word: String,
}

impl Model for OptionLine {
    ghost use Rattle.std.specs.Prelude.{string_bytes};
    ghost use Rattle.execute_options.specs.OptionLines.{NumberedOption};

    ghost Value = { NumberedOption };

    ghost view = { λ o. record { number = o.number; word = string_bytes o.word } };
}

impl OptionLine {
    /// The number of its line, from 1.
    pub fn number(&self) -> usize
        ensures { result ≡ self.now.number }
    {
        self.number
    }
}

impl AsStr for OptionLine {
    ghost text = { λ o. o.word };

    fn as_str(&self) -> &str {
        self.word.as_str()
    }
}

/// The options of a file's bytes, one a line: a name, and after blanks or `=` its value, which is the rest of the line. Blank lines
/// and those that begin with `#` say none; blanks around a line and a CR at its end are left out.
///
/// `BadLine` names the first option that is not UTF-8.
pub fn options_of(alloc: Global, bytes: &[u8]) -> Result<Vec<OptionLine>, FileFault>
    ensures options { IfOk result (λ options. options.items ≡ options_of bytes.now) }
    ensures good { OnOk result (first_bad_line (options_of bytes.now) ≡ None) }
    ensures fault { IfErr result (λ fault. IsOptionFault (options_of bytes.now) fault) }
{
    let lines = lines_of(alloc, bytes)?;
    let mut options = Vec::new(alloc);
    for (place, line) in lines.iter().enumerate() {
        if !take_line(alloc, place + 1, line, &mut options)? {
            return Err(FileFault::BadLine(place + 1));
        }
    }
    Ok(options)
}

// Adds the option of the line of this number, if it says one; `false` if that is not UTF-8.
fn take_line(
    alloc: Global,
    number: usize,
    line: &[u8],
    options: &mut Vec<OptionLine>,
) -> Result<bool, NoMemory>
    ensures taken { IfOk result (λ is_good. is_good ≡ true → options.new.items ≡ options.old.items ++ cons_option (numbered_option (number, line.now)) []) }
    ensures good { IfOk result (λ is_good. first_bad_line (cons_option (numbered_option (number, line.now)) []) ≡ (if is_good then None else Some number)) }
{
    let Some(word) = option_of(alloc, words_of_line(line))? else {
        return Ok(true);
    };
    let Ok(word) = String::from_utf8(word) else {
        return Ok(false);
    };
    options.push(OptionLine { number, word })?;
    Ok(true)
}

// The lines of bytes; after a newline at the end there is one without bytes.
fn lines_of(alloc: Global, bytes: &[u8]) -> Result<Vec<&[u8]>, AllocError>
    ensures { IfOk result (λ lines. map (λ line. line.now) lines.items ≡ slice_split (λ byte. byte == 10) bytes.now) }
{
    bytes.split(|byte| *byte == b'\n').collect(alloc)
}

// A line without the blanks around it and a CR.
fn words_of_line(line: &[u8]) -> &[u8]
    ensures { result.now ≡ words_of_line line.now }
{
    trimmed(without_return(line))
}

// A line without the CR at its end.
fn without_return(line: &[u8]) -> &[u8]
    ensures { result.now ≡ strip_carriage_return line.now }
{
    match line {
        [rest @ .., b'\r'] => rest,
        _ => line,
    }
}

// The option that words say.
fn option_of(alloc: Global, words: &[u8]) -> Result<Option<Vec<u8>>, AllocError>
    ensures { IfOk result (λ option. option_map (λ word. word.items) option ≡ option_of words.now) }
{
    if words.is_empty() || words.starts_with(b"#") {
        return Ok(None);
    }
    Ok(Some(one_word(alloc, words)?))
}

// An option and its value in one word.
fn one_word(alloc: Global, words: &[u8]) -> Result<Vec<u8>, AllocError>
    ensures { IfOk result (λ word. word.items ≡ one_word words.now) }
{
    let (name, value) = (first_word(words), rest_of(words));
    if value.is_empty() || name.contains(&b'=') {
        return words.to_vec(alloc);
    }
    let mut word = name.to_vec(alloc)?;
    word.push(b'=')?;
    word.extend_from_slice(value)?;
    Ok(word)
}
