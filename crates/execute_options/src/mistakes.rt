//! What is wrong with words that `clap` rejects, in one line.

use crate::request::Refused;
use ados_text::{NoMemory, Text};
use clap::Error;
use clap::error::ErrorKind;
use std::alloc::{AllocError, Global};

// Before the option that `clap` finds similar.
const TIP: &str = "a similar argument exists: ";

/// The refusal for `clap`'s error.
pub fn refusal(alloc: Global, error: &Error) -> Refused {
    match error.kind() {
        ErrorKind::OutOfMemory => Refused::NoMemory,
        ErrorKind::DisplayHelp | ErrorKind::DisplayVersion => match shown(alloc, error) {
            Ok(text) => Refused::Help(text),
            Err(NoMemory) => Refused::NoMemory,
        },
        _ => bad_line(mistake(alloc, error)),
    }
}

/// The refusal of words for a reason, if there was memory for it.
pub fn bad_line(reason: Result<String, AllocError>) -> Refused {
    match reason {
        Ok(reason) => Refused::BadLine(reason),
        Err(_) => Refused::NoMemory,
    }
}

// The text that `clap` shows.
fn shown(alloc: Global, error: &Error) -> Result<Text, NoMemory> {
    let text = error.to_string(alloc)?;
    Text::from_bytes(alloc, text.as_bytes())
}

// The line for an error of `clap`: the word, what is wrong with it, and what may be meant.
fn mistake(alloc: Global, error: &Error) -> Result<String, AllocError> {
    let text = error.to_string(alloc)?;
    match (error.kind(), quoted(text.as_str())) {
        (ErrorKind::UnknownArgument, Some(word)) => unknown(alloc, word, text.as_str()),
        (ErrorKind::InvalidValue, Some(word)) => invalid_value(alloc, word, text.as_str()),
        (ErrorKind::ArgumentConflict, Some(option)) => {
            format!(in alloc; "{name} is given twice", name = option_name(option))
        }
        (ErrorKind::MissingRequiredArgument, _) => String::from_str(alloc, "no SCRIPT"),
        _ => String::from_str(alloc, first_line(text.as_str())),
    }
}

// The line for an option that there is not.
fn unknown(alloc: Global, word: &str, text: &str) -> Result<String, AllocError> {
    let similar = match text.split_once(TIP) {
        Some((_, tip)) => quoted(tip),
        None => None,
    };
    match similar {
        Some(option) => format!(in alloc; "unknown option {word} (did you mean {option}?)"),
        None => format!(in alloc; "unknown option {word}"),
    }
}

// The line for an option whose value is none that it takes, as `clap` writes it: `'yes' for '--answer <no>'`; or that has no value.
fn invalid_value(alloc: Global, word: &str, text: &str) -> Result<String, AllocError> {
    let option = match text.split_once(" for ") {
        Some((_, after)) => quoted(after).and_then(name_and_value),
        None => None,
    };
    match option {
        Some((name, value)) if !word.starts_with("--") => {
            format!(in alloc; "{name} takes {value}, not {word}")
        }
        _ => without_value(alloc, word),
    }
}

// The line for an option that has no value, as `clap` writes it: `--host <NAME>`.
fn without_value(alloc: Global, option: &str) -> Result<String, AllocError> {
    match name_and_value(option) {
        Some((name, value)) => format!(in alloc; "{name} needs {value}"),
        None => format!(in alloc; "{option} needs a value"),
    }
}

// An option's name, and what the help calls its value, as `clap` writes them: `--host <NAME>`.
fn name_and_value(option: &str) -> Option<(&str, &str)> {
    let (name, value) = option.split_once(" <")?;
    Some((name, value.strip_suffix(">").unwrap_or(value)))
}

// The name of an option, without its value.
fn option_name(option: &str) -> &str {
    match option.split_once(' ') {
        Some((name, _)) => name,
        None => option,
    }
}

// What stands between the first two quotes.
fn quoted(text: &str) -> Option<&str> {
    let (_, after) = text.split_once('\'')?;
    let (word, _) = after.split_once('\'')?;
    Some(word)
}

// The first line, without the word `error`.
fn first_line(text: &str) -> &str {
    let line = match text.split_once('\n') {
        Some((line, _)) => line,
        None => text,
    };
    line.strip_prefix("error: ").unwrap_or(line)
}
