//! What the words after the program's name ask for.
ghost use Rattle.std.specs.Prelude.{◌≡◌, [], map, IfOk, IfErr, IfSome, IfNone, MatchResult, option_map, Some, None, ℕ, codes, false};
ghost use Rattle.clap.specs.{Walk.{first_of, rows_of}, Matches.{found_of}, Simple.{subcommand_rows_of}, Values.{kind_of}, declared.error.kind.ErrorKind.{ErrorKind}};
ghost use Rattle.ados_resident.specs.declared.dialects.Dialect.TheVariants.{Core};
ghost use Rattle.amishell.specs.Asked.{AreTurns, AsksFor, AsksNothing, IsAsked, IsInRange, IsRefusal, IsRefusalOf, IsRequest, dialect_by, is_given};

use crate::command::matches_of_words;
use crate::request::{Asked, Refused};
use ados_text::{NoMemory, Text, number};
use ados_world::Dialect;
use clap::error::ErrorKind;
use clap::{ArgMatches, Error};
use std::alloc::Global;
use std::convert::AsStr;

/// The turns of a run for which none are given, and of a recording.
pub const TURNS: u64 = 1_000_000;

/// What the words after the program's name ask for.
///
/// `Help` if `clap` answers them with its help or the version; `BadLine` if it finds another fault in them, or
/// their turns are not a number from 1 to 1,000,000,000.
pub fn asked<'a, S: AsStr>(alloc: Global, words: &'a [S]) -> Result<Asked<'a>, Refused>
    ensures asked { IfOk result (IsAsked (map S.text words.entry.now)) }
    ensures refused { IfErr result (IsRefusal (map S.text words.entry.now)) }
    ensures no_words { words.entry.now ≡ [] →
        MatchResult result (λ a. a ≡ Asked.Run Core None 1_000_000 false) (λ e. e ≡ Refused.NoMemory) }
{
    let matches = match matches_of_words(alloc, words) {
        Ok(matches) => matches,
        Err(error) => return Err(refusal(alloc, &error)),
    };
    match asked_of(&matches) {
        Some(asked) => Ok(asked),
        None => Err(Refused::BadLine),
    }
}

// What the matches ask for.
fn asked_of<'a>(matches: &ArgMatches<'a>) -> Option<Asked<'a>>
    ensures asked { IfSome result (AsksFor (subcommand_rows_of matches.now)) }
    ensures nothing { IfNone result (AsksNothing (subcommand_rows_of matches.now)) }
{
    match entered(matches) {
        None => Some(Asked::Run {
            dialect: Dialect::Core,
            hosts: None,
            turns: TURNS,
            traces: false,
        }),
        Some((name, inner)) => command_of(name, inner),
    }
}

// What the command of this name asks for.
fn command_of<'a>(name: &str, inner: &ArgMatches<'a>) -> Option<Asked<'a>>
    ensures asked { IfSome result (AsksFor (Some (name.now, rows_of (found_of inner.now)))) }
    ensures nothing { IfNone result (AsksNothing (Some (name.now, rows_of (found_of inner.now)))) }
{
    if name == "run" {
        run_of(inner)
    } else if name == "replay" {
        replay_of(inner)
    } else {
        None
    }
}

// The run that the command `run` asks for.
fn run_of<'a>(inner: &ArgMatches<'a>) -> Option<Asked<'a>>
    ensures asked { IfSome result (AsksFor (Some (codes "run", rows_of (found_of inner.now)))) }
    ensures nothing { IfNone result (AsksNothing (Some (codes "run", rows_of (found_of inner.now)))) }
{
    let dialect = dialect_by(written(inner, "full"));
    let hosts = written(inner, "hosts");
    let traces = is_given(written(inner, "trace"));
    match turns_written(written(inner, "turns")) {
        Some(turns) => Some(Asked::Run {
            dialect,
            hosts,
            turns,
            traces,
        }),
        None => None,
    }
}

// The recording that the command `replay` asks for.
fn replay_of<'a>(inner: &ArgMatches<'a>) -> Option<Asked<'a>>
    ensures asked { IfSome result (AsksFor (Some (codes "replay", rows_of (found_of inner.now)))) }
    ensures nothing { IfNone result (AsksNothing (Some (codes "replay", rows_of (found_of inner.now)))) }
{
    let traces = is_given(written(inner, "trace"));
    match written(inner, "file") {
        Some(file) => Some(Asked::Replay { file, traces }),
        None => None,
    }
}

// The subcommand, with its matches.
fn entered<'a, 'b>(matches: &'b ArgMatches<'a>) -> Option<(&'a str, &'b ArgMatches<'a>)>
    ensures { option_map (λ p. (p.0.now, rows_of (found_of p.1.now))) result ≡ subcommand_rows_of matches.now }
{
    matches.subcommand()
}

// What is given for an option or a word of a command.
fn written<'a>(inner: &ArgMatches<'a>, name: &str) -> Option<&'a str>
    ensures { option_map (λ s. s.now) result ≡ first_of name.now (rows_of (found_of inner.now)) }
{
    inner.get_str(name)
}

// The dialect that the value of `--full` chooses.
fn dialect_by(value: Option<&str>) -> Dialect
    ensures { result ≡ dialect_by (option_map (λ s. s.now) value.entry) }
{
    if is_given(value) {
        Dialect::Full
    } else {
        Dialect::Core
    }
}

// The value of a flag says that it is given.
fn is_given(value: Option<&str>) -> bool
    ensures { result ≡ is_given (option_map (λ s. s.now) value.entry) }
{
    match value {
        Some(value) => value == "true",
        None => false,
    }
}

// The turns that a word gives, if they are in their range.
fn turns_written(word: Option<&str>) -> Option<u64>
    ensures turns { IfSome result (AreTurns (option_map (λ s. s.now) word.entry)) }
    ensures range { IfSome result IsInRange }
    ensures none { IfNone result ((turns : ℕ) → AreTurns (option_map (λ s. s.now) word.entry) turns → IsInRange turns → ⊥) }
{
    let Some(text) = word else {
        return Some(TURNS);
    };
    match number(text.as_bytes()) {
        Ok(turns) if 1 <= turns && turns <= 1_000_000_000 => Some(turns as u64),
        _ => None,
    }
}

// The refusal for `clap`'s error.
fn refusal(alloc: Global, error: &Error) -> Refused
    ensures { IsRefusalOf (kind_of error.now) result }
{
    match error.kind() {
        ErrorKind::OutOfMemory => Refused::NoMemory,
        ErrorKind::DisplayHelp => text_of(alloc, error),
        ErrorKind::DisplayVersion => text_of(alloc, error),
        _ => Refused::BadLine,
    }
}

// The text that `clap` shows.
fn text_of(alloc: Global, error: &Error) -> Refused
    ensures { (k : ErrorKind) → IsRequest k → IsRefusalOf k result }
{
    match shown(alloc, error) {
        Ok(text) => Refused::Help(text),
        Err(NoMemory) => Refused::NoMemory,
    }
}

fn shown(alloc: Global, error: &Error) -> Result<Text, NoMemory> {
    let text = error.to_string(alloc)?;
    Text::from_bytes(alloc, text.as_bytes())
}
