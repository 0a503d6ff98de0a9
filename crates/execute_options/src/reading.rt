//! What the words after the program's name ask for.
ghost use Rattle.std.specs.{Prelude.{◌≡◌, IfOk, None, codes, false, find, if◌then◌else◌, is_none, is_ok, map, option_map}, List.{list_any}, Str.{bytes_eq}};
ghost use Rattle.clap.specs.Matches.{found_of};
ghost use Rattle.execute_options.specs.{Given.{values_of}, Names.{is_option, late_option}};
ghost use Rattle.ados_resident.specs.declared.dialects.Dialect.TheVariants.{Core, Full};

use crate::command::matches_of_words;
use crate::config::Config;
use crate::error_names::check_errors;
use crate::faults::OptionsFault;
use crate::given::Given;
use crate::mistakes::{bad_line, refusal};
use crate::numbers::Numbers;
use crate::request::{AtEnd, Options, Refused};
use crate::table::is_option;
use ados_find::limits_of;
use ados_resident::Dialect;
use ados_transfer::MirrorOptions;
use clap::ArgMatches;
use std::alloc::{AllocError, Global};
use std::convert::AsStr;
use std::rt::Env;
use std::{env, io};

// The turns of a run for which none are given.
const TURNS: u64 = 1_000_000;

/// The words after the program's name.
///
/// `BadLine` if one is not UTF-8.
pub fn given_words<R: Env + AllocGlobal>(rt: &R) -> Result<Vec<String>, OptionsFault> {
    let all = match env::args(rt) {
        Ok(all) => all,
        Err(error) if error.kind() == io::ErrorKind::OutOfMemory => {
            return Err(OptionsFault::NoMemory);
        }
        Err(_) => {
            let reason = String::from_str(rt.alloc(), "a word is not UTF-8")?;
            return Err(OptionsFault::BadLine(reason));
        }
    };
    match all.skip(1).collect::<Vec<String>>(rt.alloc()) {
        Ok(words) => Ok(words),
        Err(_) => Err(OptionsFault::NoMemory),
    }
}

/// What `clap` finds in these words.
///
/// `Help` if it answers them with its help or the version; `BadLine` if it finds another fault in them, or if an option comes after
/// SCRIPT and no word is `--`.
pub fn typed_matches<'a, S: AsStr>(alloc: Global, words: &'a [S]) -> Result<ArgMatches<'a>, Refused>
    ensures { IfOk result (λ typed. list_any (λ word. bytes_eq (S.text word) (codes "--")) words.now ≡ false → late_option (values_of (found_of typed) (codes "script")) ≡ None) }
{
    match matches_of_words(alloc, words) {
        Ok(typed) if has_dashes(words) => Ok(typed),
        Ok(typed) => refuse_late_options(alloc, typed),
        Err(error) => Err(refusal(alloc, &error)),
    }
}

// A word is `--`.
fn has_dashes<S: AsStr>(words: &[S]) -> bool
    ensures { result ≡ list_any (λ word. bytes_eq (S.text word) (codes "--")) words.now }
{
    words.iter().any(|word| word.as_str() == "--")
}

// An option after SCRIPT would be an argument of the script: `wipe --dry` would delete.
fn refuse_late_options<'a>(alloc: Global, typed: ArgMatches<'a>) -> Result<ArgMatches<'a>, Refused>
    ensures late { is_ok result ≡ is_none (late_option (values_of (found_of typed.entry) (codes "script"))) }
    ensures typed { IfOk result (λ found. found_of found ≡ found_of typed.entry) }
{
    let late = match typed.get_strs("script") {
        Some([_, args @ ..]) => first_option(args),
        _ => None,
    };
    match late {
        None => Ok(typed),
        Some(word) => Err(bad_line(format!(in alloc;
            "{word} comes before SCRIPT (-- before SCRIPT gives it to the script)"
        ))),
    }
}

// The first of some words that is an option.
fn first_option<'a>(words: &[&'a str]) -> Option<&'a str>
    ensures { option_map (λ word. word.now) result ≡ find is_option (map (λ word. word.now) words.now) }
{
    words.iter().copied().find(|word| is_option(word))
}

/// What a command line asks for with a file of options.
///
/// `BadLine` if a line of the file is no option, if a number is not in its range, if a command has two codes by `--error` in one place,
/// or if an option of the command line lacks another one that it needs.
pub fn asked_options<'a>(
    alloc: Global,
    typed: ArgMatches<'a>,
    config: &'a Config,
) -> Result<Options<'a>, Refused> {
    let file = config.matches(alloc)?;
    let numbers = Numbers::of(alloc, &typed)?.or(Numbers::of(alloc, &file)?);
    check_errors(alloc, &typed)?;
    let given = Given { typed, file };
    for name in ["all", "part", "dry"] {
        if given.typed.get_flag(name) && given.get_str("share").is_none() {
            return Err(bad_line(format!(in alloc; "--{name} needs --share")));
        }
    }
    let [script, args @ ..] = given.typed.get_strs("script").unwrap_or(&[]) else {
        return Err(bad_line(String::from_str(alloc, "no SCRIPT")));
    };
    match options(alloc, &given, numbers, script, args) {
        Ok(options) => Ok(options),
        Err(_) => Err(Refused::NoMemory),
    }
}

// The options that are given.
fn options<'a>(
    alloc: Global,
    matches: &Given<'a>,
    numbers: Numbers,
    script: &'a str,
    args: &[&'a str],
) -> Result<Options<'a>, AllocError> {
    let dialect = dialect_by(matches.get_flag("core"));
    Ok(Options {
        dialect,
        hosts: matches.get_str("hosts"),
        host: matches.hosts(alloc)?,
        common: matches.get_flag("common"),
        bring: matches.list(alloc, "bring")?,
        take: matches.list(alloc, "take")?,
        typed: matches.list(alloc, "type")?,
        share: matches.shares(alloc)?,
        mirror: MirrorOptions {
            all: matches.get_flag("all"),
            part: matches.get_flag("part"),
            dry: matches.get_flag("dry"),
            limits: limits_of(dialect),
        },
        quote: matches.get_flag("quote"),
        strike: matches.get_flag("strike"),
        check: matches.get_flag("check"),
        ascii_marks: matches.get_flag("ascii-marks"),
        lenient: matches.is_lenient(),
        at_end: at_end(matches),
        turns: numbers.turns.unwrap_or(TURNS),
        seconds: numbers.seconds,
        errors: matches.list(alloc, "error")?,
        least: numbers.least.unwrap_or(0),
        quiet: matches.get_flag("quiet"),
        trace: matches.get_flag("trace"),
        script,
        args: args.to_vec(alloc)?,
    })
}

// What is answered at the end of standard input. `clap` takes no other value than `no`.
fn at_end(matches: &Given<'_>) -> AtEnd {
    match matches.get_str("answer") {
        Some(_) => AtEnd::No,
        None => AtEnd::Nothing,
    }
}

// The dialect: with `--core` it is Core.
fn dialect_by(is_core: bool) -> Dialect
    ensures { result ≡ (if is_core then Core else Full) }
{
    if is_core {
        Dialect::Core
    } else {
        Dialect::Full
    }
}
