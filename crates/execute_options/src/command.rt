//! The program's command line, in `clap`'s words.

use crate::table::OPTIONS;
use ados_session::VERSION;
use clap::{Arg, ArgAction, ArgMatches, Command, Error};
use std::alloc::{AllocError, Global};
use std::convert::AsStr;

const ABOUT: &str =
    "Runs an Amiga command script of this machine by the Shell of the Amiga (AmigaDOS Release 2)";

const USAGE: &str = "amishell-execute [OPTIONS] [--] SCRIPT [ARGS]..";

const MORE: &str =
    "SCRIPT stands as a file in S: and is called by Execute with ARGS. What it asks for is read from standard
input, a line each time. Files live in memory, and are gone at the end but for those that are taken.
The exit status is the script's code; 2 after a bad command line, 124 at a limit, 126 if SCRIPT or a program of --host
can't be read, 125 after another fault. A fault is a line on standard error, and so is each script that ended early.";

const SCRIPT: &str = "The script, a file of this machine, and its arguments";

/// The matches of the words after the program's name, or `clap`'s error.
pub fn matches_of_words<'a, S: AsStr>(
    alloc: Global,
    words: &'a [S],
) -> Result<ArgMatches<'a>, Error> {
    let script = Arg::new(alloc, "script")
        .value_name("SCRIPT [ARGS]")
        .help(SCRIPT)
        .num_args(1..)
        .required(true)
        .trailing_var_arg(true)
        .action(ArgAction::Append);
    command(alloc)?.arg(script)?.try_get_matches_from(words)
}

/// The matches of options without a script, or `clap`'s error.
pub fn matches_of_options<'a, S: AsStr>(
    alloc: Global,
    options: &'a [S],
) -> Result<ArgMatches<'a>, Error> {
    command(alloc)?.try_get_matches_from(options)
}

// `amishell-execute` with its options.
fn command<'a>(alloc: Global) -> Result<Command<'a>, AllocError> {
    let mut command = Command::new(alloc, "amishell-execute")
        .about(ABOUT)
        .version(VERSION)
        .after_help(MORE)
        .no_binary_name(true)
        .bin_name("amishell-execute")?
        .override_usage(USAGE);
    for option in &OPTIONS {
        command = command.arg(option.arg(alloc))?;
    }
    Ok(command)
}
