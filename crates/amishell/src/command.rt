//! The program's command line, in `clap`'s words.
ghost use Rattle.std.specs.Prelude.{◌≡◌, map, false, IfOk};
ghost use Rattle.clap.specs.{Walk.{rule_of}, Simple.{app_of, subcommand_of, subcommand_rows_of}, Kinds.{FailsBy}, Faults.{fault_of}, declared.builder.command.Command.TheViews.{out-Command as fields_of}};
ghost use Rattle.amishell.specs.Command.{run_app, replay_app, bare_app, amishell, option_rule, flag_rule};

use ados_session::VERSION;
use clap::{Arg, ArgAction, ArgMatches, Command, Error};
use std::alloc::{AllocError, Global};
use std::convert::AsStr;

const ABOUT: &str =
    "The Shell of the Amiga (AmigaDOS Release 2): runs Amiga command scripts on this machine";

const MORE: &str =
    "Lines are read from standard input. Files live in memory, and are gone at the end.
Without a command it is run, without options. The exit status is the last code of the first shell,
or 20 where that is no status and after a fault, which is a line on standard error.
amishell COMMAND --help tells the options of a command.";

const HOSTS: &str =
    "A file of the programs of the host that are commands, a line for each: the command's name, blanks,
and the program's path; blank lines and lines that begin with # say nothing [default: no programs]";

const TURNS: &str =
    "How many events and long lines are taken at most, 1 to 1000000000; events are typed lines, the end
of the input, turns of shells and answers of programs [default: 1000000]";

const FULL: &str =
    "Commands have the further options of Release 2, and a ? at the end of a line asks for its last word";

const TRACE: &str =
    "Each command that a script, a Run or a command substitution takes is written on standard error before it runs,
as + RAM:S/build:12: Copy a b: a + for each that runs, and in brackets the shell of a Run";

const FILE: &str =
    "The recording: its first line is 'amishell 1', or 'amishell 3' for commands as by --full of run, and each
other one is 'host NAME', 'line TEXT' or 'answer ANSWER'; it is run for 1000000 events and long lines at most";

/// The matches of the words after the program's name, or `clap`'s error.
pub fn matches_of_words<'a, S: AsStr>(
    alloc: Global,
    words: &'a [S],
) -> Result<ArgMatches<'a>, Error>
    ensures matches { IfOk result (λ m. subcommand_rows_of m ≡ subcommand_of amishell (map S.text words.entry.now)) }
    ensures faults { FailsBy (fault_of amishell (map S.text words.entry.now)) result }
{
    let command = amishell_command(alloc)?;
    command.try_get_matches_from(words)
}

// `amishell`, with its subcommands.
fn amishell_command<'a>(alloc: Global) -> Result<Command<'a>, AllocError>
    ensures app { IfOk result (λ c. app_of c ≡ amishell) }
    ensures local { IfOk result (λ c. (fields_of c).has_globals ≡ false) }
{
    let run = run_command(alloc)?;
    let replay = replay_command(alloc)?;
    bare_command(alloc)?.subcommand(run)?.subcommand(replay)
}

// `amishell` alone.
fn bare_command<'a>(alloc: Global) -> Result<Command<'a>, AllocError>
    ensures app { IfOk result (λ c. app_of c ≡ bare_app) }
    ensures local { IfOk result (λ c. (fields_of c).has_globals ≡ false) }
{
    Command::new(alloc, "amishell")
        .about(ABOUT)
        .version(VERSION)
        .after_help(MORE)
        .no_binary_name(true)
        .bin_name("amishell")
}

// `run [--hosts FILE] [--turns N] [--full] [--trace]`.
fn run_command<'a>(alloc: Global) -> Result<Command<'a>, AllocError>
    ensures app { IfOk result (λ c. app_of c ≡ run_app) }
    ensures local { IfOk result (λ c. (fields_of c).has_globals ≡ false) }
{
    Command::new(alloc, "run")
        .about("Runs the lines of standard input, as amishell alone does")
        .arg(option(alloc, "hosts", "FILE", HOSTS))?
        .arg(option(alloc, "turns", "N", TURNS))?
        .arg(flag(alloc, "full", FULL))?
        .arg(flag(alloc, "trace", TRACE))
}

// `replay FILE [--trace]`.
fn replay_command<'a>(alloc: Global) -> Result<Command<'a>, AllocError>
    ensures app { IfOk result (λ c. app_of c ≡ replay_app) }
    ensures local { IfOk result (λ c. (fields_of c).has_globals ≡ false) }
{
    let file = Arg::new(alloc, "file")
        .value_name("FILE")
        .help(FILE)
        .action(ArgAction::Set)
        .required(true);
    Command::new(alloc, "replay")
        .about("Runs a recorded session, in which no program of the host is started")
        .arg(file)?
        .arg(flag(alloc, "trace", TRACE))
}

// The option `--NAME VALUE`.
fn option<'a>(alloc: Global, name: &'static str, value: &'static str, help: &'static str) -> Arg<'a>
    ensures rule { rule_of result ≡ option_rule name.now }
    ensures local { result.global ≡ false }
{
    Arg::new(alloc, name)
        .long(name)
        .value_name(value)
        .help(help)
        .action(ArgAction::Set)
}

// The flag `--NAME`.
fn flag<'a>(alloc: Global, name: &'static str, help: &'static str) -> Arg<'a>
    ensures rule { rule_of result ≡ flag_rule name.now }
    ensures local { result.global ≡ false }
{
    Arg::new(alloc, name)
        .long(name)
        .help(help)
        .action(ArgAction::SetTrue)
}
