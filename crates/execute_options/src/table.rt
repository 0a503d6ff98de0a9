//! The options: their names and values, and the texts of the help.
ghost use Rattle.std.specs.{Prelude.{◌≡◌, drop}, List.{list_any}, Str.{bytes_eq}};
ghost use Rattle.execute_options.specs.Names.{is_option, name_of, options};

use clap::{Arg, ArgAction};
use std::alloc::Global;

/// An option.
#[derive(Clone, Copy)]
pub struct Row {
    // Its name, without `--`.
    name: &'static str,
    value: Value,
    help: &'static str,
}

// The value of an option.
#[derive(Clone, Copy)]
enum Value {
    // It has none.
    None,
    // One, which the help calls so.
    One(&'static str),
    // One of these, which the help calls so.
    OneOf(&'static str, &'static [&'static str]),
    // One each time that it is given, which the help calls so.
    Many(&'static str),
}

/// The options, in the order of the help.
pub const OPTIONS: [Row; 26] = [
    Row {
        name: "core",
        value: Value::None,
        help: "Leaves out the further options of Release 2 that commands have without it, as CLONE of Copy and LFORMAT of
List, and a ? at the end of a line, which asks for its last word",
    },
    Row {
        name: "hosts",
        value: Value::One("FILE"),
        help: "A file of the programs of the host that are commands, a line for each: the command's name, blanks,
and the program's path [default: the file that AMISHELL_HOSTS names, if it is set]",
    },
    Row {
        name: "host",
        value: Value::Many("NAME[=PROGRAM]"),
        help: "One more command that is a program of the host; without =PROGRAM the program has the command's name.
May be given again",
    },
    Row {
        name: "common",
        value: Value::None,
        help: "Adds stand-ins for commands of Release 2 that the Shell leaves out, as Date, Wait and More: those of
the nearest folder share/amishell above that of this program",
    },
    Row {
        name: "bring",
        value: Value::Many("PATH[=NAME]"),
        help: "Brings a file or a folder of this machine into the files: into RAM: under its own name, or to NAME. A
file that may be executed gets bit s; pipes and devices in a folder are left out. May be given again",
    },
    Row {
        name: "take",
        value: Value::Many("NAME[=PATH]"),
        help: "Writes a file or a directory of the files out at the end: into this folder under its own name, or to
PATH, in which no name is . or .. and no folder a link. May be given again",
    },
    Row {
        name: "type",
        value: Value::Many("LINE"),
        help: "A line that is typed before the script. May be given again",
    },
    Row {
        name: "share",
        value: Value::Many("FOLDER[=PATH]"),
        help: "Shares a folder of this machine: it stands as RAM:Work, or as PATH, which may be a device that the Shell lacks, as
Work:. Before each program starts what changed there is written to the folder, and what the program changes in the
folder comes in when it ends. May be given again; the script begins in the first",
    },
    Row {
        name: "all",
        value: Value::None,
        help: "Shares also what has a name that begins with a dot",
    },
    Row {
        name: "part",
        value: Value::None,
        help: "Shares what fits of a folder, and leaves out the rest: files and folders for which the Shell has no room, names that it
does not allow, names that differ in case alone, and what can't be read. Without it nothing runs then",
    },
    Row {
        name: "dry",
        value: Value::None,
        help: "Tells what would be written to the shared folders and deleted there, and writes nothing itself; programs
and --take write as ever",
    },
    Row {
        name: "quote",
        value: Value::None,
        help: "Quotes each of ARGS, so that none is the name of an option of .KEY",
    },
    Row {
        name: "strike",
        value: Value::None,
        help: "Strikes out of the script what the Shell leaves out and says nothing which matters here: with --core CLONE,
DATES, NOREQ and BUFFER of Copy, FORCE of Delete, KEYS, DATES, NODATES, BLOCK and NOHEAD of List, and
QUIET where there is none",
    },
    Row {
        name: "check",
        value: Value::None,
        help: "Runs nothing: writes a line for each error in SCRIPT, in ARGS, which are scripts too, and in those that
they call, as build:12: error: .. or build:12: note: ..; the exit status is 1 if there is an error",
    },
    Row {
        name: "ascii-marks",
        value: Value::None,
        help: "Writes _ in the place of each byte above 127 in the script",
    },
    Row {
        name: "lenient",
        value: Value::None,
        help: "Reports the lines of the script that give a command an option of Release 2 that the Shell leaves out, or
have bytes above 127, and runs it all the same. Without it neither it nor a script that it calls runs
with such a line",
    },
    Row {
        name: "strict",
        value: Value::None,
        help: "As without --lenient: a line that must not be run as it is ends the run",
    },
    Row {
        name: "answer",
        value: Value::OneOf("no", &["no"]),
        help: "At the end of standard input Ask takes this answer, for ever, and `?` an empty line; without it the run
ends there",
    },
    Row {
        name: "turns",
        value: Value::One("N"),
        help: "How many events and long lines are taken at most, 1 to 1000000000, not counted those that bring files
in [default: 1000000]",
    },
    Row {
        name: "seconds",
        value: Value::One("N"),
        help: "How many seconds the script runs at most, 1 to 1000000000: after them no further event is taken",
    },
    Row {
        name: "error",
        value: Value::Many("NAME=CODE"),
        help: "Where the command NAME of --host fails, with any exit status but 0, its code is at least CODE, which
is 5, 10 or 20. May be given again",
    },
    Row {
        name: "ok-below",
        value: Value::One("N"),
        help: "A code of the script from 0 to N-1 is exit status 0; N is 1 to 255",
    },
    Row {
        name: "quiet",
        value: Value::None,
        help: "Leaves out the lines on standard error of scripts that ended early, of files that are gone with RAM:
and of shells that are waited for",
    },
    Row {
        name: "trace",
        value: Value::None,
        help: "Writes each command that a script takes on standard error before it runs, as + build:12: Copy a b: a + for
each script that runs, and in brackets the shell of a Run",
    },
    Row {
        name: "config",
        value: Value::One("FILE"),
        help: "A file of options, one in each line, as they are typed but without quoting; what is typed comes after
them, and wins. By default it is amishell/options in the folder XDG_CONFIG_HOME, or else in .config of
HOME, if it is there",
    },
    Row {
        name: "no-config",
        value: Value::None,
        help: "Reads no file of options",
    },
];

impl Row {
    /// The option of this row.
    pub fn arg<'a>(&self, alloc: Global) -> Arg<'a> {
        let arg = Arg::new(alloc, self.name).long(self.name).help(self.help);
        match self.value {
            Value::None => arg.action(ArgAction::SetTrue),
            Value::One(name) => arg.value_name(name).action(ArgAction::Set),
            Value::OneOf(name, values) => arg
                .value_name(name)
                .value_parser(values)
                .action(ArgAction::Set),
            Value::Many(name) => arg.value_name(name).action(ArgAction::Append),
        }
    }
}

/// Whether a word is one of the options, with or without a value. `clap` itself has the last two.
pub fn is_option(word: &str) -> bool
    ensures { result ≡ is_option word.now }
{
    let name = name_of(word);
    name.as_bytes().starts_with(b"--") && has_row(behind_dashes(name))
        || matches!(name, "--help" | "--version")
}

/// What stands before `=`: the name of an option, as it is typed.
pub fn name_of(word: &str) -> &str
    ensures { result.now ≡ name_of word.now }
{
    match word.split_once('=') {
        Some((name, _)) => name,
        None => word,
    }
}

// What follows the first two bytes of a name.
fn behind_dashes(name: &str) -> &[u8]
    ensures { result.now ≡ drop 2 name.now }
{
    name.as_bytes().get(2..).unwrap_or(&[])
}

// An option of this name is in the table.
fn has_row(name: &[u8]) -> bool
    ensures { result ≡ list_any (λ option. bytes_eq option name.now) options }
{
    is_name_of(&OPTIONS, name)
}

// One of these rows has this name.
fn is_name_of(rows: &[Row], name: &[u8]) -> bool
    ensures { result ≡ list_any (λ row. bytes_eq row.name.now name.now) rows.now }
{
    rows.iter().any(|row| row.name.as_bytes() == name)
}
