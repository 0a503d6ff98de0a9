//! The commands of the Shell that have more options in Release 2 than in some dialect, with all their options there.
ghost use Rattle.ados_check.specs.Table.{AreReleaseTwo};

use crate::release_two::Command;
use ados_machine::Builtin;
use ados_resident::{EnvCommand, FilesCommand};

static COMMANDS: [Command; 15] = [
    Command {
        name: "Assign",
        builtin: Builtin::Env(EnvCommand::Assign),
        switches: &[
            "LIST", "EXISTS", "DISMOUNT", "DEFER", "PATH", "ADD", "REMOVE", "VOLS", "DIRS",
            "DEVICES",
        ],
        values: &["NAME", "TARGET"],
        numbers: &[],
        idle: &[],
        unimplemented: &["DISMOUNT"],
    },
    Command {
        name: "Break",
        builtin: Builtin::Env(EnvCommand::Break),
        switches: &["ALL", "C", "D", "E", "F"],
        values: &["PROCESS"],
        numbers: &[],
        idle: &[],
        unimplemented: &[],
    },
    Command {
        name: "Copy",
        builtin: Builtin::Files(FilesCommand::Copy),
        switches: &[
            "ALL", "QUIET", "CLONE", "DATES", "NOPRO", "COM", "NOREQ", "NEWER",
        ],
        values: &["FROM", "TO"],
        numbers: &["BUF", "BUFFER"],
        idle: &["CLONE", "DATES", "NOREQ", "BUF", "BUFFER"],
        unimplemented: &[],
    },
    Command {
        name: "Delete",
        builtin: Builtin::Files(FilesCommand::Delete),
        switches: &["ALL", "QUIET", "FORCE"],
        values: &["FILE"],
        numbers: &[],
        idle: &["FORCE"],
        unimplemented: &[],
    },
    Command {
        name: "Dir",
        builtin: Builtin::Files(FilesCommand::Dir),
        switches: &["ALL", "DIRS", "FILES", "INTER"],
        values: &["DIR", "OPT"],
        numbers: &[],
        idle: &[],
        unimplemented: &["INTER"],
    },
    Command {
        name: "Echo",
        builtin: Builtin::Env(EnvCommand::Echo),
        switches: &["NOLINE"],
        values: &[],
        numbers: &["FIRST", "LEN"],
        idle: &[],
        unimplemented: &[],
    },
    Command {
        name: "Eval",
        builtin: Builtin::Env(EnvCommand::Eval),
        switches: &[],
        values: &["VALUE1", "OP", "VALUE2", "TO", "LFORMAT"],
        numbers: &[],
        idle: &[],
        unimplemented: &[],
    },
    Command {
        name: "Filenote",
        builtin: Builtin::Files(FilesCommand::Filenote),
        switches: &["ALL", "QUIET"],
        values: &["FILE", "COMMENT"],
        numbers: &[],
        idle: &["QUIET"],
        unimplemented: &[],
    },
    Command {
        name: "List",
        builtin: Builtin::Files(FilesCommand::List),
        switches: &[
            "KEYS", "DATES", "NODATES", "QUICK", "BLOCK", "NOHEAD", "FILES", "DIRS", "ALL",
        ],
        values: &["DIR", "P", "PAT", "TO", "SUB", "SINCE", "UPTO", "LFORMAT"],
        numbers: &[],
        idle: &["KEYS", "DATES", "NODATES", "BLOCK", "NOHEAD"],
        unimplemented: &["SINCE", "UPTO"],
    },
    Command {
        name: "Path",
        builtin: Builtin::Env(EnvCommand::Path),
        switches: &["ADD", "SHOW", "RESET", "REMOVE", "QUIET"],
        values: &["PATH"],
        numbers: &[],
        idle: &["QUIET"],
        unimplemented: &[],
    },
    Command {
        name: "Protect",
        builtin: Builtin::Files(FilesCommand::Protect),
        switches: &["ADD", "SUB", "ALL", "QUIET"],
        values: &["FILE", "FLAGS"],
        numbers: &[],
        idle: &["QUIET"],
        unimplemented: &[],
    },
    Command {
        name: "Rename",
        builtin: Builtin::Files(FilesCommand::Rename),
        switches: &["QUIET"],
        values: &["FROM", "TO", "AS"],
        numbers: &[],
        idle: &["QUIET"],
        unimplemented: &[],
    },
    Command {
        name: "Status",
        builtin: Builtin::Env(EnvCommand::Status),
        switches: &["FULL", "TCB", "CLI", "ALL"],
        values: &["PROCESS", "COM", "COMMAND"],
        numbers: &[],
        idle: &[],
        unimplemented: &[],
    },
    Command {
        name: "Type",
        builtin: Builtin::Files(FilesCommand::Type),
        switches: &["HEX", "NUMBER"],
        values: &["FROM", "TO", "OPT"],
        numbers: &[],
        idle: &[],
        unimplemented: &[],
    },
    Command {
        name: "Which",
        builtin: Builtin::Env(EnvCommand::Which),
        switches: &["NORES", "RES", "ALL"],
        values: &["FILE"],
        numbers: &[],
        idle: &[],
        unimplemented: &[],
    },
];

/// The commands that have more options in Release 2.
pub fn commands() -> &'static [Command]
    ensures { AreReleaseTwo result.now }
{
    &COMMANDS
}
