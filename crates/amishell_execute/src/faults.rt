//! Why the program ends with a line on standard error.
ghost use Rattle.std.specs.Prelude.{◌≡◌};
ghost use Rattle.ados_launch.specs.declared.faults.DriveFault.TheVariants.{Write};
ghost use Rattle.amishell_execute.specs.{Status.{number_of, status_of_fault}, declared.faults.Fault.TheVariants.{Drive, Memory}};

use crate::status::Status;
use ados_launch::{DriveFault, WriteFault};
use ados_text::NoMemory;
use ados_trace::escaped;
use ados_transfer::TransferFault;
use execute_options::{OptionsFault, Unread};
use std::alloc::{AllocFailed, Global};
use std::fmt::Display;
use std::io::Eprint;
use std::rt::Files;
use thiserror::Error;

/// What that line says.
#[derive(Debug, Error)]
pub enum Fault {
    /// The words are not a command line of the program, for this reason.
    #[error("{0}")]
    BadLine(String),
    /// A file cannot be read.
    #[error("cannot read {0}")]
    CannotRead(Unread),
    /// The script cannot be read.
    #[error("cannot read {0}")]
    ScriptUnread(Unread),
    /// The folder of this name that is to be shared is not there, or is none.
    #[error("--share {0}: not a folder")]
    NoFolder(String),
    /// A line of a file of hosts is invalid.
    #[error("hosts {file}: line {line}: {reason}")]
    HostLine {
        /// The file.
        file: String,
        /// The line's number, from 1.
        line: usize,
        /// What is wrong with it.
        reason: String,
    },
    /// These words of `--host` or `--error` do not have their form.
    #[error("{0}")]
    HostWords(String),
    /// The program of these words of `--host` is not in PATH.
    #[error("--host {0}: not in PATH")]
    NotInPath(String),
    /// There are more commands that are programs of the host than there may be besides the one that brings files in.
    #[error("more than 63 hosts")]
    ManyHosts,
    /// A command has the name of the one that brings files in.
    #[error("amishell-bring is a name of the program's own")]
    OwnName,
    /// A file is not brought in or not taken, or a line is not typed.
    #[error("{0}")]
    Transfer(#[from] TransferFault),
    /// The files are not in the Shell's world as they were brought.
    #[error("the files cannot be brought in")]
    NotBrought,
    /// The Shell asked for a line of standard input, which was at its end.
    #[error("no answer for {0}")]
    Unanswered(String),
    /// Lines of a script must not be run as they are; its name, and how it is run all the same. Or a script was called that has a bad directive.
    #[error("{0}")]
    NotRun(String),
    /// The next line of this shell calls a script of which that is so, and which would not begin.
    #[error("{1}")]
    NotCalled(u8, String),
    /// The same as one of these, before a command of the script of the command line returned; the shell whose next line calls, if one does.
    #[error("{1}")]
    NothingRun(Option<u8>, String),
    /// There was no memory.
    #[error("out of memory")]
    Memory,
    /// The help, or what a check found, could not be written.
    #[error("write fault")]
    Write,
    /// The run stopped before its end.
    #[error("{0}")]
    Drive(DriveFault),
    /// As many events were taken as may be, and another one is due.
    #[error("turn limit of {0} reached (--turns)")]
    Turns(u64),
    /// As many seconds have passed as may, and an event is due.
    #[error("time limit of {0} s reached (--seconds)")]
    Seconds(u64),
}

// Written out, so that dropping a fault is one step in a proof, and not one for each of its forms.
impl Drop for Fault {
    fn drop(self) {
        match self {
            Fault::BadLine(_text)
            | Fault::NoFolder(_text)
            | Fault::HostWords(_text)
            | Fault::NotInPath(_text)
            | Fault::Unanswered(_text)
            | Fault::NotRun(_text)
            | Fault::NotCalled(_, _text)
            | Fault::NothingRun(_, _text) => {}
            Fault::CannotRead(_unread) | Fault::ScriptUnread(_unread) => {}
            Fault::HostLine {
                file: _file,
                line: _line,
                reason: _reason,
            } => {}
            Fault::Transfer(_fault) => {}
            Fault::ManyHosts
            | Fault::OwnName
            | Fault::NotBrought
            | Fault::Memory
            | Fault::Write
            | Fault::Drive(_)
            | Fault::Turns(_)
            | Fault::Seconds(_) => {}
        }
    }
}

impl Fault {
    /// The exit status after it.
    pub fn status(&self) -> Status
        ensures { number_of result ≡ status_of_fault self.now }
    {
        match self {
            Fault::BadLine(_) | Fault::HostWords(_) | Fault::ManyHosts | Fault::OwnName => {
                Status::BadLine
            }
            Fault::ScriptUnread(_) | Fault::NotInPath(_) => Status::Unreadable,
            Fault::Drive(DriveFault::Turns) | Fault::Turns(_) | Fault::Seconds(_) => Status::Limit,
            _ => Status::Failed,
        }
    }
}

impl From<DriveFault> for Fault {
    ghost from_gives = { λ fault why. why ≡ Drive fault };

    fn from(fault: DriveFault) -> Fault {
        Fault::Drive(fault)
    }
}

impl From<WriteFault> for Fault {
    ghost from_gives = { λ _e why. why ≡ Drive Write };

    fn from(_e: WriteFault) -> Fault {
        Fault::Drive(DriveFault::Write)
    }
}

impl From<OptionsFault> for Fault {
    fn from(fault: OptionsFault) -> Fault {
        match fault {
            OptionsFault::BadLine(reason) => Fault::BadLine(reason),
            OptionsFault::CannotRead(unread) => Fault::CannotRead(unread),
            OptionsFault::NoMemory => Fault::Memory,
        }
    }
}

impl From<NoMemory> for Fault {
    ghost from_gives = { λ _e why. why ≡ Memory };

    fn from(_e: NoMemory) -> Fault {
        Fault::Memory
    }
}

impl<T: Drop> From<AllocFailed<T>> for Fault {
    ghost from_gives = { λ _e why. why ≡ Memory };

    fn from(_e: AllocFailed<T>) -> Fault {
        Fault::Memory
    }
}

/// The fault of words of an option, `--host` or `--error`, that do not have their form.
pub fn bad_words(alloc: Global, option: &str, words: &str, reason: &str) -> Fault {
    match format!(in alloc; "{option} {words}: {reason}") {
        Ok(line) => Fault::HostWords(line),
        Err(_) => Fault::Memory,
    }
}

/// The fault of a script that is not brought in.
pub fn unread_script<R: AllocGlobal + Files>(rt: &R, fault: TransferFault) -> Fault {
    match fault {
        TransferFault::CannotRead(path) => match Unread::at(rt, path.as_str()) {
            Ok(unread) => Fault::ScriptUnread(unread),
            Err(_) => Fault::Memory,
        },
        other => Fault::Transfer(other),
    }
}

/// The fault of a file or a folder that is not brought in.
pub fn not_brought<R: AllocGlobal + Files>(rt: &R, fault: TransferFault) -> Fault {
    match fault {
        TransferFault::CannotRead(path) => Fault::from(OptionsFault::with_reason(
            rt,
            path.as_str(),
        )),
        other => Fault::Transfer(other),
    }
}

/// The fault of a folder that is not shared.
pub fn not_shared(fault: TransferFault) -> Fault {
    match fault {
        TransferFault::CannotRead(path) => Fault::NoFolder(path),
        other => Fault::Transfer(other),
    }
}

/// Writes a line on standard error, in which control characters of names are escaped: a newline would begin another line, and a
/// terminal obeys others. If even this line cannot be written, the exit status reports it.
pub fn report<R: AllocGlobal + Eprint, T: Display>(rt: &R, line: &T) {
    let _ = match escaped(rt.alloc(), line) {
        Ok(shown) => rt.eprintln(format_args!("amishell-execute: {shown}")),
        Err(_) => rt.eprintln(format_args!("amishell-execute: out of memory")),
    };
}
