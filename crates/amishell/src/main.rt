//! The program: the lines of standard input, or those of a recording, run by the Shell of AmigaDOS Release 2.
#![tactic(auto)]

ghost use Rattle.std.specs.Prelude.{◌≡◌, ◌<◌, ◌-◌, ◌^◌, pos, true, IfOk};
ghost use Rattle.ados_launch.specs.Agreement.{Agrees};
ghost use Rattle.ados_machine.specs.World.{fresh_world};
ghost use Rattle.ados_session.specs.Hosts.{are_free};
ghost use Rattle.amishell.specs.Status.{status_of};

mod command;
mod faults;
mod files;
mod reading;
mod request;

use ados_launch::{Counted, Drive, Host, Launcher, Listed, Source};
use ados_text::{Code, Text};
use ados_trace::{FullPaths, Traced};
use ados_world::{Dialect, HostEntry, NewFault, World};
use faults::Fault;
use request::{Asked, Refused};
use std::alloc::Global;
use std::io;
use std::io::{Eprint, Write};
use std::process::{ExitCode, Processes};
use std::rt::{Env, Files};

// The exit status after a fault, and after a code that is not an exit status.
const FAILED: u8 = 20;

// Where the output of a run goes.
#[derive(Clone, Copy)]
struct Console<'a, R> {
    rt: &'a R,
    // Each command is told on standard error.
    traces: bool,
}

fn main(rt: HostRuntime) -> ExitCode {
    match run(&rt) {
        Ok(status) => ExitCode::from(status),
        Err(fault) => {
            // If even this line cannot be written, the exit status reports it.
            let _ = rt.eprintln(format_args!("amishell: {fault}"));
            ExitCode::from(FAILED)
        }
    }
}

// Does what the words ask for, and gives the exit status.
fn run<R: Env + AllocGlobal + Files + Input + Print + Eprint + Processes>(
    rt: &R,
) -> Result<u8, Fault> {
    let words = words(rt)?;
    match reading::asked(rt.alloc(), &words) {
        Ok(
            Asked::Run {
                dialect,
                hosts,
                turns,
                traces,
            },
        ) => run_typed(Console { rt, traces }, dialect, hosts, turns),
        Ok(Asked::Replay { file, traces }) => replay(Console { rt, traces }, file),
        Err(Refused::Help(text)) => show(rt, &text),
        Err(Refused::BadLine) => Err(Fault::BadLine),
        Err(Refused::NoMemory) => Err(Fault::Memory),
    }
}

// Writes the help or the version.
fn show<R: Print>(rt: &R, text: &Text) -> Result<u8, Fault> {
    match io::writer(rt).write_all(text.as_bytes()) {
        Ok(()) => Ok(0),
        Err(_) => Err(Fault::Write),
    }
}

// The words after the program's name.
fn words<R: Env + AllocGlobal>(rt: &R) -> Result<Vec<String>, Fault> {
    let all = match std::env::args(rt) {
        Ok(all) => all,
        Err(error) if error.kind() == io::ErrorKind::OutOfMemory => return Err(Fault::Memory),
        Err(_) => return Err(Fault::BadLine),
    };
    match all.skip(1).collect::<Vec<String>>(rt.alloc()) {
        Ok(words) => Ok(words),
        Err(_) => Err(Fault::Memory),
    }
}

// Runs the lines of standard input in a world of a dialect, with the programs of the host that a file names, and gives the
// exit status.
#[tactic(auto, using(ados_launch::proofs::NewPair::new_pair))]
fn run_typed<R: AllocGlobal + Files + Input + Print + Eprint + Processes>(
    console: Console<'_, R>,
    dialect: Dialect,
    hosts: Option<&str>,
    turns: u64,
) -> Result<u8, Fault> {
    let rt = console.rt;
    let hosts = match hosts {
        Some(file) => files::hosts_in(rt, dialect, file)?,
        None => Vec::new(rt.alloc()),
    };
    let mut world = fresh(rt.alloc(), dialect, hosts.as_slice())?;
    let Ok(mut launcher) = Host::new(rt.alloc(), rt) else {
        return Err(Fault::Memory);
    };
    let mut reader = Counted::new(rt.reader());
    let drive = Drive {
        alloc: rt.alloc(),
        turns,
        breaks: &[],
    };
    play(console, &mut world, &mut launcher, &mut reader, drive)
}

// Runs the recording in a file, and gives the exit status.
#[tactic(auto, using(ados_launch::proofs::NewPair::new_pair))]
fn replay<R: AllocGlobal + Files + Print + Eprint>(
    console: Console<'_, R>,
    file: &str,
) -> Result<u8, Fault> {
    let rt = console.rt;
    let recording = files::recording_in(rt, file)?;
    let mut world = fresh(rt.alloc(), recording.dialect, recording.hosts.as_slice())?;
    let mut launcher = Listed::new(recording.answers);
    let mut reader = Counted::new(recording.typed.as_slice());
    let drive = Drive {
        alloc: rt.alloc(),
        turns: reading::TURNS,
        breaks: recording.breaks.as_slice(),
    };
    play(console, &mut world, &mut launcher, &mut reader, drive)
}

// A world of a dialect in which nothing happened, with these programs of the host.
fn fresh(alloc: Global, dialect: Dialect, hosts: &[HostEntry]) -> Result<World, Fault>
    requires free { are_free dialect hosts.now ≡ true }
    ensures world { IfOk result (λ world. world ≡ fresh_world dialect hosts.now) }
{
    match World::with_dialect(alloc, hosts, dialect) {
        Ok(world) => Ok(world),
        Err(NewFault::NoMemory) => Err(Fault::Memory),
        // A file of hosts and a recording are refused if no world can be made with their hosts.
        Err(_) => unreachable!(),
    }
}

// Runs a reader's lines in a world, by a launcher that starts its programs, and gives the exit status that they leave.
fn play<R: AllocGlobal + Print + Eprint, L: Launcher, S: Source>(
    console: Console<'_, R>,
    world: &mut World,
    launcher: &mut L,
    reader: &mut S,
    drive: Drive,
) -> Result<u8, Fault>
    requires reader { S.faults reader.old < 2 ^ 64 - 1 }
    requires agrees { Agrees world.old (L.calls launcher.old) }
{
    let mut writer = Counted::new(io::writer(console.rt));
    let end = if console.traces {
        let names = FullPaths { alloc: drive.alloc };
        let Ok(mut traced) = Traced::new(console.rt, &names, writer) else {
            return Err(Fault::Memory);
        };
        drive.run(world, launcher, reader, &mut traced)?
    } else {
        drive.run(world, launcher, reader, &mut writer)?
    };
    Ok(status(end.code))
}

// The exit status for a code.
fn status(code: Code) -> u8
    ensures { pos result ≡ status_of code.0 }
{
    u8::try_from(code.0).unwrap_or(FAILED)
}
