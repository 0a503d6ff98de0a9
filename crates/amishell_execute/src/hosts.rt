//! The commands that are programs of the host, and the world that has them.
ghost use Rattle.std.specs.Prelude.{◌≡◌, IfOk};
ghost use Rattle.ados_machine.specs.World.{fresh_world};

use crate::faults::{Fault, bad_words};
use crate::host_faults::{bad_line, refusal};
use ados_session::{FileFault, HOSTS_BYTES, read_hosts};
use ados_text::Text;
use ados_transfer::{BRING, ascii, last_piece, step_into};
use ados_world::{Dialect, HostEntry, NewFault, World, hosts_fault};
use execute_options::{Options, OptionsFault, bytes_within};
use std::alloc::Global;
use std::os::unix::fs::PermissionsExt;
use std::rt::{Env, Files};
use std::{env, fs};

// The variable of the environment that names a file of hosts.
const VARIABLE: &str = "AMISHELL_HOSTS";

// The file of the stand-ins, in a folder above the program's folder.
const COMMON: &str = "share/amishell/common";

// How many folders above the program's are looked at.
const FOLDERS_ABOVE: usize = 4;

/// The commands that the options name: the one that brings in, those of the file of hosts, those of `--host`, and those
/// stand-ins whose names are free.
pub fn hosts_for<R: AllocGlobal + Files + Env>(
    rt: &R,
    options: &Options<'_>,
) -> Result<Vec<HostEntry>, Fault> {
    let dialect = options.dialect;
    let mut hosts = Vec::new(rt.alloc());
    add_file(rt, dialect, options.hosts, &mut hosts)?;
    for words in &options.host {
        add_words(rt, dialect, words, &mut hosts)?;
    }
    let bring = HostEntry {
        name: Text::from_bytes(rt.alloc(), BRING)?,
        program: Text::from_bytes(rt.alloc(), BRING)?,
    };
    hosts.push(bring)?;
    match hosts_fault(dialect, hosts.as_slice()) {
        None => {}
        Some(NewFault::TooMany) => return Err(Fault::ManyHosts),
        Some(_) => return Err(Fault::OwnName),
    }
    if options.common {
        add_common(rt, dialect, &mut hosts)?;
    }
    Ok(hosts)
}

/// A world of a dialect in which nothing happened, with these commands.
#[inline(always)]
pub fn world_with(alloc: Global, dialect: Dialect, hosts: &[HostEntry]) -> Result<World, Fault>
    ensures { IfOk result (λ world. world ≡ fresh_world dialect hosts.now) }
{
    match World::with_dialect(alloc, hosts, dialect) {
        Ok(world) => Ok(world),
        Err(NewFault::NoMemory) => Err(Fault::Memory),
        Err(_) => Err(Fault::ManyHosts),
    }
}

// Adds a command; `false` if a world can't be made with it, and then it is left out.
fn add(dialect: Dialect, hosts: &mut Vec<HostEntry>, host: HostEntry) -> Result<bool, Fault> {
    hosts.push(host)?;
    if hosts_fault(dialect, hosts.as_slice()).is_some() {
        hosts.pop();
        return Ok(false);
    }
    Ok(true)
}

// Adds the commands of the file of hosts, which the options or the environment name.
fn add_file<R: AllocGlobal + Files + Env>(
    rt: &R,
    dialect: Dialect,
    file: Option<&str>,
    hosts: &mut Vec<HostEntry>,
) -> Result<(), Fault> {
    if let Some(file) = file {
        return add_lines(rt, dialect, file, hosts);
    }
    match env::var(rt, VARIABLE) {
        Ok(file) if !file.is_empty() => add_lines(rt, dialect, file.as_str(), hosts),
        _ => Ok(()),
    }
}

fn add_lines<R: AllocGlobal + Files>(
    rt: &R,
    dialect: Dialect,
    file: &str,
    hosts: &mut Vec<HostEntry>,
) -> Result<(), Fault> {
    for host in read_file(rt, dialect, file)? {
        let _ = add(dialect, hosts, host)?;
    }
    Ok(())
}

// The commands that a file names.
fn read_file<R: AllocGlobal + Files>(
    rt: &R,
    dialect: Dialect,
    file: &str,
) -> Result<Vec<HostEntry>, Fault> {
    let bytes = bytes_within(rt, file, HOSTS_BYTES)?;
    match read_hosts(rt.alloc(), dialect, bytes.as_slice()) {
        Ok(hosts) => Ok(hosts),
        Err(FileFault::BadLine(line)) => Err(bad_line(
            rt.alloc(),
            dialect,
            file,
            line,
            bytes.as_slice(),
        )),
        Err(FileFault::NoMemory) => Err(Fault::Memory),
    }
}

// Adds the command of words of `--host`, which are `NAME` or `NAME=PROGRAM`.
fn add_words<R: AllocGlobal + Files + Env>(
    rt: &R,
    dialect: Dialect,
    words: &str,
    hosts: &mut Vec<HostEntry>,
) -> Result<(), Fault> {
    let (name, program) = words.split_once('=').unwrap_or((words, words));
    if name.is_empty() {
        return Err(bad_words(rt.alloc(), "--host", words, "no name"));
    }
    if program.is_empty() {
        return Err(bad_words(rt.alloc(), "--host", words, "no program"));
    }
    let host = HostEntry {
        name: ascii(rt.alloc(), name)?,
        program: ascii(rt.alloc(), program)?,
    };
    if let Some(fault) = refusal(rt.alloc(), dialect, &host, hosts.as_slice())? {
        return Err(fault);
    }
    if !add(dialect, hosts, host)? {
        return Err(Fault::ManyHosts);
    }
    if !is_found(rt, program)? {
        return Err(Fault::NotInPath(String::from_str(rt.alloc(), words)?));
    }
    Ok(())
}

// A program that is named without a slash is in a folder of PATH. Where that names a folder by a path that is not whole, which one
// it is shows only when the program starts.
fn is_found<R: AllocGlobal + Files + Env>(rt: &R, program: &str) -> Result<bool, Fault> {
    if program.contains('/') {
        return Ok(true);
    }
    let Ok(path) = env::var(rt, "PATH") else {
        return Ok(true);
    };
    for folder in path.as_str().split(':') {
        if !folder.starts_with('/') {
            return Ok(true);
        }
        let file = step_into(rt.alloc(), folder, program)?;
        if is_program(rt, file.as_str()) {
            return Ok(true);
        }
    }
    Ok(false)
}

// At a path there is a file that may be executed.
fn is_program<R: Files>(rt: &R, path: &str) -> bool {
    match fs::metadata(rt, path) {
        Ok(found) => found.is_file() && found.permissions().mode() & 0o111 != 0,
        Err(_) => false,
    }
}

// Adds the stand-ins. Their programs are in the folder of their file.
fn add_common<R: AllocGlobal + Files>(
    rt: &R,
    dialect: Dialect,
    hosts: &mut Vec<HostEntry>,
) -> Result<(), Fault> {
    let file = common_file(rt)?;
    let folder = file
        .as_str()
        .strip_suffix(last_piece(file.as_str()))
        .unwrap_or("");
    for host in read_file(rt, Dialect::Core, file.as_str())? {
        let program = match std::str::from_utf8(host.program.as_bytes()) {
            Ok(program) => step_into(rt.alloc(), folder, program)?,
            Err(_) => return Err(Fault::Memory),
        };
        let stand_in = HostEntry {
            name: host.name,
            program: ascii(rt.alloc(), program.as_str())?,
        };
        let _ = add(dialect, hosts, stand_in)?;
    }
    Ok(())
}

// The file of the stand-ins, in the nearest folder above this program that has it.
fn common_file<R: AllocGlobal + Files>(rt: &R) -> Result<String, Fault> {
    let Ok(program) = env::current_exe(rt) else {
        return Err(no_common(rt.alloc()));
    };
    let path = program.as_path().as_str();
    let mut folder = String::from_str(
        rt.alloc(),
        path.strip_suffix(last_piece(path)).unwrap_or(""),
    )?;
    for _ in 0..FOLDERS_ABOVE {
        folder = step_into(rt.alloc(), folder.as_str(), "..")?;
        let file = step_into(rt.alloc(), folder.as_str(), COMMON)?;
        if fs::metadata(rt, file.as_str()).is_ok() {
            return Ok(file);
        }
    }
    Err(no_common(rt.alloc()))
}

// The fault where the stand-ins' file is not found.
fn no_common(alloc: Global) -> Fault {
    Fault::from(OptionsFault::without_reason(alloc, COMMON))
}
