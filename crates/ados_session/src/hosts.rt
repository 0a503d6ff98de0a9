//! Files of the programs of the host that are commands.
ghost use Rattle.std.specs.Prelude.{◌≡◌, ◌++◌, ◌∷◌, ◌&&◌, [], true, IfOk, IfErr, OnErr};
ghost use Rattle.ados_text.specs.Lines.{lines_of};
ghost use Rattle.ados_session.specs.{Faults.{IsFault}, Hosts.{are_hosts, are_free, host_line, parsed_hosts, is_comment, is_host_line}};

use crate::faults::FileFault;
use ados_items::{first_word, rest_of, trimmed};
use ados_text::{NoMemory, Text, lines_of};
use ados_world::{Dialect, HostEntry, hosts_fault};
use std::alloc::Global;

/// The most bytes of such a file.
pub const HOSTS_BYTES: usize = 65_536;

/// What a line of such a file says.
#[derive(Drop)]
pub enum HostLine {
    /// Nothing: it is blank or a comment.
    Nothing,
    /// A command, with its program.
    Host(HostEntry),
    /// No command: the path of a program is missing.
    Bad,
}

/// The commands that a file names, in order. A world of the dialect can be made with them.
///
/// Each line is a command's name, blanks, and the path of a program; blanks around the whole are dropped. Blank lines,
/// and lines that begin with `#`, say nothing. A byte past ASCII is read as `?`.
///
/// `BadLine` names the first line that is invalid: it has no path, or its name is not a name, that of a command, or that of
/// an earlier line, or it is a 65th command.
pub fn read_hosts(
    alloc: Global,
    dialect: Dialect,
    bytes: &[u8],
) -> Result<Vec<HostEntry>, FileFault>
    ensures good { IfOk result (λ hosts. are_hosts dialect (lines_of bytes.now) ≡ true) }
    ensures hosts { IfOk result (λ hosts. hosts.items ≡ parsed_hosts (lines_of bytes.now)) }
    ensures free { IfOk result (λ hosts. are_free dialect hosts.items ≡ true) }
    ensures fault { IfErr result (IsFault (are_hosts dialect) 0 (lines_of bytes.now)) }
{
    let lines = lines_of(alloc, bytes)?;
    hosts_of(alloc, dialect, lines.as_slice())
}

// The commands that lines name.
fn hosts_of(alloc: Global, dialect: Dialect, lines: &[Text]) -> Result<Vec<HostEntry>, FileFault>
    ensures good { IfOk result (λ hosts. are_hosts dialect lines.now ≡ true) }
    ensures hosts { IfOk result (λ hosts. hosts.items ≡ parsed_hosts lines.now) }
    ensures free { IfOk result (λ hosts. are_free dialect hosts.items ≡ true) }
    ensures fault { IfErr result (IsFault (are_hosts dialect) 0 lines.now) }
{
    let mut hosts = Vec::new(alloc);
    for (place, line) in lines.iter().enumerate() {
        if !take_line(alloc, dialect, line, &mut hosts)? {
            return Err(FileFault::BadLine(place + 1));
        }
    }
    Ok(hosts)
}

// Adds the command of a line, if it names one; `false` if the line is invalid.
fn take_line(
    alloc: Global,
    dialect: Dialect,
    line: &Text,
    hosts: &mut Vec<HostEntry>,
) -> Result<bool, NoMemory>
    requires { are_free dialect hosts.old.items ≡ true }
    ensures good { IfOk result (λ is_good. is_good ≡ (is_host_line (host_line line.now) && are_free dialect hosts.new.items)) }
    ensures hosts { IfOk result (λ _. hosts.new.items ≡ hosts.old.items ++ parsed_hosts (line.now ∷ [])) }
{
    match host_line(alloc, line)? {
        HostLine::Nothing => Ok(true),
        HostLine::Host(host) => add_host(dialect, hosts, host),
        HostLine::Bad => Ok(false),
    }
}

/// Adds a command; `false` if a world of the dialect can't be made with them. At `NoMemory` the list is unchanged.
pub fn add_host(
    dialect: Dialect,
    hosts: &mut Vec<HostEntry>,
    host: HostEntry,
) -> Result<bool, NoMemory>
    ensures free { IfOk result (λ is_free. is_free ≡ are_free dialect (hosts.old.items ++ host ∷ [])) }
    ensures hosts { IfOk result (λ _. hosts.new.items ≡ hosts.old.items ++ host ∷ []) }
    ensures err { OnErr result (hosts.new.items ≡ hosts.old.items) }
{
    hosts.push(host)?;
    Ok(hosts_fault(dialect, hosts.as_slice()).is_none())
}

// What a line says.
fn host_line(alloc: Global, line: &Text) -> Result<HostLine, NoMemory>
    ensures { IfOk result (λ read. read ≡ host_line line.now) }
{
    let words = trimmed(line.as_bytes());
    if words.is_empty() || is_comment(line.as_bytes()) {
        return Ok(HostLine::Nothing);
    }
    let program = rest_of(words);
    if program.is_empty() {
        return Ok(HostLine::Bad);
    }
    Ok(HostLine::Host(HostEntry {
        name: Text::of_ascii(alloc, first_word(words))?,
        program: Text::of_ascii(alloc, program)?,
    }))
}

// The line begins with `#`.
fn is_comment(line: &[u8]) -> bool
    ensures { result ≡ is_comment line.now }
{
    matches!(line, [b'#', ..])
}
