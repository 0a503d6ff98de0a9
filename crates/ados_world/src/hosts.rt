// The host's commands that a world is made with.
ghost use Rattle.std.specs.Prelude.{◌≡◌};
ghost use Rattle.ados_text.specs.Text.{is_same};
ghost use Rattle.ados_world.specs.Hosts.{first_host_fault, hosts_fault, is_command, is_host, is_reserved_name, name_fault};

use ados_names::is_name;
use ados_resident::{Dialect, DiskCommand, HostEntry, InternalCommand};
use ados_text::Text;
use thiserror::Error;

/// How many commands of the host a world takes at most.
const HOST_LIMIT: usize = 64;

/// Why a world can't be made.
#[derive(Clone, Copy, Debug, PartialEq, Eq, Error)]
pub enum NewFault {
    /// More than 64 commands of the host.
    #[error("too many hosts")]
    TooMany,
    /// The name of this one, counted from 1, is not a name: 1 to 30 printable characters without colon and slash.
    #[error("host {0} has no name")]
    BadName(usize),
    /// The name of this one, counted from 1, is that of a command, or of an earlier one.
    #[error("host {0} has the name of another")]
    Double(usize),
    /// There was no memory for the templates of the commands or for the files of the beginning.
    #[error("no free store")]
    NoMemory,
}

/// Why a world of a dialect is not made with these commands of the host: there are too many, or else the fault of the first that has
/// one.
pub fn hosts_fault(dialect: Dialect, hosts: &[HostEntry]) -> Option<NewFault>
    ensures { result ≡ hosts_fault dialect hosts.now }
{
    if hosts.len() > HOST_LIMIT {
        return Some(NewFault::TooMany);
    }
    first_fault(dialect, hosts)
}

/// The fault of the first that has one.
fn first_fault(dialect: Dialect, hosts: &[HostEntry]) -> Option<NewFault>
    ensures { result ≡ first_host_fault dialect hosts.now 0 hosts.now }
{
    for place in 0..hosts.len() {
        if let Some(fault) = name_fault(dialect, &hosts[..place], place + 1, &hosts[place].name) {
            return Some(fault);
        }
    }
    None
}

/// Why a name is refused, given its place (counted from 1) and the entries before it.
fn name_fault(dialect: Dialect, before: &[HostEntry], place: usize, name: &Text) -> Option<NewFault>
    ensures { result ≡ name_fault dialect before.now place name.now }
{
    if !is_name(name) {
        Some(NewFault::BadName(place))
    } else if is_reserved_name(dialect, before, name) {
        Some(NewFault::Double(place))
    } else {
        None
    }
}

/// A command has the name: an internal one, a disk command, or one of these.
fn is_reserved_name(dialect: Dialect, hosts: &[HostEntry], name: &Text) -> bool
    ensures { result ≡ is_reserved_name dialect hosts.now name.now }
{
    is_command(dialect, name) || is_host(hosts, name)
}

/// It is the name of an internal command, or of a disk command of the dialect.
fn is_command(dialect: Dialect, name: &Text) -> bool
    ensures { result ≡ is_command dialect name.now }
{
    InternalCommand::named(name).is_some() || DiskCommand::named(dialect, name.as_bytes()).is_some()
}

/// One of these has the name.
fn is_host(hosts: &[HostEntry], name: &Text) -> bool
    ensures { result ≡ is_host hosts.now name.now }
{
    hosts.iter().any(|host| is_called(host, name))
}

/// The name is this one's; case is ignored.
fn is_called(host: &HostEntry, name: &Text) -> bool
    ensures { result ≡ is_same name.now host.now.name }
{
    name.as_bytes().eq_ignore_ascii_case(host.name.as_bytes())
}
