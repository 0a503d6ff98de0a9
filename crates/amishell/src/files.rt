//! The files that a command line names.
ghost use Rattle.std.specs.Prelude.{◌≡◌, ◌≤◌, true, IfOk, vec_len};
ghost use Rattle.ados_session.specs.Hosts.{are_free};

use crate::faults::Fault;
use ados_session::{FileFault, HOSTS_BYTES, Recording, read_hosts, read_recording};
use ados_world::{Dialect, HostEntry};
use std::alloc::Global;
use std::io::Read;
use std::rt::Files;
use std::{fs, io};

// How many bytes a recording may have.
const RECORDING_BYTES: usize = 1_048_576;

/// The programs of the host that a file names. A world of the dialect can be made with them.
pub fn hosts_in<R: AllocGlobal + Files>(
    rt: &R,
    dialect: Dialect,
    file: &str,
) -> Result<Vec<HostEntry>, Fault>
    ensures free { IfOk result (λ hosts. are_free dialect hosts.items ≡ true) }
{
    let bytes = bytes_of(rt, file, HOSTS_BYTES)?;
    match read_hosts(rt.alloc(), dialect, bytes.as_slice()) {
        Ok(hosts) => Ok(hosts),
        Err(FileFault::BadLine(line)) => Err(Fault::BadHost(line)),
        Err(FileFault::NoMemory) => Err(Fault::Memory),
    }
}

/// The recording in a file. A world can be made with its hosts.
pub fn recording_in<R: AllocGlobal + Files>(rt: &R, file: &str) -> Result<Recording, Fault>
    ensures free { IfOk result (λ recording. are_free recording.dialect recording.hosts ≡ true) }
{
    let bytes = bytes_of(rt, file, RECORDING_BYTES)?;
    match read_recording(rt.alloc(), bytes.as_slice()) {
        Ok(recording) => Ok(recording),
        Err(FileFault::BadLine(line)) => Err(Fault::BadRecording(line)),
        Err(FileFault::NoMemory) => Err(Fault::Memory),
    }
}

// The bytes of a file, at most as many as the limit.
fn bytes_of<R: AllocGlobal + Files>(rt: &R, file: &str, limit: usize) -> Result<Vec<u8>, Fault>
    ensures { IfOk result (λ bytes. vec_len bytes ≤ limit) }
{
    match bytes_up_to(rt, file, limit) {
        Ok(bytes) if bytes.len() <= limit => Ok(bytes),
        Ok(_) => Err(cannot_read(rt.alloc(), file)),
        Err(error) if error.kind() == io::ErrorKind::OutOfMemory => Err(Fault::Memory),
        Err(_) => Err(cannot_read(rt.alloc(), file)),
    }
}

// The bytes of a file, and some more than the limit if it is longer.
fn bytes_up_to<R: AllocGlobal + Files>(rt: &R, file: &str, limit: usize) -> io::Result<Vec<u8>> {
    let mut bytes = Vec::new(rt.alloc());
    let most = (limit as u64).saturating_add(1);
    fs::open(rt, file)?.take(most).read_to_end(&mut bytes)?;
    Ok(bytes)
}

// The fault of a file that cannot be read.
fn cannot_read(alloc: Global, file: &str) -> Fault {
    match String::from_str(alloc, file) {
        Ok(name) => Fault::CannotRead(name),
        Err(_) => Fault::Memory,
    }
}
