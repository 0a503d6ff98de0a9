#![tactic(auto)]
//! What a session is made from: the programs of the host that are commands, named in a file, and recordings, whose typed
//! lines, answers and breaks are run in place of a terminal, of programs and of a user who breaks.

mod answers;
mod breaks;
mod faults;
mod hosts;
mod parts;
mod recordings;
mod version;

pub use faults::FileFault;
pub use hosts::{HOSTS_BYTES, read_hosts};
pub use recordings::{Recording, read_recording};
pub use version::VERSION;
