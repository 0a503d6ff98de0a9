#![tactic(auto)]
//! Drives the machine: bytes in, bytes out, with programs of the host started by a launcher; or runs one line alone
//! ([`system`]).
//!
//! A reader and a writer are any of std's, within [`Counted`], which counts how often they failed. A launcher is one of
//! [`Host`], which starts real programs, and [`Listed`], which answers from a list.

mod alone;
mod asks;
mod children;
mod counted;
mod driver;
mod events;
mod faults;
mod gathered;
mod intake;
mod laws;
mod lines;
mod next;
mod read_ahead;
mod rounds;
mod schedule;
mod session;
mod written;

pub use ados_launcher::{Call, Host, Launcher, Listed, calls_are_sequences_of_lifecycles};
pub use ados_machine::BreakAt;
pub use alone::{SystemEnd, SystemFault, system};
pub use counted::{Counted, Sink, Source};
pub use driver::{Drive, End};
pub use faults::DriveFault;
pub use laws::{acts_obey_the_rule, new_pairs_agree, sessions_are_unique, sessions_obey_the_laws};
pub use next::Next;
pub use session::Session;
pub use written::{WriteFault, write_whole};
