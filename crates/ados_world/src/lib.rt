#![tactic(auto)]
//! The world of shells: it takes events one by one, and answers what is printed, what a launcher is asked for, and which
//! scripts ended.

mod breaks;
mod carrying;
mod due;
mod endings;
mod hosts;
mod new_shells;
mod opened;
mod queue;
mod runs;
mod shells;
mod steps;
mod table;
mod worlds;

pub use ados_machine::{
    Answer, BreakKind, ChildState, Codes, EndReport, Event, Job, Out, Refusal, Reports, Request,
};
pub use ados_resident::{Dialect, HostEntry};
pub use ados_shell::Draft;
pub use hosts::{NewFault, hosts_fault};
pub use runs::{Outs, Run};
pub use worlds::World;
