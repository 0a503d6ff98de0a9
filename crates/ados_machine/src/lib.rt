#![tactic(auto)]
//! The words of the machine: what happens to it, what it answers, and why it refuses.
//!
//! Its definitions are in `specs/`: what a line asks for, what a command returns, how frames end,
//! what an event does to a world, and what a run of events is. The crates above hold the bodies
//! that meet them.

mod answers;
mod builtins;
mod children;
mod events;
mod laws;
mod outs;
mod phases;
mod refusals;
mod requests;

pub use ados_find::{Codes, Target};
pub use ados_flow::{Called, Record};
pub use ados_resident::Builtin;
pub use answers::Answer;
pub use builtins::{parsed_template, reads_in_use, reads_shells, template};
pub use children::ChildState;
pub use events::{BreakAt, BreakKind, Event};
pub use laws::{
    alone_means_the_direct_meaning, breaks_end_scripts, children_go_by_their_answers,
    each_end_is_reported_once, each_frame_ends_once, events_bind_only_what_they_used,
    failed_starts_change_the_codes, no_script_continues_after_a_failure,
    quiet_shells_are_invisible, scripts_end_where_the_rule_says,
};
pub use outs::{EndReport, Out, Reports};
pub use phases::{Asking, Child, Gathering, Parted, Query, Question, Starting, Wait};
pub use refusals::Refusal;
pub use requests::{Job, Request};
