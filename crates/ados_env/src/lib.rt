#![tactic(auto)]
//! The commands that print and set: Assign, CD, Echo, Eval, FailAt, Fault, Status and Why, those of variables and
//! aliases, Path, Resident and Which.

mod aliases;
mod assign;
mod assign_lines;
mod assign_list;
mod assign_listing;
mod assign_names;
mod assign_request;
mod breaks;
mod cd;
mod devices;
mod directories;
mod echo;
mod eval;
mod eval_format;
mod eval_full;
mod expressions;
mod fail_at;
mod fault;
mod globals;
mod laws;
mod numerals;
mod operators;
mod options;
mod pairs;
mod path;
mod reads;
mod resident;
mod resident_lines;
mod rows;
mod sought;
mod status;
mod tokens;
mod variables;
mod which;
mod which_hits;
mod why;

pub use devices::push_devices;
pub use laws::{faults_have_their_texts, internal_commands_are_found, options_have_their_places};
pub use reads::{reads_in_use, reads_shells};
pub use rows::{run, template};
