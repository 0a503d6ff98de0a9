#![tactic(auto)]
//! What commands read, and their outcomes: the parts that all shells share, the view of a shell, the work on arguments in
//! order, and the outcome of a command. And command lookup: what the word of a command stands for.

mod cache;
mod changes;
mod codes;
mod devices;
mod outcomes;
mod output_file;
mod paths;
mod program_files;
mod programs;
mod questions;
mod refusals;
mod routes;
mod search;
mod search_path;
mod settings;
mod shared;
mod shell_names;
mod targets;
mod views;
mod work;

pub use changes::Change;
pub use codes::Codes;
pub use outcomes::{Breaking, Breaks, CommandResult, Outcome, Renamed, Renames};
pub use output_file::output_to;
pub use paths::{bases_of, place_of};
pub use program_files::{entry_program, program_of};
pub use questions::Question;
pub use refusals::{Lookup, Refusal};
pub use routes::{Route, Search};
pub use search::{Found, ProgramFile, find, find_file, is_path};
pub use search_path::SearchPath;
pub use settings::{Setting, Settings};
pub use shared::{Shared, limits_of};
pub use shell_names::ShellNames;
pub use targets::{Target, target_of};
pub use views::ShellView;
pub use work::{Act, Work, current, each};
