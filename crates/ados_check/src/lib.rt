#![tactic(auto)]
//! What is wrong with the lines of a script, before any of them is taken.

mod arguments;
mod command_words;
mod commands;
mod copies;
mod device_news;
mod device_paths;
mod devices;
mod directives;
mod findings;
mod inspection;
mod jumps;
mod left_out;
mod lines;
mod look;
mod made_aliases;
mod marks;
mod phrases;
mod readings;
mod release_two;
mod renames;
mod returns;
mod signs;
mod table;
mod targets;
mod ticks;

pub use commands::name_in_c;
pub use device_news::{assigned_devices, new_devices};
pub use devices::names_top;
pub use directives::bad_directive;
pub use findings::{Finding, Problem};
pub use inspection::inspect;
pub use jumps::label_in;
pub use left_out::strike;
pub use lines::check;
pub use made_aliases::may_make_alias;
pub use marks::{mark, mark_printed};
pub use returns::merge_returns;
