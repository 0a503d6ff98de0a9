#![tactic(auto)]
//! The options of `amishell-execute`: what its command line and a file of options ask for, and what is wrong with their words.

mod command;
mod config;
mod error_names;
mod faults;
mod given;
mod mistakes;
mod numbers;
mod option_lines;
mod reading;
mod request;
mod table;
mod unread;

pub use config::Config;
pub use faults::OptionsFault;
pub use reading::{asked_options, given_words, typed_matches};
pub use request::{AtEnd, Options, Refused};
pub use unread::{Reason, Unread, bytes_within};
