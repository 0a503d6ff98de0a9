#![tactic(auto)]
//! Patterns of names: what they match, and which texts are patterns.

mod builds;
mod bytes;
mod errors;
mod faults;
mod grammar;
mod literals;
mod matching;
mod parts;
mod patterns;
mod reaching;
mod tables;
mod tokens;
mod words;

pub use errors::PatternFault;
pub use grammar::{computed_reading, one_reading};
pub use patterns::Pattern;
