#![tactic(auto)]
//! The lines of a script, and its jumps: where it continues after an If that fails, an Else and a Skip.

mod blocks;
mod heads;
mod jumps;
mod labels;
mod phrases;
mod scripts;
mod skips;
mod tables;

pub use jumps::Jump;
pub use scripts::Script;
