#![tactic(auto)]
//! Tells each command that a script takes, as `--trace` of both programs does.

mod commands;
mod escapes;
mod names;
mod ticks;
mod traced;

pub use escapes::{escaped, shown, shown_bytes};
pub use names::{FullPaths, ScriptNames, script_name};
pub use traced::Traced;
