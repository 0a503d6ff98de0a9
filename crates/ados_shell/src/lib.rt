#![tactic(auto)]
//! One shell: its frames, what it waits for and its parts; and a turn of it, or a launcher's answer for it, which fills a
//! draft with what it changes.

mod answers;
mod arrivals;
mod begun;
mod breaks;
mod calls;
mod carrying;
mod children;
mod code_rule;
mod commands;
mod completions;
mod console;
mod drafts;
mod hosted;
mod inputs;
mod lines;
mod outputs;
mod prompts;
mod questions;
mod rows;
mod runs;
mod scenes;
mod seen;
mod shell_drafts;
mod shells;
mod stacks;
mod suspensions;
mod ticks;
mod turnings;
mod uses;

pub use answers::Answering;
pub use begun::Begun;
pub use commands::Commands;
pub use drafts::{Draft, ShellDraft};
pub use scenes::{Input, Scene};
pub use seen::free_number;
pub use shells::Shell;
pub use turnings::TurnKind;
