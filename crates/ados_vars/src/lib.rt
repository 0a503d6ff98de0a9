#![tactic(auto)]
//! Variables and aliases, in the order of their first setting; a shell's own variables; global variables.

mod globals;
mod laws;
mod locals;
mod vars;

pub use globals::global;
pub use laws::variables_show_each_answer;
pub use locals::Locals;
pub use vars::{Aliases, Vars};
