#![tactic(auto)]
//! The lines of a script, with its arguments substituted.

mod above;
mod directives;
mod faults;
mod laws;
mod lines;
mod marks;
mod next;
mod references;
mod scripts;
mod slots;

pub use faults::SubstFault;
pub use laws::first_directive_is_told;
pub use scripts::script;
