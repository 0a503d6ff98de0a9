#![tactic(auto)]
//! Control flow: frames, the rule by which they end, and the commands that call scripts, end them, and jump in them.

mod actions;
mod ask;
mod branches;
mod called;
mod code_rule;
mod conditions;
mod devices;
mod execute;
mod frames;
mod gathering;
mod kinds;
mod laws;
mod quit;
mod reads;
mod records;
mod rows;

pub use actions::Action;
pub use ask::reply_of;
pub use branches::{label_sought, skip_from};
pub use called::Called;
pub use code_rule::{FIRST_LIMIT, is_reached};
pub use devices::push_devices;
pub use execute::{call_script, place_in_scripts};
pub use frames::{FRAME_LIMIT, Frame};
pub use gathering::{
    Gathered, RUN_LIMIT, before_plus, gather, has_no_command, number_line, without_plus,
};
pub use kinds::FrameKind;
pub use laws::options_have_their_places;
pub use reads::reads_in_use;
pub use records::Record;
pub use rows::{run, template};
