#![tactic(auto)]
//! Names, and the paths that are made of them.

mod names;
mod paths;
mod pieces;
mod steps;

pub use names::is_name;
pub use paths::{PATH_LIMIT, Path};
pub use pieces::last_piece;
pub use steps::Step;
