#![tactic(auto)]
//! The objects that an argument names, by a path or a pattern, what a command does with each of them, and the lines that
//! it prints of them.

mod acts;
mod bases;
mod lines;
mod names;

pub use acts::{Names, Paths, at_path, done_with, done_with_named, go_on, go_on_saying};
pub use bases::{all_children, entry_at, is_directory, is_file};
pub use lines::{Line, keeps, push_line, push_lines, put_between, say_path};
pub use names::{NamedObjects, directory_part, named, named_bases, only, pattern_of, piece_of};
