#![tactic(auto)]
//! The commands on files: MakeDir, Delete, Rename, Copy, Type, Join, List, Dir, Protect, Filenote, Search and Sort.

mod below;
mod copy;
mod copy_one;
mod delete;
mod devices;
mod dir;
mod dir_lines;
mod dumps;
mod filenote;
mod formats;
mod gather;
mod hits;
mod jobs;
mod join;
mod laws;
mod letters;
mod listing;
mod make_dir;
mod options;
mod parts;
mod protect;
mod rename;
mod rows;
mod search;
mod shapes;
mod sort;
mod sort_order;
mod spellings;
mod type_files;

pub use devices::push_devices;
pub use laws::{
    hits_are_parts, options_have_their_places, others_stay, searched_files_are_those_of_copy,
};
pub use rows::{run, template};
