#![tactic(auto)]
//! Folders of this machine that are kept alike with directories of the Shell's files: what changed on either side, and what is done
//! about it on the other one.

mod account;
mod around;
mod arrival_plan;
mod arrivals;
mod asides;
mod backups;
mod beginning;
mod beside;
mod changes;
mod contents;
mod copied_folders;
mod deleted_copies;
mod departing;
mod departure;
mod departures;
mod elsewhere;
mod failures;
mod fit;
mod holders;
mod large_asides;
mod large_copies;
mod large_moves;
mod last_copies;
mod left_out;
mod made_again;
mod mirror;
mod modes;
mod moves;
mod notes;
mod parts;
mod permissions;
mod places;
mod remainders;
mod removals;
mod renaming;
mod reports;
mod samples;
mod second_look;
mod sought;
mod spoils;
mod start_place;
mod syncs;
mod temporaries;
mod update;
mod watches;
mod writes;

pub use account::Moment;
pub use arrivals::Arrival;
pub use mirror::Mirror;
pub use start_place::StartPlace;
