#![tactic(auto)]
//! The tests of the crates, one file for each that has them, of what no contract says, and neither a dialogue of
//! `tests/dialogues/` nor a list of events of `tests/events/` can show: that calls which no command makes succeed if
//! there is memory, and readers and writers that fail.
//! They are together here, so that no crate is proved a second time for its tests.

#[cfg(test)]
mod assign;
#[cfg(test)]
mod breaks;
#[cfg(test)]
mod cache;
#[cfg(test)]
mod drive;
#[cfg(test)]
mod items;
#[cfg(test)]
mod jumps;
#[cfg(test)]
mod launch;
#[cfg(test)]
mod memory;
#[cfg(test)]
mod names;
#[cfg(test)]
mod places;
#[cfg(test)]
mod ram;
#[cfg(test)]
mod readargs;
#[cfg(test)]
mod text;
#[cfg(test)]
mod tree;
#[cfg(test)]
mod wrong;
