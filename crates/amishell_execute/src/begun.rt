//! When a run began: what was changed since then is not taken over (`--take`).

use execute_options::Options;
use std::time::{Clock, SystemTime};

// The clock by which the system notes when a file was changed stands still for at most this many milliseconds.
const TICK: u128 = 10;

// How often the clock is read at most until they have passed. A reading takes some 30 nanoseconds.
const READS: u32 = 1_000_000;

/// Waits until a change of a file has a later time than this moment, if programs may start and their changes are looked for at the end:
/// one in the same tick seems to have been before it, and would be lost. There is no other wait than to read the clock. Mostly what was
/// done since the moment has taken half of the time.
pub fn pass_tick<R: Clock>(rt: &R, options: &Options<'_>, begun: Option<SystemTime>) {
    let Some(begun) = begun else {
        return;
    };
    if options.take.is_empty() || !may_start_programs(options) {
        return;
    }
    for _ in 0..READS {
        match begun.elapsed(rt) {
            Ok(passed) if passed.as_millis() < TICK => {}
            _ => return,
        }
    }
}

// Programs of this machine are commands of the run.
fn may_start_programs(options: &Options<'_>) -> bool {
    options.common || options.hosts.is_some() || !options.host.is_empty()
}
