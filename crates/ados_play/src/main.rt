#![tactic(auto)]
//! Plays a list of events to a world, and prints what each of them gave: for tests that are written by hand.
//!
//!     ados_play [step|run|each] <LIST
//!
//! The lines of a list, and what they print, are described in `tests/events/README.md`. `step`, or no word,
//! plays the events one by one; `run` plays as one run all the events between two lines of other kinds, and `each`
//! plays each event as a run of its own. What is printed is the same.

mod answers;
mod launchers;
mod lines;
mod players;
mod systems;
mod texts;
mod views;

use anyhow::bail;
use players::{Way, played};
use std::io::Write;
use std::{env, io};

fn main(rt: HostRuntime) -> anyhow::Result<()> {
    let words = env::args(&rt)?.collect::<Vec<String>>(rt.alloc())?;
    let Some(way) = way(&words) else {
        bail!("usage: ados_play [step|run|each] <LIST");
    };
    let list = io::read_to_string(rt.alloc(), rt.reader())?;
    let text = played(rt.alloc(), way, &list)?;
    io::writer(&rt).write_all(text.as_slice())?;
    Ok(())
}

// How the words ask for the events to be played.
fn way(words: &[String]) -> Option<Way> {
    match words {
        [] | [_] => Some(Way::Step),
        [_, word] if word.as_str() == "step" => Some(Way::Step),
        [_, word] if word.as_str() == "run" => Some(Way::Run),
        [_, word] if word.as_str() == "each" => Some(Way::Each),
        _ => None,
    }
}
