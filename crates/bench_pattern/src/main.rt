#![tactic(auto)]
//! What patterns match: a table of all short patterns, answers to lines of a pattern and a name, or
//! many matches to be timed from outside.
//!
//! With no argument: for each length of pattern up to four bytes, a line that counts, over all
//! patterns of some characters, what is refused, literal and matched, with a digest of every answer;
//! then each line of standard input, `PATTERN NAME`, with its answer.
//! `PATTERN NAME ROUNDS`: the match of a name, ROUNDS times. `PATTERN - ROUNDS`: the matches of
//! 1,000 names, ROUNDS times.

mod answers;
mod rounds;
mod tally;
mod texts;

use anyhow::bail;
use std::{env, io};

fn main(rt: HostRuntime) -> anyhow::Result<()> {
    let words = env::args(&rt)?.collect::<Vec<String>>(rt.alloc())?;
    run(&rt, &words)
}

fn run<R: AllocGlobal + Input + Print>(rt: &R, words: &[String]) -> anyhow::Result<()> {
    match words {
        [] | [_] => {
            print_tallies(rt)?;
            print_answers(rt)?;
        }
        [_, pattern, name, rounds, ..] => print_rounds(rt, pattern, name, rounds)?,
        _ => bail!("the arguments are a pattern, a name and a number of rounds"),
    }
    Ok(())
}

fn print_rounds<R: AllocGlobal + Print>(
    rt: &R,
    pattern: &str,
    name: &str,
    rounds: &str,
) -> anyhow::Result<()> {
    let Ok(rounds) = rounds.parse::<u32>() else {
        bail!("the number of rounds is no number");
    };
    let matched = rounds::matched(rt.alloc(), pattern, name, rounds)?;
    println!(rt; "{matched}")?;
    Ok(())
}

fn print_tallies<R: AllocGlobal + Print>(rt: &R) -> io::Result<()> {
    for length in 0..5 {
        match tally::of_length(rt.alloc(), length) {
            Ok(tally) => println!(rt; "{length}: {tally}")?,
            Err(fault) => println!(rt; "{length}: {fault}")?,
        }
    }
    Ok(())
}

fn print_answers<R: AllocGlobal + Input + Print>(rt: &R) -> io::Result<()> {
    for line in rt.lines(rt.alloc()) {
        print_answer(rt, line?.as_str())?;
    }
    Ok(())
}

fn print_answer<R: AllocGlobal + Print>(rt: &R, line: &str) -> io::Result<()> {
    match answers::is_matched(rt.alloc(), line) {
        Ok(true) => println!(rt; "{line}: yes"),
        Ok(false) => println!(rt; "{line}: no"),
        Err(fault) => println!(rt; "{line}: {fault}"),
    }
}
