//! The same matches many times, to be timed from outside.

use crate::texts::texts_of;
use ados_pattern::{Pattern, PatternFault};
use ados_text::{NoMemory, Text};
use std::alloc::Global;

/// How many matches succeeded over all rounds. The name `-` stands for 1,000 names.
pub fn matched(alloc: Global, pattern: &str, name: &str, rounds: u32) -> Result<u32, PatternFault> {
    let names = if name == "-" {
        many_names(alloc)?
    } else {
        texts_of(alloc, &[name])?
    };
    matches_of(alloc, pattern, &names, rounds)
}

/// How many matches of these names succeeded over all rounds.
pub fn matches_of(
    alloc: Global,
    pattern: &str,
    names: &[Text],
    rounds: u32,
) -> Result<u32, PatternFault> {
    let pattern = parsed(alloc, pattern)?;
    matches_in_rounds(&pattern, names, rounds)
}

fn parsed(alloc: Global, pattern: &str) -> Result<Pattern, PatternFault> {
    let text = Text::from_bytes(alloc, pattern.as_bytes())?;
    Pattern::parse(alloc, &text)
}

fn matches_in_rounds(pattern: &Pattern, names: &[Text], rounds: u32) -> Result<u32, PatternFault> {
    let mut count: u32 = 0;
    for _ in 0..rounds {
        count = count.wrapping_add(matches_in(pattern, names)?);
    }
    Ok(count)
}

fn matches_in(pattern: &Pattern, names: &[Text]) -> Result<u32, PatternFault> {
    let mut count: u32 = 0;
    for name in names {
        count = count.wrapping_add(u32::from(pattern.matches(name)?));
    }
    Ok(count)
}

fn many_names(alloc: Global) -> Result<Vec<Text>, NoMemory> {
    let mut names = Vec::new(alloc);
    for number in 0..500 {
        names.push(picture(alloc, number, "")?)?;
        names.push(picture(alloc, number, ".info")?)?;
    }
    Ok(names)
}

fn picture(alloc: Global, number: u32, suffix: &str) -> Result<Text, NoMemory> {
    let name = format!(in alloc; "Picture{number}{suffix}")?;
    Text::from_bytes(alloc, name.as_bytes())
}
