//! The answers to the lines of standard input.

use crate::rounds::matches_of;
use ados_pattern::PatternFault;
use ados_text::Text;
use std::alloc::Global;
use std::slice;

/// Whether the pattern before a line's first blank matches the name after it.
pub fn is_matched(alloc: Global, line: &str) -> Result<bool, PatternFault> {
    let (pattern, name) = line.split_once(' ').unwrap_or((line, ""));
    let name = Text::from_bytes(alloc, name.as_bytes())?;
    Ok(matches_of(alloc, pattern, slice::from_ref(&name), 1)? == 1)
}
