//! Paths that begin with a colon. On an Amiga they begin at the top of the current disk, here at that of `RAM:`, so what a script makes there
//! is not in a shared folder, and is gone at the end.

use ados_check::{Finding, Problem, names_top};
use ados_resident::Dialect;
use ados_text::{NoMemory, Text};
use std::alloc::Global;

/// Adds the first of a script's lines that has such a path, if one has.
pub fn push_top(
    alloc: Global,
    dialect: Dialect,
    lines: &[Text],
    found: &mut Vec<Finding>,
) -> Result<(), NoMemory> {
    for (place, line) in lines.iter().enumerate() {
        if names_top(alloc, dialect, line)? {
            return Ok(found.push(Finding {
                line: place.saturating_add(1),
                problem: Problem::NoDevice(Text::new(alloc)),
            })?);
        }
    }
    Ok(())
}

/// The problem is such a path.
pub fn is_top(problem: &Problem) -> bool {
    match problem {
        Problem::NoDevice(name) => name.as_bytes().is_empty(),
        _ => false,
    }
}

/// Because of a problem a run does not run the script, unless it is lenient; of such a path this is so where a folder is shared.
pub fn is_refused(problem: &Problem) -> bool {
    problem.is_refused() || is_top(problem)
}
