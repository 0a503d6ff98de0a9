//! What is said of what is found in a script and of one that is not run, and whether `--strike` mends it.

use crate::faults::report;
use crate::top_paths::is_refused;
use ados_check::{Finding, check};
use ados_resident::Dialect;
use ados_text::{NoMemory, lines_of};
use ados_vars::Aliases;
use std::alloc::Global;
use std::io::Eprint;

/// What is said of a script that is not run, and how it is run all the same; `--strike` does it too if that mends it.
pub fn refusal_of(is_struck: bool) -> &'static str {
    if is_struck {
        "is not run (--strike or --lenient runs it)"
    } else {
        "is not run (--lenient runs it)"
    }
}

/// With `--strike` the script of the command line in which this was found is run.
pub fn is_struck(found: &[Finding]) -> bool {
    found
        .iter()
        .all(|one| one.problem.is_idle() || !is_refused(&one.problem))
}

/// All that is found in the lines of the script of the command line, which has these bytes, is found in its file too, and `--strike`
/// takes that out: no argument and no alias has a part in it.
pub fn strike_mends(
    alloc: Global,
    dialect: Dialect,
    found: &[Finding],
    bytes: &[u8],
) -> Result<bool, NoMemory> {
    let lines = lines_of(alloc, bytes)?;
    let written = check(
        alloc,
        dialect,
        &Aliases::new(alloc),
        lines.as_slice(),
        bytes,
    )?;
    if found.len() != written.len() {
        return Ok(false);
    }
    for (place, one) in found.iter().enumerate() {
        if !is_same_finding(alloc, one, &written[place])? {
            return Ok(false);
        }
    }
    Ok(is_struck(found))
}

// They say the same of the same line.
fn is_same_finding(alloc: Global, one: &Finding, other: &Finding) -> Result<bool, NoMemory> {
    Ok(format!(in alloc; "{one}")? == format!(in alloc; "{other}")?)
}

/// Reports what was found in a script, but harmless problems only if they are new, all of them in one line; gives whether one was
/// not harmless.
pub fn report_all<R: AllocGlobal + Eprint>(
    rt: &R,
    name: &str,
    found: &[Finding],
    is_new: bool,
) -> Result<bool, NoMemory> {
    let mut is_refused = false;
    let mut is_told = !is_new;
    for one in found {
        let is_harmless = one.problem.is_harmless();
        if !(is_harmless && is_told) {
            let line = format!(in rt.alloc(); "{name}: {one}")?;
            report(rt, &line);
        }
        is_told = is_told || is_harmless;
        is_refused = is_refused || !is_harmless;
    }
    Ok(is_refused)
}
