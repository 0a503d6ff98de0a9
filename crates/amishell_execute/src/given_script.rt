//! The script of the command line, as it is brought in.

use crate::faults::{Fault, unread_script};
use crate::refusals::report_all;
use ados_check::{Finding, bad_directive, check, mark, mark_printed, strike};
use ados_ram::Limits;
use ados_text::{NoMemory, lines_of};
use ados_transfer::read_script;
use ados_vars::Aliases;
use execute_options::Options;
use std::alloc::Global;
use std::io::Eprint;
use std::rt::Files;

/// The bytes of the script of the command line as it is brought in. Where Echo or Ask prints a byte above 127 it has `_`, which no
/// pattern has, and the first such line is reported; so is a bad directive. With `--lenient` all that is found is reported, and each
/// such byte is `_`.
pub fn read_checked<R: AllocGlobal + Files + Eprint>(
    rt: &R,
    options: &Options<'_>,
) -> Result<Vec<u8>, Fault> {
    let alloc = rt.alloc();
    let mut script = given_bytes(rt, options.mirror.limits, options.script)?;
    let printed = mend(alloc, options, &mut script)?;
    let _ = report_all(rt, options.script, &printed, true)?;
    if let Some(bad) = bad_directive(alloc, &script)? {
        let _ = report_all(rt, options.script, &[bad], true)?;
    }
    if options.lenient {
        let lines = lines_of(alloc, &script)?;
        let aliases = Aliases::new(alloc);
        let found = check(alloc, options.dialect, &aliases, lines.as_slice(), &script)?;
        let _ = report_all(rt, options.script, &found, true)?;
        mark(&mut script);
    }
    Ok(script)
}

/// The bytes of a script of the command line, as the Shell reads it.
pub fn given_bytes<R: AllocGlobal + Files>(
    rt: &R,
    limits: Limits,
    path: &str,
) -> Result<Vec<u8>, Fault> {
    match read_script(rt, limits, path) {
        Ok(script) => Ok(script),
        Err(fault) => Err(unread_script(rt, fault)),
    }
}

/// Does to the bytes of a script of the command line what is done to them before it runs; gives what is found of those that it prints.
pub fn mend(
    alloc: Global,
    options: &Options<'_>,
    script: &mut [u8],
) -> Result<Vec<Finding>, NoMemory> {
    if options.ascii_marks {
        mark(script);
    }
    if options.strike {
        strike(alloc, options.dialect, script)?;
    }
    mark_printed(alloc, script)
}
