//! The exit status of a run, and the lines on where the scripts stand when it has to stop.
ghost use Rattle.std.specs.Prelude.{◌≡◌, ◌≢◌, IfErr, IfOk};
ghost use Rattle.amishell_execute.specs.{Status.{number_of, status_of_fault, status_of_run}, declared.faults.Fault.TheVariants.{Memory}};

use crate::ends::with_text;
use crate::faults::{Fault, report};
use crate::origins::Origins;
use crate::status::Status;
use ados_flow::Frame;
use ados_launch::End;
use ados_text::{Code, NoMemory};
use ados_trace::{ScriptNames, script_name};
use ados_world::World;
use execute_options::Options;
use std::io::Eprint;

/// The exit status of a run. At a limit, and if a script is not run, the lines say where the scripts stand, and one tells a code that is no
/// exit status; `Memory` if there was none for them.
pub fn status_after<R: AllocGlobal + Eprint>(
    rt: &R,
    options: &Options<'_>,
    world: &World,
    origins: &Origins<'_>,
    ended: Result<End, Fault>,
) -> Result<Status, Fault>
    ensures status { IfOk result (λ status. number_of status ≡ status_of_run options.now.least ended) }
    ensures fault { IfErr result (λ fault. fault ≢ Memory → status_of_fault fault ≡ status_of_run options.now.least ended) }
{
    match ended {
        Ok(end) => {
            let status = Status::of_code(end.code, options.least);
            if matches!(status, Status::Failed) {
                tell_code(rt, end.code)?;
            }
            Ok(status)
        }
        Err(fault) => {
            let status = fault.status();
            if matches!(status, Status::Limit)
                || matches!(
                    fault,
                    Fault::NotRun(..) | Fault::NotCalled(..) | Fault::NothingRun(..)
                )
            {
                tell_stop(rt, options, world, origins, fault)?;
                Ok(status)
            } else {
                Err(fault)
            }
        }
    }
}

// Tells the code of a script that is no exit status.
fn tell_code<R: AllocGlobal + Eprint>(rt: &R, code: Code) -> Result<(), NoMemory> {
    let Code(number) = code;
    let line = format!(in rt.alloc(); "the script's code was {number}: no exit status")?;
    report(rt, &line);
    Ok(())
}

// Tells why the scripts go no further, and where they stand.
fn tell_stop<R: AllocGlobal + Eprint>(
    rt: &R,
    options: &Options<'_>,
    world: &World,
    origins: &Origins<'_>,
    why: Fault,
) -> Result<(), NoMemory> {
    let why = match &why {
        Fault::Drive(_) => Fault::Turns(options.turns),
        _ => why,
    };
    if options.quiet || !tell_stands(rt, world, origins, &why)? {
        report(rt, &why);
    }
    Ok(())
}

// Tells for each script that runs, the newest of a shell first, in which line it stands, and why it goes no further; gives whether
// one runs. One that was to call another stands in the line that calls it.
fn tell_stands<R: AllocGlobal + Eprint>(
    rt: &R,
    world: &World,
    origins: &Origins<'_>,
    why: &Fault,
) -> Result<bool, NoMemory> {
    let caller = caller_of(why);
    let mut is_told = false;
    for number in 1..=20 {
        let frames = match world.shell(number) {
            Some(shell) => shell.frames(),
            None => &[],
        };
        for (older, frame) in frames.iter().rev().enumerate() {
            let line = if older == 0 && number == caller {
                frame.position().saturating_add(1)
            } else {
                line_of(frame)
            };
            is_told |= tell_stand(rt, frame, line, origins, why)?;
        }
    }
    Ok(is_told)
}

// The number of the shell whose next line calls a script that is not run; or else 0.
fn caller_of(why: &Fault) -> u8 {
    match why {
        Fault::NotCalled(caller, _) => *caller,
        Fault::NothingRun(caller, _) => caller.unwrap_or(0),
        _ => 0,
    }
}

// The line in which the command of a frame is, if it is a script that has begun; or else 0.
fn line_of(frame: &Frame) -> usize {
    match frame.script_line() {
        Some((_, line)) => line,
        None => 0,
    }
}

// Tells that a frame stands in this line, if it is a script that has begun; gives whether it is.
fn tell_stand<R: AllocGlobal + Eprint>(
    rt: &R,
    frame: &Frame,
    line: usize,
    origins: &Origins<'_>,
    why: &Fault,
) -> Result<bool, NoMemory> {
    let (Some(name), Some((script, _))) = (script_name(frame), frame.script_line()) else {
        return Ok(false);
    };
    if line == 0 {
        return Ok(false);
    }
    let name = origins.name(name)?;
    let told = format!(in rt.alloc(); "{name}: line {line}: {why}")?;
    report(rt, &with_text(rt.alloc(), told, script.line(line))?);
    Ok(true)
}
