//! The lines of `--check`: what each finding is for a run, and how it is told.

use crate::faults::Fault;
use crate::missing_devices::Devices;
use crate::refusals::refusal_of;
use crate::status::Status;
use crate::top_paths::is_refused;
use ados_check::{Finding, Problem, may_make_alias};
use ados_text::{NoMemory, Text};
use ados_trace::escaped;
use execute_options::Options;
use std::alloc::Global;
use std::collections::BTreeSet;
use std::io;
use std::io::Write;

/// What was found in a script.
#[derive(Drop)]
pub struct ScriptReport {
    /// The script's path.
    pub path: String,
    /// It is one of the command line.
    pub is_given: bool,
    /// What is left out is struck where that is wanted.
    pub may_strike: bool,
    /// The line that is told of one that can't be read.
    pub unread: Option<String>,
    /// What was found in its lines.
    pub found: Vec<Finding>,
}

// What a finding is.
#[derive(Clone, Copy)]
enum Verdict {
    Note,
    Error,
    // The script is not run because of it, as this text says.
    Refusal(&'static str),
}

/// The lines of a check.
#[derive(Drop)]
pub struct Lines<'a> {
    options: &'a Options<'a>,
    // The lines that are typed before a script.
    typed: &'a [Text],
    // The devices that scripts find.
    devices: &'a Devices,
    // The lines that were written.
    told: BTreeSet<String>,
}

impl<'a> Lines<'a> {
    /// None so far.
    pub fn of(
        alloc: Global,
        options: &'a Options<'a>,
        typed: &'a [Text],
        devices: &'a Devices,
    ) -> Lines<'a> {
        Lines {
            options,
            typed,
            devices,
            told: BTreeSet::new(alloc),
        }
    }

    /// Tells what was found in all scripts; `Wrong` if there is an error.
    pub fn tell_all<R: AllocGlobal + Print>(
        &mut self,
        rt: &R,
        reports: &[ScriptReport],
    ) -> Result<Status, Fault> {
        let mut status = Status::Done;
        for script in reports {
            if let Some(line) = &script.unread {
                self.write_line(rt, String::from_str(rt.alloc(), line.as_str())?)?;
            }
            for finding in &script.found {
                if self.devices.has(finding, script.is_given)? {
                    continue;
                }
                let verdict = self.verdict(rt.alloc(), &finding.problem, script.may_strike)?;
                self.tell(rt, script.path.as_str(), finding, verdict)?;
                if !matches!(verdict, Verdict::Note) {
                    status = Status::Wrong;
                }
            }
        }
        Ok(status)
    }

    // What a problem is in a run: because of some the script is not run, unless the run is lenient or an alias may be meant.
    fn verdict(
        &self,
        alloc: Global,
        problem: &Problem,
        may_strike: bool,
    ) -> Result<Verdict, NoMemory> {
        let is_refused = is_refused(problem);
        if is_refused && (self.options.lenient || self.may_be_alias(alloc, problem)?) {
            return Ok(Verdict::Note);
        }
        Ok(if problem.is_error() {
            Verdict::Error
        } else if is_refused {
            Verdict::Refusal(refusal_of(may_strike))
        } else {
            Verdict::Note
        })
    }

    // A typed line may make the command with an option left out an alias, which is another command then.
    fn may_be_alias(&self, alloc: Global, problem: &Problem) -> Result<bool, NoMemory> {
        match problem.command_left_out() {
            Some(command) => may_make_alias(alloc, self.typed, command.as_bytes()),
            None => Ok(false),
        }
    }

    // Writes the line of a finding, as a compiler does.
    fn tell<R: AllocGlobal + Print>(
        &mut self,
        rt: &R,
        path: &str,
        finding: &Finding,
        verdict: Verdict,
    ) -> Result<(), Fault> {
        let kind = match verdict {
            Verdict::Note => "note",
            Verdict::Error | Verdict::Refusal(_) => "error",
        };
        let line = format!(in rt.alloc(); "{path}:{}: {kind}: {}", finding.line, finding.problem)?;
        // A terminal obeys control characters, and a newline would begin another line.
        let mut line = escaped(rt.alloc(), &line)?;
        if let Verdict::Refusal(refusal) = verdict {
            line.push_str(": the script ")?;
            line.push_str(refusal)?;
        }
        self.write_line(rt, line)
    }

    // Writes a line, once: of a script that is looked at twice most of it is said twice.
    fn write_line<R: AllocGlobal + Print>(&mut self, rt: &R, line: String) -> Result<(), Fault> {
        if self.told.contains(line.as_str()) {
            return Ok(());
        }
        let whole = format!(in rt.alloc(); "{line}\n")?;
        if io::writer(rt).write_all(whole.as_bytes()).is_err() {
            return Err(Fault::Write);
        }
        self.told.insert(line)?;
        Ok(())
    }
}

/// The lines that are typed before a script.
pub fn typed_lines(alloc: Global, options: &Options<'_>) -> Result<Vec<Text>, NoMemory> {
    let mut lines = Vec::new(alloc);
    for line in &options.typed {
        lines.push(Text::from_bytes(alloc, line.as_bytes())?)?;
    }
    Ok(lines)
}
