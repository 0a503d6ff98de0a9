//! `--check`: scripts are looked at, and those that they call, and nothing runs.

use crate::called::{Called, Found, called_bytes};
use crate::faults::Fault;
use crate::given_script::{given_bytes, mend};
use crate::inspection_lines::{Lines, ScriptReport, typed_lines};
use crate::missing_devices::Devices;
use crate::refusals::is_struck;
use crate::status::Status;
use crate::top_paths::push_top;
use ados_check::{Finding, Problem, inspect, merge_returns, new_devices};
use ados_text::{NoMemory, Text, lines_of};
use ados_trace::escaped;
use ados_transfer::TransferFault;
use execute_options::Options;
use std::alloc::Global;
use std::fs;
use std::rt::{Env, Files};
use std::time::Clock;

// At most this many scripts are looked at.
const SCRIPTS: usize = 1024;

// The scripts that are looked at, and what is known of others.
#[derive(Drop)]
struct Inspector<'a> {
    options: &'a Options<'a>,
    called: Called<'a>,
    // The lines that are typed before a script.
    typed: Vec<Text>,
    // Those that were found so far.
    scripts: Vec<Script>,
    // The devices that they find.
    devices: Devices,
    // What was found in them, which is told at the end: a script that is called may assign a device for its caller.
    reports: Vec<ScriptReport>,
}

// A script that is looked at.
#[derive(Drop)]
struct Script {
    path: String,
    // The path without links.
    whole: String,
    // It is one of the command line, which is mended before it runs; another one is called, and stays as it is. A file may be both.
    is_given: bool,
}

/// Writes a line on standard output for each thing that is found in the scripts of the command line and in those that they call;
/// gives `Wrong` if there is an error, otherwise `Done`.
pub fn inspect_all<R: Env + AllocGlobal + Files + Print + Clone + Drop + Clock>(
    rt: &R,
    options: &Options<'_>,
) -> Result<Status, Fault> {
    let mut inspector = Inspector::of(rt, options)?;
    inspector.inspect(rt)
}

impl<'a> Inspector<'a> {
    // One that has looked at nothing.
    fn of<R: Env + AllocGlobal + Files + Clone + Drop + Clock>(
        rt: &R,
        options: &'a Options<'a>,
    ) -> Result<Inspector<'a>, Fault> {
        let called = Called::of(rt, options)?;
        let typed = typed_lines(rt.alloc(), options)?;
        let devices = Devices::of(rt, options, &typed)?;
        Ok(Inspector {
            options,
            called,
            typed,
            scripts: Vec::new(rt.alloc()),
            devices,
            reports: Vec::new(rt.alloc()),
        })
    }

    // Looks at all scripts, and tells what was found, also in those before one that can't be read; `Wrong` if there is an error.
    fn inspect<R: AllocGlobal + Files + Print + Clone + Drop>(
        &mut self,
        rt: &R,
    ) -> Result<Status, Fault> {
        self.add_given(rt)?;
        let looked = self.look_at_all(rt);
        let status = self.tell_all(rt)?;
        looked?;
        Ok(status)
    }

    // The scripts of the command line are looked at.
    fn add_given<R: AllocGlobal + Files>(&mut self, rt: &R) -> Result<(), Fault> {
        let options = self.options;
        self.add(rt, options.script, true)?;
        for path in &options.args {
            self.add(rt, path, true)?;
        }
        Ok(())
    }

    // Tells what was found; `Wrong` if there is an error.
    fn tell_all<R: AllocGlobal + Print>(&self, rt: &R) -> Result<Status, Fault> {
        let mut lines = Lines::of(rt.alloc(), self.options, &self.typed, &self.devices);
        lines.tell_all(rt, &self.reports)
    }

    // Looks at all scripts, and at those that they call.
    fn look_at_all<R: AllocGlobal + Files + Clone + Drop>(&mut self, rt: &R) -> Result<(), Fault> {
        for place in 0..SCRIPTS {
            let Some(script) = self.scripts.get(place) else {
                break;
            };
            let is_given = script.is_given;
            let path = String::from_str(rt.alloc(), script.path.as_str())?;
            self.look_at(rt, path, is_given)?;
        }
        Ok(())
    }

    // A script at this path is looked at too, once as one of the command line and once as one that is called.
    fn add<R: AllocGlobal + Files>(
        &mut self,
        rt: &R,
        path: &str,
        is_given: bool,
    ) -> Result<(), Fault> {
        let whole = match fs::canonicalize(rt, path) {
            Ok(whole) => String::from_str(rt.alloc(), whole.as_path().as_str())?,
            Err(_) => String::from_str(rt.alloc(), path)?,
        };
        let is_there = self.scripts.iter().any(|script| script.is_given == is_given
            && script.whole == whole);
        if !is_there {
            let path = String::from_str(rt.alloc(), path)?;
            self.scripts.push(Script {
                path,
                whole,
                is_given,
            })?;
        }
        Ok(())
    }

    // Looks at a script, if it can be read.
    fn look_at<R: AllocGlobal + Files + Clone + Drop>(
        &mut self,
        rt: &R,
        path: String,
        is_given: bool,
    ) -> Result<(), Fault> {
        let Some(found) = self.findings(rt, path.as_str(), is_given)? else {
            return Ok(());
        };
        let may_strike = is_given && is_struck(&found);
        let caller = is_given.then_some(path.as_str());
        let found = self.missed(rt, found, caller)?;
        self.reports.push(ScriptReport {
            path,
            is_given,
            may_strike,
            unread: None,
            found,
        })?;
        Ok(())
    }

    // What is found in a script, if it can be read.
    fn findings<R: AllocGlobal + Files>(
        &mut self,
        rt: &R,
        path: &str,
        is_given: bool,
    ) -> Result<Option<Vec<Finding>>, Fault> {
        let Some(mut script) = self.script_at(rt, path, is_given)? else {
            return Ok(None);
        };
        let mut found = if is_given {
            mend(rt.alloc(), self.options, &mut script)?
        } else {
            Vec::new(rt.alloc())
        };
        self.push_problems(rt.alloc(), &script, is_given, &mut found)?;
        Ok(Some(found))
    }

    // Those of the findings that miss nothing which is there after all; what they call is looked at too.
    fn missed<R: AllocGlobal + Files + Clone + Drop>(
        &mut self,
        rt: &R,
        found: Vec<Finding>,
        caller: Option<&str>,
    ) -> Result<Vec<Finding>, Fault> {
        let mut missed = Vec::new(rt.alloc());
        for finding in found {
            if !self.is_known(rt, &finding.problem, caller)? {
                missed.push(finding)?;
            }
        }
        Ok(missed)
    }

    // Adds what is found in the lines of a script, in their order.
    fn push_problems(
        &mut self,
        alloc: Global,
        script: &[u8],
        is_given: bool,
        found: &mut Vec<Finding>,
    ) -> Result<(), NoMemory> {
        for finding in inspect(alloc, self.options.dialect, &self.typed, script)? {
            found.push(finding)?;
        }
        self.push_devices(alloc, script, is_given, found)?;
        merge_returns(found);
        found.sort_by(|a, b| a.line.cmp(&b.line))?;
        Ok(())
    }

    // Adds the devices that nobody may have, and a path that begins with a colon; the devices that its lines assign are known from then on.
    fn push_devices(
        &mut self,
        alloc: Global,
        script: &[u8],
        is_given: bool,
        found: &mut Vec<Finding>,
    ) -> Result<(), NoMemory> {
        let lines = lines_of(alloc, script)?;
        self.devices.add(lines.as_slice(), is_given)?;
        for finding in new_devices(alloc, self.options.dialect, lines.as_slice())? {
            found.push(finding)?;
        }
        if !self.options.share.is_empty() {
            push_top(alloc, self.options.dialect, lines.as_slice(), found)?;
        }
        Ok(())
    }

    // A script as the Shell has it: a carriage return at the end of a line is taken off those of the command line alone. One that is called
    // and can't be read is told of, and passed over.
    fn script_at<R: AllocGlobal + Files>(
        &mut self,
        rt: &R,
        path: &str,
        is_given: bool,
    ) -> Result<Option<Vec<u8>>, Fault> {
        let limits = self.options.mirror.limits;
        if is_given {
            return Ok(Some(given_bytes(rt, limits, path)?));
        }
        match called_bytes(rt, limits, path) {
            Ok(script) => Ok(Some(script)),
            Err(TransferFault::NoMemory) => Err(Fault::Memory),
            Err(fault) => {
                let line = format!(in rt.alloc(); "{path}:1: note: {fault}")?;
                self.reports.push(ScriptReport {
                    path: String::from_str(rt.alloc(), path)?,
                    is_given,
                    may_strike: false,
                    unread: Some(escaped(rt.alloc(), &line)?),
                    found: Vec::new(rt.alloc()),
                })?;
                Ok(None)
            }
        }
    }

    // What a problem misses is there after all; a script is looked at then. `caller` is the script's path if it is one of the command line.
    fn is_known<R: AllocGlobal + Files + Clone + Drop>(
        &mut self,
        rt: &R,
        problem: &Problem,
        caller: Option<&str>,
    ) -> Result<bool, Fault> {
        let found = match problem {
            Problem::UnknownCommand(word) => self.called.find_command(rt, word)?,
            Problem::NoScript(name) => self.called.find_script(rt, name, caller)?,
            _ => Found::Nothing,
        };
        match found {
            Found::Script(path) => {
                self.add(rt, path.as_str(), false)?;
                Ok(true)
            }
            Found::Other => Ok(true),
            Found::Nothing => Ok(false),
        }
    }
}
