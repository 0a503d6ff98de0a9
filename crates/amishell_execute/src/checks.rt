//! The check of each script before its first line is taken: one with a line that must not be run as it is does not run.
ghost use Rattle.std.specs.Prelude.{◌≡◌, None, IfErr, IfOk};
ghost use Rattle.amishell_execute.specs.Playing.{drive_fault_of};

use crate::callees::{calls_by_name, refused_callee};
use crate::faults::Fault;
use crate::origins::Origins;
use crate::refusals::{refusal_of, report_all, strike_mends};
use crate::script_turn::ScriptTurn;
use crate::top_paths::push_top;
use ados_check::{Finding, check, merge_returns};
use ados_launch::Next;
use ados_ram::Place;
use ados_text::{NoMemory, Text};
use ados_trace::ScriptNames;
use ados_world::World;
use std::alloc::Global;
use std::io::Eprint;

/// How the scripts of a run are checked.
#[derive(Drop)]
pub struct Checks<'a> {
    is_lenient: bool,
    // The full path of the script of the command line.
    script: Text,
    // By which paths the scripts are named.
    origins: &'a Origins<'a>,
    // The full paths of the scripts of which a harmless problem was reported, or with `--lenient` any.
    reported: Vec<Text>,
    // The shells in which a frame began, and which had no turn since.
    begun: Vec<u8>,
    // How often the script of the command line began.
    runs: usize,
    // A script that began calls another one by a plain name.
    has_calls: bool,
    // A script goes on after it could not call another one, which has a bad directive.
    has_lost_call: bool,
}

impl<'a> Checks<'a> {
    /// The checks of scripts with these names; the script of the command line is at this place.
    pub fn new(
        is_lenient: bool,
        origins: &'a Origins<'a>,
        script: &Place,
    ) -> Result<Checks<'a>, NoMemory> {
        let alloc = origins.alloc;
        let mut reported = Vec::new(alloc);
        let script = script.path(alloc)?;
        if is_lenient {
            // What is found in it was reported before anything ran.
            reported.push(script.copy()?)?;
        }
        Ok(Checks {
            is_lenient,
            script,
            origins,
            reported,
            begun: Vec::new(alloc),
            runs: 0,
            has_calls: false,
            has_lost_call: false,
        })
    }

    /// A frame began in this shell.
    pub fn add_begun(&mut self, number: u8) -> Result<(), NoMemory> {
        self.begun.push(number)?;
        Ok(())
    }

    /// A script goes on after it could not call another one, which has a bad directive: with `--lenient` it may.
    pub fn note_lost_call(&mut self) {
        self.has_lost_call = !self.is_lenient;
    }

    /// A frame began of which no line was taken yet, a line may call a script, or one could not be called.
    pub fn are_due(&self) -> bool {
        self.has_calls || self.has_lost_call || !self.begun.is_empty()
    }

    /// Before this event something may be told.
    #[inline(never)]
    pub fn may_tell(&self, world: &World, next: Next) -> bool {
        if self.has_lost_call || !self.begun.is_empty() {
            return true;
        }
        let Next::Turn(number) = next else {
            return false;
        };
        ScriptTurn::of(world, number)
            .and_then(|turn| turn.line())
            .is_some_and(calls_by_name)
    }

    /// Before an event, while checks are due: if a shell is to take the first line of a script, all lines of that script are checked,
    /// with its arguments in them. If a line calls a script that would not begin, the lines of that one are.
    ///
    /// `NotRun` if a line of the script must not be run as it is, or a call was lost, `NotCalled` if a line of the called script must not,
    /// and `NothingRun` if no command of the script of the command line returned before. With `--lenient` the first is only reported, once
    /// for each script.
    pub fn attend<R: AllocGlobal + Eprint>(
        &mut self,
        rt: &R,
        world: &World,
        next: Next,
    ) -> Result<(), Fault>
        ensures { IfErr result (λ why. drive_fault_of why ≡ None) }
    {
        if self.has_lost_call {
            return Err(lost_call(rt.alloc())?);
        }
        let Next::Turn(number) = next else {
            return Ok(());
        };
        self.begun.retain(|begun| *begun != number);
        let Some(turn) = ScriptTurn::of(world, number) else {
            return Ok(());
        };
        if turn.is_first {
            self.check_frame(rt, world, &turn)?;
        }
        self.check_call(rt, world, &turn)?;
        self.note(&turn);
        Ok(())
    }

    // A line of a script is taken.
    fn note(&mut self, turn: &ScriptTurn<'_>) {
        if !turn.is_first {
            return;
        }
        if *turn.name == self.script {
            self.runs = self.runs.saturating_add(1);
        }
        self.has_calls = self.has_calls
            || !self.is_lenient && turn.frame.further().iter().any(calls_by_name);
    }

    // Checks the lines of a script that begins in a shell.
    fn check_frame<R: AllocGlobal + Eprint>(
        &mut self,
        rt: &R,
        world: &World,
        turn: &ScriptTurn<'_>,
    ) -> Result<(), Fault>
        ensures { IfErr result (λ why. drive_fault_of why ≡ None) }
    {
        let alloc = rt.alloc();
        let name = turn.name;
        let bytes = turn.bytes(alloc, world)?;
        let found = self.problems(world, turn, &bytes)?;
        if found.is_empty() {
            return Ok(());
        }
        let is_new = self.is_first_report(name)?;
        if self.is_lenient && !is_new {
            return Ok(());
        }
        let shown = self.origins.name(name)?;
        if report_all(rt, shown.as_str(), &found, is_new)? && !self.is_lenient {
            let is_struck = *name == self.script
                && strike_mends(alloc, world.dialect(), &found, &bytes)?;
            let refusal = format!(in alloc; "{shown} {}", refusal_of(is_struck))?;
            return Err(self.not_run(turn, refusal));
        }
        Ok(())
    }

    // What is found in the lines of a script that begins in a shell, by these bytes of its file.
    fn problems(
        &self,
        world: &World,
        turn: &ScriptTurn<'_>,
        bytes: &[u8],
    ) -> Result<Vec<Finding>, NoMemory> {
        let alloc = self.origins.alloc;
        let (dialect, lines) = (world.dialect(), turn.frame.further());
        let aliases = &turn.shell.settings().aliases;
        let mut found = check(alloc, dialect, aliases, lines, bytes)?;
        if self.origins.has_shares() {
            push_top(alloc, dialect, lines, &mut found)?;
        }
        if found.is_empty() {
            return Ok(found);
        }
        if !prints(alloc, world, "Echo")? || !prints(alloc, world, "Ask")? {
            for one in &mut found {
                one.problem.refuse();
            }
        }
        merge_returns(&mut found);
        Ok(found)
    }

    // Checks the script that the line which is taken calls by name, if it would not begin.
    fn check_call<R: AllocGlobal + Eprint>(
        &self,
        rt: &R,
        world: &World,
        turn: &ScriptTurn<'_>,
    ) -> Result<(), Fault>
        ensures { IfErr result (λ why. drive_fault_of why ≡ None) }
    {
        if self.is_lenient {
            return Ok(());
        }
        let Some(line) = turn.line() else {
            return Ok(());
        };
        let Some(callee) = refused_callee(rt.alloc(), world, turn.shell, line)? else {
            return Ok(());
        };
        let shown = self.origins.name(&callee.name)?;
        let _ = report_all(rt, shown.as_str(), &callee.found, true)?;
        let refusal = format!(in rt.alloc(); "{shown} is not run, since it has a bad directive")?;
        Err(self.not_called(turn, refusal))
    }

    // The fault of a script that is not run.
    fn not_run(&self, turn: &ScriptTurn<'_>, refusal: String) -> Fault
        ensures { drive_fault_of result ≡ None }
    {
        if self.is_nothing_done(turn) {
            Fault::NothingRun(None, refusal)
        } else {
            Fault::NotRun(refusal)
        }
    }

    // The fault of a script that is not called by the line which is taken.
    fn not_called(&self, turn: &ScriptTurn<'_>, refusal: String) -> Fault
        ensures { drive_fault_of result ≡ None }
    {
        let caller = turn.shell.number();
        if self.is_nothing_done(turn) {
            Fault::NothingRun(Some(caller), refusal)
        } else {
            Fault::NotCalled(caller, refusal)
        }
    }

    // This is the script of the command line, which begins for the first time, and no command of it has returned.
    fn is_nothing_done(&self, turn: &ScriptTurn<'_>) -> bool {
        let runs = if turn.is_first { 0 } else { 1 };
        *turn.name == self.script && self.runs == runs && turn.frame.last_line() == 0
    }

    // Problems of this script were not reported yet; from now on they were.
    fn is_first_report(&mut self, name: &Text) -> Result<bool, NoMemory> {
        if self.reported.contains(name) {
            return Ok(false);
        }
        self.reported.push(name.copy()?)?;
        Ok(true)
    }
}

// The fault of a script that was called, and has a bad directive.
fn lost_call(alloc: Global) -> Result<Fault, NoMemory>
    ensures { IfOk result (λ fault. drive_fault_of fault ≡ None) }
{
    let why = String::from_str(
        alloc,
        "a script was called that has a bad directive (--lenient goes on)",
    )?;
    Ok(Fault::NotRun(why))
}

// The internal command of this name is the one that is found under it: it was not taken off the resident list, and no entry has its name.
fn prints(alloc: Global, world: &World, name: &str) -> Result<bool, NoMemory> {
    let name = Text::from_bytes(alloc, name.as_bytes())?;
    let residents = world.residents();
    let is_enabled = residents
        .internal(&name)
        .is_some_and(|internal| !internal.is_disabled);
    Ok(is_enabled && residents.find(&name).is_none())
}
