//! The program: one command script of this machine, run by the Shell of AmigaDOS Release 2 in one command.
#![tactic(auto)]

ghost use Rattle.std.specs.Prelude.{◌≡◌, [], OnOk};
ghost use Rattle.ados_launch.specs.Agreement.{Agrees};
ghost use Rattle.amishell_execute.specs.Status.{exit_status, number_of};

mod alone;
mod beginning;
mod begun;
mod between;
mod called;
mod callees;
mod checks;
mod deadline;
mod delivery;
mod descriptors;
mod due;
mod ending;
mod ends;
mod error_codes;
mod faults;
mod given_script;
mod home;
mod host_faults;
mod hosts;
mod inspection_lines;
mod inspections;
mod launcher;
mod losses;
mod lost_jumps;
mod missing_devices;
mod origins;
mod outcome;
mod pace;
mod play;
mod reader;
mod refusals;
mod script_places;
mod script_turn;
mod share;
mod stands;
mod status;
mod teller;
mod top_paths;
mod trail;
mod unanswered;
mod watched;

use ados_launch::{Counted, End};
use ados_ram::Place;
use ados_text::{NoMemory, Text};
use ados_trace::Traced;
use ados_transfer::{Lines, Plan, bring, bring_script};
use ados_world::World;
use begun::pass_tick;
use checks::Checks;
use deadline::Deadline;
use descriptors::held_descriptors;
use ending::Ending;
use error_codes::{ErrorCode, error_codes};
use execute_options::{Config, Options, Refused, asked_options, given_words, typed_matches};
use faults::{Fault, not_brought, report};
use given_script::read_checked;
use hosts::{hosts_for, world_with};
use inspections::inspect_all;
use losses::Kept;
use origins::Origins;
use play::{Script, play};
use share::Share;
use status::Status;
use std::io::{Eprint, Write};
use std::process::{ExitCode, Processes};
use std::rt::{Env, Files};
use std::time::{Clock, SystemTime};
use std::{fs, io};
use teller::Teller;
use trail::Trail;
use watched::Watched;

fn main(rt: HostRuntime) -> ExitCode {
    let _held = held_descriptors(&rt);
    let done = run(&rt);
    ExitCode::from(settle(&rt, done).number())
}

// The exit status of what was done; a fault is reported.
pub(crate) fn settle<R: AllocGlobal + Eprint>(rt: &R, done: Result<Status, Fault>) -> Status
    ensures { number_of result ≡ exit_status done }
{
    match done {
        Ok(status) => status,
        Err(fault) => {
            report(rt, &fault);
            fault.status()
        }
    }
}

// Does what the words ask for, and gives the exit status.
fn run<R: Env + AllocGlobal + Files + Input + Print + Eprint + Processes + Clone + Drop + Clock>(
    rt: &R,
) -> Result<Status, Fault> {
    let words = given_words(rt)?;
    let typed = match typed_matches(rt.alloc(), &words) {
        Ok(typed) => typed,
        Err(refused) => return answer(rt, refused),
    };
    let config = Config::find(rt, &typed)?;
    match asked_options(rt.alloc(), typed, &config) {
        Ok(options) if options.check => inspect_all(rt, &options),
        Ok(options) => execute(rt, &options),
        Err(refused) => answer(rt, refused),
    }
}

// What follows where the words are not run: the help or the version is written, or there is a fault.
fn answer<R: Print>(rt: &R, refused: Refused) -> Result<Status, Fault> {
    match refused {
        Refused::Help(text) => show(rt, &text),
        Refused::BadLine(reason) => Err(Fault::BadLine(reason)),
        Refused::NoMemory => Err(Fault::Memory),
    }
}

// Writes the help or the version.
fn show<R: Print>(rt: &R, text: &Text) -> Result<Status, Fault> {
    match io::writer(rt).write_all(text.as_bytes()) {
        Ok(()) => Ok(Status::Done),
        Err(_) => Err(Fault::Write),
    }
}

// Runs the script in a new world, and gives the exit status.
#[tactic(auto, using(ados_launch::proofs::NewPair::new_pair))]
fn execute<
    R: Env + AllocGlobal + Files + Input + Print + Eprint + Processes + Clone + Drop + Clock,
>(rt: &R, options: &Options<'_>) -> Result<Status, Fault> {
    let hosts = hosts_for(rt, options)?;
    let mut world = world_with(rt.alloc(), options.dialect, hosts.as_slice())?;
    let errors = error_codes(rt.alloc(), options.errors.as_slice(), hosts.as_slice())?;
    let mut share = opened(rt, options, &mut world)?;
    run_script(rt, options, errors.as_slice(), &mut world, &mut share)
}

// The folders that are shared, if any are.
pub(crate) fn opened<R: Env + AllocGlobal + Files + Clone + Drop + Clock>(
    rt: &R,
    options: &Options<'_>,
    world: &mut World,
) -> Result<Option<Share>, Fault>
    requires agrees { Agrees world.old [] }
    ensures agrees { OnOk result (Agrees world.new []) }
{
    if options.share.is_empty() {
        return Ok(None);
    }
    let share = Share::open(rt, options.share.as_slice(), options.mirror, world)?;
    Ok(Some(share))
}

// Runs the script, takes what is asked for, and gives the exit status.
fn run_script<
    R: Env + AllocGlobal + Files + Input + Print + Eprint + Processes + Clone + Drop + Clock,
>(
    rt: &R,
    options: &Options<'_>,
    errors: &[ErrorCode],
    world: &mut World,
    share: &mut Option<Share>,
) -> Result<Status, Fault>
    requires agrees { Agrees world.old [] }
{
    let begun = SystemTime::now(rt).ok();
    let mut plan = Plan::new(rt.alloc(), options.mirror.limits, world.files())?;
    let place = add_files(rt, options, world, &mut plan)?;
    let lines = lines_for(rt, options, share.as_ref(), &plan, &place)?;
    let origins = origins_of(rt, options, &plan, share.as_ref())?;
    let kept = Kept::new(rt.alloc(), world.files(), plan.planned(), &place)?;
    let script = Script {
        planned: plan.planned(),
        lines: &lines,
        turns: options.turns,
        at_end: options.at_end,
        deadline: Deadline::after(rt, options.seconds),
        errors,
        checks: Checks::new(options.lenient, &origins, &place)?,
        teller: Teller::new(&origins, options.quiet),
        origins: &origins,
    };
    let traced = options.trace.then_some(&origins);
    pass_tick(rt, options, begun);
    let ended = play_watched(rt, world, script, share.as_mut(), traced);
    let ending = Ending {
        options,
        begun,
        origins: &origins,
        kept,
    };
    ending.finish(rt, world, share, ended)
}

// Runs the script. If there are names for the scripts here, each command is told before what it prints.
fn play_watched<R: AllocGlobal + Files + Input + Print + Eprint + Processes + Clone + Drop + Clock>(
    rt: &R,
    world: &mut World,
    script: Script<'_>,
    share: Option<&mut Share>,
    traced: Option<&Origins<'_>>,
) -> Result<End, Fault>
    requires agrees { Agrees world.old [] }
{
    let trail = Trail::new(rt.alloc())?;
    let inner = Counted::new(io::writer(rt));
    match traced {
        Some(origins) => {
            let inner = Traced::new(rt, origins, inner)?;
            let mut writer = Watched { inner, trail };
            play(rt, world, script, share, &mut writer)
        }
        None => {
            let mut writer = Watched { inner, trail };
            play(rt, world, script, share, &mut writer)
        }
    }
}

// By which paths the scripts are named.
pub(crate) fn origins_of<'a, R: AllocGlobal + Files>(
    rt: &R,
    options: &Options<'_>,
    plan: &'a Plan,
    share: Option<&Share>,
) -> Result<Origins<'a>, NoMemory> {
    let mut origins = Origins::new(rt.alloc(), plan.planned());
    if let Some(share) = share {
        origins.add_shares(rt, options.share.as_slice(), share.volumes())?;
    }
    Ok(origins)
}

// Plans what is brought in, the script last, and gives its place.
fn add_files<R: AllocGlobal + Files + Eprint + Clone + Drop>(
    rt: &R,
    options: &Options<'_>,
    world: &World,
    plan: &mut Plan,
) -> Result<Place, Fault> {
    for words in &options.bring {
        if let Err(fault) = bring(rt, world.files(), words, plan) {
            return Err(not_brought(rt, fault));
        }
    }
    for line in plan.lines() {
        report(rt, line);
    }
    let bytes = read_checked(rt, options)?;
    Ok(bring_script(rt, world.files(), options.script, &bytes, plan)?)
}

// The lines of the run.
fn lines_for<R: AllocGlobal>(
    rt: &R,
    options: &Options<'_>,
    share: Option<&Share>,
    plan: &Plan,
    script: &Place,
) -> Result<Lines, Fault> {
    let mut lines = Lines::bringing(rt.alloc(), plan.planned())?;
    if let Some(share) = share {
        lines.all.push(share.change_line(rt.alloc())?)?;
    }
    for line in &options.typed {
        lines.add_typed(rt.alloc(), line)?;
    }
    lines.add_call(rt.alloc(), script, options.args.as_slice(), options.quote)?;
    Ok(lines)
}
