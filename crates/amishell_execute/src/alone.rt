//! Lines that run alone: those that bring in what is in a shared folder.
ghost use Rattle.std.specs.Prelude.{◌≡◌, IsOk, OnOk};
ghost use Rattle.ados_launch.specs.{Agreement.{Agrees, IsOpenTable}, Deeds.{RunsLines}};

use crate::faults::Fault;
use ados_launch::{Launcher, Session, SystemEnd, SystemFault, system};
use ados_text::Text;
use ados_world::World;
use std::alloc::Global;

// The most events that a line takes which brings something in: the longest file comes in 16,384 pieces.
const EVENTS: u64 = 16_500;

/// Runs lines in order, each alone in a shell of its own.
pub fn run_lines<L: Launcher>(
    alloc: Global,
    world: &mut World,
    lines: &[Text],
    launcher: &mut L,
    session: &mut Session<'_>,
) -> Result<(), Fault>
    requires agrees { Agrees world.old (L.calls launcher.old) }
    requires children { IsOpenTable session.old.children (L.calls launcher.old) }
    ensures agrees { OnOk result (Agrees world.new (L.calls launcher.new)) }
    ensures children { IsOpenTable session.new.children (L.calls launcher.new) }
    ensures schedule { session.new.schedule ≡ session.old.schedule }
    ensures held { session.new.held ≡ session.old.held }
    ensures gathered { session.new.gathered ≡ session.old.gathered }
    ensures ran { RunsLines world.old world.new }
{
    for line in lines {
        run_alone(alloc, world, line, launcher, session)?;
    }
    Ok(())
}

// Runs a line alone, whose output is ignored. If no shell is free it is not run. However it ends, the session then knows which
// programs are open.
fn run_alone<L: Launcher>(
    alloc: Global,
    world: &mut World,
    line: &Text,
    launcher: &mut L,
    session: &mut Session<'_>,
) -> Result<(), Fault>
    requires agrees { Agrees world.old (L.calls launcher.old) }
    ensures agrees { OnOk result (Agrees world.new (L.calls launcher.new)) }
    ensures children { IsOpenTable session.new.children (L.calls launcher.new) }
    ensures schedule { session.new.schedule ≡ session.old.schedule }
    ensures held { session.new.held ≡ session.old.held }
    ensures gathered { session.new.gathered ≡ session.old.gathered }
    ensures ran { RunsLines world.old world.new }
{
    let mut printed = Vec::new(alloc);
    let ran = system(alloc, world, line, launcher, EVENTS, &mut printed);
    session.look(world, &ran);
    outcome(&ran)
}

// The result of a line that ran alone.
fn outcome(ran: &Result<SystemEnd, SystemFault>) -> Result<(), Fault>
    ensures { OnOk result (IsOk ran.now) }
{
    match ran {
        Ok(SystemEnd::Ended(_) | SystemEnd::NoShell) => Ok(()),
        Ok(SystemEnd::StillRunning(_)) => Err(Fault::NotBrought),
        Err(_) => Err(Fault::Memory),
    }
}
