// A line that runs alone, in a shell that is opened for it.
ghost use Rattle.std.specs.Prelude.{◌≡◌, ◌<◌, ◌≤◌, ◌++◌, List, length, None, true, is_some, IfErr, IfSome, OnOk, OnErr};
ghost use Rattle.ados_machine.specs.{Numbers.{free_number}, World.{numbered_shell}};
ghost use Rattle.ados_world.specs.Opened.{opening_fault};
ghost use Rattle.ados_shell.specs.Drafts.{out_of};
ghost use Rattle.ados_launcher.specs.declared.calls.Call.{Call};
ghost use Rattle.ados_launch.specs.{Agreement.{Agrees}, Alone.{AgreesAfterOpening, AgreesOnceTaken, EndedAs, IfEnded, IfRunning, IfUnopened, IsUnopened, IsUntaken, RunsOn, LineProgress, TakesNext, UnopenedReason}};

use crate::asks::ask;
use crate::events::give;
use ados_launcher::Launcher;
use ados_text::{Octets, Text};
use ados_world::{Answer, Codes, Draft, Event, Refusal, World};
use std::alloc::{AllocError, Global};
use thiserror::Error;

/// The result of a line that ran alone.
#[derive(Clone, Copy, PartialEq, Eq, Debug)]
pub enum SystemEnd {
    /// Its shell ended, with these last codes.
    Ended(Codes),
    /// No number was free for a shell.
    NoShell,
    /// The shell of this number still runs after the last event that was allowed.
    StillRunning(u8),
}

/// Why a line that ran alone did not go on, and how far it got.
#[derive(Debug, Drop, Error)]
#[error("{refusal}")]
pub struct SystemFault {
    /// Why: one of the refusals for which no shell is opened, or out of memory.
    pub refusal: Refusal,
    /// The shell that was opened, if one was: it has taken the events that are counted, and may have ended with the last
    /// of them; its codes then give the result.
    pub shell: Option<u8>,
    /// How many events were taken.
    pub events: u64,
    /// An answer that the launcher gave and the shell did not take. A step with it goes on.
    pub answer: Option<Answer>,
    /// What the last event printed, if there was no room for it.
    pub unwritten: Octets,
}

impl SystemFault {
    // No shell was opened.
    fn unopened(alloc: Global, refusal: Refusal) -> SystemFault
        ensures shell { result.shell ≡ None }
        ensures refusal { result.refusal ≡ refusal }
        ensures rest { IsUnopened result }
    {
        SystemFault {
            refusal,
            shell: None,
            events: 0,
            answer: None,
            unwritten: Octets::from_vec(Vec::new(alloc)),
        }
    }
}

/// Runs a line alone, in a shell that is opened for it: the shell takes turns and the launcher's answers until it ends, and
/// what it prints is appended to `out`. The other shells take no turn meanwhile.
///
/// `Ended` gives the last codes of the shell, and `NoShell` is the result if all numbers from 2 to 20 are taken. At most `turns`
/// events, turns and answers, are given; if the shell still runs after the last of them the result is `StillRunning`.
/// The launcher is asked for no answer that is not one of these events.
///
/// A line for which no shell is opened is refused with `Over` if no shell is left, then `LineTooLong` for more than 512
/// bytes, then `NoMemory`; the world, the launcher and `out` are then unchanged. If an allocation fails later the fault
/// gives the shell, and holds what would otherwise be lost: the answer to the event for which there was no memory,
/// or the last event's bytes, if `out` had no room for them: there are some then. A shell that still runs goes on by steps
/// of the world: that answer, and then turns and more answers. A child that is open stays open at each return.
///
/// Before the call every child that the launcher lists and that is not open was read to its end and waited for once. The open
/// ones are those that the world reads, no end of whose reads is listed, and those that it waits for, whose end is listed. A
/// new world and a new launcher have none. The same holds after a call, once an answer that was not taken is given.
pub fn system<L: Launcher>(
    alloc: Global,
    world: &mut World,
    line: &Text,
    launcher: &mut L,
    turns: u64,
    out: &mut Vec<u8>,
) -> Result<SystemEnd, SystemFault>
    requires agrees { Agrees world.old (L.calls launcher.old) }

    // The direct meaning of the line, with the launcher's answers, reaches its end after as many events, with these codes,
    // this world and these bytes.
    ensures ended { IfEnded result (EndedAs world.old line.now turns (L.is_full launcher.new) world.new
        out.old.items out.new.items (L.calls launcher.old) (L.calls launcher.new)) }
    // All events were taken, and by the direct meaning one more is due.
    ensures running { IfRunning result (RunsOn world.old line.now turns (L.is_full launcher.new) world.new
        out.old.items out.new.items (L.calls launcher.old) (L.calls launcher.new)) }
    // No shell was opened: no number was free, or there was a fault.
    ensures unopened { IfUnopened result
        (UnopenedReason result (opening_fault world.old line.now) (free_number world.old.shells)) }
    ensures untouched { IfUnopened result
        ((world.new ≡ world.old) × (launcher.new ≡ launcher.old) × (out.new ≡ out.old)) }
    // At a later fault the shell has taken these events, and nothing is lost.
    ensures fault { IfErr result (λ fault. IfSome fault.shell
        (LineProgress world.old line.now turns (L.is_full launcher.new) fault world.new
        out.old.items out.new.items (L.calls launcher.old) (L.calls launcher.new))) }
    // The launcher's list and the world agree again, once an answer that was not taken is given.
    ensures agrees { OnOk result (Agrees world.new (L.calls launcher.new)) }
    ensures agrees_after { IfErr result
        (λ fault. AgreesAfterOpening world.new fault.shell fault.answer (L.calls launcher.new)) }
{
    let number = match world.open_shell(line) {
        Ok(Some(number)) => number,
        Ok(None) => return Ok(SystemEnd::NoShell),
        Err(refusal) => return Err(SystemFault::unopened(alloc, refusal)),
    };
    let mut draft = Draft::new(alloc);
    for events in 0..turns {
        let Some(_) = world.shell(number) else {
            return Ok(SystemEnd::Ended(world.codes(number)));
        };
        if let Err(answer) = next_event(world, launcher, number, &mut draft) {
            return Err(SystemFault {
                refusal: Refusal::NoMemory,
                shell: Some(number),
                events,
                answer,
                unwritten: Octets::from_vec(Vec::new(alloc)),
            });
        }
        if append(out, draft.printed.as_slice()).is_err() {
            return Err(SystemFault {
                refusal: Refusal::NoMemory,
                shell: Some(number),
                events: events + 1,
                answer: None,
                unwritten: draft.into_out().bytes,
            });
        }
    }
    match world.shell(number) {
        None => Ok(SystemEnd::Ended(world.codes(number))),
        Some(_) => Ok(SystemEnd::StillRunning(number)),
    }
}

// Appends what an event printed. If it printed nothing no room is needed.
fn append(out: &mut Vec<u8>, printed: &[u8]) -> Result<(), AllocError>
    ensures grown { OnOk result (out.new.items ≡ out.old.items ++ printed.now) }
    ensures kept { OnErr result (out.new.items ≡ out.old.items) }
    ensures some { OnErr result (0 < length printed.now) }
{
    if printed.is_empty() {
        return Ok(());
    }
    out.extend_from_slice(printed)
}

// Gives a background shell that runs its next event: the launcher's answer to what it waits for, otherwise a turn. The draft
// then holds what the event gives.
//
// An error means out of memory: the world is unchanged, and the answer, if one was asked for, comes with the error.
fn next_event<L: Launcher>(
    world: &mut World,
    launcher: &mut L,
    number: u8,
    draft: &mut Draft,
) -> Result<(), Option<Answer>>
    requires number { 2 ≤ number }
    requires last { number < 21 }
    requires runs { is_some (numbered_shell world.old number) ≡ true }
    requires agrees { Agrees world.old (L.calls launcher.old) }
    ensures event { OnOk result (TakesNext number world.old (L.is_full launcher.new)
        (L.calls launcher.old) world.new (L.calls launcher.new) (out_of draft.new)) }
    ensures err { OnErr result (world.new ≡ world.old) }
    ensures untaken { IfErr result (λ answer. (others : List Call)
        × IsUntaken (L.is_full launcher.new) world.old number answer others
        × (L.calls launcher.new ≡ L.calls launcher.old ++ others)) }
    ensures stays { L.is_full launcher.old ≡ true → L.is_full launcher.new ≡ true }
    ensures agrees { OnOk result (Agrees world.new (L.calls launcher.new)) }
    ensures agrees_after { IfErr result
        (λ answer. AgreesOnceTaken world.new number answer (L.calls launcher.new)) }
{
    let Some(request) = world.pending(number) else {
        return match give(world, &Event::Turn(number), draft) {
            Ok(()) => Ok(()),
            Err(_) => Err(None),
        };
    };
    let event = Event::Answer(number, ask(launcher, request));
    match (give(world, &event, draft), event) {
        (Ok(()), _) => Ok(()),
        (Err(_), Event::Answer(_, answer)) => Err(Some(answer)),
        (Err(_), _) => unreachable!(),
    }
}
