// A world that is driven event by event.
ghost use Rattle.std.specs.{Prelude.{◌≡◌, ◌<◌, ◌^◌, ◌-◌, ◌+◌, ◌≤◌, ℕ, List, [], true, false, None, get_or, is_none, option_map, IfOk, OnOk, OnErr, IsErrOf, length}, Io.KnownBytes.{Appends}, Option.{option_copied}};
ghost use Rattle.ados_machine.specs.{FrameEnds.{IsSane}, World.{codes_at, pending_of}};
ghost use Rattle.ados_launch.specs.{Agreement.{Agrees, AreOver, IsOpenTable, WaitsForOpen}, Alone.{AgreesAfterLine}, Gathering.{FailsToWrite, GetsPart, HasGatherResult}, Rounds.{asks_read_or_wait, due_place}, Schedule.{IsInRound, first_schedule_state, next_named, scheduled_next, unless_break}, Session.{moment_of}, Steps.{next_request}};
ghost use Rattle.ados_launcher.specs.declared.calls.Call.{Call};

use crate::alone::{SystemEnd, SystemFault};
use crate::children::{children_after_line, wait_for_open};
use crate::driver::End;
use crate::events::shell_answered;
use crate::faults::{DriveFault, why_stopped};
use crate::gathered::Gathered;
use crate::intake::Intake;
use crate::next::Next;
use crate::schedule::{self, Schedule};
use crate::written::WriteFault;
use crate::{Sink, Source};
use ados_find::Renames;
use ados_launcher::Launcher;
use ados_machine::{BreakAt, EndReport, Request};
use ados_world::World;
use std::alloc::Global;
use std::marker::Model;

/// What [`Drive::run`](crate::Drive::run) does, taken event by event: the schedule, the bytes that were read ahead, and which
/// children of the launcher are open.
///
/// Between two events a caller may look at the world, and run lines alone in it ([`system`](crate::system)).
#[derive(Drop)]
pub struct Session<'a> {
    schedule: Schedule<'a>,
    intake: Intake,
    // what events printed and is not written yet
    gathered: Gathered,
}

impl<'a> Model for Session<'a> {
    ghost use Rattle.std.specs.Prelude.{◌<◌, ◌≤◌, length, option_map};
    ghost use Rattle.ados_launch.specs.Steps.{SessionState};

    ghost Value = { SessionState };

    ghost view = { λ s. record { schedule = s.schedule; held = s.intake.held; children = s.intake.children; reports = s.intake.draft.reports.items; renamed = option_map (λ r. r.value) s.intake.draft.renamed; gathered = s.gathered } };

    ghost invariant = { λ s. (s.schedule.round.place ≤ 61) × (length s.intake.held < 4096) };
}

impl<'a> Session<'a> {
    /// A session with this world begins, with these breaks.
    pub fn new(alloc: Global, world: &World, breaks: &'a [BreakAt]) -> Session<'a>
        ensures schedule { result.schedule ≡ first_schedule_state breaks.now }
        ensures held { result.held ≡ [] }
        ensures gathered { result.gathered ≡ [] }
        ensures children { (k : ℕ) → get_or result.children k false ≡ asks_read_or_wait (pending_of world.now k) }
        ensures sane { IsSane world.now }
    {
        Session {
            schedule: Schedule::new(breaks),
            intake: Intake::new(alloc, world),
            gathered: Gathered::new(alloc),
        }
    }

    /// What comes next; `None` if nothing does, or a break.
    #[tactic(auto, using(crate::proofs::Requests::next_none, crate::proofs::Requests::next_some))]
    pub fn next(&self, world: &World) -> Option<Next>
        requires count { self.now.schedule.taken < 2 ^ 64 - 1 }
        ensures { option_map next_named result ≡ unless_break (scheduled_next self.now.schedule world.now) }
    {
        Some(Next::at(self.schedule.place(world)?))
    }

    /// The scripts that ended at the last event, innermost first.
    pub fn reports(&self) -> &[EndReport]
        ensures { result.now ≡ self.now.reports }
    {
        self.intake.draft.reports.as_slice()
    }

    /// What the last turn renamed, if that was not taken before: where each object was, and where it is.
    pub fn take_renamed(&mut self) -> Option<Box<Renames>>
        ensures result { option_map (λ r. r.value) result ≡ self.old.renamed }
        ensures stays { self.new ≡ record self.old { renamed = None } }
    {
        self.intake.draft.renamed.take()
    }

    /// What the next event asks of the launcher; `None` if it asks nothing, or nothing comes.
    #[tactic(auto, using(crate::proofs::Requests::request_none, crate::proofs::Requests::request_low, crate::proofs::Requests::request_high))]
    pub fn request<'w>(&self, world: &'w World) -> Option<&'w Request>
        requires count { self.now.schedule.taken < 2 ^ 64 - 1 }
        ensures { option_copied result ≡ next_request world.now (scheduled_next self.now.schedule world.now) }
    {
        let place = self.schedule.place(world)?;
        if place < 21 {
            None
        } else {
            world.pending(shell_answered(place))
        }
    }

    /// Takes the event that comes next, or a long line, and gathers what it prints; `false` if nothing comes. What was gathered is
    /// written before anything that may wait, before each event if the writer tells of them, before a fault is returned, and if nothing
    /// comes.
    ///
    /// Each error of [`Drive::run`](crate::Drive::run) except `Turns`. No more events are taken after one; then the open
    /// children are still to be waited for ([`abandon`](Session::abandon)).
    pub fn advance<L: Launcher, S: Source, K: Sink>(
        &mut self,
        world: &mut World,
        launcher: &mut L,
        reader: &mut S,
        writer: &mut K,
    ) -> Result<bool, DriveFault>
        requires reader { S.faults reader.old < 2 ^ 64 - 1 }
        requires writer { K.faults writer.old < 2 ^ 64 - 1 }
        requires count { self.old.schedule.taken < 2 ^ 64 - 1 }
        requires agrees { Agrees world.old (L.calls launcher.old) }
        requires children { IsOpenTable self.old.children (L.calls launcher.old) }
        // What was taken, gathered and written, or why not.
        ensures takes { HasGatherResult self.old self.new
            (moment_of S.left S.faults K.contents K.faults K.stalls L.calls L.is_full world.old reader.old writer.old launcher.old)
            (moment_of S.left S.faults K.contents K.faults K.stalls L.calls L.is_full world.new reader.new writer.new launcher.new)
            result }
        ensures stays { L.is_full launcher.old ≡ true → L.is_full launcher.new ≡ true }
        ensures agrees { OnOk result (Agrees world.new (L.calls launcher.new)) }
        ensures children { IsOpenTable self.new.children (L.calls launcher.new) }
        // What the next step needs.
        ensures count { self.new.schedule.taken ≤ self.old.schedule.taken + 1 }
        ensures in_round { self.new.schedule.round.place ≤ 61 }
        ensures few { length self.new.held < 4096 }
        ensures reads { OnOk result (S.faults reader.new ≡ S.faults reader.old) }
        ensures writes { OnOk result (K.faults writer.new ≡ K.faults writer.old) }
    {
        let Some(next) = self.schedule.next(world) else {
            self.gathered.release(writer)?;
            return Ok(false);
        };
        let is_due = self.intake.is_due_before(next, writer.tells());
        self.gathered.release_if(writer, is_due)?;
        show(writer, world, next);
        if let Err(fault) = self.intake.take(world, launcher, reader, next) {
            self.gathered.release(writer)?;
            return Err(why_stopped(fault));
        }
        writer.heed_ends(self.intake.draft.reports.as_slice());
        self.gathered
            .add(writer, self.intake.draft.printed.as_slice())?;
        self.schedule.pass(next);
        Ok(true)
    }

    /// Writes what is gathered.
    pub fn release<K: Sink>(&mut self, writer: &mut K) -> Result<(), WriteFault>
        requires writer { K.faults writer.old < 2 ^ 64 - 1 }
        ensures none { self.new ≡ record self.old { gathered = [] } }
        ensures written { OnOk result (Appends (K.contents writer.old) (K.contents writer.new) self.old.gathered) }
        ensures honest { OnOk result ((K.faults writer.new ≡ K.faults writer.old) × (K.stalls writer.new ≡ K.stalls writer.old)) }
        ensures part { OnErr result (GetsPart (K.contents writer.old) (K.contents writer.new) self.old.gathered) }
        ensures cause { OnErr result (FailsToWrite (K.faults writer.old) (K.faults writer.new) (K.stalls writer.old) (K.stalls writer.new)) }
        ensures untouched { self.old.gathered ≡ [] → writer.new ≡ writer.old }
    {
        self.gathered.release(writer)
    }

    /// Looks up which children are open after a line ran alone in the world ([`system`](crate::system)), however that ended.
    pub fn look(&mut self, world: &World, ran: &Result<SystemEnd, SystemFault>)
        ensures children { (calls : List Call) → AgreesAfterLine world.now ran.now calls → IsOpenTable self.new.children calls }
        ensures schedule { self.new.schedule ≡ self.old.schedule }
        ensures held { self.new.held ≡ self.old.held }
        ensures reports { self.new.reports ≡ self.old.reports }
        ensures gathered { self.new.gathered ≡ self.old.gathered }
    {
        self.intake.children = children_after_line(world, ran);
    }

    /// The end, if nothing comes any longer; otherwise `Turns`, for a caller that takes no more events.
    pub fn finish(&self, world: &World) -> Result<End, DriveFault>
        ensures end { IfOk result (λ end. (end.code ≡ (codes_at world.now 1).code) × (end.result2 ≡ (codes_at world.now 1).result2)
            × (end.events ≡ self.now.schedule.taken) × (length world.now.shells ≡ 20)) }
        ensures over { OnOk result (is_none (due_place self.now.schedule.round world.now) ≡ true) }
        ensures turns { IsErrOf result DriveFault.Turns → is_none (due_place self.now.schedule.round world.now) ≡ false }
        ensures only { OnErr result (IsErrOf result DriveFault.Turns) }
    {
        if self.schedule.is_over(world) {
            Ok(self.end(world))
        } else {
            Err(DriveFault::Turns)
        }
    }

    /// How the run that leaves this world ended.
    pub fn end(&self, world: &World) -> End
        ensures code { result.code ≡ (codes_at world.now 1).code }
        ensures result2 { result.result2 ≡ (codes_at world.now 1).result2 }
        ensures events { result.events ≡ self.now.schedule.taken }
        ensures shells { length world.now.shells ≡ 20 }
    {
        End::of(world, self.schedule.taken())
    }

    /// Waits for each open child once, in ascending order of number. No event is taken after it.
    pub fn abandon<L: Launcher>(&self, launcher: &mut L)
        requires children { IsOpenTable self.now.children (L.calls launcher.old) }
        ensures over { AreOver (L.calls launcher.new) }
        ensures waits { WaitsForOpen (L.calls launcher.old) (L.calls launcher.new) }
        ensures room { L.is_full launcher.new ≡ L.is_full launcher.old }
    {
        wait_for_open(launcher, &self.intake.children);
    }
}

// Shows the writer what comes next, if it is no break.
fn show<K: Sink>(writer: &mut K, world: &World, next: schedule::Next)
    requires { IsInRound next }
    ensures contents { K.contents writer.new ≡ K.contents writer.old }
    ensures faults { K.faults writer.new ≡ K.faults writer.old }
    ensures stalls { K.stalls writer.new ≡ K.stalls writer.old }
{
    if let schedule::Next::Due(found) = next {
        writer.heed(world, Next::at(found.place));
    }
}
