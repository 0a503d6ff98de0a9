//! Between two events of a run: what comes before the next, and what follows the last.

ghost use Rattle.std.specs.Prelude.{◌≡◌, ◌<◌, ◌^◌, ◌-◌, true, None, is_none, IfErr, OnOk};
ghost use Rattle.ados_launch.specs.{Agreement.{Agrees, IsOpenTable}, Deeds.{RunsLines}};
ghost use Rattle.amishell_execute.specs.{Between.{EndsGathering, GathersOn, writer_view}, Playing.{drive_fault_of}};

use crate::faults::Fault;
use crate::play::Run;
use crate::share::Share;
use crate::trail::{Change, Trail};
use crate::watched::Watched;
use ados_launch::{Session, Sink};
use ados_text::NoMemory;
use ados_world::World;
use std::io::{Eprint, Read};
use std::process::Processes;
use std::rt::Files;
use std::time::Clock;

impl<R: AllocGlobal + Files + Eprint + Processes + Clone + Drop + Clock, I: Read> Run<'_, R, I> {
    // Attends to what comes before an event. What was printed stands before what that may tell, or write to a folder; and it is
    // written if no event is taken.
    #[inline(always)]
    pub fn attend<K: Sink>(
        &mut self,
        world: &mut World,
        session: &mut Session<'_>,
        share: &mut Option<&mut Share>,
        writer: &mut Watched<K>,
    ) -> Result<(), Fault>
        requires writer { K.faults writer.old.inner < 2 ^ 64 - 1 }
        requires count { session.old.schedule.taken < 2 ^ 64 - 1 }
        requires agrees { Agrees world.old self.old.launcher.calls }
        requires children { IsOpenTable session.old.children self.old.launcher.calls }
        ensures agrees { OnOk result (Agrees world.new self.new.launcher.calls) }
        ensures children { IsOpenTable session.new.children self.new.launcher.calls }
        ensures schedule { session.new.schedule ≡ session.old.schedule }
        ensures reader { self.new.reader ≡ self.old.reader }
        ensures ran { RunsLines world.old world.new }
        ensures share { is_none share.new ≡ is_none share.old }
        ensures gathers { OnOk result (GathersOn session.old.gathered session.new.gathered
            (writer_view K.contents K.faults K.stalls writer.old.inner) (writer_view K.contents K.faults K.stalls writer.new.inner)) }
        ensures ends { IfErr result (λ why. EndsGathering (is_none share.old) why session.old.gathered
            (writer_view K.contents K.faults K.stalls writer.old.inner) (writer_view K.contents K.faults K.stalls writer.new.inner)) }
        // Without a shared folder nothing happens but that.
        ensures alone { is_none share.old ≡ true → (world.new ≡ world.old) × (session.new ≡ record session.old { gathered = session.new.gathered })
            × (self.new.launcher ≡ self.old.launcher) }
    {
        if self.may_act(world, session, share) {
            session.release(writer)?;
        }
        match self.act(world, session, share) {
            Ok(()) => Ok(()),
            Err(fault) => {
                session.release(writer)?;
                Err(fault)
            }
        }
    }

    // Before the next event something may be told, or written to a shared folder or read from it.
    #[inline(always)]
    fn may_act(&self, world: &World, session: &Session<'_>, share: &Option<&mut Share>) -> bool
        requires count { session.now.schedule.taken < 2 ^ 64 - 1 }
    {
        if self.checks.are_due()
            && let Some(next) = session.next(world)
            && self.checks.may_tell(world, next)
        {
            return true;
        }
        match share {
            Some(share) => share.may_act(session, world, self.reader.has_brought()),
            None => false,
        }
    }

    // Attends to the time, to a script that begins or is called, and to the shared folder, if there is one.
    #[inline(always)]
    #[tactic(auto, using(crate::proofs::Pairs::lines_stay))]
    fn act(
        &mut self,
        world: &mut World,
        session: &mut Session<'_>,
        share: &mut Option<&mut Share>,
    ) -> Result<(), Fault>
        requires count { session.old.schedule.taken < 2 ^ 64 - 1 }
        requires agrees { Agrees world.old self.old.launcher.calls }
        requires children { IsOpenTable session.old.children self.old.launcher.calls }
        ensures agrees { OnOk result (Agrees world.new self.new.launcher.calls) }
        ensures children { IsOpenTable session.new.children self.new.launcher.calls }
        ensures schedule { session.new.schedule ≡ session.old.schedule }
        ensures gathered { session.new.gathered ≡ session.old.gathered }
        ensures reader { self.new.reader ≡ self.old.reader }
        ensures ran { RunsLines world.old world.new }
        ensures share { is_none share.new ≡ is_none share.old }
        // Without a shared folder nothing happens.
        ensures alone { is_none share.old ≡ true → (world.new ≡ world.old) × (session.new ≡ session.old)
            × (self.new.launcher ≡ self.old.launcher) × IfErr result (λ why. drive_fault_of why ≡ None) }
    {
        if let Some(deadline) = &self.deadline {
            deadline.check(self.rt)?;
        }
        if self.checks.are_due()
            && let Some(next) = session.next(world)
        {
            self.checks.attend(self.rt, world, next)?;
        }
        let Some(share) = share else {
            return Ok(());
        };
        let is_ready = self.reader.has_brought();
        share.attend(self.rt, world, &mut self.launcher, session, is_ready)
    }

    // Follows the shell that had the last event. Mostly nothing changed; otherwise what was printed stands before what is told.
    #[inline(always)]
    pub fn follow<K: Sink>(
        &mut self,
        world: &World,
        session: &mut Session<'_>,
        writer: &mut Watched<K>,
    ) -> Result<(), Fault>
        requires writer { K.faults writer.old.inner < 2 ^ 64 - 1 }
        ensures launcher { self.new.launcher ≡ self.old.launcher }
        ensures reader { self.new.reader ≡ self.old.reader }
        ensures session { session.new ≡ record session.old { gathered = session.new.gathered } }
        ensures gathers { OnOk result (GathersOn session.old.gathered session.new.gathered
            (writer_view K.contents K.faults K.stalls writer.old.inner) (writer_view K.contents K.faults K.stalls writer.new.inner)) }
        ensures ends { IfErr result (λ why. EndsGathering true why session.old.gathered
            (writer_view K.contents K.faults K.stalls writer.old.inner) (writer_view K.contents K.faults K.stalls writer.new.inner)) }
    {
        if writer.trail.is_as_kept(world) {
            return Ok(());
        }
        session.release(writer)?;
        Ok(self.tell(world, session, &mut writer.trail)?)
    }

    // The scripts that ended are told, what began or was not called is to be checked, and once shell 1 has ended it is told which others run.
    fn tell(
        &mut self,
        world: &World,
        session: &Session<'_>,
        trail: &mut Trail,
    ) -> Result<(), NoMemory>
        ensures launcher { self.new.launcher ≡ self.old.launcher }
        ensures reader { self.new.reader ≡ self.old.reader }
    {
        // A script that ended early or broken left one frame fewer: in such an event none begins.
        self.teller
            .tell_ends(self.rt, world, trail, session.reports())?;
        if trail.has_lost_call(world) {
            self.checks.note_lost_call();
        }
        match trail.follow(world)? {
            Change::Begun(number) => self.checks.add_begun(number),
            Change::Ended(1) => self.teller.tell_waiting(self.rt, world, trail),
            Change::Same | Change::Ended(_) => Ok(()),
        }
    }
}
