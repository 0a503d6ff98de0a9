//! The run of a script.

ghost use Rattle.std.specs.Prelude.{◌≡◌, ◌<◌, ◌^◌, ◌-◌, [], true, false, None, is_none, OnOk};
ghost use Rattle.ados_launch.specs.{Agreement.{Agrees, AreOver, IsOpenTable}, Deeds.{Does, DoesByRule}, Drives.{Drives, HasDriveResult}, Schedule.{first_schedule_state}};
ghost use Rattle.amishell_execute.specs.Playing.{IfDriven, PlaysAlone, may_be_cut, playing_moment};

use crate::checks::Checks;
use crate::deadline::Deadline;
use crate::error_codes::ErrorCode;
use crate::faults::Fault;
use crate::launcher::Bringer;
use crate::origins::Origins;
use crate::reader::Prompter;
use crate::share::Share;
use crate::teller::Teller;
use crate::unanswered::question_asked;
use crate::watched::Watched;
use ados_launch::{End, Session, Sink};
use ados_transfer::{Lines, Planned};
use ados_world::World;
use execute_options::AtEnd;
use std::io::{Eprint, Read};
use std::process::Processes;
use std::rt::Files;
use std::time::Clock;

/// A script that is to run.
#[derive(Drop)]
pub struct Script<'a> {
    /// What is brought in for it.
    pub planned: &'a [Planned],
    /// The lines that bring it in and call the script.
    pub lines: &'a Lines,
    /// The most events that are taken, besides those that bring it in.
    pub turns: u64,
    /// What is answered at the end of standard input.
    pub at_end: AtEnd,
    /// When no further event is taken.
    pub deadline: Option<Deadline>,
    /// The codes of programs that fail.
    pub errors: &'a [ErrorCode],
    /// How it and the scripts that it calls are checked.
    pub checks: Checks<'a>,
    /// Who tells where they end.
    pub teller: Teller<'a>,
    /// By which paths they are named.
    pub origins: &'a Origins<'a>,
}

/// Runs a script in a new world, with standard input for what asks, and writes what it prints.
///
/// However it ends, the world is one that events which the machine accepts and shells opened for lines lead to: nothing else
/// brings a file in, and nothing else changes one. In all of these, in every shell, each script ends early exactly at its first
/// command whose code reaches the limit in force after it, the reports are the ends of scripts, and each frame ends once. What
/// these events print was written, all of it and in order, except for the lines that bring in a shared folder's files; only some
/// of it if a write failed, and perhaps if the files were not brought in or a question had no answer.
#[tactic(auto, using(crate::proofs::Pairs::kept_pair, crate::proofs::Pairs::rule_stays, crate::proofs::Driving::rule_cut))]
pub fn play<R: AllocGlobal + Files + Input + Eprint + Processes + Clone + Drop + Clock, K: Sink>(
    rt: &R,
    world: &mut World,
    script: Script<'_>,
    share: Option<&mut Share>,
    writer: &mut Watched<K>,
) -> Result<End, Fault>
    requires agrees { Agrees world.old [] }
    requires writer { K.faults writer.old.inner < 2 ^ 64 - 1 }
    // By these deeds one world leads to the other; their bytes were written, and the rule holds of them.
    ensures does { DoesByRule world.old world.new (may_be_cut result) (K.contents writer.old.inner) (K.contents writer.new.inner) }
    // Without a shared folder the run is one of `Drive::run`.
    ensures drives { is_none share.entry ≡ true → IfDriven result
        (PlaysAlone world.old world.new (K.contents writer.old.inner) (K.contents writer.new.inner)) }
{
    // This shows that the world is sane: no script in it runs on after a failure.
    let _asked = world.pending(1);
    let mut run = Run {
        rt,
        turns: script.turns.saturating_add(script.lines.events),
        deadline: script.deadline,
        launcher: Bringer::new(rt.alloc(), rt, script.planned, script.errors)?,
        reader: Prompter::new(
            script.planned,
            script.lines.all.as_slice(),
            script.lines.bringing,
            rt.reader(),
            script.at_end,
        ),
        teller: script.teller,
        checks: script.checks,
    };
    let ended = run.drive(world, share, writer);
    if run.reader.is_refused() {
        return Err(Fault::NotBrought);
    }
    if run.reader.is_unanswered() {
        // Without memory to say which question it was, it is not named.
        let asked = match question_asked(script.origins, world, run.reader.last_line()) {
            Ok(asked) => asked,
            Err(_) => String::new(rt.alloc()),
        };
        return Err(Fault::Unanswered(asked));
    }
    ended
}

/// A run: how many events it takes at most, who answers what it asks of this machine, and from where its lines come.
#[derive(Drop)]
pub struct Run<'a, R: Processes, I: Read> {
    pub rt: &'a R,
    turns: u64,
    pub deadline: Option<Deadline>,
    pub teller: Teller<'a>,
    pub launcher: Bringer<'a, R>,
    pub reader: Prompter<'a, I>,
    pub checks: Checks<'a>,
}

impl<R: AllocGlobal + Files + Eprint + Processes + Clone + Drop + Clock, I: Read> Run<'_, R, I> {
    // Drives the world to its end. However it ends, each program that was started was waited for.
    #[tactic(auto, using(crate::proofs::Pairs::table_looked))]
    fn drive<K: Sink>(
        &mut self,
        world: &mut World,
        share: Option<&mut Share>,
        writer: &mut Watched<K>,
    ) -> Result<End, Fault>
        requires reader { self.old.reader.faults < 2 ^ 64 - 1 }
        requires writer { K.faults writer.old.inner < 2 ^ 64 - 1 }
        requires agrees { Agrees world.old self.old.launcher.calls }
        ensures does { DoesByRule world.old world.new (may_be_cut result) (K.contents writer.old.inner) (K.contents writer.new.inner) }
        ensures over { AreOver self.new.launcher.calls }
        ensures drives { is_none share.entry ≡ true → IfDriven result (Drives self.old.turns []
            (playing_moment K.contents K.faults K.stalls world.old self.old.reader writer.old.inner self.old.launcher)
            (playing_moment K.contents K.faults K.stalls world.new self.new.reader writer.new.inner self.new.launcher)) }
    {
        let mut session = Session::new(self.rt.alloc(), world, &[]);
        match self.drive_followed(world, &mut session, share, writer) {
            Ok(end) => Ok(end),
            Err(fault) => {
                session.abandon(&mut self.launcher);
                Err(fault)
            }
        }
    }

    // Takes events until nothing comes, and follows what the last of them renamed: at a limit nothing attends to it any more. At a
    // fault, of whatever kind, the session knows which programs are open, and the caller has to abandon it.
    fn drive_followed<K: Sink>(
        &mut self,
        world: &mut World,
        session: &mut Session<'_>,
        mut share: Option<&mut Share>,
        writer: &mut Watched<K>,
    ) -> Result<End, Fault>
        requires reader { self.old.reader.faults < 2 ^ 64 - 1 }
        requires writer { K.faults writer.old.inner < 2 ^ 64 - 1 }
        requires agrees { Agrees world.old self.old.launcher.calls }
        requires children { IsOpenTable session.old.children self.old.launcher.calls }
        requires begins { session.old.schedule ≡ first_schedule_state [] }
        requires held { session.old.held ≡ [] }
        requires gathered { session.old.gathered ≡ [] }
        ensures does { Does world.old world.new (may_be_cut result) (K.contents writer.old.inner) (K.contents writer.new.inner) }
        ensures children { IsOpenTable session.new.children self.new.launcher.calls }
        ensures agrees { OnOk result (Agrees world.new self.new.launcher.calls) }
        ensures over { OnOk result (AreOver self.new.launcher.calls) }
        // At a limit too: what the last event renamed is followed in the shared folder.
        ensures followed { is_none share.entry ≡ false → session.new.renamed ≡ None }
        ensures drives { is_none share.entry ≡ true → IfDriven result (HasDriveResult self.old.turns []
            (playing_moment K.contents K.faults K.stalls world.old self.old.reader writer.old.inner self.old.launcher)
            (playing_moment K.contents K.faults K.stalls world.new self.new.reader writer.new.inner self.new.launcher)) }
    {
        match self.drive_session(world, session, &mut share, writer) {
            Ok(end) => {
                if let Some(share) = share {
                    share.follow(world, session)?;
                }
                Ok(end)
            }
            Err(fault) => {
                if let Some(share) = share {
                    // The fault of the run is the one that is told.
                    let _ = share.follow(world, session);
                }
                Err(fault)
            }
        }
    }

    // Takes events until nothing comes; a shared folder is attended to before each. What the last one renamed is still to be followed.
    // What events print is gathered. At each end all of it was written, or a write failed.
    fn drive_session<K: Sink>(
        &mut self,
        world: &mut World,
        session: &mut Session<'_>,
        share: &mut Option<&mut Share>,
        writer: &mut Watched<K>,
    ) -> Result<End, Fault>
        requires reader { self.old.reader.faults < 2 ^ 64 - 1 }
        requires writer { K.faults writer.old.inner < 2 ^ 64 - 1 }
        requires agrees { Agrees world.old self.old.launcher.calls }
        requires children { IsOpenTable session.old.children self.old.launcher.calls }
        requires begins { session.old.schedule ≡ first_schedule_state [] }
        requires held { session.old.held ≡ [] }
        requires gathered { session.old.gathered ≡ [] }
        ensures does { Does world.old world.new (may_be_cut result) (K.contents writer.old.inner) (K.contents writer.new.inner) }
        ensures children { IsOpenTable session.new.children self.new.launcher.calls }
        ensures agrees { OnOk result (Agrees world.new self.new.launcher.calls) }
        ensures over { OnOk result (AreOver self.new.launcher.calls) }
        ensures share { is_none share.new ≡ is_none share.old }
        ensures drives { is_none share.old ≡ true → IfDriven result (HasDriveResult self.old.turns []
            (playing_moment K.contents K.faults K.stalls world.old self.old.reader writer.old.inner self.old.launcher)
            (playing_moment K.contents K.faults K.stalls world.new self.new.reader writer.new.inner self.new.launcher)) }
    {
        for _ in 0..self.turns {
            self.attend(world, session, share, writer)?;
            if !session.advance(world, &mut self.launcher, &mut self.reader, writer)? {
                return Ok(session.end(world));
            }
            self.follow(world, session, writer)?;
        }
        session.release(writer)?;
        Ok(session.finish(world)?)
    }
}
