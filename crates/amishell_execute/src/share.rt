//! Folders of this machine that are shared with the Shell.
ghost use Rattle.std.specs.Prelude.{◌≡◌, ◌<◌, ◌^◌, ◌-◌, [], None, OnOk};
ghost use Rattle.ados_launch.specs.{Agreement.{Agrees, IsOpenTable}, Deeds.{RunsLines}};

use crate::alone::run_lines;
use crate::due::Due;
use crate::faults::{Fault, not_shared, report};
use crate::home::Home;
use crate::launcher::{Bringer, Start};
use crate::pace::Pace;
use ados_launch::{Listed, Session};
use ados_share::{Arrival, Mirror, Moment, StartPlace};
use ados_text::Text;
use ados_transfer::{MirrorOptions, Volume, push_word, volumes_of};
use ados_world::World;
use std::alloc::Global;
use std::io::Eprint;
use std::process::Processes;
use std::rt::{Env, Files};
use std::time::Clock;

/// The mirror of the folders, and its state.
#[derive(Drop)]
pub struct Share {
    mirror: Mirror,
    home: Home,
    // What was in the folders at the beginning was brought in.
    is_filled: bool,
    pace: Pace,
}

impl Share {
    /// Makes in a new world the directories and the assigns that the words of each `--share` name, and the commands by which files are
    /// brought in.
    #[tactic(auto, using(crate::proofs::Pairs::kept_pair))]
    pub fn open<R: Env + AllocGlobal + Files + Clone + Drop + Clock>(
        rt: &R,
        words: &[&str],
        options: MirrorOptions,
        world: &mut World,
    ) -> Result<Share, Fault>
        requires agrees { Agrees world.old [] }
        ensures agrees { OnOk result (Agrees world.new []) }
        ensures ran { RunsLines world.old world.new }
    {
        let alloc = rt.alloc();
        let home = Home::new(rt)?;
        let volumes = match volumes_of(rt, words, world.files(), world.assigns()) {
            Ok(volumes) => volumes,
            Err(fault) => return Err(not_shared(fault)),
        };
        let mirror = Mirror::new(alloc, volumes, options)?;
        // These lines start no program.
        let mut launcher = Listed::new(Vec::new(alloc));
        let mut session = Session::new(alloc, world, &[]);
        let lines = mirror.first_lines(alloc, world.files())?;
        run_lines(alloc, world, lines.as_slice(), &mut launcher, &mut session)?;
        if !launcher.is_unused() {
            return Err(Fault::NotBrought);
        }
        Ok(Share {
            mirror,
            home,
            is_filled: false,
            pace: Pace::new(rt),
        })
    }

    /// The volumes, in the order of the words.
    pub fn volumes(&self) -> &[Volume] {
        self.mirror.volumes()
    }

    /// What was in the folders at the beginning was brought in. Before that nothing of the script runs.
    pub fn is_filled(&self) -> bool {
        self.is_filled
    }

    /// The line that makes the first directory the current one.
    pub fn change_line(&self, alloc: Global) -> Result<Text, Fault> {
        let mut line = Text::from_bytes(alloc, b"\"CD\"")?;
        if let Some(volume) = self.volumes().first() {
            push_word(&mut line, &volume.place.path(alloc)?, true)?;
        }
        Ok(line)
    }

    /// Before an event: at a program's start, what changed is written to the folders; before its end is reported to the world,
    /// what changed in the folders is brought in. Now and then, and before this process may have to wait, what changed is written too.
    /// `is_ready`: the lines that bring files in were given.
    ///
    /// At an error too the session knows which programs are open.
    pub fn attend<R: AllocGlobal + Files + Eprint + Processes + Clone + Drop + Clock>(
        &mut self,
        rt: &R,
        world: &mut World,
        launcher: &mut Bringer<'_, R>,
        session: &mut Session<'_>,
        is_ready: bool,
    ) -> Result<(), Fault>
        requires count { session.old.schedule.taken < 2 ^ 64 - 1 }
        requires agrees { Agrees world.old launcher.old.calls }
        requires children { IsOpenTable session.old.children launcher.old.calls }
        ensures agrees { OnOk result (Agrees world.new launcher.new.calls) }
        ensures children { IsOpenTable session.new.children launcher.new.calls }
        ensures schedule { session.new.schedule ≡ session.old.schedule }
        ensures held { session.new.held ≡ session.old.held }
        ensures gathered { session.new.gathered ≡ session.old.gathered }
        ensures ran { RunsLines world.old world.new }
    {
        self.follow(world, session)?;
        self.mirror.watch(world.files())?;
        if !self.is_filled {
            if is_ready && world.wants_line() {
                self.bring_in(rt, world, launcher, session)?;
                self.mirror.note_beginning(world.files())?;
                self.is_filled = true;
            }
            return Ok(());
        }
        let due = Due::next(session, world);
        if self.pace.is_due(rt, due) {
            self.write_out(rt, world, Moment::Meanwhile)?;
        }
        match due {
            Due::Start(number) => {
                self.write_out(rt, world, Moment::Start)?;
                launcher.set_start(self.start(rt, world, number)?);
            }
            Due::Wait(number) => {
                launcher.await_end(number);
                self.bring_in(rt, world, launcher, session)?;
            }
            Due::Read | Due::Input | Due::Turn => {}
        }
        Ok(())
    }

    /// The next event is one before which a folder, or a line about one, may be written, or a folder read. `is_ready` as for
    /// [`attend`](Share::attend).
    pub fn may_act(&self, session: &Session<'_>, world: &World, is_ready: bool) -> bool
        requires count { session.now.schedule.taken < 2 ^ 64 - 1 }
    {
        if !self.is_filled {
            return is_ready && world.wants_line();
        }
        match Due::next(session, world) {
            Due::Turn => self.pace.may_be_due(),
            Due::Start(_) | Due::Read | Due::Wait(_) | Due::Input => true,
        }
    }

    /// What the event before renamed is followed, and what it deleted no longer.
    pub fn follow(&mut self, world: &World, session: &mut Session<'_>) -> Result<(), Fault>
        ensures taken { session.new.renamed ≡ None }
        ensures children { session.new.children ≡ session.old.children }
        ensures schedule { session.new.schedule ≡ session.old.schedule }
        ensures held { session.new.held ≡ session.old.held }
        ensures gathered { session.new.gathered ≡ session.old.gathered }
    {
        if let Some(renamed) = session.take_renamed() {
            for object in renamed.as_slice() {
                self.mirror.follow(&object.from, &object.to)?;
            }
        }
        self.mirror.forget_deleted(world.files());
        Ok(())
    }

    /// Writes what changed to the folders at the end. `false` if the two sides are not alike then; nothing ran if they did not come in.
    pub fn close<R: AllocGlobal + Files + Eprint + Clone + Drop + Clock>(
        &mut self,
        rt: &R,
        world: &World,
    ) -> Result<bool, Fault> {
        if !self.is_filled {
            return Ok(true);
        }
        self.write_out(rt, world, Moment::End)?;
        Ok(!self.mirror.differs())
    }

    // Brings in what changed in the folders.
    fn bring_in<R: AllocGlobal + Files + Eprint + Processes + Clone + Drop + Clock>(
        &mut self,
        rt: &R,
        world: &mut World,
        launcher: &mut Bringer<'_, R>,
        session: &mut Session<'_>,
    ) -> Result<(), Fault>
        requires agrees { Agrees world.old launcher.old.calls }
        requires children { IsOpenTable session.old.children launcher.old.calls }
        ensures agrees { OnOk result (Agrees world.new launcher.new.calls) }
        ensures children { IsOpenTable session.new.children launcher.new.calls }
        ensures schedule { session.new.schedule ≡ session.old.schedule }
        ensures held { session.new.held ≡ session.old.held }
        ensures gathered { session.new.gathered ≡ session.old.gathered }
        ensures ran { RunsLines world.old world.new }
    {
        let arrivals = self.mirror.arrivals(rt, world.files());
        // Before the fault too: a folder does not fit because of what these lines name.
        self.report_lines(rt);
        for arrival in arrivals? {
            let arrival = take_in(rt.alloc(), world, launcher, session, arrival)?;
            self.mirror.settle(arrival, world.files())?;
        }
        self.report_lines(rt);
        Ok(())
    }

    // Writes what changed to the folders.
    fn write_out<R: AllocGlobal + Files + Eprint + Clone + Drop + Clock>(
        &mut self,
        rt: &R,
        world: &World,
        moment: Moment,
    ) -> Result<(), Fault> {
        self.mirror.write_out(rt, world.files(), moment)?;
        self.pace.update(rt);
        self.report_lines(rt);
        Ok(())
    }

    // Where a program of a shell starts, by the shell's current directory.
    fn start<R: AllocGlobal + Files + Eprint>(
        &mut self,
        rt: &R,
        world: &World,
        number: u8,
    ) -> Result<Start, Fault> {
        let place = world.shell(number).map(|shell| shell.directory());
        match self.mirror.start_place(rt, place)? {
            StartPlace::Home => Ok(Start::Home),
            StartPlace::Folder(path) => self.home.start(path),
            StartPlace::Nowhere => {
                self.report_lines(rt);
                Ok(Start::Nowhere)
            }
        }
    }

    // Writes to standard error the lines that the mirror has to report.
    fn report_lines<R: AllocGlobal + Eprint>(&mut self, rt: &R) {
        for line in &self.mirror.take_lines() {
            report(rt, line);
        }
    }
}

// Runs the lines of an arrival.
fn take_in<R: Processes>(
    alloc: Global,
    world: &mut World,
    launcher: &mut Bringer<'_, R>,
    session: &mut Session<'_>,
    mut arrival: Arrival,
) -> Result<Arrival, Fault>
    requires agrees { Agrees world.old launcher.old.calls }
    requires children { IsOpenTable session.old.children launcher.old.calls }
    ensures agrees { OnOk result (Agrees world.new launcher.new.calls) }
    ensures children { IsOpenTable session.new.children launcher.new.calls }
    ensures schedule { session.new.schedule ≡ session.old.schedule }
    ensures held { session.new.held ≡ session.old.held }
    ensures gathered { session.new.gathered ≡ session.old.gathered }
    ensures ran { RunsLines world.old world.new }
{
    launcher.offer(arrival.bytes.take());
    run_lines(alloc, world, arrival.lines.as_slice(), launcher, session)?;
    launcher.offer(None);
    Ok(arrival)
}
