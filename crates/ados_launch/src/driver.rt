// A world driven by a reader's lines, a launcher's answers and a list of breaks.
ghost use Rattle.std.specs.Prelude.{◌≡◌, ◌<◌, ◌^◌, ◌-◌, [], length, OnOk};
ghost use Rattle.ados_machine.specs.World.{codes_at};
ghost use Rattle.ados_launch.specs.{Agreement.{Agrees, IsOpenTable}, Drives.{HasDriveResult, Drives}, Schedule.{first_schedule_state}, Session.{moment_of}};

use crate::faults::DriveFault;
use crate::session::Session;
use crate::{Sink, Source};
use ados_launcher::Launcher;
use ados_machine::BreakAt;
use ados_text::{Code, Result2};
use ados_world::World;
use std::alloc::Global;

/// How a run ended.
#[derive(Clone, Copy, PartialEq, Eq, Debug)]
pub struct End {
    /// The last code of shell 1.
    pub code: Code,
    /// The last Result2 of shell 1.
    pub result2: Result2,
    /// How many events and long lines were taken.
    pub events: u64,
}

impl End {
    /// The end of a run that leaves this world, after this many events.
    pub fn of(world: &World, events: u64) -> End
        ensures code { result.code ≡ (codes_at world.now 1).code }
        ensures result2 { result.result2 ≡ (codes_at world.now 1).result2 }
        ensures events { result.events ≡ events }
        ensures shells { length world.now.shells ≡ 20 }
    {
        // This shows how many numbers a world has.
        let _running = world.shells();
        let codes = world.codes(1);
        End {
            code: codes.code,
            result2: codes.result2,
            events,
        }
    }
}

/// How far a world is driven, and the breaks that come meanwhile.
#[derive(Clone, Copy)]
pub struct Drive<'a> {
    /// Where the memory for lines and outputs comes from.
    pub alloc: Global,
    /// The most events and long lines that are taken.
    pub turns: u64,
    /// The breaks, in the order in which they come.
    pub breaks: &'a [BreakAt],
}

impl Drive<'_> {
    /// Gives a reader's lines, the shells' turns, a launcher's answers and the breaks to a world, and writes what the world
    /// prints.
    ///
    /// A round: while the world wants a line one is read, up to a newline or the end, and typed, with `?`
    /// in place of each byte above ASCII; at the reader's end the input ends. Then each shell from 1 to
    /// 20 takes a turn if it is ready when its place comes. Then the launcher is called for each start that a shell requests,
    /// in ascending order of the shells' numbers, and then for each read and each wait that is requested by a shell to which it
    /// has not replied in this round; each reply is an event. What events print is gathered, and written before anything that may wait (a
    /// read, where no whole line was read ahead, or a call of the launcher), at every end, and at 4,000 bytes or 1,000 events. Instead
    /// of a line of 513 to 65,536 bytes, which is not an event but counts as one, `Line too long` and a newline are printed. The run
    /// ends if no shell is left.
    ///
    /// Before each event or long line, and before its line is read or the launcher is called for it, breaks come: as long as
    /// the number of the first break that is left in the list is that of the next event (counted from 1), or a smaller one, this
    /// break is the next event, and counts as one. A break of a shell that does not run is skipped, and does not count. The order
    /// is that of the list; breaks that are left at the end do not come.
    ///
    /// At most `turns` events and long lines are taken, and for another one no line is read and the
    /// launcher is not called. At a fault the world has taken the events that it accepted, and what they print is written,
    /// or at `Write` a prefix of it; a line that was read and not accepted is lost, and so is a reply. Then each
    /// child process that is open is waited for once, in ascending order of its shell's number.
    ///
    /// `Read`: the reader failed, or a line has more than
    /// 65,536 bytes. `Write`: the writer failed, or wrote nothing. `Turns`: another event was due. `Memory`: there was no
    /// memory for the next line or event; no byte past that line is taken. A read or write that is interrupted has failed, and
    /// is not tried again.
    ///
    /// Before the call the reader has counted fewer than 2^64 - 1 failed reads and the writer fewer than 2^64 - 1 failed
    /// writes, so that a `u64` can count one more. The launcher's list of calls agrees with the world as for
    /// [`system`](crate::system); those of a new world and a new launcher do. After a fault this world and this launcher must
    /// not be driven again: the world still requests reads and waits of child processes that are gone. Bytes are read ahead of
    /// the lines, as many as come with a read: those read and not taken are lost at the return, even to a second call with the
    /// same reader.
    pub fn run<L: Launcher, S: Source, K: Sink>(
        &self,
        world: &mut World,
        launcher: &mut L,
        reader: &mut S,
        writer: &mut K,
    ) -> Result<End, DriveFault>
        requires reader { S.faults reader.old < 2 ^ 64 - 1 }
        requires writer { K.faults writer.old < 2 ^ 64 - 1 }
        requires agrees { Agrees world.old (L.calls launcher.old) }
        // What was taken, how it ended, and what became of the children.
        ensures drives { Drives self.now.turns self.now.breaks.now
            (moment_of S.left S.faults K.contents K.faults K.stalls L.calls L.is_full world.old reader.old writer.old launcher.old)
            (moment_of S.left S.faults K.contents K.faults K.stalls L.calls L.is_full world.new reader.new writer.new launcher.new)
            result }
        // If no event is allowed the reader and the writer are unchanged.
        ensures untouched { self.now.turns ≡ 0 → (reader.new ≡ reader.old) × (writer.new ≡ writer.old) }
    {
        let mut session = Session::new(self.alloc, world, self.breaks);
        match self.run_session(&mut session, world, launcher, reader, writer) {
            Ok(end) => Ok(end),
            Err(fault) => {
                session.abandon(launcher);
                Err(fault)
            }
        }
    }

    // Takes events until nothing comes, or no more are allowed. Whoever calls this abandons the session at a fault.
    fn run_session<L: Launcher, S: Source, K: Sink>(
        &self,
        session: &mut Session<'_>,
        world: &mut World,
        launcher: &mut L,
        reader: &mut S,
        writer: &mut K,
    ) -> Result<End, DriveFault>
        requires reader { S.faults reader.old < 2 ^ 64 - 1 }
        requires writer { K.faults writer.old < 2 ^ 64 - 1 }
        requires agrees { Agrees world.old (L.calls launcher.old) }
        requires begins { session.old.schedule ≡ first_schedule_state self.now.breaks.now }
        requires held { session.old.held ≡ [] }
        requires gathered { session.old.gathered ≡ [] }
        requires children { IsOpenTable session.old.children (L.calls launcher.old) }
        // The open children are those of the calls, none of which is out of place.
        ensures children { IsOpenTable session.new.children (L.calls launcher.new) }
        ensures agrees { OnOk result (Agrees world.new (L.calls launcher.new)) }
        ensures comes_to { HasDriveResult self.now.turns self.now.breaks.now
            (moment_of S.left S.faults K.contents K.faults K.stalls L.calls L.is_full world.old reader.old writer.old launcher.old)
            (moment_of S.left S.faults K.contents K.faults K.stalls L.calls L.is_full world.new reader.new writer.new launcher.new)
            result }
        ensures untouched { self.now.turns ≡ 0 → (reader.new ≡ reader.old) × (writer.new ≡ writer.old) }
    {
        for _ in 0..self.turns {
            if !session.advance(world, launcher, reader, writer)? {
                return Ok(session.end(world));
            }
        }
        session.release(writer)?;
        session.finish(world)
    }
}
