// What the events of a run share, and how each is taken.
ghost use Rattle.std.specs.Prelude.{◌≡◌, ◌<◌, ◌^◌, ◌-◌, ℕ, [], true, false, not, get_or, length, OnOk, OnErr, IsErrOf};
ghost use Rattle.ados_machine.specs.{FrameEnds.{IsSane}, World.{pending_of, wants_line}};
ghost use Rattle.ados_shell.specs.Drafts.{out_of};
ghost use Rattle.ados_launch.specs.{Agreement.{Agrees, IsOpenTable}, Intake.{comes_at_once, FailsToRead, LacksMemory, TakesLineOrEnd, TakesNextItem}, Lines.{bytes_ahead, has_short_line, IsUnreadable, IfKnown}, NoFurther.{TakesPart}, Rounds.{asks_read_or_wait}, Schedule.{found_next, MayCome}};

use crate::Source;
use crate::asks::answer;
use crate::children::open_children;
use crate::events::{give, give_line, shell_answered};
use crate::faults::IntakeFault;
use crate::lines::{LineKind, has_short_line, next_line};
use crate::read_ahead::ReadAhead;
use crate::schedule::Next;
use ados_launcher::Launcher;
use ados_text::Text;
use ados_world::{Draft, Event, World};
use std::alloc::Global;

const LONG_LINE_TEXT: &[u8] = b"Line too long\n";

// What the events of a run share: where the memory comes from, the bytes that were read ahead, the line that is read, what is to
// be written, and which children are open.
#[derive(Drop)]
pub struct Intake {
    alloc: Global,
    pub held: ReadAhead,
    line: Vec<u8>,
    pub draft: Draft,
    // the open children by their numbers
    pub children: [bool; 21],
}

impl Intake {
    // Nothing is read ahead. The children that the world reads or waits for are open.
    pub fn new(alloc: Global, world: &World) -> Intake
        ensures held { result.held ≡ [] }
        ensures children { (k : ℕ) → get_or result.children k false ≡ asks_read_or_wait (pending_of world.now k) }
        ensures sane { IsSane world.now }
    {
        Intake {
            alloc,
            held: ReadAhead::new(),
            line: Vec::new(alloc),
            draft: Draft::new(alloc),
            children: open_children(world),
        }
    }

    // What comes next may wait: it is a call of the launcher, or a line that was not read ahead whole.
    fn may_wait(&self, next: Next) -> bool
        ensures { result ≡ not (comes_at_once self.now.held (found_next next)) }
    {
        match next {
            Next::Break(_) => false,
            Next::Due(found) if found.place == 0 => !has_short_line(&self.held),
            Next::Due(found) => found.place > 20,
        }
    }

    // What was gathered is to be written before this comes: it may wait, or the writer tells of it.
    pub fn is_due_before(&self, next: Next, tells: bool) -> bool
        ensures { result ≡ false → comes_at_once self.now.held (found_next next) ≡ true }
    {
        tells || self.may_wait(next)
    }

    // Takes what comes next: a break, the next line, the turn of a shell, or a launcher's answer. The draft holds then what is
    // to be written.
    pub fn take<L: Launcher, S: Source>(
        &mut self,
        world: &mut World,
        launcher: &mut L,
        reader: &mut S,
        next: Next,
    ) -> Result<(), IntakeFault>
        requires reader { S.faults reader.old < 2 ^ 64 - 1 }
        requires may_come { MayCome world.old next }
        requires agrees { Agrees world.old (L.calls launcher.old) }
        requires children { IsOpenTable self.old.children (L.calls launcher.old) }
        ensures took { OnOk result (TakesNextItem world.old (bytes_ahead self.old.held (S.left reader.old)) (L.is_full launcher.new) (L.calls launcher.old) (found_next next)
            world.new (bytes_ahead self.new.held (S.left reader.new)) (L.calls launcher.new) (out_of self.new.draft)) }
        ensures agrees { OnOk result (Agrees world.new (L.calls launcher.new)) }
        ensures honest { OnOk result (S.faults reader.new ≡ S.faults reader.old) }
        ensures err { OnErr result (world.new ≡ world.old) }
        ensures read { IsErrOf result IntakeFault.Read → FailsToRead (found_next next) (S.faults reader.old) (S.faults reader.new)
            (bytes_ahead self.old.held (S.left reader.old)) (bytes_ahead self.new.held (S.left reader.new)) (L.calls launcher.old) (L.calls launcher.new) }
        ensures memory { IsErrOf result IntakeFault.NoMemory → LacksMemory world.old (found_next next) (S.faults reader.old) (S.faults reader.new)
            (bytes_ahead self.old.held (S.left reader.old)) (bytes_ahead self.new.held (S.left reader.new)) (L.calls launcher.old) (L.calls launcher.new) }
        ensures children { IsOpenTable self.new.children (L.calls launcher.new) }
        ensures stays { L.is_full launcher.old ≡ true → L.is_full launcher.new ≡ true }
        // What comes without a wait asks nothing of the launcher, and no read fails for it.
        ensures at_once { comes_at_once self.old.held (found_next next) ≡ true → (L.calls launcher.new ≡ L.calls launcher.old)
            × (S.faults reader.new ≡ S.faults reader.old) }
        ensures few { length self.old.held < 4096 → length self.new.held < 4096 }
    {
        match next {
            Next::Break(at) => Ok(give(world, &Event::Break(at.shell, at.kind), &mut self.draft)?),
            Next::Due(found) if found.place == 0 => self.take_line(world, reader),
            Next::Due(found) if found.place < 21 => {
                Ok(give(world, &Event::Turn(found.place), &mut self.draft)?)
            }
            Next::Due(found) => Ok(answer(
                world,
                launcher,
                &mut self.children,
                shell_answered(found.place),
                &mut self.draft,
            )?),
        }
    }

    // Shows the reader the world, reads a line and gives it to the world, or the end of the input. A long one is not given, and a
    // text is written in its place.
    fn take_line<S: Source>(&mut self, world: &mut World, reader: &mut S) -> Result<(), IntakeFault>
        requires reader { S.faults reader.old < 2 ^ 64 - 1 }
        requires due { wants_line world.old ≡ true }
        ensures took { OnOk result
            (TakesLineOrEnd world.old (bytes_ahead self.old.held (S.left reader.old)) world.new (bytes_ahead self.new.held (S.left reader.new)) (out_of self.new.draft)) }
        ensures children { self.new.children ≡ self.old.children }
        ensures few { length self.old.held < 4096 → length self.new.held < 4096 }
        ensures honest { OnOk result (S.faults reader.new ≡ S.faults reader.old) }
        ensures err { OnErr result (world.new ≡ world.old) }
        ensures read { IsErrOf result IntakeFault.Read
            → IsUnreadable (S.faults reader.old) (S.faults reader.new) (bytes_ahead self.old.held (S.left reader.old)) (bytes_ahead self.new.held (S.left reader.new)) }
        ensures ahead { has_short_line self.old.held ≡ true → S.faults reader.new ≡ S.faults reader.old }
        ensures memory_honest { IsErrOf result IntakeFault.NoMemory → S.faults reader.new ≡ S.faults reader.old }
        ensures memory_unread { IsErrOf result IntakeFault.NoMemory → IfKnown (bytes_ahead self.old.held (S.left reader.old))
            (λ bytes. TakesPart bytes (bytes_ahead self.new.held (S.left reader.new))) }
    {
        reader.heed(world);
        match next_line(&mut self.held, reader, &mut self.line)? {
            LineKind::End => Ok(give(world, &Event::EndOfInput, &mut self.draft)?),
            LineKind::Short => {
                let text = Text::from_bytes(self.alloc, self.line.as_slice())?;
                self.draft.give_nothing();
                Ok(give_line(world, text)?)
            }
            LineKind::Long => {
                self.draft.give_nothing();
                self.draft.printed.extend_from_slice(LONG_LINE_TEXT)?;
                Ok(())
            }
            LineKind::Overlong => Err(IntakeFault::Read),
        }
    }
}
