//! The reader of a run: the prepared lines, a line of standard input each time that the Shell asks, and then the end.
ghost use Rattle.std.specs.{Prelude.{◌≡◌, ◌≤◌, length, true, false, None}, Io.{ReadsAtMost}};
ghost use Rattle.amishell_execute.specs.Prompting.{IsBrought};

use ados_launch::Source;
use ados_text::Text;
use ados_transfer::{Planned, are_as_planned};
use ados_world::World;
use execute_options::AtEnd;
use std::io;
use std::io::{Error, ErrorKind, Read};
use std::marker::Model;

/// What the next reads give.
#[derive(Clone, Copy)]
enum Next<'a> {
    // What is left of a prepared line.
    Line(&'a [u8]),
    // The newline after a prepared line.
    Newline,
    // A line of standard input.
    Input,
    // Nothing, since everything was read.
    End,
    // An error, since the files are not as planned.
    Refused,
    // An error, since there is no answer.
    Unanswered,
}

/// A reader that looks at the world to choose what it gives.
#[derive(Drop)]
pub struct Prompter<'a, I: Read> {
    planned: &'a [Planned],
    lines: &'a [Text],
    bringing: usize,
    given: usize,
    is_ready: bool,
    next: Next<'a>,
    input: I,
    at_end: AtEnd,
    faults: u64,
}

impl<'a, I: Read> Model for Prompter<'a, I> {
    ghost use Rattle.std.specs.Prelude.{◌≡◌, ◌≤◌, false};
    ghost use Rattle.amishell_execute.specs.Prompting.{PrompterView};

    ghost Value = { PrompterView };

    ghost view = { λ p. record { planned = p.planned.now; bringing = p.bringing; given = p.given; is_ready = p.is_ready; faults = p.faults } };

    // No line after those that bring in was given before the files were checked.
    ghost invariant = { λ p. p.is_ready ≡ false → p.given ≤ p.bringing };
}

impl<'a, I: Read> Prompter<'a, I> {
    /// A reader of these lines, of which this many bring these files in, and of this input.
    pub fn new(
        planned: &'a [Planned],
        lines: &'a [Text],
        bringing: usize,
        input: I,
        at_end: AtEnd,
    ) -> Prompter<'a, I>
        ensures planned { result.planned ≡ planned.entry.now }
        ensures ready { result.is_ready ≡ false }
        ensures bringing { result.bringing ≡ bringing }
        ensures faults { result.faults ≡ 0 }
    {
        Prompter {
            planned,
            lines,
            bringing,
            given: 0,
            is_ready: false,
            next: Next::End,
            input,
            at_end,
            faults: 0,
        }
    }

    /// The files were not as planned when the script was to begin.
    pub fn is_refused(&self) -> bool {
        matches!(self.next, Next::Refused)
    }

    /// The Shell asked for a line of standard input, and that was at its end.
    pub fn is_unanswered(&self) -> bool {
        matches!(self.next, Next::Unanswered)
    }

    /// The line that was given last.
    pub fn last_line(&self) -> Option<&Text> {
        self.lines.get(self.given.checked_sub(1)?)
    }

    /// All lines that bring the files in were given.
    pub fn has_brought(&self) -> bool {
        self.given >= self.bringing
    }

    /// Chooses what comes next, by the world that is about to take a line: a line of standard input if the Shell asks for one,
    /// otherwise the next prepared line, or the end.
    pub fn choose(&mut self, world: &World)
        // The first line after those that bring in is given only if each file and directory is there as planned.
        ensures begins { self.old.is_ready ≡ false → self.new.is_ready ≡ true → IsBrought world.now self.old.planned }
        ensures waits { self.new.is_ready ≡ false → self.new.given ≤ self.new.bringing }
        ensures rest { self.new ≡ record self.old { given = self.new.given; is_ready = self.new.is_ready } }
    {
        if asks_for_line(world) {
            self.next = Next::Input;
            return;
        }
        self.look(world);
        self.take_line();
    }

    // Checks whether the files are as planned, once all lines that bring them in were given.
    fn look(&mut self, world: &World)
        ensures begins { self.old.is_ready ≡ false → self.new.is_ready ≡ true → IsBrought world.now self.old.planned }
        ensures stays { self.old.is_ready ≡ true → self.new.is_ready ≡ true }
        ensures rest { self.new ≡ record self.old { is_ready = self.new.is_ready } }
    {
        if self.is_ready || self.given < self.bringing {
            return;
        }
        self.is_ready = are_as_planned(world.files(), self.planned);
    }

    // The next prepared line, or the end. A line after those that bring in needs the files.
    fn take_line(&mut self)
        ensures waits { self.new.is_ready ≡ false → self.new.given ≤ self.new.bringing }
        ensures rest { self.new ≡ record self.old { given = self.new.given } }
    {
        if !self.is_ready && self.given >= self.bringing {
            self.next = Next::Refused;
            return;
        }
        match self.lines.get(self.given) {
            Some(line) => {
                self.given += 1;
                self.next = line_of(line.as_bytes());
            }
            None => self.next = Next::End,
        }
    }

    // Reads what was chosen.
    fn give(&mut self, buffer: &mut [u8]) -> io::Result<usize>
        ensures bound { ReadsAtMost result buffer.new }
        ensures stays { self.new ≡ self.old }
    {
        match self.next {
            Next::Line(bytes) => {
                let length = copy_front(bytes, buffer);
                self.next = line_of(&bytes[length..]);
                Ok(length)
            }
            Next::Newline => {
                self.next = Next::End;
                Ok(copy_front(b"\n", buffer))
            }
            Next::Input => self.give_input(buffer),
            Next::End => Ok(0),
            Next::Refused | Next::Unanswered => Err(Error::from(ErrorKind::Other)),
        }
    }

    // Reads standard input up to a newline. At its end there is no answer; if that stands for no, an empty line is read while
    // prepared lines are left, since the end of the Shell's input would come before them.
    fn give_input(&mut self, buffer: &mut [u8]) -> io::Result<usize>
        ensures bound { ReadsAtMost result buffer.new }
        ensures stays { self.new ≡ self.old }
    {
        let count = read_line(&mut self.input, buffer)?;
        if count > 0 {
            return Ok(count);
        }
        if self.at_end == AtEnd::Nothing {
            self.next = Next::Unanswered;
            return Err(Error::from(ErrorKind::Other));
        }
        if self.given < self.lines.len() {
            return Ok(copy_front(b"\n", buffer));
        }
        Ok(0)
    }
}

// What is left of a prepared line, or its newline.
fn line_of(bytes: &[u8]) -> Next<'_> {
    if bytes.is_empty() {
        Next::Newline
    } else {
        Next::Line(bytes)
    }
}

// Copies as many bytes as there is room for, and gives their number.
fn copy_front(bytes: &[u8], buffer: &mut [u8]) -> usize
    ensures { (result ≤ length bytes.now) × (result ≤ length buffer.new) × (length buffer.new ≡ length buffer.old) }
{
    let length = bytes.len().min(buffer.len());
    buffer[..length].copy_from_slice(&bytes[..length]);
    length
}

// Reads up to a newline, the end, or as much as there is room for. No byte after the newline is read. A line that the end cuts off gets
// its newline. In the place of a byte above 127 stands `_`, which no pattern has.
fn read_line<I: Read>(input: &mut I, buffer: &mut [u8]) -> io::Result<usize>
    ensures { ReadsAtMost result buffer.new }
{
    for place in 0..buffer.len() {
        if input.read(&mut buffer[place..place + 1])? == 0 {
            if place == 0 {
                return Ok(0);
            }
            buffer[place] = b'\n';
            return Ok(place + 1);
        }
        if buffer[place] == b'\n' {
            return Ok(place + 1);
        }
        if !buffer[place].is_ascii() {
            buffer[place] = b'_';
        }
    }
    Ok(buffer.len())
}

impl<I: Read> Source for Prompter<'_, I> {
    ghost left = { λ _. None };

    ghost faults = { λ p. p.faults };

    fn heed(&mut self, world: &World) {
        self.choose(world);
    }

    fn read(&mut self, buffer: &mut [u8]) -> io::Result<usize> {
        match self.give(buffer) {
            Ok(count) => Ok(count),
            Err(error) => {
                self.faults += 1;
                Err(error)
            }
        }
    }
}

/// Shell 1 waits for a line: for an answer, or for more of a Run.
pub fn asks_for_line(world: &World) -> bool {
    match world.shell(1) {
        Some(shell) => shell.asks_for_line(),
        None => false,
    }
}
