//! A writer that tells each command of a run before what that prints.
ghost use Rattle.std.specs.Prelude.{◌≡◌, IfOk};

use crate::commands::command_line;
use crate::escapes::escaped;
use crate::names::ScriptNames;
use crate::ticks::Ticks;
use ados_launch::{Next, Sink};
use ados_machine::EndReport;
use ados_text::NoMemory;
use ados_world::World;
use std::io::Eprint;
use std::{io, mem};

// What is told of a command for whose line there is no memory.
const NO_MEMORY: &str = "+ out of memory";

/// A writer of a run that also tells each command that a frame takes, on standard error: once it is taken, and before what it prints
/// is written. What is written is the same.
#[derive(Drop)]
pub struct Traced<'a, R, N, K: Sink> {
    rt: &'a R,
    names: &'a N,
    ticks: Ticks,
    // The line on the command that the turn takes which comes next, if it takes one.
    command: Result<Option<String>, NoMemory>,
    // Where the bytes go.
    inner: K,
}

impl<'a, R: AllocGlobal + Eprint, N: ScriptNames, K: Sink + Drop> Traced<'a, R, N, K> {
    /// A writer before another one, by which scripts are called by these names.
    pub fn new(rt: &'a R, names: &'a N, inner: K) -> Result<Traced<'a, R, N, K>, NoMemory>
        ensures { IfOk result (λ traced. traced.inner ≡ inner) }
    {
        Ok(Traced {
            rt,
            names,
            ticks: Ticks::new(rt.alloc())?,
            command: Ok(None),
            inner,
        })
    }
}

impl<'a, R: AllocGlobal + Eprint, N: ScriptNames, K: Sink> Traced<'a, R, N, K> {
    // The line on the command that a shell's turn takes next, if it takes one.
    fn next_command(&mut self, world: &World, number: u8) -> Result<Option<String>, NoMemory>
        ensures { self.new.inner ≡ self.old.inner }
    {
        let Some(shell) = world.shell(number) else {
            return Ok(None);
        };
        if self.ticks.goes_on(shell)? || shell.asks_for_line() {
            return Ok(None);
        }
        command_line(self.rt.alloc(), self.names, shell)
    }

    // Writes a line on standard error. If it cannot be written the run goes on.
    fn tell(&self, line: &String) {
        let _ = match escaped(self.rt.alloc(), line) {
            Ok(shown) => self.rt.eprintln(format_args!("{shown}")),
            Err(_) => self.rt.eprintln(format_args!("{NO_MEMORY}")),
        };
    }
}

impl<'a, R: AllocGlobal + Eprint, N: ScriptNames, K: Sink> Sink for Traced<'a, R, N, K> {
    ghost contents = { λ t. K.contents t.inner };

    ghost faults = { λ t. K.faults t.inner };

    ghost stalls = { λ t. K.stalls t.inner };

    fn heed(&mut self, world: &World, next: Next) {
        self.inner.heed(world, next);
        if let Next::Turn(number) = next {
            self.command = self.next_command(world, number);
        }
    }

    // A command is told after what was printed before it.
    fn tells(&self) -> bool {
        true
    }

    // A turn that a break ends takes no command.
    fn heed_ends(&mut self, ends: &[EndReport]) {
        self.inner.heed_ends(ends);
        let command = mem::replace(&mut self.command, Ok(None));
        if let Some(end) = ends.iter().find(|end| end.broken) {
            self.ticks.forget(end.shell);
            return;
        }
        match command {
            Ok(Some(line)) => self.tell(&line),
            Ok(None) => {}
            Err(NoMemory) => {
                let _ = self.rt.eprintln(format_args!("{NO_MEMORY}"));
            }
        }
    }

    fn write(&mut self, buffer: &[u8]) -> io::Result<usize> {
        self.inner.write(buffer)
    }
}
