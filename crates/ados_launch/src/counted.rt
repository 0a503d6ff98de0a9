// A reader whose failed reads are counted, for contracts.
ghost use Rattle.std.specs.{Prelude.{◌≡◌, ◌<◌, ◌^◌, ◌-◌, ℕ, List, Option, length}, Io.{ReadsAtMost, WritesAtMost}, Io.KnownBytes.{ReadConsumes, WriteAppends}};
ghost use Rattle.ados_launch.specs.Faults.{CountsFault, CountsStall};

use crate::next::Next;
use ados_machine::EndReport;
use ados_world::World;
use std::io;
use std::io::{Read, Write};

/// A reader whose failed reads are counted.
pub trait Source {
    /// The bytes that reads will give from here on, if they are known.
    ghost left: { Self → Option (List ℕ) };

    /// How many reads have failed.
    ghost faults: { Self → ℕ };

    /// Shows the reader the world that is about to take a line.
    ///
    /// A program's own reader may choose by it what its reads give next, if that is not known; other readers do nothing.
    fn heed(&mut self, _world: &World)
        ensures left { left self.new ≡ left self.old }
        ensures faults { faults self.new ≡ faults self.old }
    {}

    /// Reads some bytes into the beginning of the buffer, and gives their number.
    ///
    /// 0 is returned only at the end, or if the buffer is empty. An `Err` loses no byte and adds one to
    /// the faults; one whose kind is `Interrupted` is an `Err` like any other.
    fn read(&mut self, buffer: &mut [u8]) -> io::Result<usize>
        requires { faults self.old < 2 ^ 64 - 1 }
        ensures bound { ReadsAtMost result buffer.new }
        ensures bytes { ReadConsumes (left self.old) (left self.new) result buffer.new }
        ensures counted { CountsFault (faults self.old) (faults self.new) result };
}

/// A writer whose failed writes are counted, and those that wrote nothing.
pub trait Sink {
    /// The bytes that it holds, if they are known.
    ghost contents: { Self → Option (List ℕ) };

    /// How many writes have failed.
    ghost faults: { Self → ℕ };

    /// How many writes wrote nothing of a buffer that was not empty; the count stops at 2^64 - 1.
    ghost stalls: { Self → ℕ };

    /// Shows the writer the world in which this comes next.
    ///
    /// A program's own writer may tell elsewhere, as on standard error, what is taken; other writers do nothing.
    fn heed(&mut self, _world: &World, _next: Next)
        ensures contents { contents self.new ≡ contents self.old }
        ensures faults { faults self.new ≡ faults self.old }
        ensures stalls { stalls self.new ≡ stalls self.old }
    {}

    /// What is shown to the writer it tells elsewhere, where it has to come after what was printed before it.
    fn tells(&self) -> bool {
        false
    }

    /// Shows the writer the scripts that ended at the event that was taken, before what it printed is written.
    fn heed_ends(&mut self, _ends: &[EndReport])
        ensures contents { contents self.new ≡ contents self.old }
        ensures faults { faults self.new ≡ faults self.old }
        ensures stalls { stalls self.new ≡ stalls self.old }
    {}

    /// Writes a prefix of the buffer, and gives its length.
    ///
    /// An `Err` writes nothing and adds one to the faults; one whose kind is `Interrupted` is an
    /// `Err` like any other. `Ok(0)` of a buffer that is not empty adds one to the stalls.
    fn write(&mut self, buffer: &[u8]) -> io::Result<usize>
        requires { faults self.old < 2 ^ 64 - 1 }
        ensures bound { WritesAtMost result buffer.now }
        ensures bytes { WriteAppends (contents self.old) (contents self.new) result buffer.now }
        ensures counted { CountsFault (faults self.old) (faults self.new) result }
        ensures stalled { CountsStall (stalls self.old) (stalls self.new) result (length buffer.now) };
}

/// A reader or writer of std, with its faults counted.
#[derive(Drop)]
pub struct Counted<T> {
    inner: T,
    faults: u64,
    stalls: u64,
}

impl<T> Counted<T> {
    /// The reader or writer, with both counts at 0.
    pub fn new(inner: T) -> Counted<T>
        ensures { result ≡ record { inner = inner; faults = 0; stalls = 0 } }
    {
        Counted {
            inner,
            faults: 0,
            stalls: 0,
        }
    }
}

impl<R: Read> Source for Counted<R> {
    ghost left = { λ s. R.remaining s.inner };

    ghost faults = { λ s. s.faults };

    fn read(&mut self, buffer: &mut [u8]) -> io::Result<usize> {
        match self.inner.read(buffer) {
            Ok(count) => Ok(count),
            Err(error) => {
                self.faults += 1;
                Err(error)
            }
        }
    }
}

impl<W: Write> Sink for Counted<W> {
    ghost contents = { λ s. W.contents s.inner };

    ghost faults = { λ s. s.faults };

    ghost stalls = { λ s. s.stalls };

    fn write(&mut self, buffer: &[u8]) -> io::Result<usize> {
        match self.inner.write(buffer) {
            Ok(count) => {
                if count == 0 && !buffer.is_empty() {
                    self.stalls = self.stalls.saturating_add(1);
                }
                Ok(count)
            }
            Err(error) => {
                self.faults += 1;
                Err(error)
            }
        }
    }
}
