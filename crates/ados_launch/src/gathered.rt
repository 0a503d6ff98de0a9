//! Output is gathered, up to 4,000 bytes and 1,000 events, and written with what comes after it.
ghost use Rattle.std.specs.{Prelude.{◌≡◌, ◌<◌, ◌^◌, ◌-◌, ◌++◌, ℕ, List, [], true, false, OnOk, OnErr}, Io.KnownBytes.{Appends}};
ghost use Rattle.ados_launch.specs.Gathering.{FailsToWrite, Gathers, GetsPart};

use crate::Sink;
use crate::written::{WriteFault, write_whole};
use std::alloc::Global;
use std::marker::Model;

// So many bytes are written as soon as they are gathered.
const FULL_BYTES: usize = 4000;

// What so many events printed is written after the last of them.
const FULL_EVENTS: u32 = 1000;

/// Bytes that are gathered for a writer, in order.
#[derive(Drop)]
pub struct Gathered {
    bytes: Vec<u8>,
    // how many times bytes were added since the last were written
    added: u32,
}

impl Model for Gathered {
    ghost Value = { List ℕ };

    ghost view = { λ g. g.bytes.items };
}

impl Gathered {
    /// Nothing is gathered.
    pub fn new(alloc: Global) -> Gathered
        ensures { result ≡ [] }
    {
        Gathered {
            bytes: Vec::new(alloc),
            added: 0,
        }
    }

    /// Gathers these bytes too, and writes all where they are many, or where there is no memory for them.
    ///
    /// `WriteFault`: a write failed or wrote nothing; what was not written is lost.
    pub fn add<K: Sink>(&mut self, writer: &mut K, bytes: &[u8]) -> Result<(), WriteFault>
        requires { K.faults writer.old < 2 ^ 64 - 1 }
        ensures gathers { OnOk result (Gathers self.old self.new (K.contents writer.old) (K.contents writer.new) bytes.now) }
        ensures honest { OnOk result ((K.faults writer.new ≡ K.faults writer.old) × (K.stalls writer.new ≡ K.stalls writer.old)) }
        ensures part { OnErr result (GetsPart (K.contents writer.old) (K.contents writer.new) (self.old ++ bytes.now)) }
        ensures cause { OnErr result (FailsToWrite (K.faults writer.old) (K.faults writer.new) (K.stalls writer.old) (K.stalls writer.new)) }
    {
        if self.hold(bytes) {
            self.release_if(writer, self.is_full())
        } else {
            self.release(writer)?;
            write_whole(writer, bytes)
        }
    }

    // Gathers these bytes too, unless they are many, or there is no memory for them.
    fn hold(&mut self, bytes: &[u8]) -> bool
        ensures held { result ≡ true → self.new ≡ self.old ++ bytes.now }
        ensures none { result ≡ false → self.new ≡ self.old }
    {
        if bytes.len() >= FULL_BYTES || self.bytes.extend_from_slice(bytes).is_err() {
            return false;
        }
        self.added = self.added.saturating_add(1);
        true
    }

    // What is gathered is to be written, even before anything waits.
    fn is_full(&self) -> bool {
        self.bytes.len() >= FULL_BYTES || self.added >= FULL_EVENTS
    }

    /// Writes what is gathered, if that is due.
    ///
    /// `WriteFault` as of [`release`](Gathered::release).
    pub fn release_if<K: Sink>(&mut self, writer: &mut K, is_due: bool) -> Result<(), WriteFault>
        requires { K.faults writer.old < 2 ^ 64 - 1 }
        ensures gathers { OnOk result (Gathers self.old self.new (K.contents writer.old) (K.contents writer.new) []) }
        ensures due { is_due ≡ true → self.new ≡ [] }
        ensures honest { OnOk result ((K.faults writer.new ≡ K.faults writer.old) × (K.stalls writer.new ≡ K.stalls writer.old)) }
        ensures part { OnErr result (GetsPart (K.contents writer.old) (K.contents writer.new) self.old) }
        ensures cause { OnErr result (FailsToWrite (K.faults writer.old) (K.faults writer.new) (K.stalls writer.old) (K.stalls writer.new)) }
    {
        if is_due {
            self.release(writer)?;
        }
        Ok(())
    }

    /// Writes what is gathered. If that is nothing the writer is left alone.
    ///
    /// `WriteFault`: a write failed or wrote nothing; what was not written is lost.
    pub fn release<K: Sink>(&mut self, writer: &mut K) -> Result<(), WriteFault>
        requires { K.faults writer.old < 2 ^ 64 - 1 }
        ensures none { self.new ≡ [] }
        ensures written { OnOk result (Appends (K.contents writer.old) (K.contents writer.new) self.old) }
        ensures honest { OnOk result ((K.faults writer.new ≡ K.faults writer.old) × (K.stalls writer.new ≡ K.stalls writer.old)) }
        ensures part { OnErr result (GetsPart (K.contents writer.old) (K.contents writer.new) self.old) }
        ensures cause { OnErr result (FailsToWrite (K.faults writer.old) (K.faults writer.new) (K.stalls writer.old) (K.stalls writer.new)) }
        ensures untouched { self.old ≡ [] → writer.new ≡ writer.old }
    {
        self.added = 0;
        if self.bytes.is_empty() {
            return Ok(());
        }
        let written = write_whole(writer, self.bytes.as_slice());
        self.bytes.clear();
        written
    }
}
