// Bytes that were read and not yet taken.
ghost use Rattle.std.specs.{Prelude.{◌≡◌, ◌<◌, ◌≤◌, ◌^◌, ◌-◌, ℕ, List, [], ◌∷◌, length, take, drop, IfOk, IfSome, IfNone, OnErr}, Io.KnownBytes.{Consumes, Keeps, IsAtEnd}};
ghost use Rattle.ados_launch.specs.{Faults.{CountsFault}, Lines.{bytes_ahead}};

use crate::Source;
use std::io;
use std::marker::Model;

const BUFFER_BYTES: usize = 4096;

/// The bytes that were read from a source and not yet taken.
///
/// They are lost when it is dropped: what comes next from the source is what follows them.
#[derive(Drop)]
pub struct ReadAhead {
    buffer: [u8; BUFFER_BYTES],
    from: usize,
    to: usize,
}

impl Model for ReadAhead {
    ghost Value = { List ℕ };

    ghost view = { λ h. take (h.to - h.from) (drop h.from h.buffer) };

    ghost invariant = { λ h. (h.from ≤ h.to) × (h.to ≤ 4096) };
}

impl ReadAhead {
    /// Nothing read ahead.
    pub fn new() -> ReadAhead
        ensures { result ≡ [] }
    {
        ReadAhead {
            buffer: [0; BUFFER_BYTES],
            from: 0,
            to: 0,
        }
    }

    /// Takes the next byte: of those read ahead, otherwise of the source.
    ///
    /// `None` is returned at the source's end. An `Err` is a failed read.
    pub fn next<S: Source>(&mut self, source: &mut S) -> io::Result<Option<u8>>
        requires { S.faults source.old < 2 ^ 64 - 1 }
        ensures byte { IfOk result (λ next. IfSome next (λ byte.
            Consumes (bytes_ahead self.old (S.left source.old)) (bytes_ahead self.new (S.left source.new)) (byte ∷ []))) }
        ensures end { IfOk result (λ next. IfNone next
            (IsAtEnd (bytes_ahead self.old (S.left source.old)) × Keeps (bytes_ahead self.old (S.left source.old)) (bytes_ahead self.new (S.left source.new)))) }
        ensures few { length self.new < 4096 }
        ensures counted { CountsFault (S.faults source.old) (S.faults source.new) result }
    {
        if self.from == self.to {
            let count = self.refill(source)?;
            if count == 0 {
                return Ok(None);
            }
        }
        Ok(Some(self.pop()))
    }

    /// The bytes that were read ahead.
    pub fn bytes(&self) -> &[u8]
        ensures { result.now ≡ self.now }
    {
        &self.buffer[self.from..self.to]
    }

    /// Takes this many of the bytes that were read ahead.
    pub fn skip(&mut self, count: usize)
        requires { count ≤ length self.old }
        ensures rest { self.new ≡ drop count self.old }
        ensures few { 0 < count → length self.new < 4096 }
    {
        self.from += count;
    }

    // Takes the first of the bytes read ahead.
    fn pop(&mut self) -> u8
        requires { 0 < length self.old }
        ensures first { self.old ≡ result ∷ self.new }
        ensures few { length self.new < 4096 }
    {
        let byte = self.buffer[self.from];
        self.from += 1;
        byte
    }

    // Reads ahead, by one read, and gives the number of bytes; it is 0 only at the end.
    fn refill<S: Source>(&mut self, source: &mut S) -> io::Result<usize>
        requires faults { S.faults source.old < 2 ^ 64 - 1 }
        requires empty { self.old ≡ [] }
        ensures bytes { IfOk result (λ count. (length self.new ≡ count) × Consumes (S.left source.old) (S.left source.new) self.new) }
        ensures end { IfOk result (λ count. count ≡ 0 → IsAtEnd (S.left source.new)) }
        ensures err { OnErr result (self.new ≡ []) }
        ensures counted { CountsFault (S.faults source.old) (S.faults source.new) result }
    {
        self.from = 0;
        self.to = 0;
        let count = source.read(&mut self.buffer)?;
        self.to = count;
        Ok(count)
    }
}
