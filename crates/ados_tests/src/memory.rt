// A reader and a writer over memory that fail at a given call.
ghost use Rattle.std.specs.Prelude.{◌≤◌, Some};

use std::io;
use std::io::{Error, ErrorKind, Read, Write};

// No call: calls are counted from 1.
pub const NEVER: u64 = 0;

// Reads from memory, some bytes at a time, and fails at one call.
#[derive(Drop)]
pub struct FlakyReader<'a> {
    bytes: &'a [u8],
    chunk: usize,
    calls: u64,
    fails_at: u64,
    ghost gives: { 1 ≤ chunk },
}

impl<'a> FlakyReader<'a> {
    pub fn new(bytes: &'a [u8], chunk: usize, fails_at: u64) -> FlakyReader<'a> {
        FlakyReader {
            bytes,
            chunk: chunk.max(1),
            calls: 0,
            fails_at,
        }
    }
}

impl Read for FlakyReader<'_> {
    ghost remaining = { λ r. Some r.bytes.now };

    fn read(&mut self, buf: &mut [u8]) -> io::Result<usize> {
        self.calls = self.calls.saturating_add(1);
        if self.calls == self.fails_at {
            return Err(Error::from(ErrorKind::Interrupted));
        }
        let count = self.bytes.len().min(buf.len()).min(self.chunk);
        let (front, rest) = self.bytes.split_at(count);
        buf[..count].copy_from_slice(front);
        self.bytes = rest;
        Ok(count)
    }
}

// Writes to memory, some bytes at a time, and at one call fails or writes nothing.
#[derive(Drop)]
pub struct FlakyWriter<'a> {
    bytes: &'a mut Vec<u8>,
    chunk: usize,
    calls: u64,
    fails_at: u64,
    stalls_at: u64,
}

impl<'a> FlakyWriter<'a> {
    pub fn new(
        bytes: &'a mut Vec<u8>,
        chunk: usize,
        fails_at: u64,
        stalls_at: u64,
    ) -> FlakyWriter<'a> {
        FlakyWriter {
            bytes,
            chunk,
            calls: 0,
            fails_at,
            stalls_at,
        }
    }
}

impl Write for FlakyWriter<'_> {
    ghost contents = { λ w. Some w.bytes.now.items };

    fn write(&mut self, buf: &[u8]) -> io::Result<usize> {
        self.calls = self.calls.saturating_add(1);
        if self.calls == self.fails_at {
            return Err(Error::from(ErrorKind::Interrupted));
        }
        if self.calls == self.stalls_at {
            return Ok(0);
        }
        let count = self.chunk.min(buf.len());
        self.bytes.extend_from_slice(&buf[..count])?;
        Ok(count)
    }

    fn flush(&mut self) -> io::Result<()> {
        Ok(())
    }
}
