//! The output of a run, by which it is seen which shell had an event.

use crate::trail::Trail;
use ados_launch::{Next, Sink};
use ados_machine::EndReport;
use ados_world::World;
use std::io;

/// A writer of a run, and the trail that it keeps of what it is shown.
#[derive(Drop)]
pub struct Watched<K: Sink> {
    /// Where the bytes go.
    pub inner: K,
    /// The scripts of each shell.
    pub trail: Trail,
}

impl<K: Sink> Sink for Watched<K> {
    ghost contents = { λ w. K.contents w.inner };

    ghost faults = { λ w. K.faults w.inner };

    ghost stalls = { λ w. K.stalls w.inner };

    fn heed(&mut self, world: &World, next: Next) {
        self.inner.heed(world, next);
        self.trail.expect(world, next);
    }

    fn tells(&self) -> bool {
        self.inner.tells()
    }

    fn heed_ends(&mut self, ends: &[EndReport]) {
        self.inner.heed_ends(ends);
    }

    fn write(&mut self, buffer: &[u8]) -> io::Result<usize> {
        self.inner.write(buffer)
    }
}
