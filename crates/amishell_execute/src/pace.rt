//! How often a shared folder is brought up to date while the script goes on.
ghost use Rattle.std.specs.Prelude.{◌≡◌, ◌+◌, ◌-◌, ◌^◌, false, min, true};
ghost use Rattle.amishell_execute.specs.{Pace.{is_due_at_once, is_long_after, may_be_due, may_differ}, declared.due.Due.TheVariants.{Turn}};

use crate::due::Due;
use std::time::{Clock, Instant};

// The clock is read after each of this many events that may change files.
const LOOK: u32 = 64;

// An update is due before each of this many reads after a program's start, if files may have changed. A program that prints more often
// does not let wait long.
const READS: u32 = 100;

// If the last update is this many nanoseconds ago, the next one is due. An update of a full directory takes half a millisecond.
const PAUSE: u128 = 100_000_000;

/// What happened since the last update.
#[derive(Clone, Copy)]
pub struct Pace {
    // How many events may have changed files.
    events: u32,
    // When the update was; unknown if the clock cannot be read.
    updated: Option<Instant>,
    // How many pieces of output were read since a program started last.
    reads: u32,
}

impl Pace {
    /// An update was made just now.
    pub fn new<R: Clock>(rt: &R) -> Pace
        ensures { may_differ result ≡ false }
    {
        Pace {
            events: 0,
            updated: Instant::now(rt).ok(),
            reads: 0,
        }
    }

    /// An update was made just now.
    pub fn update<R: Clock>(&mut self, rt: &R)
        ensures { may_differ self.new ≡ false }
    {
        *self = Pace {
            reads: self.reads,
            ..Pace::new(rt)
        };
    }

    /// Whether an update is due before an event that asks for this, besides the one that each start has. If files may have changed, it is
    /// before anything that may wait long: a line of standard input, the end of a program, and a read of its output.
    pub fn is_due<R: Clock>(&mut self, rt: &R, due: Due) -> bool
        ensures at_once { is_due_at_once self.old due ≡ true → result ≡ true }
        ensures late { result ≡ true → may_be_due self.old due ≡ true }
        // After an event that may change files they may differ.
        ensures turn { due ≡ Turn → may_differ self.new ≡ true }
    {
        match due {
            Due::Start(_) => {
                self.reads = 0;
                false
            }
            Due::Wait(_) | Due::Input => self.events > 0,
            Due::Read => {
                self.reads = self.reads.saturating_add(1);
                self.events > 0 && (self.reads <= READS || self.is_late(rt))
            }
            Due::Turn => self.pass(rt),
        }
    }

    /// Before an event that may change files an update may be due.
    pub fn may_be_due(&self) -> bool
        ensures { result ≡ may_be_due self.now Turn }
    {
        self.events > 0 && self.events % LOOK == 0
    }

    // Counts an event that may change files, and gives whether an update is due before it.
    fn pass<R: Clock>(&mut self, rt: &R) -> bool
        ensures late { result ≡ true → may_be_due self.old Turn ≡ true }
        ensures events { self.new.events ≡ min (self.old.events + 1) (2 ^ 32 - 1) }
    {
        let is_due = self.may_be_due() && self.is_late(rt);
        self.events = self.events.saturating_add(1);
        is_due
    }

    // The last update is long ago.
    fn is_late<R: Clock>(&self, rt: &R) -> bool {
        match (self.updated, Instant::now(rt)) {
            (Some(updated), Ok(now)) => is_long_after(now, updated),
            _ => false,
        }
    }
}

// A moment is long after another.
fn is_long_after(later: Instant, earlier: Instant) -> bool
    ensures { result ≡ is_long_after later earlier }
{
    later.duration_since(earlier).as_nanos() >= PAUSE
}
