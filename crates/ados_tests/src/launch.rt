// A driver with a reader and a writer that fail.
use crate::drive::{Given, PLAIN, driven};
use crate::wrong::{Wrong, expect, expect_row};
use ados_launch::{DriveFault, End};
use ados_text::{Code, NoMemory, Result2};
use std::alloc::Global;

const TWO_LINES: Given = Given {
    lines: b"Echo a\nEcho b\n",
    ..PLAIN
};

// The world ends well in this way, after this many bytes.
fn ends(alloc: Global, given: Given, want: End, bytes: usize) -> Result<bool, NoMemory> {
    match driven(alloc, given)? {
        (Ok(end), written) => Ok(end == want && written == bytes),
        (Err(_), _) => Ok(false),
    }
}

const FAILED: End = End {
    code: Code::ERROR,
    result2: Result2::OBJECT_NOT_FOUND,
    events: 4,
};

#[test]
fn the_end_has_the_codes_of_the_last_command(rt: HostRuntime) -> Result<(), Wrong> {
    let given = Given {
        lines: b"foo\n",
        ..PLAIN
    };
    expect(ends(rt.alloc(), given, FAILED, 47)?, "the end")
}

// The fault that ends the world, if one does, and how many bytes were written before it.
fn fault(alloc: Global, given: Given) -> Result<(Option<DriveFault>, usize), NoMemory> {
    let (ended, bytes) = driven(alloc, given)?;
    Ok((ended.err(), bytes))
}

// Each of these reads fails in its turn.
fn fail_reads(alloc: Global, reads: usize) -> Result<(), Wrong> {
    for read in 1..=reads {
        let given = Given {
            failed_read: read as u64,
            ..TWO_LINES
        };
        let (found, _) = fault(alloc, given)?;
        expect_row(matches!(found, Some(DriveFault::Read)), read)?;
    }
    Ok(())
}

// Six reads: five of up to three bytes, two of which end within a line, and one at the end.
#[test]
fn each_failed_read_is_a_read_fault(rt: HostRuntime) -> Result<(), Wrong> {
    fail_reads(rt.alloc(), 6)?;
    let ended = fault(rt.alloc(), TWO_LINES)?;
    expect(matches!(ended, (None, 4)), "reads that do not fail")
}

// The world stops at a write, after this many bytes.
fn stops_at_write(alloc: Global, given: Given, bytes: usize) -> Result<bool, NoMemory> {
    let (found, written) = fault(alloc, given)?;
    Ok(matches!(found, Some(DriveFault::Write)) && written == bytes)
}

// Each of these writes, of one byte each, fails in its turn, and then writes nothing in its turn.
fn fail_writes(alloc: Global, writes: usize) -> Result<(), Wrong> {
    let given = Given {
        lines: b"Echo ab",
        ..PLAIN
    };
    for written in 0..writes {
        let call = written as u64 + 1;
        let failed = Given {
            failed_write: call,
            ..given
        };
        let stalled = Given {
            stalled_write: call,
            ..given
        };
        expect_row(stops_at_write(alloc, failed, written)?, written)?;
        expect_row(stops_at_write(alloc, stalled, written)?, written)?;
    }
    Ok(())
}

#[test]
fn each_write_that_fails_or_takes_nothing_is_a_write_fault(rt: HostRuntime) -> Result<(), Wrong> {
    fail_writes(rt.alloc(), 3)
}

#[test]
fn no_event_is_taken_without_turns(rt: HostRuntime) -> Result<(), Wrong> {
    let given = Given {
        turns: 0,
        ..TWO_LINES
    };
    let ended = fault(rt.alloc(), given)?;
    expect(matches!(ended, (Some(DriveFault::Turns), 0)), "no turns")
}
