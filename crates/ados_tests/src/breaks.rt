// Breaks of a driven world: numbers that no recording can write, and how they count.
use crate::drive::{Given, PLAIN, driven};
use crate::wrong::{Wrong, expect, expect_row};
use ados_launch::{BreakAt, DriveFault};
use ados_text::NoMemory;
use ados_world::BreakKind;
use std::alloc::Global;

// With these breaks and turns this many events are taken, none if one more is due, and this many bytes are written.
fn takes(
    alloc: Global,
    breaks: &[BreakAt],
    turns: u64,
    want: Option<u64>,
    bytes: usize,
) -> Result<bool, NoMemory> {
    let given = Given {
        lines: b"Echo a\n",
        breaks,
        turns,
        ..PLAIN
    };
    match driven(alloc, given)? {
        (Ok(end), written) => Ok(want == Some(end.events) && written == bytes),
        (Err(DriveFault::Turns), written) => Ok(want.is_none() && written == bytes),
        _ => Ok(false),
    }
}

// The line, the turn that takes it, the end of the input and the turn that ends the shell are four events. A break is one more if
// its event comes and its shell runs. In each row: the event and the shell of the one break, the turns, how many events are
// taken, none if one more is due, and how many bytes are written.
const ROWS: &[(u64, u8, u64, Option<u64>, usize)] = &[
    (0, 1, 100, Some(5), 2),
    (1, 1, 100, Some(5), 2),
    (4, 1, 100, Some(5), 2),
    (5, 1, 100, Some(4), 2),
    (9, 1, 100, Some(4), 2),
    (1, 0, 100, Some(4), 2),
    (1, 2, 100, Some(4), 2),
    (1, 21, 100, Some(4), 2),
    (1, 255, 100, Some(4), 2),
    (2, 1, 5, Some(5), 2),
    (2, 1, 4, None, 2),
    (1, 2, 4, Some(4), 2),
    (1, 1, 1, None, 0),
    (0, 1, 0, None, 0),
];

// Each row has this result.
fn rows(alloc: Global, rows: &[(u64, u8, u64, Option<u64>, usize)]) -> Result<(), Wrong> {
    for (place, (event, shell, turns, taken, bytes)) in rows.iter().enumerate() {
        let at = BreakAt {
            event: *event,
            shell: *shell,
            kind: BreakKind::D,
        };
        expect_row(takes(alloc, &[at], *turns, *taken, *bytes)?, place)?;
    }
    Ok(())
}

#[test]
fn a_break_is_an_event_where_its_shell_is_there(rt: HostRuntime) -> Result<(), Wrong> {
    rows(rt.alloc(), ROWS)
}

// The second names an earlier event than the first, after which it comes.
const FALLING: &[BreakAt] = &[
    BreakAt {
        event: 3,
        shell: 1,
        kind: BreakKind::C,
    },
    BreakAt {
        event: 1,
        shell: 1,
        kind: BreakKind::D,
    },
];

#[test]
fn breaks_are_given_in_the_order_of_their_list(rt: HostRuntime) -> Result<(), Wrong> {
    expect(
        takes(rt.alloc(), FALLING, 100, Some(6), 2)?,
        "a list that falls",
    )
}
