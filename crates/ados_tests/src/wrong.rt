// Why a test fails. A test that gives this back needs no assertion: it is a few calls, which cost the prover
// next to nothing, over rows that a helper walks.
use ados_text::{NoMemory, Stop};

/// Why a test fails.
#[derive(Clone, Copy, Debug)]
pub enum Wrong {
    /// What this asks for has another answer.
    At(&'static str),
    /// The row at this place, from 0, has another answer.
    Row(usize),
    /// There is no memory.
    NoMemory,
}

impl From<NoMemory> for Wrong {
    fn from(_e: NoMemory) -> Wrong {
        Wrong::NoMemory
    }
}

impl From<Stop> for Wrong {
    fn from(fault: Stop) -> Wrong {
        match fault {
            Stop::NoMemory => Wrong::NoMemory,
            Stop::Refused(_) => Wrong::At("a call that is refused"),
        }
    }
}

/// What this asks for has the answer that it should have.
pub fn expect(holds: bool, asked: &'static str) -> Result<(), Wrong> {
    if holds { Ok(()) } else { Err(Wrong::At(asked)) }
}

/// The row at this place has the answer that it should have.
pub fn expect_row(holds: bool, place: usize) -> Result<(), Wrong> {
    if holds {
        Ok(())
    } else {
        Err(Wrong::Row(place))
    }
}
