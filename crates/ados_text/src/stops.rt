// Why a call stops.
ghost use Rattle.std.specs.Prelude.{◌≡◌};
ghost use Rattle.ados_text.specs.declared.stops.Stop.TheVariants.{NoMemory as OutOfMemory};

use crate::codes::{Result2, fault_text};
use crate::errors::NoMemory;
use thiserror::Error;

/// Why a call stops that looks something up, or changes something.
#[derive(Clone, Copy, Debug, PartialEq, Eq, Error)]
pub enum Stop {
    /// It is refused, with this fault. The documents of each call name its faults.
    #[error("{}", fault_text(*.0))]
    Refused(Result2),
    /// An allocation failed.
    #[error("no free store")]
    NoMemory,
}

impl From<NoMemory> for Stop {
    ghost from_gives = { λ _ e. e ≡ OutOfMemory };

    fn from(_e: NoMemory) -> Stop {
        Stop::NoMemory
    }
}
