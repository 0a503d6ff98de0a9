// Why a text is not a pattern.
ghost use Rattle.std.specs.Prelude.{◌≡◌};
ghost use Rattle.ados_pattern.specs.declared.errors.PatternFault.TheVariants.{NoMemory as OutOfMemory};

use ados_text::NoMemory;
use thiserror::Error;

/// Why a text is not a pattern.
#[derive(Clone, Copy, Debug, PartialEq, Eq, Error)]
pub enum PatternFault {
    /// A fault, with the least place, from 0, at which there is one.
    #[error("bad pattern at {0}")]
    BadPattern(usize),
    /// More than 255 bytes.
    #[error("pattern too long")]
    TooLong,
    /// Out of memory for the pattern.
    #[error("no free store")]
    NoMemory,
}

impl From<NoMemory> for PatternFault {
    ghost from_gives = { λ _ e. e ≡ OutOfMemory };

    fn from(_e: NoMemory) -> PatternFault {
        PatternFault::NoMemory
    }
}
