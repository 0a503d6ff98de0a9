// Why a line can't be read, and the number of each fault.
ghost use Rattle.std.specs.Prelude.{◌≡◌};
ghost use Rattle.ados_line.specs.{Faults.{result2_of}, declared.faults.LineFault.TheVariants.{NoMemory as OutOfMemory}};

use ados_text::{NoMemory, Result2};
use thiserror::Error;

/// Why a line can't be read.
#[derive(Clone, Copy, Debug, PartialEq, Eq, Error)]
pub enum LineFault {
    /// A redirection without a name.
    #[error("required argument missing")]
    ArgumentMissing,
    /// A second input or a second output.
    #[error("too many arguments")]
    TooManyArguments,
    /// A quote that is not closed.
    #[error("unmatched quotes")]
    UnmatchedQuotes,
    /// More than 512 bytes.
    #[error("line too long")]
    LineTooLong,
    /// `<>`, an input and an output in one.
    #[error("not implemented")]
    NotImplemented,
    /// An allocation failed.
    #[error("no free store")]
    NoMemory,
}

impl LineFault {
    /// The AmigaDOS error number (Result2) of the fault.
    pub fn result2(self) -> Result2
        ensures { result ≡ result2_of self }
    {
        match self {
            LineFault::ArgumentMissing => Result2::ARGUMENT_MISSING,
            LineFault::TooManyArguments => Result2::TOO_MANY_ARGUMENTS,
            LineFault::UnmatchedQuotes => Result2::UNMATCHED_QUOTES,
            LineFault::LineTooLong => Result2::LINE_TOO_LONG,
            LineFault::NotImplemented => Result2::NOT_IMPLEMENTED,
            LineFault::NoMemory => Result2::NO_FREE_STORE,
        }
    }
}

impl From<NoMemory> for LineFault {
    ghost from_gives = { λ _ e. e ≡ OutOfMemory };

    fn from(_e: NoMemory) -> LineFault {
        LineFault::NoMemory
    }
}
