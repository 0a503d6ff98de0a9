// Why a text is not a template, or a line does not fill one.
ghost use Rattle.std.specs.Prelude.{◌≡◌};
ghost use Rattle.ados_readargs.specs.{Faults.{result2_of}, declared.errors.ArgFault.TheVariants.{NoMemory as OutOfMemory}};

use ados_text::{NoMemory, Result2};
use std::alloc::AllocFailed;
use thiserror::Error;

/// Why a text is not a template, or why a line does not fill one.
#[derive(Clone, Copy, Debug, PartialEq, Eq, Error)]
pub enum ArgFault {
    /// The text is not a template: fault 114.
    #[error("bad template")]
    BadTemplate,
    /// A value of an option with `/N` is not a number: fault 115.
    #[error("bad number")]
    BadNumber,
    /// An option with `/A` has no value: fault 116.
    #[error("required argument missing")]
    ArgumentMissing,
    /// No word is left for a keyword's value: fault 117.
    #[error("keyword needs a value")]
    ValueMissing,
    /// A word is left over, or an option is filled twice: fault 118.
    #[error("too many arguments")]
    TooMany,
    /// A quote at a word's start is never closed, outside the rest that an `/F` option takes:
    /// fault 119.
    #[error("unmatched quotes")]
    Unmatched,
    /// Out of memory for the answer.
    #[error("no free store")]
    NoMemory,
}

impl ArgFault {
    /// The number that a command returns for the fault.
    ///
    /// Running out of memory is not a fault of a command: it is passed on as `NoMemory`.
    pub fn result2(self) -> Result<Result2, NoMemory>
        ensures { result ≡ result2_of self }
    {
        match self {
            ArgFault::BadTemplate => Ok(Result2::BAD_TEMPLATE),
            ArgFault::BadNumber => Ok(Result2::BAD_NUMBER),
            ArgFault::ArgumentMissing => Ok(Result2::ARGUMENT_MISSING),
            ArgFault::ValueMissing => Ok(Result2::VALUE_MISSING),
            ArgFault::TooMany => Ok(Result2::TOO_MANY_ARGUMENTS),
            ArgFault::Unmatched => Ok(Result2::UNMATCHED_QUOTES),
            ArgFault::NoMemory => Err(NoMemory),
        }
    }
}

impl From<NoMemory> for ArgFault {
    ghost from_gives = { λ _ e. e ≡ OutOfMemory };

    fn from(_e: NoMemory) -> ArgFault {
        ArgFault::NoMemory
    }
}

impl<T: Drop> From<AllocFailed<T>> for ArgFault {
    ghost from_gives = { λ _ e. e ≡ OutOfMemory };

    fn from(_e: AllocFailed<T>) -> ArgFault {
        ArgFault::NoMemory
    }
}
