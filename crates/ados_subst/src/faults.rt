// Why a script has no lines, and the number of each fault.
ghost use Rattle.std.specs.Prelude.{◌≡◌};
ghost use Rattle.ados_subst.specs.{Faults.{result2_of, args_fault}, declared.faults.SubstFault.TheVariants.{NoMemory as OutOfMemory}};

use ados_readargs::ArgFault;
use ados_text::{NoMemory, Result2};
use thiserror::Error;

/// Why a script has no lines.
#[derive(Clone, Copy, Debug, PartialEq, Eq, Error)]
pub enum SubstFault {
    /// The template is bad, or the arguments do not fill it. It is never `ArgFault::NoMemory`.
    #[error("{0}")]
    Args(ArgFault),
    /// The directive in the line with this number, from 1, is unknown, or is not valid there: fault 114.
    #[error("bad directive in line {0}")]
    BadDirective(usize),
    /// Out of memory for the lines.
    #[error("no free store")]
    NoMemory,
}

impl SubstFault {
    /// The number that a command returns for the fault.
    ///
    /// Running out of memory is not a fault of a command: it is passed on as `NoMemory`.
    pub fn result2(self) -> Result<Result2, NoMemory>
        ensures { result ≡ result2_of self }
    {
        match self {
            SubstFault::Args(fault) => fault.result2(),
            SubstFault::BadDirective(_) => Ok(Result2::BAD_TEMPLATE),
            SubstFault::NoMemory => Err(NoMemory),
        }
    }
}

impl From<ArgFault> for SubstFault {
    ghost from_gives = { λ fault e. e ≡ args_fault fault };

    fn from(fault: ArgFault) -> SubstFault {
        match fault {
            ArgFault::NoMemory => SubstFault::NoMemory,
            _ => SubstFault::Args(fault),
        }
    }
}

impl From<NoMemory> for SubstFault {
    ghost from_gives = { λ _ e. e ≡ OutOfMemory };

    fn from(_e: NoMemory) -> SubstFault {
        SubstFault::NoMemory
    }
}
