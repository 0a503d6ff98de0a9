// Why a file is not read.
ghost use Rattle.std.specs.Prelude.{◌≡◌};
ghost use Rattle.ados_session.specs.declared.faults.FileFault.TheVariants.{NoMemory as OutOfMemory};

use ados_text::NoMemory;
use thiserror::Error;

/// Why a file of hosts or a recording is not read.
#[derive(Clone, Copy, Debug, PartialEq, Eq, Error)]
pub enum FileFault {
    /// The line of this number, from 1, is the first that is invalid.
    #[error("bad line {0}")]
    BadLine(usize),
    /// There was not enough memory for what it holds.
    #[error("no free store")]
    NoMemory,
}

impl From<NoMemory> for FileFault {
    ghost from_gives = { λ _ fault. fault ≡ OutOfMemory };

    fn from(_e: NoMemory) -> FileFault {
        FileFault::NoMemory
    }
}
