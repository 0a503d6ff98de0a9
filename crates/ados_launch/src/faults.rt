// Why a run stops before its end.
ghost use Rattle.std.specs.Prelude.{◌≡◌};
ghost use Rattle.ados_launch.specs.{Faults.{drive_fault}, declared.faults.DriveFault.TheVariants.{Write}, declared.faults.IntakeFault.TheVariants.{NoMemory as OutOfMemory}};

use crate::written::WriteFault;
use ados_text::NoMemory;
use thiserror::Error;

/// Why a run stopped before its end.
#[derive(Clone, Copy, PartialEq, Eq, Debug, Error)]
pub enum DriveFault {
    /// The reader failed, or gave a line of more than 65,536 bytes.
    #[error("read fault")]
    Read,
    /// The writer failed, or wrote nothing.
    #[error("write fault")]
    Write,
    /// As many events as allowed were taken, and another one is due.
    #[error("turn limit reached")]
    Turns,
    /// There was no memory for the next line or event.
    #[error("out of memory")]
    Memory,
}

/// Why the next event was not taken.
#[derive(Clone, Copy, PartialEq, Eq, Debug, Error)]
pub enum IntakeFault {
    /// A read failed, or a line has more than 65,536 bytes.
    #[error("read fault")]
    Read,
    /// No memory for the line or the event.
    #[error("no free store")]
    NoMemory,
}

/// Why a run stops if the next event was not taken.
pub fn why_stopped(fault: IntakeFault) -> DriveFault
    ensures { result ≡ drive_fault fault }
{
    match fault {
        IntakeFault::Read => DriveFault::Read,
        IntakeFault::NoMemory => DriveFault::Memory,
    }
}

impl From<WriteFault> for DriveFault {
    ghost from_gives = { λ _ fault. fault ≡ Write };

    fn from(_e: WriteFault) -> DriveFault {
        DriveFault::Write
    }
}

impl From<NoMemory> for IntakeFault {
    ghost from_gives = { λ _ fault. fault ≡ OutOfMemory };

    fn from(_e: NoMemory) -> IntakeFault {
        IntakeFault::NoMemory
    }
}
