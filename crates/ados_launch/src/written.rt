// Bytes written whole, or a write fault.
ghost use Rattle.std.specs.{Prelude.{◌≡◌, ◌⊎◌, ◌<◌, ◌^◌, ◌-◌, ◌+◌, ℕ, length, take, OnOk, OnErr}, Io.KnownBytes.{Appends}};
ghost use Rattle.ados_launch.specs.Faults.{one_more};

use crate::Sink;
use thiserror::Error;

/// The writer failed, or wrote nothing.
#[derive(Clone, Copy, PartialEq, Eq, Debug, Error)]
#[error("write fault")]
pub struct WriteFault;

/// Writes all of the bytes, by as many writes as that takes.
///
/// `WriteFault`: a write failed or wrote nothing, and a prefix of the bytes was written.
pub fn write_whole<K: Sink>(writer: &mut K, bytes: &[u8]) -> Result<(), WriteFault>
    requires { K.faults writer.old < 2 ^ 64 - 1 }
    ensures whole { OnOk result (Appends (K.contents writer.old) (K.contents writer.new) bytes.now) }
    ensures honest { OnOk result ((K.faults writer.new ≡ K.faults writer.old) × (K.stalls writer.new ≡ K.stalls writer.old)) }
    ensures front { OnErr result ((n : ℕ) × (n < length bytes.now) × Appends (K.contents writer.old) (K.contents writer.new) (take n bytes.now)) }
    ensures cause { OnErr result (((K.faults writer.new ≡ K.faults writer.old + 1) × (K.stalls writer.new ≡ K.stalls writer.old))
        ⊎ ((K.faults writer.new ≡ K.faults writer.old) × (K.stalls writer.new ≡ one_more (K.stalls writer.old)))) }
{
    let mut at = 0;
    while at < bytes.len() {
        match writer.write(&bytes[at..]) {
            Err(_) => return Err(WriteFault),
            Ok(0) => return Err(WriteFault),
            Ok(count) => at += count,
        }
    }
    Ok(())
}
