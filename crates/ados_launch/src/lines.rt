// The next line of an input.
ghost use Rattle.std.specs.Prelude.{◌≡◌, ◌<◌, ◌≤◌, ℕ, List, Option, true, false, vec_len, length, position, ◌^◌, ◌-◌, ◌+◌, [], ◌∷◌, ◌++◌, take, IfOk, IfSome, OnOk, OnErr, IsErrOf};
ghost use Rattle.ados_text.specs.Lines.{is_newline};
ghost use Rattle.ados_launch.specs.{Lines.{bytes_ahead, has_short_line, kind_of_length, IfKnown, TakesLine}, NoFurther.{TakesPart}};

use crate::Source;
use crate::faults::IntakeFault;
use crate::read_ahead::ReadAhead;
use ados_text::LINE_BYTES;
use std::alloc::AllocError;

// The longest line that is read to its end.
const INPUT_LINE_BYTES: u32 = 65_536;

/// What comes next from an input.
#[derive(Clone, Copy, PartialEq, Eq, Debug)]
pub enum LineKind {
    /// No line: no bytes are left.
    End,
    /// A line of at most 512 bytes.
    Short,
    /// A line of 513 to 65,536 bytes, which the machine does not take.
    Long,
    /// A line of more than 65,536 bytes, which is not read to its end.
    Overlong,
}

/// Takes the next line, up to byte 10 or the end, and gives its kind.
///
/// A last line without byte 10 counts if it is not empty. `line` then holds a short line; of any
/// other it holds at most the first 512 bytes. Of an overlong line 65,537 bytes are taken. The source
/// is read only if a byte of the line, or its end, was not read ahead.
///
/// `Read`: a read failed. `NoMemory`: no memory to hold the line. After either the bytes taken so far
/// are lost, which are bytes of this line.
pub fn next_line<S: Source>(
    held: &mut ReadAhead,
    source: &mut S,
    line: &mut Vec<u8>,
) -> Result<LineKind, IntakeFault>
    requires { S.faults source.old < 2 ^ 64 - 1 }
    ensures taken { IfOk result (λ kind. IfKnown (bytes_ahead held.old (S.left source.old))
        (λ bytes. TakesLine bytes kind line.new.items (bytes_ahead held.new (S.left source.new)))) }
    ensures short { vec_len line.new ≤ 512 }
    ensures few { length held.old < 4096 → length held.new < 4096 }
    ensures read { IsErrOf result IntakeFault.Read → S.faults source.new ≡ S.faults source.old + 1 }
    ensures others { (IsErrOf result IntakeFault.Read → ⊥) → S.faults source.new ≡ S.faults source.old }
    ensures no_further { IsErrOf result IntakeFault.NoMemory → IfKnown (bytes_ahead held.old (S.left source.old))
        (λ bytes. TakesPart bytes (bytes_ahead held.new (S.left source.new))) }
    // A short line that was read ahead whole is taken without a read.
    ensures ahead { has_short_line held.old ≡ true → IfOk result (λ kind. kind ≡ LineKind.Short) × (IsErrOf result IntakeFault.Read → ⊥) }
{
    line.clear();
    if take_held(held, line)? {
        return Ok(LineKind::Short);
    }
    for length in 0..=INPUT_LINE_BYTES {
        match held.next(source) {
            Err(_) => return Err(IntakeFault::Read),
            Ok(None) => {
                return Ok(if length == 0 {
                    LineKind::End
                } else {
                    kind_of(length)
                });
            }
            Ok(Some(b'\n')) => return Ok(kind_of(length)),
            Ok(Some(byte)) => {
                keep(line, byte)?;
            }
        }
    }
    Ok(LineKind::Overlong)
}

// Takes a short line that was read ahead whole, and the byte 10 after it; if there is no such line nothing
// is taken.
fn take_held(held: &mut ReadAhead, line: &mut Vec<u8>) -> Result<bool, AllocError>
    requires { line.old.items ≡ [] }
    ensures taken { IfOk result (λ is_taken. is_taken ≡ true → (left : Option (List ℕ)) → IfKnown (bytes_ahead held.old left) (λ bytes.
        TakesLine bytes LineKind.Short line.new.items (bytes_ahead held.new left))) }
    ensures none { IfOk result (λ is_taken. is_taken ≡ false → (held.new ≡ held.old) × (line.new.items ≡ [])) }
    ensures ahead { IfOk result (λ is_taken. is_taken ≡ has_short_line held.old) }
    ensures short { vec_len line.new ≤ 512 }
    ensures few { length held.old < 4096 → length held.new < 4096 }
    ensures err { OnErr result (held.new ≡ held.old) }
{
    let Some(length) = short_line_length(held) else {
        return Ok(false);
    };
    line.extend_from_slice(&held.bytes()[..length])?;
    held.skip(length + 1);
    Ok(true)
}

/// A short line was read ahead whole, with the byte 10 after it.
pub fn has_short_line(held: &ReadAhead) -> bool
    ensures { result ≡ has_short_line held.now }
{
    short_line_length(held).is_some()
}

// The length of the short line with which the bytes read ahead begin, if the byte 10 after it was read too.
#[tactic(auto, using(crate::proofs::HeldLines::short_position))]
fn short_line_length(held: &ReadAhead) -> Option<usize>
    ensures value { result ≡ position is_newline (take 513 held.now) }
    ensures within { IfSome result (λ place. place < length held.now) }
    ensures short { IfSome result (λ place. place ≤ 512) }
{
    let bytes = held.bytes();
    if bytes.len() > LINE_BYTES {
        return newline_at(&bytes[..LINE_BYTES + 1]);
    }
    newline_at(bytes)
}

// The place of the first byte 10.
fn newline_at(bytes: &[u8]) -> Option<usize>
    ensures value { result ≡ position is_newline bytes.now }
    ensures within { IfSome result (λ place. place < length bytes.now) }
{
    bytes.iter().position(|byte| *byte == b'\n')
}

// Keeps one more byte of a line, if there is room.
fn keep(line: &mut Vec<u8>, byte: u8) -> Result<(), AllocError>
    requires { vec_len line.old ≤ 512 }
    ensures kept { OnOk result (line.new.items ≡ take 512 (line.old.items ++ byte ∷ [])) }
    ensures short { vec_len line.new ≤ 512 }
{
    if line.len() < LINE_BYTES {
        line.push(byte)?;
    }
    Ok(())
}

// The kind of a line of this length.
fn kind_of(length: u32) -> LineKind
    ensures { result ≡ kind_of_length length }
{
    if length <= LINE_BYTES as u32 {
        LineKind::Short
    } else if length <= INPUT_LINE_BYTES {
        LineKind::Long
    } else {
        LineKind::Overlong
    }
}
