// Lines of bytes.
ghost use Rattle.std.specs.Prelude.{◌≡◌, ◌<◌, length, position, IfOk, IfSome};
ghost use Rattle.ados_text.specs.Lines.{first_line, is_newline, lines_of};

use crate::errors::NoMemory;
use crate::lists::Texts;
use crate::texts::Text;
use std::alloc::Global;

/// The most bytes that a line of the Shell may have.
pub const LINE_BYTES: usize = 512;

/// The lines of a file's bytes: each ends at a byte 10, which the last one may lack. A non-ASCII byte is read as `?`.
pub fn lines_of(alloc: Global, bytes: &[u8]) -> Result<Texts, NoMemory>
    ensures { IfOk result (λ lines. lines ≡ lines_of bytes.now) }
{
    let mut lines = Texts::new(alloc);
    let mut line = Text::new(alloc);
    for byte in bytes {
        if *byte == b'\n' {
            lines.push(line)?;
            line = Text::new(alloc);
        } else {
            line.push(*byte)?;
        }
    }
    if !line.as_bytes().is_empty() {
        lines.push(line)?;
    }
    Ok(lines)
}

/// The first line of a file's bytes; empty if there are no bytes. A non-ASCII byte is read as `?`.
pub fn first_line(alloc: Global, bytes: &[u8]) -> Result<Text, NoMemory>
    ensures { IfOk result (λ line. line ≡ first_line bytes.now) }
{
    match newline(bytes) {
        None => Text::from_bytes(alloc, bytes),
        Some(end) => Text::from_bytes(alloc, &bytes[..end]),
    }
}

// The place of the first byte 10.
fn newline(bytes: &[u8]) -> Option<usize>
    ensures place { result ≡ position is_newline bytes.now }
    ensures within { IfSome result (λ place. place < length bytes.now) }
{
    bytes.iter().position(|byte| *byte == b'\n')
}
