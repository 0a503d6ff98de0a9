//! How texts of the Shell are shown outside of it.

use ados_text::Text;
use std::alloc::{AllocError, Global};
use std::fmt::Display;

/// A text as this machine shows it.
pub fn shown(text: &Text) -> &str {
    shown_bytes(text.as_bytes())
}

/// Bytes of a text as this machine shows them.
pub fn shown_bytes(bytes: &[u8]) -> &str {
    std::str::from_utf8(bytes).unwrap_or("?")
}

/// A line as text in which each control character is written by its number, as `\x1b`: a newline would begin another line, and a
/// terminal obeys others.
pub fn escaped<T: Display>(alloc: Global, line: &T) -> Result<String, AllocError> {
    let line = format!(in alloc; "{line}")?;
    let mut shown = String::with_capacity(alloc, line.len())?;
    for sign in line.as_str().chars() {
        if sign.is_control() {
            let number = u32::from(sign);
            let code = format!(in alloc; "\\x{number:02x}")?;
            shown.push_str(code.as_str())?;
        } else {
            shown.push(sign)?;
        }
    }
    Ok(shown)
}
