//! What is printed.

use ados_text::{NoMemory, push_number};
use ados_world::Codes;
use itoa::{Buffer, Integer};

/// Adds several parts in order.
pub fn push_all(text: &mut Vec<u8>, parts: &[&[u8]]) -> Result<(), NoMemory> {
    for part in parts {
        text.extend_from_slice(part)?;
    }
    Ok(())
}

/// Adds a count.
pub fn push_count<I: Integer>(text: &mut Vec<u8>, count: I) -> Result<(), NoMemory> {
    let mut buffer = Buffer::new();
    text.extend_from_slice(buffer.format(count).as_bytes())?;
    Ok(())
}

/// Adds the last code and Result2 of a shell.
pub fn push_codes(text: &mut Vec<u8>, codes: Codes) -> Result<(), NoMemory> {
    push_number(text, codes.code.0)?;
    text.push(b' ')?;
    push_number(text, i32::from(codes.result2.0))?;
    text.push(b'\n')?;
    Ok(())
}

/// Adds bytes in hexadecimal digits after a word.
pub fn push_hex(text: &mut Vec<u8>, word: &[u8], bytes: &[u8]) -> Result<(), NoMemory> {
    let digits = hex::encode(*text.allocator(), bytes)?;
    push_all(text, &[word, digits.as_bytes()])
}

/// Adds bytes line by line, each after a word, and marks one that has no end.
pub fn push_lines(text: &mut Vec<u8>, word: &[u8], bytes: &[u8]) -> Result<(), NoMemory> {
    for line in bytes.split_inclusive(|byte| *byte == b'\n') {
        match line.strip_suffix(b"\n") {
            Some(line) => push_all(text, &[word, b"| ", line, b"\n"])?,
            None => push_all(text, &[word, b"~ ", line, b"\n"])?,
        }
    }
    Ok(())
}
