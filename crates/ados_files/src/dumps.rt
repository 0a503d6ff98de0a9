// How Type shows bytes: HEX and NUMBER.
ghost use Rattle.std.specs.{Prelude.{◌≡◌, ◌<◌, ◌+◌, ◌^◌, ◌++◌, map as each, IfOk, OnOk}, Option.{option_copied}};
ghost use Rattle.ados_files.specs.Dumps.{hex_digit, hex_byte, hex_place, hex_or_blanks, hex_group, hex_groups, character_of, hex_line, hex_lines, hex_text, line_number, numbered_text};

use ados_text::{NoMemory, Text, at_most, push_right, push_zero_padded, without};
use std::alloc::Global;

/// Appends the bytes of a file by HEX.
pub fn push_hex(output: &mut Vec<u8>, bytes: &[u8]) -> Result<(), NoMemory>
    ensures { OnOk result (output.new.items ≡ output.old.items ++ hex_text bytes.now) }
{
    push_hex_lines(output, (bytes.len() + 15) / 16, 0, bytes)
}

// Appends so many lines, from the one with a number on.
fn push_hex_lines(
    output: &mut Vec<u8>,
    count: usize,
    number: usize,
    bytes: &[u8],
) -> Result<(), NoMemory>
    requires within { number + count < 2 ^ 60 }
    ensures { OnOk result (output.new.items ≡ output.old.items ++ hex_lines count number bytes.now) }
{
    if count == 0 {
        return Ok(());
    }
    push_hex_line(output, number * 16, at_most(bytes, 16))?;
    push_hex_lines(output, count - 1, number + 1, without(bytes, 16))?;
    Ok(())
}

// Appends the line of up to 16 bytes.
fn push_hex_line(output: &mut Vec<u8>, place: usize, bytes: &[u8]) -> Result<(), NoMemory>
    ensures { OnOk result (output.new.items ≡ output.old.items ++ hex_line place bytes.now) }
{
    push_place(output, place)?;
    output.extend_from_slice(b": ")?;
    push_groups(output, bytes)?;
    output.extend_from_slice(b"    ")?;
    push_characters(output, bytes)?;
    output.push(b'\n')?;
    Ok(())
}

// Appends up to 16 bytes as four groups.
#[tactic(auto, unfolding(crate::specs::Dumps::hex_groups))]
fn push_groups(output: &mut Vec<u8>, bytes: &[u8]) -> Result<(), NoMemory>
    ensures { OnOk result (output.new.items ≡ output.old.items ++ hex_groups bytes.now) }
{
    push_group(output, bytes)?;
    push_group(output, without(bytes, 4))?;
    push_group(output, without(bytes, 8))?;
    push_group(output, without(bytes, 12))?;
    Ok(())
}

// Appends a place in a file.
fn push_place(output: &mut Vec<u8>, place: usize) -> Result<(), NoMemory>
    ensures { OnOk result (output.new.items ≡ output.old.items ++ hex_place place) }
{
    let digits = format!(in *output.allocator(); "{place:X}")?;
    push_zero_padded(output, 4, digits.as_bytes())
}

// A number below 16 as a digit, in capitals.
fn hex_digit(number: usize) -> u8
    requires { number < 16 }
    ensures { result ≡ hex_digit number }
{
    if number < 10 {
        b'0' + number as u8
    } else {
        b'A' - 10 + number as u8
    }
}

// Appends four bytes, with a blank behind them.
fn push_group(output: &mut Vec<u8>, bytes: &[u8]) -> Result<(), NoMemory>
    ensures { OnOk result (output.new.items ≡ output.old.items ++ hex_group bytes.now) }
{
    push_byte(output, bytes.first())?;
    push_byte(output, bytes.get(1))?;
    push_byte(output, bytes.get(2))?;
    push_byte(output, bytes.get(3))?;
    output.push(b' ')?;
    Ok(())
}

// Appends the digits of a byte; two blanks if it is missing.
fn push_byte(output: &mut Vec<u8>, byte: Option<&u8>) -> Result<(), NoMemory>
    ensures { OnOk result (output.new.items ≡ output.old.items ++ hex_or_blanks (option_copied byte.entry)) }
{
    match byte {
        None => output.extend_from_slice(b"  ")?,
        Some(byte) => output.extend_from_slice(&hex_byte(*byte))?,
    }
    Ok(())
}

fn hex_byte(byte: u8) -> [u8; 2]
    ensures { result ≡ hex_byte byte }
{
    let number = usize::from(byte);
    [hex_digit(number / 16), hex_digit(number % 16)]
}

// Appends bytes as characters.
fn push_characters(output: &mut Vec<u8>, bytes: &[u8]) -> Result<(), NoMemory>
    ensures { OnOk result (output.new.items ≡ output.old.items ++ each character_of bytes.now) }
{
    for byte in bytes {
        output.push(character_of(*byte))?;
    }
    Ok(())
}

fn character_of(byte: u8) -> u8
    ensures { result ≡ character_of byte }
{
    if (32..=126).contains(&byte) {
        byte
    } else {
        b'.'
    }
}

/// The lines of bytes by NUMBER.
pub fn numbered(alloc: Global, bytes: &[u8]) -> Result<Vec<u8>, NoMemory>
    ensures { IfOk result (λ output. output.items ≡ numbered_text bytes.now) }
{
    let mut output = Vec::new(alloc);
    let mut begins = true;
    let mut number = 1;
    for byte in bytes {
        push_line_number(&mut output, 5, begins, number)?;
        output.push(*byte)?;
        begins = *byte == b'\n';
        if begins {
            number += 1;
        }
    }
    Ok(output)
}

/// Appends the number of a line, right in so many places, and a blank, if it is shown.
pub fn push_line_number(
    output: &mut Vec<u8>,
    width: usize,
    is_shown: bool,
    number: usize,
) -> Result<(), NoMemory>
    ensures { OnOk result (output.new.items ≡ output.old.items ++ line_number width is_shown number) }
{
    if !is_shown {
        return Ok(());
    }
    let text = Text::of_number(*output.allocator(), number)?;
    push_right(output, width, text.as_bytes())?;
    output.push(b' ')?;
    Ok(())
}
