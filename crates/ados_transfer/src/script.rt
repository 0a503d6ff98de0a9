//! A script of this machine as a script of the Shell.

use std::alloc::{AllocError, Global};

// The program by which a script of the Shell runs on this machine.
const INTERPRETER: &[u8] = b"amishell-execute";

/// Whether the bytes of an executable file are those of a script of the Shell: they are ASCII without NUL, and a first line
/// `#!..` names amishell-execute.
pub fn is_shell_script(bytes: &[u8]) -> bool {
    if bytes.iter().any(|byte| *byte == 0 || !byte.is_ascii()) {
        return false;
    }
    match bytes.strip_prefix(b"#!") {
        None => true,
        Some(rest) => names_interpreter(rest),
    }
}

// The first line names amishell-execute.
fn names_interpreter(rest: &[u8]) -> bool {
    let end = rest
        .iter()
        .position(|byte| *byte == b'\n')
        .unwrap_or(rest.len());
    rest[..end]
        .windows(INTERPRETER.len())
        .any(|name| name == INTERPRETER)
}

/// The bytes of a script as the Shell reads it: a first line `#!..` is a comment, and a CR before a newline is left out.
///
/// If there is a directive in the second line the comment is `. ..`, since a script has directives if its first line
/// is one; otherwise it is `; ..`.
pub fn shell_script(alloc: Global, bytes: &[u8]) -> Result<Vec<u8>, AllocError> {
    let mut script = Vec::with_capacity(alloc, bytes.len())?;
    let mut rest = bytes;
    if let Some(first) = bytes.strip_prefix(b"#!") {
        script.extend_from_slice(comment_sign(first))?;
        rest = first;
    }
    push_lines(&mut script, rest)?;
    Ok(script)
}

// How the comment begins that replaces a line `#!`, given what follows these two bytes.
fn comment_sign(rest: &[u8]) -> &'static [u8] {
    let end = rest.iter().position(|byte| *byte == b'\n');
    match end {
        Some(end) if rest[end..].starts_with(b"\n.") => b". ",
        _ => b"; ",
    }
}

// Adds bytes without each CR that comes before a newline.
fn push_lines(script: &mut Vec<u8>, bytes: &[u8]) -> Result<(), AllocError> {
    for place in 0..bytes.len() {
        if !bytes[place..].starts_with(b"\r\n") {
            script.push(bytes[place])?;
        }
    }
    Ok(())
}
