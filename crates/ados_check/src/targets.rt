//! The targets of jumps in a script whose lines depend on its arguments.

use ados_items::{first_word, trimmed};
use ados_text::{Text, same_name};

/// What a line is for a jump depends on the arguments of the script: one of `written` is another among `lines`, which have some.
pub fn are_targets_open(written: &[Text], lines: &[Text]) -> bool {
    written.iter().zip(lines.iter()).any(|(written, line)| written != line
        && may_be_target(written.as_bytes(), line.as_bytes()))
}

// The same of one line.
fn may_be_target(written: &[u8], line: &[u8]) -> bool {
    if written.starts_with(b".") {
        return false;
    }
    let word = first_word(trimmed(written));
    !same_name(word, first_word(trimmed(line))) || same_name(word, b"Lab")
}
