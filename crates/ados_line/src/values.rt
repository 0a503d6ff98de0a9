// A text with the values of its variables.
ghost use Rattle.std.specs.Prelude.{◌≡◌, ◌++◌, IfOk};
ghost use Rattle.ados_line.specs.{Answers.{within_line_limit, Gives}, Values.{visible_variables, first_segment, later_letter_count, text_of_segment, values}};

use crate::faults::LineFault;
use crate::letters::Letter;
use crate::references::{find_reference, is_plain};
use crate::scopes::Scope;
use crate::spelling::{push_one, push_spelled};
use ados_text::{LINE_BYTES, NoMemory, Text};

/// The text that the characters stand for, with the values of their variables.
pub fn put_values(scope: &Scope, letters: &[Letter]) -> Result<Text, LineFault>
    ensures { Gives result (within_line_limit (values (visible_variables scope.now) 0 letters.now)) }
{
    let mut text = Text::new(scope.alloc);
    let mut taken = 0;
    for place in 0..letters.len() {
        if taken > 0 {
            taken -= 1;
        } else {
            taken = push_segment(scope, letters[place], &letters[place + 1..], &mut text)?;
        }
        if text.as_bytes().len() > LINE_BYTES {
            return Err(LineFault::LineTooLong);
        }
    }
    Ok(text)
}

// Appends the text of the segment that begins with a character; gives how many of the characters after it belong to it.
fn push_segment(
    scope: &Scope,
    letter: Letter,
    rest: &[Letter],
    text: &mut Text,
) -> Result<usize, NoMemory>
    ensures { let segment = first_segment (visible_variables scope.now) letter rest.now in
        IfOk result (λ count. (count ≡ later_letter_count segment) × (text.new ≡ text.old ++ text_of_segment segment)) }
{
    if is_plain(letter, b'$') {
        if let Some(r) = find_reference(rest) {
            let mut name = Text::new(scope.alloc);
            push_spelled(&mut name, &rest[r.from..r.to])?;
            if let Some(value) = scope.value(name)? {
                text.push_bytes(value.as_bytes())?;
                return Ok(r.end);
            }
        }
    }
    push_one(text, letter, b'$')?;
    Ok(0)
}
