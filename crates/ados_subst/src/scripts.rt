// The lines of a script, with its arguments substituted.
ghost use Rattle.std.specs.{Prelude.{◌≡◌, IfOk, IfSome}, Fmt.{decimal}, Option.{option_copied}};
ghost use Rattle.ados_text.specs.{Lines.{lines_of}, Text.{IsText}};
ghost use Rattle.ados_subst.specs.{Above.{initial_above}, Faults.{Gives}, Scripts.{ScriptBecomes, directive_text, is_dotted, substituted_lines, script_of}};

use crate::above::Above;
use crate::directives::directed;
use crate::faults::SubstFault;
use crate::lines::substituted;
use ados_text::{NoMemory, Text, Texts, lines_of};
use std::alloc::Global;

/// The lines of a script, from the bytes of its file, with its arguments substituted; `process` is the shell's number.
///
/// If the first line begins with `.`, each line that begins with the dot character is a directive and leaves an
/// empty line, and in every other line the references are replaced, by the directives that are above it. In any other
/// script the lines stay and the arguments are not looked at.
///
/// The fault is that of the first directive that has one: `BadDirective` with its line's number, or `Args`.
/// `NoMemory` only if an allocation fails.
pub fn script(alloc: Global, bytes: &[u8], args: &[u8], process: u8) -> Result<Texts, SubstFault>
    ensures value { Gives result (script_of (lines_of bytes.now) args.now (decimal process)) }
    ensures said { IfOk result (ScriptBecomes (lines_of bytes.now) args.now (decimal process)) }
{
    let lines = lines_of(alloc, bytes)?;
    if !is_dotted(lines.as_slice()) {
        return Ok(lines);
    }
    let process = Text::of_number(alloc, process)?;
    substituted_lines(alloc, args, &process, lines.as_slice())
}

// The first line begins with a dot.
fn is_dotted(lines: &[Text]) -> bool
    ensures { result ≡ is_dotted lines.now }
{
    match lines.first() {
        None => false,
        Some(line) => directive_text(b'.', line.as_bytes()).is_some(),
    }
}

// What follows the dot, if the line is a directive.
#[tactic(auto, using(ados_text::proofs::TextLemmas::parts))]
fn directive_text(dot: u8, line: &[u8]) -> Option<&[u8]>
    requires { IsText line.now }
    ensures value { option_copied result ≡ directive_text dot line.now }
    ensures ascii { IfSome result (λ body. IsText body.now) }
{
    match line {
        [first, body @ ..] if *first == dot => Some(body),
        _ => None,
    }
}

// The lines of a script with directives.
fn substituted_lines(
    alloc: Global,
    args: &[u8],
    process: &Text,
    lines: &[Text],
) -> Result<Texts, SubstFault>
    ensures { Gives result (substituted_lines args.now process.now initial_above 1 lines.now) }
{
    let mut above = Above::first();
    let mut texts = Texts::new(alloc);
    for place in 0..lines.len() {
        let line = lines[place].as_bytes();
        match directive_text(above.marks.dot, line) {
            None => texts.push(substituted(alloc, &above, process, line)?)?,
            Some(body) => {
                above = directed(alloc, above, args, place + 1, body)?;
                texts.push(Text::new(alloc))?;
            }
        }
    }
    Ok(texts)
}
