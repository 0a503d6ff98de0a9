//! A script with directives: its lines with arguments that fill its template, by which a line that depends on them is told.

ghost use Rattle.std.specs.Prelude.{◌≡◌, ℕ, true, IfOk, IfSome};
ghost use Rattle.ados_text.specs.Lines.{lines_of};
ghost use Rattle.ados_check.specs.{Directives.{IfBad, IfLines, IsAlwaysBad, IsBadAt, IsFoundAt, IsNeverCalled, IsSample}, Signs.{is_dotted}};

use crate::findings::{Finding, Problem};
use crate::signs::is_dotted;
use ados_items::{first_word, rest_of};
use ados_readargs::{ArgFault, Template, TemplateOption};
use ados_subst::{SubstFault, script};
use ados_text::{NoMemory, Text, Texts, lines_of, same_name};
use std::alloc::Global;

/// What is known of a script's lines before it is called.
#[derive(Drop)]
pub enum Sample {
    /// They are these with some arguments; a line that is as it is written does not depend on them.
    Lines(Texts),
    /// The directive in this line is bad.
    Bad(usize),
    /// No arguments were found that fill its template.
    Unknown,
}

/// The bad directive of a script of these bytes, if it has one. Such a script is never called: Execute answers the fault of that line,
/// or one of its arguments.
pub fn bad_directive(alloc: Global, bytes: &[u8]) -> Result<Option<Finding>, NoMemory>
    ensures never { IfOk result (λ found. IfSome found (λ one. IsNeverCalled (lines_of bytes.now) one.line)) }
    // One that is bad whatever the arguments are is found.
    ensures found { IfOk result (λ found. (line : ℕ) → is_dotted bytes.now ≡ true → IsAlwaysBad (lines_of bytes.now) line → IsFoundAt line found) }
{
    if !is_dotted(bytes) {
        return Ok(None);
    }
    let written = lines_of(alloc, bytes)?;
    match sample_of(alloc, written.as_slice(), bytes)? {
        Sample::Bad(line) => Ok(Some(Finding {
            line,
            problem: Problem::BadDirective,
        })),
        Sample::Lines(_) | Sample::Unknown => Ok(None),
    }
}

/// The lines of a script, as it is written and by its bytes, with some arguments.
#[tactic(auto, using(crate::proofs::DirectiveLemmas::bad_line, crate::proofs::DirectiveLemmas::is_sample, crate::proofs::DirectiveLemmas::bad_found, crate::proofs::DirectiveLemmas::never_lines, crate::proofs::DirectiveLemmas::never_args))]
pub fn sample_of(alloc: Global, written: &[Text], bytes: &[u8]) -> Result<Sample, NoMemory>
    // The script of a bad directive is never called: Execute answers the fault of that line, or one of the arguments.
    ensures bad { IfOk result (λ sample. IfBad sample (IsNeverCalled (lines_of bytes.now))) }
    ensures lines { IfOk result (λ sample. IfLines sample (IsSample (lines_of bytes.now))) }
    ensures found { IfOk result (λ sample. (line : ℕ) → IsAlwaysBad (lines_of bytes.now) line → IsBadAt line sample) }
{
    let key = key_line(written);
    let args = match key {
        Some((_, template)) => sample_args(alloc, template)?,
        None => Text::new(alloc),
    };
    match script(alloc, bytes, args.as_bytes(), 1) {
        Ok(lines) => Ok(Sample::Lines(lines)),
        Err(SubstFault::NoMemory) => Err(NoMemory),
        Err(SubstFault::BadDirective(line)) => Ok(Sample::Bad(line)),
        Err(SubstFault::Args(ArgFault::BadTemplate)) => {
            Ok(Sample::Bad(key.map_or(1, |(line, _)| line)))
        }
        Err(SubstFault::Args(_)) => Ok(Sample::Unknown),
    }
}

// The number of the line that has the template, and its text.
fn key_line(written: &[Text]) -> Option<(usize, &[u8])> {
    for (place, line) in written.iter().enumerate() {
        if let [b'.', body @ ..] = line.as_bytes() {
            let word = first_word(body);
            if same_name(word, b"KEY") || same_name(word, b"K") {
                return Some((place.saturating_add(1), rest_of(body)));
            }
        }
    }
    None
}

// Arguments that fill each option which has to be filled; a number fills any.
fn sample_args(alloc: Global, template: &[u8]) -> Result<Text, NoMemory> {
    let mut args = Text::new(alloc);
    let text = Text::from_bytes(alloc, template)?;
    match Template::parse(alloc, &text) {
        Ok(template) => {
            for option in template.options() {
                push_sample(&mut args, option)?;
            }
        }
        Err(ArgFault::NoMemory) => return Err(NoMemory),
        Err(_) => {}
    }
    Ok(args)
}

fn push_sample(args: &mut Text, option: &TemplateOption) -> Result<(), NoMemory> {
    if !option.qualifiers.required {
        return Ok(());
    }
    args.push(b' ')?;
    if option.qualifiers.keyword {
        if let Some(name) = option.names.get(0) {
            args.push_bytes(name.as_bytes())?;
            args.push(b' ')?;
        }
    }
    args.push(b'1')
}

/// The line begins with the word of a directive.
pub fn is_directive(line: &[u8]) -> bool {
    let [b'.', body @ ..] = line else {
        return false;
    };
    let word = first_word(body);
    ["KEY", "K", "DEF", "BRA", "KET", "DOLLAR", "DOL", "DOT"]
        .iter()
        .any(|name| same_name(word, name.as_bytes()))
}
