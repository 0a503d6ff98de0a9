// The directives of a script, and its comments.
ghost use Rattle.std.specs.Prelude.{◌≡◌, IfOk};
ghost use Rattle.ados_text.specs.Text.{IsText};
ghost use Rattle.ados_subst.specs.{Faults.{Gives}, Directives.{default_of, default_result, directive_result, directive_named, is_remark, mark_named, mark_result, slots_of_template}};

use crate::above::Above;
use crate::faults::SubstFault;
use crate::marks::Mark;
use crate::slots::Slots;
use ados_items::{Item, first_word, next_item, rest_of, value};
use ados_readargs::Template;
use ados_text::{NoMemory, Text, same_name};
use std::alloc::Global;

/// What a directive sets, by its word.
#[derive(Clone, Copy)]
pub enum Directive {
    /// `KEY`: the template.
    Key,
    /// `DEF`: the default of an option.
    Default,
    /// `BRA`, `KET`, `DOLLAR`, `DOL` or `DOT`: another character for a mark.
    Sets(Mark),
}

/// What holds above the next line, by what holds above a directive, the arguments of the script, the directive's line
/// number, from 1, and what follows its dot.
///
/// `BadDirective` if there is no such directive, at a second `KEY`, at a default of an unknown option, and if
/// `BRA` or one like it does not name one character; `Args` if the template is bad or is not filled by the arguments.
pub fn directed(
    alloc: Global,
    above: Above,
    args: &[u8],
    number: usize,
    body: &[u8],
) -> Result<Above, SubstFault>
    requires { IsText body.now }
    ensures { Gives result (directive_result above args.now number body.now) }
{
    if is_remark(body) {
        return Ok(above);
    }
    let rest = rest_of(body);
    match directive_named(first_word(body)) {
        None => Err(SubstFault::BadDirective(number)),
        Some(Directive::Key) if above.slots.is_some() => Err(SubstFault::BadDirective(number)),
        Some(Directive::Key) => Ok(Above {
            marks: above.marks,
            slots: Some(slots_for(alloc, rest, args)?),
        }),
        Some(Directive::Default) => defaulted(alloc, above, number, rest),
        Some(Directive::Sets(mark)) => marked(above, number, mark, rest),
    }
}

// The directive is a comment: nothing follows its dot, or a blank or a `\` does.
fn is_remark(body: &[u8]) -> bool
    ensures { result ≡ is_remark body.now }
{
    match body {
        [] => true,
        [first, ..] => *first == b' ' || *first == b'\t' || *first == b'\\',
    }
}

fn directive_named(word: &[u8]) -> Option<Directive>
    ensures { result ≡ directive_named word.now }
{
    if same_name(word, b"KEY") || same_name(word, b"K") {
        Some(Directive::Key)
    } else if same_name(word, b"DEF") {
        Some(Directive::Default)
    } else {
        mark_named(word).map(Directive::Sets)
    }
}

fn mark_named(word: &[u8]) -> Option<Mark>
    ensures { result ≡ mark_named word.now }
{
    if same_name(word, b"BRA") {
        Some(Mark::Bra)
    } else if same_name(word, b"KET") {
        Some(Mark::Ket)
    } else if same_name(word, b"DOLLAR") || same_name(word, b"DOL") {
        Some(Mark::Dollar)
    } else if same_name(word, b"DOT") {
        Some(Mark::Dot)
    } else {
        None
    }
}

// The options of a template's text, filled with the arguments at once.
fn slots_for(alloc: Global, text: &[u8], args: &[u8]) -> Result<Slots, SubstFault>
    requires { IsText text.now }
    ensures { Gives result (slots_of_template text.now args.now) }
{
    let template = Template::parse(alloc, &Text::of_ascii(alloc, text)?)?;
    let args = template.fill(alloc, args)?;
    Ok(Slots::filled(alloc, &template, &args)?)
}

// `.DEF`: the default of an option.
fn defaulted(alloc: Global, above: Above, number: usize, text: &[u8]) -> Result<Above, SubstFault>
    requires { IsText text.now }
    ensures { Gives result (default_result above number text.now) }
{
    let default = default_of(alloc, rest_of(text))?;
    match above
        .slots
        .and_then(|slots| slots.with_default(first_word(text), default))
    {
        None => Err(SubstFault::BadDirective(number)),
        Some(slots) => Ok(Above {
            marks: above.marks,
            slots: Some(slots),
        }),
    }
}

// The default that a text gives: a quoted item's text, or the text as it is.
fn default_of(alloc: Global, text: &[u8]) -> Result<Text, NoMemory>
    requires { IsText text.now }
    ensures { IfOk result (λ default. default ≡ default_of text.now) }
{
    let item = next_item(text, 0);
    match item {
        Item::Quoted { .. } => value(alloc, text, &item),
        _ => Text::of_ascii(alloc, text),
    }
}

// `.BRA` and those like it: one other character.
fn marked(above: Above, number: usize, mark: Mark, text: &[u8]) -> Result<Above, SubstFault>
    ensures { result ≡ mark_result above number mark text.now }
{
    match text {
        [byte] => Ok(Above {
            marks: above.marks.with(mark, *byte),
            ..above
        }),
        _ => Err(SubstFault::BadDirective(number)),
    }
}
