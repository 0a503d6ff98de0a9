// Templates, and which texts are templates.
ghost use Rattle.std.specs.{Prelude.{◌≡◌, [], Ok, Some, false, map, IfOk, IfErr, OnOk}, List.{slice_split, list_any, count_by}};
ghost use Rattle.ados_text.specs.Text.{to_ascii, is_same};
ghost use Rattle.ados_readargs.specs.{Options.{has_name, no_qualifiers}, Checks.{has_bad}, Fill.{fill_of, LosesNoWord}, Faults.{IsFaultOf, IsBadTemplate}, Phrases.{IsFilled}, Template.{IsTemplate, with_letter, with_qualifier, parsed_qualifiers, qualifiers_of_pieces, is_byte, names_of, option_of, parsed_options, is_many, occurs_again, is_twice, has_twice, is_template, template_of, options_of}};

use crate::args::Args;
use crate::errors::ArgFault;
use crate::option_list::OptionList;
use crate::options::{Qualifiers, TemplateOption, has_rest};
use ados_text::{NoMemory, Text, Texts, fold, same_name};
use std::alloc::{AllocError, Global};
use std::marker::Model;

/// The options that a command takes, by their text.
#[derive(Drop)]
pub struct Template {
    text: Text,
    options: OptionList,
}

impl Model for Template {
    ghost use Rattle.std.specs.Prelude.{◌≡◌, Some, List, ℕ};
    ghost use Rattle.ados_readargs.specs.Template.{template_of};

    ghost Value = { List ℕ };

    ghost view = { λ t. t.text };

    ghost invariant = { λ t. template_of t.text ≡ Some t.options };
}

impl Template {
    /// The template of a text.
    ///
    /// `BadTemplate` if it has a qualifier that is unknown or occurs twice in an option, `/S`
    /// or `/T` with another qualifier, two `/M`, `/M` and `/F`, an `/F` that is not last, or a
    /// name, except an empty one, that occurs twice. The empty text has no option.
    pub fn parse(alloc: Global, text: &Text) -> Result<Template, ArgFault>
        ensures text { IfOk result (λ template. template ≡ text.now) }
        ensures good { IfOk result (λ _. IsTemplate text.now) }
        ensures bad { IfErr result (IsBadTemplate (template_of text.now)) }
    {
        let options = parse_options(alloc, text.as_bytes())?;
        Ok(Template {
            text: text.copy()?,
            options: OptionList::new(options),
        })
    }

    /// The template of a text that is known to be one; `NoMemory` only if an allocation fails.
    pub fn known(alloc: Global, text: &str) -> Result<Template, NoMemory>
        requires ascii { map to_ascii text.now ≡ text.now }
        requires template { IsTemplate text.now }
        ensures { IfOk result (λ template. template ≡ text.now) }
    {
        let text = Text::from_bytes(alloc, text.as_bytes())?;
        match Template::parse(alloc, &text) {
            Ok(template) => Ok(template),
            Err(fault) => match fault {
                ArgFault::NoMemory => Err(NoMemory),
                _ => unreachable!(),
            },
        }
    }

    /// What a line gives to each option.
    ///
    /// The words of the line are keywords with their values, plain words, and the rest of the line
    /// for an `/F`, in order. A quoted word is not a keyword, and each plain word is taken by one option.
    ///
    /// Of the faults the first that holds: `Unmatched` if a word's quote is never closed,
    /// outside the rest that an `/F` option takes; `ValueMissing` or `TooMany` at the first word
    /// that causes it; `TooMany` for a plain word left over; `ArgumentMissing` for an `/A`
    /// without a value; `BadNumber` for a value of an `/N` that is not a number. `NoMemory` only
    /// if an allocation fails.
    pub fn fill(&self, alloc: Global, line: &[u8]) -> Result<Args, ArgFault>
        ensures ok { IfOk result (λ args. fill_of self.now line.now ≡ Ok args) }
        ensures numbers { IfOk result (λ args. has_bad (options_of self.now) args ≡ false) }
        ensures taken { IfOk result (λ _. LosesNoWord (options_of self.now) line.now) }
        ensures said { IfOk result (λ args. IsFilled (options_of self.now) line.now args) }
        ensures fault { IfErr result (λ e. IsFaultOf (fill_of self.now line.now) e) }
    {
        let mut args = Args::new(alloc);
        self.fill_into(line, &mut args)?;
        Ok(args)
    }

    /// The same into existing arguments, in place of what is there: they keep the room that they have. After a
    /// fault their contents are unspecified.
    pub fn fill_into(&self, line: &[u8], args: &mut Args) -> Result<(), ArgFault>
        ensures ok { OnOk result (fill_of self.now line.now ≡ Ok args.new) }
        ensures numbers { OnOk result (has_bad (options_of self.now) args.new ≡ false) }
        ensures taken { OnOk result (LosesNoWord (options_of self.now) line.now) }
        ensures said { OnOk result (IsFilled (options_of self.now) line.now args.new) }
        ensures fault { IfErr result (λ e. IsFaultOf (fill_of self.now line.now) e) }
    {
        args.refill(&self.options, line)
    }

    /// Its options, in order.
    pub fn options(&self) -> &[TemplateOption]
        ensures { result.now ≡ options_of self.now }
    {
        self.options.as_slice()
    }
}

// The qualifiers with one more; `None` if it is unknown or there already.
fn with_letter(letter: u8, q: Qualifiers) -> Option<Qualifiers>
    ensures { result ≡ with_letter letter q }
{
    match letter {
        b'a' if !q.required => Some(Qualifiers {
            required: true,
            ..q
        }),
        b'k' if !q.keyword => Some(Qualifiers { keyword: true, ..q }),
        b's' if !q.switch => Some(Qualifiers { switch: true, ..q }),
        b't' if !q.toggle => Some(Qualifiers { toggle: true, ..q }),
        b'n' if !q.number => Some(Qualifiers { number: true, ..q }),
        b'm' if !q.many => Some(Qualifiers { many: true, ..q }),
        b'f' if !q.rest => Some(Qualifiers { rest: true, ..q }),
        _ => None,
    }
}

fn with_qualifier(piece: &[u8], q: Qualifiers) -> Option<Qualifiers>
    ensures { result ≡ with_qualifier piece.now q }
{
    match piece {
        [letter] => with_letter(fold(*letter), q),
        _ => None,
    }
}

fn parsed_qualifiers(pieces: &[&[u8]]) -> Option<Qualifiers>
    ensures { result ≡ qualifiers_of_pieces (map (λ p. p.now) pieces.now) }
{
    let q = letters_of(pieces)?;
    if (q.switch || q.toggle) && pieces.len() > 1 {
        return None;
    }
    Some(q)
}

fn letters_of(pieces: &[&[u8]]) -> Option<Qualifiers>
    ensures { result ≡ parsed_qualifiers no_qualifiers (map (λ p. p.now) pieces.now) }
{
    let mut q = Qualifiers::none();
    for piece in pieces {
        q = with_qualifier(piece, q)?;
    }
    Some(q)
}

// The pieces of a text, which a sign separates.
fn pieces_at(alloc: Global, sign: u8, text: &[u8]) -> Result<Vec<&[u8]>, AllocError>
    ensures { IfOk result (λ pieces. map (λ p. p.now) pieces.items ≡ slice_split (is_byte sign) text.now) }
{
    text.split(|b| *b == sign).collect(alloc)
}

// The pieces as texts.
fn texts_of(alloc: Global, pieces: &[&[u8]]) -> Result<Texts, NoMemory>
    ensures { IfOk result (λ texts. texts ≡ map (map to_ascii) (map (λ p. p.now) pieces.now)) }
{
    let mut texts = Texts::new(alloc);
    for piece in pieces {
        texts.push(Text::from_bytes(alloc, piece)?)?;
    }
    Ok(texts)
}

// The names of an option.
fn names_of(alloc: Global, text: &[u8]) -> Result<Texts, NoMemory>
    ensures { IfOk result (λ texts. texts ≡ names_of text.now) }
{
    texts_of(alloc, pieces_at(alloc, b'=', text)?.as_slice())
}

// The option of a text; `None` if it is not one.
fn option_of(alloc: Global, text: &[u8]) -> Result<Option<TemplateOption>, NoMemory>
    ensures { IfOk result (λ option. option ≡ option_of text.now) }
{
    let pieces = pieces_at(alloc, b'/', text)?;
    match pieces.as_slice() {
        [] => Ok(None),
        [names, rest @ ..] => match parsed_qualifiers(rest) {
            None => Ok(None),
            Some(qualifiers) => Ok(Some(TemplateOption {
                names: names_of(alloc, names)?,
                qualifiers,
            })),
        },
    }
}

fn parsed_options(alloc: Global, texts: &[&[u8]]) -> Result<Vec<TemplateOption>, ArgFault>
    ensures ok { IfOk result (λ options. parsed_options [] (map (λ p. p.now) texts.now) ≡ Some options.items) }
    ensures bad { IfErr result (IsBadTemplate (parsed_options [] (map (λ p. p.now) texts.now))) }
{
    let mut options = Vec::new(alloc);
    for text in texts {
        match option_of(alloc, text)? {
            None => return Err(ArgFault::BadTemplate),
            Some(option) => options.push(option)?,
        }
    }
    Ok(options)
}

fn is_twice(names: &[Text], later: &[TemplateOption]) -> bool
    ensures { result ≡ is_twice names.now later.now }
{
    for place in 0..names.len() {
        let name = names[place].as_bytes();
        if stands_again(name, &names[place + 1..], later) {
            return true;
        }
    }
    false
}

fn is_among(name: &[u8], names: &[Text]) -> bool
    ensures { result ≡ list_any (is_same name.now) names.now }
{
    names.iter().any(|own| same_name(name, own.as_bytes()))
}

fn is_named_in(name: &[u8], later: &[TemplateOption]) -> bool
    ensures { result ≡ list_any (has_name name.now) later.now }
{
    later.iter().any(|option| option.has_name(name))
}

fn stands_again(name: &[u8], names: &[Text], later: &[TemplateOption]) -> bool
    ensures { result ≡ occurs_again name.now names.now later.now }
{
    !name.is_empty() && (is_among(name, names) || is_named_in(name, later))
}

fn has_twice(options: &[TemplateOption]) -> bool
    ensures { result ≡ has_twice options.now }
{
    for place in 0..options.len() {
        if is_twice(options[place].names.as_slice(), &options[place + 1..]) {
            return true;
        }
    }
    false
}

fn many_count(options: &[TemplateOption]) -> usize
    ensures { result ≡ count_by is_many options.now }
{
    options
        .iter()
        .filter(|option| option.qualifiers.many)
        .count()
}

fn has_many(options: &[TemplateOption]) -> bool
    ensures { result ≡ list_any is_many options.now }
{
    options.iter().any(|option| option.qualifiers.many)
}

fn is_template(options: &[TemplateOption]) -> bool
    ensures { result ≡ is_template options.now }
{
    many_count(options) <= 1
        && !(has_many(options) && has_rest(options))
        && !has_rest(&options[..options.len().saturating_sub(1)])
        && !has_twice(options)
}

// The options of a template's text.
fn parse_options(alloc: Global, text: &[u8]) -> Result<Vec<TemplateOption>, ArgFault>
    ensures ok { IfOk result (λ options. template_of text.now ≡ Some options.items) }
    ensures bad { IfErr result (IsBadTemplate (template_of text.now)) }
{
    if text.is_empty() {
        return Ok(Vec::new(alloc));
    }
    let options = parsed_options(alloc, pieces_at(alloc, b',', text)?.as_slice())?;
    if !is_template(options.as_slice()) {
        return Err(ArgFault::BadTemplate);
    }
    Ok(options)
}
