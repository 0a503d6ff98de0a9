// Type: the bytes of files, unchanged or by HEX or NUMBER.
ghost use Rattle.std.specs.Prelude.{◌≡◌, ◌++◌, IfOk, OnOk};
ghost use Rattle.ados_find.specs.{Effects.{effect_of}, Paths.{Gives}};
ghost use Rattle.ados_files.specs.TypeFiles.{file_text, type_one, all_text, type_printed, is_asked, printing_by, printing_of, type_by_options, type_row};

use crate::dumps::{numbered, push_hex};
use crate::letters::{are_letters_of, has_letter, text_or_empty};
use crate::options::{TYPE_FROM, TYPE_HEX, TYPE_NUMBER, TYPE_OPT, TYPE_TO};
use ados_find::{
    Act, Codes, CommandResult, Lookup, Outcome, Refusal, Shared, ShellView, Work, current, each,
    output_to,
};
use ados_objects::Names;
use ados_ram::{FileBytes, Place};
use ados_readargs::Args;
use ados_text::{NoMemory, Result2, Text};
use std::alloc::Global;
use std::mem;

/// How Type prints bytes.
#[derive(Clone, Copy)]
pub enum Printing {
    /// Unchanged.
    Plain,
    /// HEX: as hexadecimal digits and as characters.
    Hex,
    /// NUMBER: each line with its number.
    Numbered,
}

/// Type writes the bytes of files to the output.
pub fn type_files(alloc: Global, shared: &Shared, view: &ShellView, args: &Args) -> CommandResult
    ensures { IfOk result (λ outcome. effect_of shared.now outcome ≡ type_row shared.now view.now args.now) }
{
    let to = args.made_text(alloc, TYPE_TO)?;
    let outcome = type_by_options(alloc, shared, view, args)?;
    output_to(alloc, shared, view, to.as_ref(), outcome)
}

// What Type does without TO.
fn type_by_options(alloc: Global, shared: &Shared, view: &ShellView, args: &Args) -> CommandResult
    ensures { IfOk result (λ outcome. effect_of shared.now outcome ≡ type_by_options shared.now view.now args.now) }
{
    match printing_of(args, text_or_empty(args.text(TYPE_OPT))) {
        Err(refusal) => Ok(Outcome::answering(alloc, refusal.codes()?)),
        Ok(printing) => {
            let texts = args.made_texts(alloc, TYPE_FROM)?;
            type_printed(alloc, shared, view, texts.as_slice(), printing)
        }
    }
}

fn printing_of(args: &Args, letters: &[u8]) -> Lookup<Printing>
    ensures { Gives result (printing_of args.now letters.now) }
{
    if !are_letters_of(b"hn", letters) {
        return Err(Refusal::Stopped(Codes::failed(Result2::BAD_NUMBER)));
    }
    printing_by(
        is_asked(args, TYPE_HEX, letters, b'h'),
        is_asked(args, TYPE_NUMBER, letters, b'n'),
    )
}

// Whether a switch is given, or its letter in OPT.
fn is_asked(args: &Args, place: usize, letters: &[u8], letter: u8) -> bool
    ensures { result ≡ is_asked args.now place letters.now letter }
{
    args.has_switch(place) || has_letter(letter, letters)
}

fn printing_by(hex: bool, numbered: bool) -> Lookup<Printing>
    ensures { Gives result (printing_by hex numbered) }
{
    match (hex, numbered) {
        (false, false) => Ok(Printing::Plain),
        (true, false) => Ok(Printing::Hex),
        (false, true) => Ok(Printing::Numbered),
        (true, true) => Err(Refusal::Stopped(Codes::failed(Result2::TOO_MANY_ARGUMENTS))),
    }
}

// Prints all files.
fn type_printed(
    alloc: Global,
    shared: &Shared,
    view: &ShellView,
    texts: &[Text],
    printing: Printing,
) -> CommandResult
    ensures { IfOk result (λ outcome. effect_of shared.now outcome ≡ type_printed shared.now view.now texts.now printing) }
{
    let act = Typing { view, printing };
    let mut work = Work::new(alloc);
    each(&Names { act: &act, view }, shared, &mut work, texts)?;
    let bytes = mem::replace(&mut work.output, Vec::new(alloc));
    work.output = all_text(alloc, printing, bytes)?;
    Ok(work.end())
}

fn all_text(alloc: Global, printing: Printing, bytes: Vec<u8>) -> Result<Vec<u8>, NoMemory>
    ensures { IfOk result (λ output. output.items ≡ all_text printing bytes.items) }
{
    match printing {
        Printing::Plain | Printing::Hex => Ok(bytes),
        Printing::Numbered => numbered(alloc, bytes.as_slice()),
    }
}

/// The printing of one file.
#[derive(Drop)]
pub struct Typing<'a> {
    pub view: &'a ShellView<'a>,
    pub printing: Printing,
}

impl<'a> Act<Place> for Typing<'a> {
    ghost act = { λ s. type_one s.printing s.view.now };

    fn act(&self, shared: &Shared, work: &mut Work, place: &Place) -> Result<(), NoMemory> {
        let view = self.view;
        match current(shared, &work.shared).ram.read(&view.busy, place) {
            Err(fault) => {
                work.stopped = Some(Codes::erred(fault));
                Ok(())
            }
            Ok(bytes) => push_file(&mut work.output, self.printing, bytes),
        }
    }
}

fn push_file(output: &mut Vec<u8>, printing: Printing, bytes: &FileBytes) -> Result<(), NoMemory>
    ensures { OnOk result (output.new.items ≡ output.old.items ++ file_text printing bytes.now) }
{
    match printing {
        Printing::Plain | Printing::Numbered => bytes.push_to(output),
        Printing::Hex => {
            let bytes = bytes.to_vec(*output.allocator())?;
            push_hex(output, &bytes)
        }
    }
}
