// Dir: what is shown, and of which directories.
ghost use Rattle.std.specs.{Prelude.{◌≡◌, IfOk}, Option.{option_copied}};
ghost use Rattle.ados_find.specs.{Effects.{effect_of}, Paths.{Gives}};
ghost use Rattle.ados_files.specs.Dir.{choice_by, choice_of, dir_by, dir_effect, directories_given, dir_row};

use crate::dir_lines::Choice;
use crate::letters::{are_letters_of, has_letter, text_or_empty};
use crate::options::{DIR_ALL, DIR_DIR, DIR_DIRS, DIR_FILES, DIR_INTER, DIR_OPT};
use ados_assign::Places;
use ados_find::{Codes, CommandResult, Outcome, Refusal, Shared, ShellView, bases_of};
use ados_objects::{all_children, entry_at};
use ados_ram::{Place, list_refusal};
use ados_readargs::Args;
use ados_text::{Result2, Text};
use std::alloc::Global;

/// Dir shows what is in a directory.
pub fn show_directory(
    alloc: Global,
    shared: &Shared,
    view: &ShellView,
    args: &Args,
) -> CommandResult
    ensures { IfOk result (λ outcome. effect_of shared.now outcome ≡ dir_row shared.now view.now args.now) }
{
    let directory = args.made_text(alloc, DIR_DIR)?;
    match choice_of(args, text_or_empty(args.text(DIR_OPT))) {
        Err(codes) => Ok(Outcome::answering(alloc, codes)),
        Ok(choice) => show(alloc, shared, view, directory.as_ref(), choice),
    }
}

// What the switches and the letters of OPT ask for.
fn choice_of(args: &Args, letters: &[u8]) -> Result<Choice, Codes>
    ensures { result ≡ choice_of args.now letters.now }
{
    if args.has_switch(DIR_INTER) || has_letter(b'i', letters) {
        return Err(Codes::erred(Result2::NOT_IMPLEMENTED));
    }
    if !are_letters_of(b"adf", letters) {
        return Err(Codes::failed(Result2::BAD_NUMBER));
    }
    Ok(choice_by(args, letters))
}

fn choice_by(args: &Args, letters: &[u8]) -> Choice
    ensures { result ≡ choice_by args.now letters.now }
{
    Choice {
        dirs: args.has_switch(DIR_DIRS) || has_letter(b'd', letters),
        files: args.has_switch(DIR_FILES) || has_letter(b'f', letters),
        all: args.has_switch(DIR_ALL) || has_letter(b'a', letters),
    }
}

fn show(
    alloc: Global,
    shared: &Shared,
    view: &ShellView,
    text: Option<&Text>,
    choice: Choice,
) -> CommandResult
    ensures { IfOk result (λ outcome. effect_of shared.now outcome ≡ dir_by shared.now view.now (option_copied text.entry) choice) }
{
    match directories_given(alloc, shared, view, text) {
        Err(refusal) => Ok(Outcome::answering(alloc, refusal.codes()?)),
        Ok(bases) => dir_effect(alloc, shared, choice, bases.as_slice()),
    }
}

// The directories of DIR, or without it the current directory.
fn directories_given(
    alloc: Global,
    shared: &Shared,
    view: &ShellView,
    text: Option<&Text>,
) -> Result<Places, Refusal>
    ensures { Gives result (directories_given shared.now view.now (option_copied text.entry)) }
{
    match text {
        None => Ok(Places::one(alloc, view.directory.copy()?)?),
        Some(text) => bases_of(alloc, shared, view.directory, text),
    }
}

fn dir_effect(alloc: Global, shared: &Shared, choice: Choice, bases: &[Place]) -> CommandResult
    ensures { IfOk result (λ outcome. effect_of shared.now outcome ≡ dir_effect shared.now choice bases.now) }
{
    match list_refusal(entry_at(&shared.ram, bases)) {
        Some(fault) => Ok(Outcome::answering(alloc, Codes::erred(fault))),
        None => {
            let places = all_children(alloc, &shared.ram, bases)?;
            let output = choice.text(alloc, &shared.ram, &places)?;
            Ok(Outcome::putting(output))
        }
    }
}
