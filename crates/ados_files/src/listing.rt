// List: lines of objects, and of what is in directories.
ghost use Rattle.std.specs.{Prelude.{◌≡◌, ◌++◌, IfOk, OnOk, option_map}, Option.{option_copied}};
ghost use Rattle.ados_readargs.specs.Args.{option_text};
ghost use Rattle.ados_files.specs.{declared.options.TheConstants.{LIST_LFORMAT}, Shapes.{group_lines}, Formats.{format_of}, Listing.{entries_of, listed_places, list_text, list_directory, list_texts, pattern_given, depth_of, shape_of, list_printed, list_row}};
ghost use Rattle.ados_objects.specs.Bases.{entry_at};
ghost use Rattle.ados_find.specs.{Done.{fresh_work, end_effect}, Effects.{effect_of}, Paths.{Gives}};

use crate::below::object_count;
use crate::formats::Format;
use crate::options::{
    LIST_ALL, LIST_DIR, LIST_DIRS, LIST_FILES, LIST_LFORMAT, LIST_PAT, LIST_QUICK, LIST_SINCE,
    LIST_SUB, LIST_TO, LIST_UPTO, is_given,
};
use crate::shapes::{Shape, Shown, push_group};
use crate::spellings::spelled_path;
use ados_find::{
    Act, Codes, CommandResult, Outcome, Refusal, Shared, ShellView, Work, current, output_to,
};
use ados_objects::{NamedObjects, all_children, done_with, entry_at, named_bases, pattern_of};
use ados_pattern::Pattern;
use ados_ram::{Place, Ram, list_refusal, push_places};
use ados_readargs::Args;
use ados_text::{NoMemory, Result2, Text};
use std::alloc::Global;
use std::slice;

/// List shows lines of objects, and of what is in directories.
pub fn list(alloc: Global, shared: &Shared, view: &ShellView, args: &Args) -> CommandResult
    ensures { IfOk result (λ outcome. effect_of shared.now outcome ≡ list_row shared.now view.now args.now) }
{
    if is_given(args, LIST_SINCE) || is_given(args, LIST_UPTO) {
        return Ok(Outcome::answering(alloc, Codes::erred(Result2::NOT_IMPLEMENTED)));
    }
    let to = args.made_text(alloc, LIST_TO)?;
    let outcome = list_printed(alloc, shared, view, args)?;
    output_to(alloc, shared, view, to.as_ref(), outcome)
}

// What List does without TO.
fn list_printed(alloc: Global, shared: &Shared, view: &ShellView, args: &Args) -> CommandResult
    ensures { IfOk result (λ outcome. effect_of shared.now outcome ≡ list_printed shared.now view.now args.now) }
{
    let pattern = args.made_text(alloc, LIST_PAT)?;
    match pattern_given(alloc, pattern.as_ref()) {
        Err(refusal) => Ok(Outcome::answering(alloc, refusal.codes()?)),
        Ok(pattern) => {
            let shape = shape_of(alloc, &shared.ram, args, pattern)?;
            let texts = args.made_texts(alloc, LIST_DIR)?;
            list_texts(alloc, shared, view, &shape, texts.as_slice())
        }
    }
}

fn shape_of(
    alloc: Global,
    ram: &Ram,
    args: &Args,
    pattern: Option<Pattern>,
) -> Result<Shape, NoMemory>
    ensures { IfOk result (λ shape. shape ≡ shape_of ram.now args.now pattern) }
{
    Ok(Shape {
        pattern,
        part: args.made_text(alloc, LIST_SUB)?,
        quick: args.has_switch(LIST_QUICK),
        files: args.has_switch(LIST_FILES),
        dirs: args.has_switch(LIST_DIRS),
        format: format_given(alloc, args)?,
        depth: depth_of(alloc, args.has_switch(LIST_ALL), ram)?,
    })
}

// How far below it looks: with ALL as far as there are objects.
fn depth_of(alloc: Global, all: bool, ram: &Ram) -> Result<usize, NoMemory>
    ensures { IfOk result (λ depth. depth ≡ depth_of all ram.now) }
{
    if all { object_count(alloc, ram) } else { Ok(0) }
}

// The format of LFORMAT, if it is given.
fn format_given(alloc: Global, args: &Args) -> Result<Option<Format>, NoMemory>
    ensures { IfOk result (λ format. format ≡ option_map format_of (option_text args.now LIST_LFORMAT)) }
{
    match args.made_text(alloc, LIST_LFORMAT)? {
        None => Ok(None),
        Some(text) => Ok(Some(Format::of(alloc, &text)?)),
    }
}

// The pattern of PAT, if it is given.
fn pattern_given(alloc: Global, text: Option<&Text>) -> Result<Option<Pattern>, Refusal>
    ensures { Gives result (pattern_given (option_copied text.entry)) }
{
    match text {
        None => Ok(None),
        Some(text) => Ok(Some(pattern_of(alloc, text)?)),
    }
}

// Lists what the arguments name, or the current directory if there are none.
fn list_texts(
    alloc: Global,
    shared: &Shared,
    view: &ShellView,
    shape: &Shape,
    texts: &[Text],
) -> CommandResult
    ensures { IfOk result (λ outcome. effect_of shared.now outcome ≡
        end_effect (list_texts shape.now view.now (fresh_work shared.now) texts.now)) }
{
    if texts.is_empty() {
        let here = slice::from_ref(view.directory);
        return done_with(alloc, shared, shape, here);
    }
    done_with(alloc, shared, &Listing { shape, view }, texts)
}

/// The listing of what an argument names.
#[derive(Drop)]
pub struct Listing<'a> {
    pub shape: &'a Shape,
    pub view: &'a ShellView<'a>,
}

impl<'a> Act<Text> for Listing<'a> {
    ghost act = { λ s. list_text s.shape.now s.view.now };

    fn act(&self, shared: &Shared, work: &mut Work, text: &Text) -> Result<(), NoMemory> {
        let alloc = *work.output.allocator();
        let view = self.view;
        let now = current(shared, &work.shared);
        match named_bases(alloc, now, view.directory, text) {
            Err(refusal) => {
                work.stopped = Some(refusal.codes()?);
                Ok(())
            }
            Ok(found) => {
                let path = spelled_path(alloc, &now.ram, text, &found)?;
                let places = listed(alloc, &now.ram, &found)?;
                push_listed(&mut work.output, self.shape, &path, &now.ram, &places)
            }
        }
    }
}

impl Act<Place> for Shape {
    ghost act = { λ s. list_directory s };

    // Lists a directory.
    fn act(&self, shared: &Shared, work: &mut Work, place: &Place) -> Result<(), NoMemory> {
        let ram = &current(shared, &work.shared).ram;
        match list_refusal(ram.look(place)) {
            Some(fault) => {
                work.stopped = Some(Codes::erred(fault));
                Ok(())
            }
            None => {
                let path = Text::new(*work.output.allocator());
                let places = ram.children(place)?;
                push_listed(&mut work.output, self, &path, ram, &places)
            }
        }
    }
}

// Appends the lines of objects, with the path before their names, and of what is below them.
fn push_listed(
    output: &mut Vec<u8>,
    shape: &Shape,
    path: &Text,
    ram: &Ram,
    places: &[Place],
) -> Result<(), NoMemory>
    ensures { OnOk result (output.new.items ≡ output.old.items ++ group_lines shape.now ram.now shape.now.depth path.now places.now) }
{
    push_group(output, &Shown { shape, path }, shape.depth, ram, places)
}

// What is listed for an argument.
fn listed(alloc: Global, ram: &Ram, found: &NamedObjects) -> Result<Vec<Place>, NoMemory>
    ensures { IfOk result (λ places. places.items ≡ listed_places ram.now found.now) }
{
    if found.is_literal() {
        return entries_of(alloc, ram, found.places());
    }
    let mut places = Vec::new(alloc);
    push_places(&mut places, found.places())?;
    Ok(places)
}

// What places that are named by a path stand for.
fn entries_of(alloc: Global, ram: &Ram, places: &[Place]) -> Result<Vec<Place>, NoMemory>
    ensures { IfOk result (λ entries. entries.items ≡ entries_of ram.now places.now (entry_at ram.now places.now)) }
{
    match entry_at(ram, places) {
        None => Ok(Vec::new(alloc)),
        Some(entry) if entry.is_directory() => all_children(alloc, ram, places),
        Some(_) => {
            let mut own = Vec::new(alloc);
            push_places(&mut own, places)?;
            Ok(own)
        }
    }
}
