// Copy: which files are copied, and to which places.
ghost use Rattle.std.specs.{Prelude.{◌≡◌, IfOk, OnOk}, Option.{option_copied}};
ghost use Rattle.std.specs.FinMap as map;
ghost use Rattle.ados_ram.specs.Place.{key_of};
ghost use Rattle.ados_find.specs.{Done.{done_of}, Shared.{version}, Effects.{effect_of}};
ghost use Rattle.ados_files.specs.Copy.{manner_of, target_directory, copy_to_directory, is_onto, one_entry, copy_found, copy_into_target, copy_row};

use crate::copy_one::{Copying, MakingMissing, Manner};
use crate::jobs::{all_jobs, jobs_onto, sources_of};
use crate::options::{COPY_ALL, COPY_CLONE, COPY_COM, COPY_FROM, COPY_NOPRO, COPY_QUIET, COPY_TO};
use ados_find::{
    Act, Codes, CommandResult, Outcome, Shared, ShellView, Work, current, each, place_of,
};
use ados_objects::{NamedObjects, done_with, is_directory, is_file};
use ados_ram::{Entry, Place, Ram};
use ados_readargs::Args;
use ados_text::{NoMemory, Result2, Text};
use std::alloc::Global;
use std::slice;

/// Copy copies files.
pub fn copy_files(alloc: Global, shared: &Shared, view: &ShellView, args: &Args) -> CommandResult
    ensures { IfOk result (λ outcome. effect_of shared.now outcome ≡ copy_row shared.now view.now args.now) }
{
    let Some(to) = args.made_text(alloc, COPY_TO)? else {
        return Ok(Outcome::missing(alloc));
    };
    let texts = args.made_texts(alloc, COPY_FROM)?;
    let texts = texts.as_slice();
    if texts.is_empty() {
        return Ok(Outcome::missing(alloc));
    }
    match sources_of(alloc, shared, view.directory, texts) {
        Err(refusal) => Ok(Outcome::answering(alloc, refusal.codes()?)),
        Ok(found) => {
            let copy = Copy {
                view,
                all: args.has_switch(COPY_ALL),
                manner: manner_of(args),
                found,
            };
            copied_to(alloc, shared, &copy, &to)
        }
    }
}

// How files are copied.
fn manner_of(args: &Args) -> Manner
    ensures { result ≡ manner_of args.now }
{
    let clone = args.has_switch(COPY_CLONE);
    let fresh = args.has_switch(COPY_NOPRO);
    Manner {
        quiet: args.has_switch(COPY_QUIET),
        comment: clone || args.has_switch(COPY_COM),
        bits: clone && !fresh,
        fresh,
    }
}

/// What is copied, and how.
#[derive(Drop)]
pub struct Copy<'a> {
    pub view: &'a ShellView<'a>,
    pub all: bool,
    pub manner: Manner,
    pub found: NamedObjects,
}

impl<'a> Act<Place> for Copy<'a> {
    ghost act = { λ s. copy_found s.view.now s.all s.manner s.found };

    fn act(&self, shared: &Shared, work: &mut Work, to: &Place) -> Result<(), NoMemory> {
        let alloc = *work.output.allocator();
        if !is_onto(&current(shared, &work.shared).ram, &self.found, to) {
            return copy_to_directory(self, shared, work, to);
        }
        let jobs = jobs_onto(alloc, self.found.places())?;
        let act = Copying {
            view: self.view,
            manner: self.manner,
            to,
        };
        each(&act, shared, work, &jobs)
    }
}

fn copied_to(alloc: Global, shared: &Shared, copy: &Copy, to: &Text) -> CommandResult
    ensures { IfOk result (λ outcome. effect_of shared.now outcome ≡
        copy_into_target shared.now copy.now.view.now copy.now.all copy.now.manner to.now copy.now.found) }
{
    let view = copy.view;
    match place_of(alloc, shared, view.directory, to) {
        Err(refusal) => Ok(Outcome::answering(alloc, refusal.codes()?)),
        Ok(to) => done_with(alloc, shared, copy, slice::from_ref(&to)),
    }
}

// Whether the source is just one file, and TO is not a directory.
fn is_onto(ram: &Ram, found: &NamedObjects, to: &Place) -> bool
    ensures { result ≡ is_onto ram.now found.now to.now }
{
    is_file(one_entry(ram, found)) && !is_directory(ram.look(to))
}

// The entry at the source, if there is just one.
fn one_entry<'a>(ram: &'a Ram, found: &NamedObjects) -> Option<&'a Entry>
    ensures { option_copied result ≡ one_entry ram.now found.now }
{
    if !found.is_literal() {
        return None;
    }
    match found.places().split_first() {
        None => None,
        Some((place, _)) => ram.look(place),
    }
}

// Copies into a directory.
fn copy_to_directory(
    copy: &Copy,
    shared: &Shared,
    work: &mut Work,
    to: &Place,
) -> Result<(), NoMemory>
    ensures { OnOk result (done_of shared.now work.new ≡
        copy_to_directory copy.now.view.now copy.now.all copy.now.manner copy.now.found (done_of shared.now work.old) to.now) }
{
    let alloc = *work.output.allocator();
    let ram = &current(shared, &work.shared).ram;
    let jobs = all_jobs(alloc, copy.all, ram, copy.found.places())?;
    let one = is_directory(one_entry(ram, &copy.found));
    target_directory(one, to, shared, work)?;
    let act = Copying {
        view: copy.view,
        manner: copy.manner,
        to,
    };
    each(&act, shared, work, &jobs)
}

// Makes sure that TO is a directory: a missing one is created only if the source is a single directory.
fn target_directory(one: bool, to: &Place, shared: &Shared, work: &mut Work) -> Result<(), NoMemory>
    ensures { OnOk result (done_of shared.now work.new ≡
        target_directory one to.now (done_of shared.now work.old) (map.get (version shared.now work.old.shared).files (key_of to.now))) }
{
    if !one && current(shared, &work.shared).ram.look(to).is_none() {
        work.stopped = Some(Codes::erred(Result2::DIRECTORY_NOT_FOUND));
        return Ok(());
    }
    MakingMissing.act(shared, work, to)
}
