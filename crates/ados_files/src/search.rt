// Search: the lines of files in which a text stands.
ghost use Rattle.std.specs.Prelude.{◌≡◌, IfOk};
ghost use Rattle.ados_find.specs.{Effects.{effect_of}, Paths.{Gives}, Shared.{SharedState}};
ghost use Rattle.ados_files.specs.{Search.{hits_effect, no_hits, search_row, search_sources, search_wanted, searched_files, searching_of, wanted_of}, Hits.{hits_of, search_files}};

use crate::hits::{Hits, Searching, Wanted, search_files};
use crate::jobs::sources_of;
use crate::options::{
    SEARCH_ALL, SEARCH_FILE, SEARCH_FROM, SEARCH_NONUM, SEARCH_PATTERN, SEARCH_QUIET, SEARCH_TEXT,
};
use ados_find::{Codes, CommandResult, Lookup, Outcome, Shared, ShellView};
use ados_objects::{NamedObjects, only, pattern_of};
use ados_ram::{Place, Ram, push_places};
use ados_readargs::Args;
use ados_text::{NoMemory, Result2, Text};
use std::alloc::Global;
use std::slice;

/// Search prints the lines of files that have a text.
pub fn search(alloc: Global, shared: &Shared, view: &ShellView, args: &Args) -> CommandResult
    ensures { IfOk result (λ outcome. effect_of shared.now outcome ≡ search_row shared.now view.now args.now) }
{
    let Some(text) = args.made_text(alloc, SEARCH_TEXT)? else {
        return Ok(Outcome::missing(alloc));
    };
    match wanted_of(alloc, args.has_switch(SEARCH_PATTERN), text) {
        Err(refusal) => Ok(Outcome::answering(alloc, refusal.codes()?)),
        Ok(wanted) => search_wanted(alloc, shared, view, args, wanted),
    }
}

// What is looked for: a text, or by PATTERN what a pattern says, with any texts before and after it.
fn wanted_of(alloc: Global, is_pattern: bool, text: Text) -> Lookup<Wanted>
    ensures { Gives result (wanted_of is_pattern text) }
{
    if !is_pattern {
        return Ok(Wanted::Inside(text));
    }
    let pattern = pattern_of(alloc, &text)?;
    Ok(Wanted::Matching(pattern.anywhere()?))
}

fn search_wanted(
    alloc: Global,
    shared: &Shared,
    view: &ShellView,
    args: &Args,
    wanted: Wanted,
) -> CommandResult
    ensures { IfOk result (λ outcome. effect_of shared.now outcome ≡ search_wanted shared.now view.now args.now wanted) }
{
    let texts = args.made_texts(alloc, SEARCH_FROM)?;
    match search_sources(alloc, shared, view.directory, texts.as_slice()) {
        Err(refusal) => Ok(Outcome::answering(alloc, refusal.codes()?)),
        Ok(found) => {
            let all = args.has_switch(SEARCH_ALL);
            let files = searched_files(alloc, all, &shared.ram, found.places())?;
            search_places(alloc, shared, view, &searching_of(args, wanted), &files)
        }
    }
}

// What FROM names; without it the current directory.
fn search_sources(
    alloc: Global,
    shared: &Shared,
    directory: &Place,
    texts: &[Text],
) -> Lookup<NamedObjects>
    ensures { Gives result (search_sources shared.now directory.now texts.now) }
{
    match texts {
        [] => Ok(NamedObjects::several(only(alloc, directory)?)),
        _ => sources_of(alloc, shared, directory, texts),
    }
}

// The files that places stand for.
fn searched_files(
    alloc: Global,
    all: bool,
    ram: &Ram,
    places: &[Place],
) -> Result<Vec<Place>, NoMemory>
    ensures { IfOk result (λ files. files.items ≡ searched_files all ram.now places.now) }
{
    let mut files = Vec::new(alloc);
    for place in places {
        match ram.look(place) {
            None => {}
            Some(entry) if entry.is_directory() => {
                push_places(&mut files, &ram.directory_files(place, all)?)?;
            }
            Some(_) => push_places(&mut files, slice::from_ref(place))?,
        }
    }
    Ok(files)
}

fn searching_of(args: &Args, wanted: Wanted) -> Searching
    ensures { result ≡ searching_of args.now wanted }
{
    Searching {
        wanted,
        numbered: !args.has_switch(SEARCH_NONUM),
        quiet: args.has_switch(SEARCH_QUIET),
        names: args.has_switch(SEARCH_FILE),
    }
}

fn search_places(
    alloc: Global,
    shared: &Shared,
    view: &ShellView,
    searching: &Searching,
    places: &[Place],
) -> CommandResult
    ensures { IfOk result (λ outcome. effect_of shared.now outcome ≡ hits_effect shared.now (search_files searching.now view.now.busy shared.now.files no_hits places.now)) }
{
    let mut hits = Hits {
        output: Vec::new(alloc),
        has_hit: false,
    };
    search_files(searching, shared, view, &mut hits, places)?;
    Ok(hits_outcome(hits))
}

// No hit at all is a warning.
fn hits_outcome(hits: Hits) -> Outcome
    ensures { (shared : SharedState) → effect_of shared result ≡ hits_effect shared (hits_of hits) }
{
    let Hits { output, has_hit } = hits;
    let mut outcome = Outcome::putting(output);
    if !has_hit {
        outcome.codes = Codes::warned(Result2::NONE);
    }
    outcome
}
