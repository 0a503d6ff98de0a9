// Rename: objects, and all that is below them, moved: one to TO, or several into it.
ghost use Rattle.std.specs.Prelude.{◌≡◌, IfOk};
ghost use Rattle.std.specs.FinMap as map;
ghost use Rattle.ados_ram.specs.Place.{key_of};
ghost use Rattle.ados_find.specs.{Effects.{effect_of}, Paths.{Gives}};

use crate::gather::gather_into;
use crate::jobs::sources_of;
use crate::options::{RENAME_FROM, RENAME_TO};
use ados_find::{
    Codes, CommandResult, Lookup, Outcome, Refusal, Renamed, Shared, ShellView, place_of,
};
use ados_objects::{NamedObjects, is_directory, named, pattern_of, piece_of};
use ados_pattern::Pattern;
use ados_ram::{Entry, Place, Ram};
use ados_readargs::Args;
use ados_resident::Dialect;
use ados_text::{NoMemory, Result2, Stop, Text};
use std::alloc::Global;
use std::slice;

/// What FROM names.
#[derive(Drop)]
pub enum Sources {
    /// One object, by its path as it stands.
    Alone(Place),
    /// Objects each of which goes into TO.
    Several(NamedObjects),
}

ghost use Rattle.ados_files.specs.Rename.{by_path, destination, path_or_names, rename_entry, rename_row, rename_sources, rename_to, rename_to_place, rename_to_text, source_of};

/// Rename moves objects, and all that is below them.
pub fn rename_objects(
    alloc: Global,
    shared: &Shared,
    view: &ShellView,
    args: &Args,
) -> CommandResult
    ensures { IfOk result (λ outcome. effect_of shared.now outcome ≡ rename_row shared.now view.now args.now) }
{
    let Some(to) = args.made_text(alloc, RENAME_TO)? else {
        return Ok(Outcome::missing(alloc));
    };
    let from = args.made_texts(alloc, RENAME_FROM)?;
    match rename_sources(alloc, shared, view.directory, from.as_slice()) {
        Err(refusal) => Ok(Outcome::answering(alloc, refusal.codes()?)),
        Ok(sources) => rename_to_text(alloc, shared, view, &sources, &to),
    }
}

fn rename_to_text(
    alloc: Global,
    shared: &Shared,
    view: &ShellView,
    sources: &Sources,
    to: &Text,
) -> CommandResult
    ensures { IfOk result (λ outcome. effect_of shared.now outcome ≡ rename_to_text shared.now view.now to.now sources.now) }
{
    match place_of(alloc, shared, view.directory, to) {
        Err(refusal) => Ok(Outcome::answering(alloc, refusal.codes()?)),
        Ok(to) => rename_to(alloc, shared, view, sources, &to),
    }
}

// One object goes to TO, several go into it.
fn rename_to(
    alloc: Global,
    shared: &Shared,
    view: &ShellView,
    sources: &Sources,
    to: &Place,
) -> CommandResult
    ensures { IfOk result (λ outcome. effect_of shared.now outcome ≡ rename_to shared.now view.now sources.now to.now) }
{
    match sources {
        Sources::Alone(from) => rename_entry(alloc, shared, view, from, to),
        Sources::Several(found) => gather_into(alloc, shared, view, found.places(), to),
    }
}

// What FROM names; the template ensures that it is not missing.
fn rename_sources(
    alloc: Global,
    shared: &Shared,
    directory: &Place,
    texts: &[Text],
) -> Lookup<Sources>
    ensures { Gives result (rename_sources shared.now directory.now texts.now) }
{
    match texts {
        [] => Err(Refusal::Stopped(Codes::failed(Result2::ARGUMENT_MISSING))),
        [text] => source_of(alloc, shared, directory, text),
        _ => Ok(Sources::Several(sources_of(alloc, shared, directory, texts)?)),
    }
}

// Just one text: in Core it is a path, in Full if it has no pattern.
fn source_of(alloc: Global, shared: &Shared, directory: &Place, text: &Text) -> Lookup<Sources>
    ensures { Gives result (source_of shared.now.dialect shared.now directory.now text.now) }
{
    match shared.dialect {
        Dialect::Core => by_path(alloc, shared, directory, text),
        Dialect::Full => {
            let pattern = pattern_of(alloc, &piece_of(text)?)?;
            path_or_names(alloc, shared, directory, text, &pattern)
        }
    }
}

fn path_or_names(
    alloc: Global,
    shared: &Shared,
    directory: &Place,
    text: &Text,
    pattern: &Pattern,
) -> Lookup<Sources>
    ensures { Gives result (path_or_names shared.now directory.now text.now pattern.now.name) }
{
    match pattern.literal() {
        Some(_) => by_path(alloc, shared, directory, text),
        None => Ok(Sources::Several(named(alloc, shared, directory, text)?)),
    }
}

fn by_path(alloc: Global, shared: &Shared, directory: &Place, text: &Text) -> Lookup<Sources>
    ensures { Gives result (by_path shared.now directory.now text.now) }
{
    Ok(Sources::Alone(place_of(alloc, shared, directory, text)?))
}

fn rename_entry(
    alloc: Global,
    shared: &Shared,
    view: &ShellView,
    from: &Place,
    to: &Place,
) -> CommandResult
    ensures { IfOk result (λ outcome. effect_of shared.now outcome ≡ rename_entry shared.now view.now from.now (map.get shared.now.files (key_of from.now)) to.now) }
{
    match shared.ram.look(from) {
        None => Ok(Outcome::answering(alloc, Codes::erred(Result2::OBJECT_NOT_FOUND))),
        Some(entry) => {
            let to = destination(&shared.ram, from, entry, to)?;
            let from = from.copy()?;
            rename_to_place(alloc, shared, view, Renamed { from, to })
        }
    }
}

// A place in the target directory with the object's own name, or the target itself.
fn destination(ram: &Ram, from: &Place, entry: &Entry, to: &Place) -> Result<Place, NoMemory>
    ensures { IfOk result (λ place. place ≡ destination ram.now from.now entry.now to.now) }
{
    if is_directory(ram.look(to)) && *to != *from {
        return to.joined(slice::from_ref(&entry.name));
    }
    to.copy()
}

fn rename_to_place(
    alloc: Global,
    shared: &Shared,
    view: &ShellView,
    renamed: Renamed,
) -> CommandResult
    ensures { IfOk result (λ outcome. effect_of shared.now outcome ≡ rename_to_place shared.now view.now renamed.from renamed.to) }
{
    match shared.renamed(&view.busy, &renamed.from, &renamed.to) {
        Err(Stop::NoMemory) => Err(NoMemory),
        Err(Stop::Refused(fault)) => { Ok(Outcome::answering(alloc, Codes::erred(fault))) }
        Ok(new) => Outcome::answering(alloc, Codes::NONE)
            .with_shared(new)
            .with_renamed(alloc, renamed),
    }
}
