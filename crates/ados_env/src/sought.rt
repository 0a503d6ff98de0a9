// What Which is to look for, and how far it looks.
ghost use Rattle.std.specs.{Prelude.{◌≡◌, true, IfOk, is_some}, List.{list_any}};
ghost use Rattle.std.specs.FinMap as map;
ghost use Rattle.ados_ram.specs.{Place.{key_of}, Files.{is_some_directory}};
ghost use Rattle.ados_find.specs.Paths as paths;
ghost use Rattle.ados_find.specs.{Routes.{route_devices}, Search.{file_of_entry, places_of_entries}};
ghost use Rattle.ados_env.specs.Sought.{has_file, route_of_all, route_of_first, sought_devices};

use crate::options::{WHICH_ALL, WHICH_NORES, WHICH_RES};
use ados_find::{Refusal, Route, Shared, ShellView, find, is_path, place_of};
use ados_ram::Place;
use ados_readargs::Args;
use ados_text::{NoMemory, Text};
use std::alloc::Global;

/// What Which is to look for.
#[derive(Clone, Copy)]
pub struct Sought {
    /// An internal command, or an entry of the resident list.
    pub residents: bool,
    /// A file.
    pub files: bool,
    /// All that the search meets, not only the first.
    pub all: bool,
}

impl Sought {
    ghost use Rattle.ados_env.specs.Sought.{sought_of};

    /// What the arguments of Which ask for.
    pub fn of(args: &Args) -> Sought
        ensures { result ≡ sought_of args.now }
    {
        Sought {
            residents: !args.has_switch(WHICH_NORES),
            files: !args.has_switch(WHICH_RES),
            all: args.has_switch(WHICH_ALL),
        }
    }

    /// How far the search for a word goes, if it goes for files.
    pub fn route(
        self,
        alloc: Global,
        shared: &Shared,
        view: &ShellView,
        word: &Text,
    ) -> Result<Route, NoMemory>
        requires { self.files ≡ true }
        ensures { IfOk result (λ route. route_devices route word.now ≡ sought_devices shared.now view.now.parts self word.now) }
    {
        if self.all {
            return Ok(route_of_all(word));
        }
        if !self.residents {
            return route_of_first(alloc, shared, view, word);
        }
        let path = view.settings.path.entries();
        Ok(find(alloc, word, shared, view.directory, path)?.route)
    }
}

fn route_of_all(word: &Text) -> Route
    ensures { result ≡ route_of_all word.now }
{
    if is_path(word) {
        Route::ByPath
    } else {
        Route::ToC
    }
}

fn route_of_first(
    alloc: Global,
    shared: &Shared,
    view: &ShellView,
    word: &Text,
) -> Result<Route, NoMemory>
    ensures { IfOk result (λ route. route ≡ route_of_first shared.now view.now.parts word.now) }
{
    if is_path(word) {
        return Ok(Route::ByPath);
    }
    if has_file(alloc, shared, view.directory, word)?
        || has_file_on_path(alloc, shared, view.settings.path.entries(), word)?
    {
        return Ok(Route::BeforeC);
    }
    Ok(Route::ToC)
}

// A text leads to a file from one of these directories.
fn has_file_on_path(
    alloc: Global,
    shared: &Shared,
    path: &[Place],
    word: &Text,
) -> Result<bool, NoMemory>
    ensures { IfOk result (λ has. has ≡ list_any (has_file shared.now) (places_of_entries shared.now path.now word.now)) }
{
    let Some((entry, path)) = path.split_first() else {
        return Ok(false);
    };
    if is_directory(shared, entry) && has_file(alloc, shared, entry, word)? {
        return Ok(true);
    }
    has_file_on_path(alloc, shared, path, word)
}

// A text leads to a file from a directory.
fn has_file(
    alloc: Global,
    shared: &Shared,
    directory: &Place,
    text: &Text,
) -> Result<bool, NoMemory>
    ensures { IfOk result (λ has. has ≡ has_file shared.now (paths.place_of shared.now directory.now text.now)) }
{
    match place_of(alloc, shared, directory, text) {
        Err(Refusal::NoMemory) => Err(NoMemory),
        Err(Refusal::Stopped(_)) => Ok(false),
        Ok(place) => Ok(is_file(shared, &place)),
    }
}

// There is a file at a place.
fn is_file(shared: &Shared, place: &Place) -> bool
    ensures { result ≡ is_some (file_of_entry shared.now place.now (map.get shared.now.files (key_of place.now))) }
{
    match shared.ram.look(place) {
        None => false,
        Some(entry) => !entry.is_directory(),
    }
}

/// There is a directory at a place.
pub fn is_directory(shared: &Shared, place: &Place) -> bool
    ensures { result ≡ is_some_directory (map.get shared.now.files (key_of place.now)) }
{
    match shared.ram.look(place) {
        None => false,
        Some(entry) => entry.is_directory(),
    }
}
