// Arguments that name objects.
ghost use Rattle.std.specs.{Prelude.{◌≡◌, ◌∷◌, [], false, Err, IfOk}, Option.{option_copied}};
ghost use Rattle.ados_objects.specs.Bases.{entry_at};
ghost use Rattle.ados_find.specs.{Effects.{if_found}, Paths.{bases_of, place_of, Gives}};

use crate::bases::{all_children, entry_at};
use ados_find::{Codes, Lookup, Refusal, Shared, bases_of, place_of};
use ados_names::last_piece;
use ados_pattern::{Pattern, PatternFault};
use ados_ram::{Entry, Place, Ram};
use ados_text::{NoMemory, Result2, Text};
use std::alloc::Global;
use std::marker::Model;

/// The objects that an argument names.
#[derive(Drop)]
pub struct NamedObjects {
    literal: bool,
    places: Vec<Place>,
}

impl Model for NamedObjects {
    ghost use Rattle.ados_objects.specs.Names.{FoundPlaces};

    ghost Value = { FoundPlaces };

    ghost view = { λ n. record { literal = n.literal; places = n.places.items } };
}

ghost use Rattle.ados_objects.specs.Names.{pattern_of, matches_form, matching_places, some_matches, directory_matches, the_one, single_match, bases_at, places_by_form, directory_part, piece_of, named_places, named_bases};

impl NamedObjects {
    /// Several objects.
    pub fn several(places: Vec<Place>) -> NamedObjects
        ensures literal { result.literal ≡ false }
        ensures places { result.places ≡ places.items }
    {
        NamedObjects {
            literal: false,
            places,
        }
    }

    /// Whether the argument names just one object, by its path.
    pub fn is_literal(&self) -> bool
        ensures { result ≡ self.now.literal }
    {
        self.literal
    }

    /// The objects, in order.
    pub fn places(&self) -> &[Place]
        ensures { result.now ≡ self.now.places }
    {
        &self.places
    }
}

/// The objects that an argument names, from a current directory.
///
/// 210 and 120 for a last piece that is not a pattern, and 210 for a text that is not a path. A literal path has the
/// refusals of resolving, and 205 if there is nothing; a pattern has those of resolving its directory, then 204 and 212
/// if there is no such directory, and 205 as a warning if nothing matches.
pub fn named(alloc: Global, shared: &Shared, directory: &Place, text: &Text) -> Lookup<NamedObjects>
    ensures { Gives result (named_places shared.now directory.now text.now) }
{
    let head = directory_part(text)?;
    let pattern = pattern_of(alloc, &piece_of(text)?)?;
    named_by(alloc, shared, directory, &head, &pattern)
}

/// The same, with all directories of a literal path that stands for several, as a device alone does.
pub fn named_bases(
    alloc: Global,
    shared: &Shared,
    directory: &Place,
    text: &Text,
) -> Lookup<NamedObjects>
    ensures { Gives result (named_bases shared.now directory.now text.now) }
{
    let head = directory_part(text)?;
    let pattern = pattern_of(alloc, &piece_of(text)?)?;
    match pattern.literal() {
        Some(name) => bases_at(alloc, shared, directory, &head.join(name)?),
        None => {
            let bases = bases_of(alloc, shared, directory, &head)?;
            directory_matches(alloc, &pattern, &shared.ram, bases.as_slice())
        }
    }
}

/// The path before the last piece of a text.
pub fn directory_part(text: &Text) -> Result<Text, NoMemory>
    ensures { IfOk result (λ head. head ≡ directory_part text.now) }
{
    text.part(0, last_piece(text))
}

/// The last piece of a text.
pub fn piece_of(text: &Text) -> Result<Text, NoMemory>
    ensures { IfOk result (λ piece. piece ≡ piece_of text.now) }
{
    text.part(last_piece(text), text.as_bytes().len())
}

/// The pattern of a text.
pub fn pattern_of(alloc: Global, text: &Text) -> Result<Pattern, Refusal>
    ensures { Gives result (pattern_of text.now) }
{
    match Pattern::parse(alloc, text) {
        Err(PatternFault::NoMemory) => Err(Refusal::NoMemory),
        Err(PatternFault::TooLong) => Err(Refusal::Stopped(Codes::erred(Result2::LINE_TOO_LONG))),
        Err(PatternFault::BadPattern(_)) => {
            Err(Refusal::Stopped(Codes::erred(Result2::INVALID_NAME)))
        }
        Ok(pattern) => Ok(pattern),
    }
}

// The objects that a pattern after a path names.
fn named_by(
    alloc: Global,
    shared: &Shared,
    directory: &Place,
    head: &Text,
    pattern: &Pattern,
) -> Lookup<NamedObjects>
    ensures { Gives result (places_by_form shared.now directory.now head.now pattern.now.form pattern.now.name) }
{
    match pattern.literal() {
        Some(name) => single_match(alloc, shared, directory, &head.join(name)?),
        None => {
            let bases = bases_of(alloc, shared, directory, head)?;
            directory_matches(alloc, pattern, &shared.ram, bases.as_slice())
        }
    }
}

// The directories for which a path stands, or the one place to which it leads.
fn bases_at(alloc: Global, shared: &Shared, directory: &Place, path: &Text) -> Lookup<NamedObjects>
    ensures { Gives result (if_found Err (bases_of shared.now directory.now path.now) (bases_at shared.now.files)) }
{
    let bases = bases_of(alloc, shared, directory, path)?;
    match entry_at(&shared.ram, bases.as_slice()) {
        None => Err(Refusal::Stopped(Codes::erred(Result2::OBJECT_NOT_FOUND))),
        Some(_) => Ok(NamedObjects {
            literal: true,
            places: bases.into_vec(),
        }),
    }
}

// The one object to which a path leads.
fn single_match(
    alloc: Global,
    shared: &Shared,
    directory: &Place,
    path: &Text,
) -> Lookup<NamedObjects>
    ensures { Gives result (if_found Err (place_of shared.now directory.now path.now) (single_match shared.now.files)) }
{
    let place = place_of(alloc, shared, directory, path)?;
    the_one(alloc, &place, shared.ram.look(&place))
}

// The one object at a place.
fn the_one(alloc: Global, place: &Place, there: Option<&Entry>) -> Result<NamedObjects, Refusal>
    ensures { Gives result (the_one place.now (option_copied there.entry)) }
{
    match there {
        None => Err(Refusal::Stopped(Codes::erred(Result2::OBJECT_NOT_FOUND))),
        Some(_) => Ok(NamedObjects {
            literal: true,
            places: only(alloc, place)?,
        }),
    }
}

/// A list of one place.
pub fn only(alloc: Global, place: &Place) -> Result<Vec<Place>, NoMemory>
    ensures { IfOk result (λ places. places.items ≡ place.now ∷ []) }
{
    let mut places = Vec::new(alloc);
    places.push(place.copy()?)?;
    Ok(places)
}

// The objects in directories that match.
fn directory_matches(
    alloc: Global,
    pattern: &Pattern,
    ram: &Ram,
    bases: &[Place],
) -> Result<NamedObjects, Refusal>
    ensures { Gives result (directory_matches pattern.now.form ram.now bases.now (entry_at ram.now bases.now)) }
{
    match entry_at(ram, bases) {
        None => Err(Refusal::Stopped(Codes::erred(Result2::DIRECTORY_NOT_FOUND))),
        Some(entry) => {
            if !entry.is_directory() {
                return Err(Refusal::Stopped(Codes::erred(Result2::WRONG_TYPE)));
            }
            let places = all_children(alloc, ram, bases)?;
            some_matches(matching(alloc, pattern, ram, &places)?)
        }
    }
}

// Those of the places whose names match.
fn matching(
    alloc: Global,
    pattern: &Pattern,
    ram: &Ram,
    places: &[Place],
) -> Result<Vec<Place>, NoMemory>
    ensures { IfOk result (λ found. found.items ≡ matching_places pattern.now.form ram.now places.now) }
{
    let mut found = Vec::new(alloc);
    for place in places {
        if wants(pattern, ram.look(place))? {
            found.push(place.copy()?)?;
        }
    }
    Ok(found)
}

// Whether there is an entry, and its name matches.
fn wants(pattern: &Pattern, there: Option<&Entry>) -> Result<bool, NoMemory>
    ensures { IfOk result (λ wanted. wanted ≡ matches_form pattern.now.form (option_copied there.entry)) }
{
    match there {
        None => Ok(false),
        Some(entry) => pattern.matches(entry.name.text()),
    }
}

// Reports a warning if nothing matches.
fn some_matches(places: Vec<Place>) -> Result<NamedObjects, Refusal>
    ensures { Gives result (some_matches places.items) }
{
    if places.is_empty() {
        return Err(Refusal::Stopped(Codes::warned(Result2::OBJECT_NOT_FOUND)));
    }
    Ok(NamedObjects::several(places))
}
