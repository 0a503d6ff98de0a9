// The cache of resolved paths.
ghost use Rattle.std.specs.Prelude.{◌≡◌, [], ◌++◌, IfSome, IsTrue};
ghost use Rattle.ados_find.specs.Cache.{IsKept};

use ados_ram::Place;
use ados_text::{Name, Text};
use std::alloc::Global;
use std::marker::Model;

// The cache has at most this many paths.
const CACHED_PATHS: usize = 64;

/// A path, as it was written, and the place to which it leads from a directory.
#[derive(Drop)]
pub struct Known {
    pub directory: Place,
    pub path: Text,
    pub place: Place,
}

impl Known {
    /// A path, with this spelling, and its place; `None` if an allocation fails.
    pub fn of(directory: &Place, path: &Text, place: Place) -> Option<Known>
        ensures { IfSome result (λ known. known ≡ record { directory = directory.now; path = path.now; place = place }) }
    {
        match (directory.copy(), path.copy()) {
            (Ok(directory), Ok(path)) => Some(Known {
                directory,
                path,
                place,
            }),
            _ => None,
        }
    }

    /// Whether the path is these bytes followed by the word, from this directory, all with the same spelling.
    pub fn is(&self, directory: &Place, front: &[u8], word: &Text) -> bool
        ensures directory { IsTrue result → self.now.directory ≡ directory.now }
        ensures path { IsTrue result → self.now.path ≡ front.now ++ word.now }
    {
        is_joined(self.path.as_bytes(), front, word.as_bytes())
            && are_spelled(self.directory.names(), directory.names())
    }
}

// Whether the bytes are `front` followed by `word`.
fn is_joined(bytes: &[u8], front: &[u8], word: &[u8]) -> bool
    ensures { IsTrue result → bytes.now ≡ front.now ++ word.now }
{
    match bytes.split_at_checked(front.len()) {
        None => false,
        Some((start, end)) => start == front && end == word,
    }
}

// Whether the names are the same, byte for byte.
fn are_spelled(names: &[Name], others: &[Name]) -> bool
    ensures { IsTrue result → names.now ≡ others.now }
{
    match (names.split_first(), others.split_first()) {
        (None, None) => true,
        (Some((name, names)), Some((other, others))) => {
            is_spelled(name, other) && are_spelled(names, others)
        }
        _ => false,
    }
}

fn is_spelled(name: &Name, other: &Name) -> bool
    ensures { IsTrue result → name.now ≡ other.now }
{
    name.text().as_bytes() == other.text().as_bytes()
}

/// The resolved paths of one version of the files and assigns.
#[derive(Drop)]
pub struct Cache {
    // `None` if nothing is cached, so that an empty cache is small to move.
    known: Option<Box<Vec<Known>>>,
}

impl Model for Cache {
    ghost use Rattle.std.specs.Prelude.{[], List, option_map, unwrap_or};
    ghost use Rattle.ados_find.specs.declared.cache.Known.{Known};

    ghost Value = { List Known };

    ghost view = { λ c. unwrap_or (option_map (λ pairs. pairs.value.items) c.known) [] };
}

impl Cache {
    /// The empty cache; nothing is allocated.
    pub fn new() -> Cache
        ensures { result ≡ [] }
    {
        Cache { known: None }
    }

    /// The cached pairs.
    pub fn as_slice(&self) -> &[Known]
        ensures { result.now ≡ self.now }
    {
        match &self.known {
            None => &[],
            Some(pairs) => pairs.as_slice(),
        }
    }

    /// Adds a pair, unless an allocation fails; a full cache is cleared first.
    #[tactic(auto, using(crate::proofs::CacheLemmas::kept_none))]
    pub fn keep(&mut self, alloc: Global, pair: Known)
        ensures { IsKept self.old pair self.new }
    {
        match self.known.take() {
            Some(pairs) => self.known = Some(pushed(pairs, pair)),
            None => self.known = first(alloc, pair),
        }
    }
}

// A single pair, unless an allocation fails.
fn first(alloc: Global, pair: Known) -> Option<Box<Vec<Known>>>
    ensures { IfSome result (λ pairs. IsKept [] pair pairs.value.items) }
{
    let pairs = Box::new(alloc, Vec::new(alloc)).ok()?;
    Some(pushed(pairs, pair))
}

// The pairs with one more, unless an allocation fails; a full list is cleared first.
#[tactic(auto, using(crate::proofs::CacheLemmas::kept_anew))]
fn pushed(pairs: Box<Vec<Known>>, pair: Known) -> Box<Vec<Known>>
    ensures { IsKept pairs.value.items pair result.value.items }
{
    let mut pairs = pairs;
    if pairs.len() < CACHED_PATHS {
        push(&mut pairs, pair);
        return pairs;
    }
    pairs.clear();
    push(&mut pairs, pair);
    pairs
}

// Appends a pair, unless an allocation fails.
fn push(pairs: &mut Vec<Known>, pair: Known)
    ensures { IsKept pairs.old.items pair pairs.new.items }
{
    let _ = pairs.push(pair);
}
