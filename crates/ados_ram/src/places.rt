// Places: full paths as lists of names.
ghost use Rattle.std.specs.{Prelude.{◌≡◌, IfOk, OnErr, OnOk, [], ◌++◌, ◌∷◌, length, drop}, Option.{option_copied, option_map}, Cmp.{partial_equiv_from_equiv}};
ghost use Rattle.std.proofs.lemmas.Cmp.{on_equiv, eq_by_cmp_equiv};
ghost use Rattle.ados_text.specs.Text.{folded_text};
ghost use Rattle.ados_ram.specs.Place.{key_of, place_cmp_total, is_same_key, is_same_place, last_name, parent_of, key_suffix, is_below, moved_place, any_same, any_at_or_below};

use ados_text::{Name, NoMemory, Text, fold};
use std::alloc::Global;
use std::marker::Model;

/// A full path: the names from the root down, as they are written. Two places are equal if they are alike with case ignored.
#[derive(Clone, Drop)]
pub struct Place {
    names: Vec<Name>,
}

impl Model for Place {
    ghost use Rattle.std.specs.Prelude.{List, ℕ};

    ghost Value = { List (List ℕ) };

    ghost view = { λ p. p.names.items };
}

impl Place {
    /// The root.
    pub fn root(alloc: Global) -> Place
        ensures { result ≡ [] }
    {
        Place {
            names: Vec::new(alloc),
        }
    }

    /// The names from the root down.
    pub fn names(&self) -> &[Name]
        ensures { result.now ≡ self.now }
    {
        self.names.as_slice()
    }

    /// The place of a name in this one.
    pub fn with(self, name: Name) -> Result<Place, NoMemory>
        ensures { IfOk result (λ place. place ≡ self ++ name ∷ []) }
    {
        let mut names = self.names;
        names.push(name)?;
        Ok(Place { names })
    }

    /// The directory in which this is; `None` for the root.
    pub fn parent(self) -> Option<Place>
        ensures { result ≡ parent_of self }
    {
        let mut names = self.names;
        match names.pop() {
            None => None,
            Some(_) => Some(Place { names }),
        }
    }

    /// The last name, as it is written; that of the root is empty.
    pub fn last_name(&self) -> Result<Name, NoMemory>
        ensures { IfOk result (λ name. name ≡ last_name self.now) }
    {
        if self.names.is_empty() {
            return Ok(Name::new(Text::new(*self.names.allocator())));
        }
        self.names[self.names.len() - 1].copy()
    }

    /// This place followed by names that lead down from it.
    pub fn joined(&self, names: &[Name]) -> Result<Place, NoMemory>
        ensures { IfOk result (λ place. place ≡ self.now ++ names.now) }
    {
        let count = self.names.len() + names.len();
        let mut joined: Vec<Name> = Vec::with_capacity(*self.names.allocator(), count)?;
        joined.extend_from_slice(&self.names)?;
        joined.extend_from_slice(names)?;
        Ok(Place { names: joined })
    }

    /// The names after those that another place has; none if this one has no more.
    pub fn relative_names(&self, directory: &Place) -> &[Name]
        ensures { result.now ≡ drop (length directory.now) self.now }
    {
        let count = directory.names.len().min(self.names.len());
        &self.names[count..]
    }

    /// Where this place is after a rename: a place at the old one or below it moves along.
    pub fn carried(&self, from: &Place, to: &Place) -> Result<Place, NoMemory>
        ensures { IfOk result (λ place. place ≡ moved_place from.now to.now self.now) }
    {
        if strip_directory(&from.names, &self.names).is_some() {
            to.joined(self.relative_names(from))
        } else {
            self.copy()
        }
    }

    /// The place in lower case.
    pub fn folded(&self) -> Result<Place, NoMemory>
        ensures { IfOk result (λ place. place ≡ key_of self.now) }
    {
        let alloc = *self.names.allocator();
        let mut names = Vec::new(alloc);
        for name in &self.names {
            names.push(folded(alloc, name)?)?;
        }
        Ok(Place { names })
    }

    /// An equal place with the same spelling. It has room for one more name, by which most copies lead on.
    pub fn copy(&self) -> Result<Place, NoMemory>
        ensures { IfOk result (λ place. place ≡ self.now) }
    {
        let count = self.names.len() + 1;
        let mut names: Vec<Name> = Vec::with_capacity(*self.names.allocator(), count)?;
        names.extend_from_slice(&self.names)?;
        Ok(Place { names })
    }
}

impl PartialEq for Place {
    ghost eq = { is_same_place };

    ghost laws = { partial_equiv_from_equiv (on_equiv key_of (eq_by_cmp_equiv place_cmp_total)) };

    fn eq(&self, other: &Place) -> bool {
        is_same(&self.names, &other.names)
    }
}

impl Eq for Place {
    ghost laws = { on_equiv key_of (eq_by_cmp_equiv place_cmp_total) };
}

/// Whether the two places are the same.
#[tactic(auto, using(crate::proofs::PlaceLemmas::same_by_key))]
pub fn is_same(a: &[Name], b: &[Name]) -> bool
    ensures { result ≡ is_same_key (key_of a.now) (key_of b.now) }
{
    a == b
}

/// The names that lead from a directory down to a place, if the place is at it or below it.
#[tactic(auto, using(ados_text::proofs::NameLemmas::alike))]
pub fn strip_directory<'a>(directory: &[Name], place: &'a [Name]) -> Option<&'a [Name]>
    ensures { option_map key_of (option_copied result) ≡ key_suffix (key_of directory.now) (key_of place.now) }
{
    let Some((x, xs)) = directory.split_first() else {
        return Some(place);
    };
    let Some((y, ys)) = place.split_first() else {
        return None;
    };
    if x == y {
        strip_directory(xs, ys)
    } else {
        None
    }
}

/// Whether the second place is below the first.
pub fn is_below(directory: &[Name], place: &[Name]) -> bool
    ensures { result ≡ is_below (key_of directory.now) (key_of place.now) }
{
    match strip_directory(directory, place) {
        None => false,
        Some(way) => !way.is_empty(),
    }
}

/// Whether one of the places is that of the names.
pub fn any_same(places: &[Place], names: &[Name]) -> bool
    ensures { result ≡ any_same places.now (key_of names.now) }
{
    for place in places {
        if is_same(place.names(), names) {
            return true;
        }
    }
    false
}

/// Whether one of the places is that of the names or below it.
pub fn any_at_or_below(places: &[Place], names: &[Name]) -> bool
    ensures { result ≡ any_at_or_below places.now (key_of names.now) }
{
    for place in places {
        if strip_directory(names, place.names()).is_some() {
            return true;
        }
    }
    false
}

/// Appends copies of places to a list; at `NoMemory` the list is unchanged.
pub fn push_places(out: &mut Vec<Place>, places: &[Place]) -> Result<(), NoMemory>
    ensures ok { OnOk result (out.new.items ≡ out.old.items ++ places.now) }
    ensures err { OnErr result (out.new.items ≡ out.old.items) }
{
    out.extend_from_slice(places)?;
    Ok(())
}

/// A name in lower case.
pub fn folded(alloc: Global, name: &Name) -> Result<Name, NoMemory>
    ensures { IfOk result (λ low. low ≡ folded_text name.now) }
{
    let bytes = name.text().as_bytes();
    let mut text = Text::new(alloc);
    for byte in bytes {
        text.push(fold(*byte))?;
    }
    Ok(Name::new(text))
}
