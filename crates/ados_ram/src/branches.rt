// The tree: an object with all that is in it, shared between versions.
ghost use Rattle.std.specs.{Prelude.{◌≡◌, ◌++◌, IfOk, OnOk, Some, [], false}, Option.{option_copied}};
ghost use Rattle.std.specs.FinMap as map;
ghost use Rattle.ados_text.specs.Text.{folded_text};
ghost use Rattle.ados_ram.specs.{Place.{key_of, place_cmp, is_root}, Tree.{AreKids, IsReplaced, MayStand, branch_rows, subtree_rows, rows_of, rows_by_root, rows_way, rows_written, places_of_ways, with_flat, IsEntryAt}, Contents.{contents}, Rows.{inner_rows}, FileOperations.{has_descendants}};

use crate::children::Children;
use crate::entries::Entry;
use crate::places::{Place, folded};
use crate::rows::Row;
use ados_text::{Name, NoMemory, Result2};
use std::alloc::Global;
use std::marker::Model;
use std::rc::Rc;

/// An object with all that is in it. A change makes new nodes along one path; all others are shared.
#[cycle(tree)]
#[derive(Drop)]
pub struct Branch {
    node: Rc<Node>,
}

#[cycle(tree)]
#[derive(Drop)]
pub struct Node {
    head: Rc<Head>,
    kids: Children,
}

/// The name and the entry of an object.
#[derive(Drop)]
pub struct Head {
    name: Name,
    entry: Entry,
}

impl Model for Branch {
    ghost use Rattle.ados_text.specs.Text.{folded_text};
    ghost use Rattle.ados_ram.specs.Tree.{Kid, coded_kid, rows_of, AreKids};

    ghost Value = { Kid };

    ghost coded = { coded_kid };

    ghost view = { λ b. (folded_text b.node.value.head.value.name, rows_of b.node.value.head.value.entry b.node.value.kids) };

    ghost invariant = { λ b. AreKids b.node.value.kids };

    ghost use Rattle.std.specs.Prelude.{◌*◌, length};

    ghost size = { λ v. 3 * length v.1 };

    ghost use Rattle.ados_ram.specs.Falls.{falls};

    ghost size_decreases = { λ a h. falls a };
}

impl Branch {
    /// An object with these objects in it.
    pub fn new(name: Name, entry: Entry, kids: Children) -> Result<Branch, NoMemory>
        requires { AreKids kids }
        ensures { IfOk result (λ b. b ≡ (folded_text name, rows_of entry kids)) }
    {
        let alloc = kids.allocator();
        let head = Rc::new(alloc, Head { name, entry })?;
        Ok(Branch {
            node: Rc::new(alloc, Node { head, kids })?,
        })
    }

    /// An object with nothing in it.
    pub fn leaf(alloc: Global, name: Name, entry: Entry) -> Result<Branch, NoMemory>
        ensures { IfOk result (λ b. b ≡ (folded_text name, rows_of entry [])) }
    {
        Branch::new(name, entry, Children::none(alloc))
    }

    /// The same branch, shared.
    pub fn share(&self) -> Result<Branch, NoMemory>
        ensures { IfOk result (λ b. b ≡ self.now) }
    {
        Ok(Branch {
            node: self.node.clone()?,
        })
    }

    /// The name, in some spelling.
    pub fn name(&self) -> &Name
        ensures { folded_text result.now ≡ self.now.0 }
    {
        &self.node.head.name
    }

    /// The entry of the object itself.
    pub fn entry(&self) -> &Entry
        ensures { map.find place_cmp [] self.now.1 ≡ Some result.now }
    {
        &self.node.head.entry
    }

    /// The branch at a place below this one.
    pub fn at(&self, names: &[Name]) -> Option<&Branch>
        ensures { branch_rows (option_copied result) ≡ subtree_rows (key_of names.now) self.now.1 }
    {
        let Some((name, rest)) = names.split_first() else {
            return Some(self);
        };
        match self.node.kids.find(name) {
            None => None,
            Some(kid) => kid.at(rest),
        }
    }

    /// A place followed by names that lead down from here, as they are written in the files; names that are not there
    /// stay as they are.
    pub fn written(&self, written: Place, names: &[Name]) -> Result<Place, NoMemory>
        ensures { IfOk result (λ place. place ≡ written ++ rows_written self.now.1 [] names.now) }
    {
        let Some((name, rest)) = names.split_first() else {
            return Ok(written);
        };
        match self.node.kids.find(name) {
            None => written.joined(names),
            Some(kid) => kid.written(written.with(kid.entry().name.copy()?)?, rest),
        }
    }

    /// The fault of the directories above a place, each tested from here down.
    pub fn way(&self, names: &[Name]) -> Option<Result2>
        ensures { result ≡ rows_way self.now.1 [] (key_of names.now) }
    {
        let Some((name, rest)) = names.split_first() else {
            return None;
        };
        if !self.entry().is_directory() {
            return Some(Result2::WRONG_TYPE);
        }
        match self.node.kids.find(name) {
            Some(kid) => kid.way(rest),
            None if rest.is_empty() => None,
            None => Some(Result2::DIRECTORY_NOT_FOUND),
        }
    }

    /// The entry at a place.
    pub fn find(&self, names: &[Name]) -> Option<&Entry>
        ensures { option_copied result ≡ map.find place_cmp (key_of names.now) self.now.1 }
    {
        match self.at(names) {
            None => None,
            Some(branch) => Some(branch.entry()),
        }
    }

    /// Whether something is in it.
    pub fn is_parent(&self) -> bool
        ensures { result ≡ has_descendants [] self.now.1 }
    {
        !self.node.kids.is_empty()
    }

    /// Appends the rows of the objects directly in this directory, or of all that are below it; the directory is at the
    /// place.
    pub fn add_rows(&self, place: &Place, all: bool, rows: &mut Vec<Row>) -> Result<(), NoMemory>
        ensures { OnOk result (rows.new.items ≡ rows.old.items ++ rows_by_root (key_of place.now) (inner_rows all [] self.now.1)) }
    {
        for kid in &self.node.kids.each()? {
            let at = place.copy()?.with(kid.name().copy()?)?;
            rows.push(Row::new(at.copy()?, kid.entry().copy()?))?;
            if all {
                kid.add_rows(&at, all, rows)?;
            }
        }
        Ok(())
    }

    /// Appends the places of all that is below this directory, which is at the place, each directory after what is in it.
    pub fn add_contents(&self, place: &Place, places: &mut Vec<Place>) -> Result<(), NoMemory>
        ensures { OnOk result (places.new.items ≡ places.old.items ++ places_of_ways place.now (contents [] self.now.1)) }
    {
        for kid in &self.node.kids.each()? {
            let name = folded(self.node.kids.allocator(), kid.name())?;
            let at = place.copy()?.with(name)?;
            kid.add_contents(&at, places)?;
            places.push(at)?;
        }
        Ok(())
    }

    /// The tree with another branch, or none, at a place and below it. Nodes off the path to it are shared.
    pub fn with(&self, names: &[Name], new: Option<Branch>) -> Result<Branch, NoMemory>
        requires place { is_root (key_of names.now) ≡ false }
        requires stands { MayStand (key_of names.now) new self.now.1 }
        ensures name { IfOk result (λ b. b.0 ≡ self.now.0) }
        ensures rows { IfOk result (λ b. IsReplaced (key_of names.now) (branch_rows new) self.now.1 b.1) }
    {
        let Some((name, rest)) = names.split_first() else {
            unreachable!();
        };
        if rest.is_empty() {
            return self.with_kids(self.node.kids.with(name, new)?);
        }
        let Some(kid) = self.node.kids.find(name) else {
            unreachable!();
        };
        let kid = kid.with(rest, new)?;
        self.with_kids(self.node.kids.with(name, Some(kid))?)
    }

    // The same object, with these in it.
    fn with_kids(&self, kids: Children) -> Result<Branch, NoMemory>
        requires { AreKids kids }
        ensures { IfOk result (λ b. b ≡ (self.now.0, with_flat self.now.1 kids)) }
    {
        let head = self.node.head.clone()?;
        Ok(Branch {
            node: Rc::new(kids.allocator(), Node { head, kids })?,
        })
    }

    /// The object with another name and entry, and the same objects in it.
    pub fn with_entry(&self, name: Name, entry: Entry) -> Result<Branch, NoMemory>
        ensures name { IfOk result (λ b. b.0 ≡ folded_text name) }
        ensures rows { IfOk result (λ b. IsEntryAt entry self.now.1 b.1) }
    {
        Branch::new(name, entry, self.node.kids.share()?)
    }
}
