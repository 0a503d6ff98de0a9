// Cursors: places in the files from which a lookup can continue.
ghost use Rattle.std.specs.{Prelude.{◌≡◌, ◌∷◌, []}, Option.{option_copied}};
ghost use Rattle.std.specs.FinMap as map;
ghost use Rattle.ados_text.specs.Text.{folded_text};
ghost use Rattle.ados_ram.specs.{Place.{place_cmp}, Tree.{branch_rows, subtree_rows}};

use crate::branches::Branch;
use crate::entries::Entry;
use ados_text::Name;
use std::marker::Model;
use std::slice;

/// A place in one version of the files, seen as the entry at it and those below it, by their paths from there. There may
/// be none.
#[derive(Drop)]
pub struct Cursor<'a> {
    branch: Option<&'a Branch>,
}

impl<'a> Model for Cursor<'a> {
    ghost use Rattle.std.specs.Option.{option_copied};
    ghost use Rattle.ados_ram.specs.{Files.{Rows}, Tree.{branch_rows}};

    ghost Value = { Rows };

    ghost view = { λ c. branch_rows (option_copied c.branch) };
}

impl<'a> Cursor<'a> {
    /// The place of a branch, or a place with nothing at it.
    pub fn new(branch: Option<&'a Branch>) -> Cursor<'a>
        ensures { result ≡ branch_rows (option_copied branch.entry) }
    {
        Cursor { branch }
    }

    /// The entry at the place. Nothing is allocated.
    pub fn entry(&self) -> Option<&'a Entry>
        ensures { option_copied result ≡ map.find place_cmp [] self.now }
    {
        match self.branch {
            None => None,
            Some(branch) => Some(branch.entry()),
        }
    }

    /// The place of a name in this one. Nothing is allocated.
    pub fn child(&self, name: &Name) -> Cursor<'a>
        ensures { result ≡ subtree_rows (folded_text name.now ∷ []) self.now }
    {
        match self.branch {
            None => Cursor::new(None),
            Some(branch) => Cursor::new(branch.at(slice::from_ref(name))),
        }
    }
}
