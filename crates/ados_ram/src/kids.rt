// Some objects of a directory, in the order of their names.
ghost use Rattle.std.specs.{Prelude.{◌≡◌, ◌++◌, IfOk, IfSome, IsTrue, OnOk}, Option.{option_copied}};
ghost use Rattle.std.specs.FinMap as map;
ghost use Rattle.ados_text.specs.{Text.{folded_text}, Name.{name_cmp}};
ghost use Rattle.ados_ram.specs.{Tree.{IsKidPosition, replace_kid, branch_rows, rows_found}, Blocks.{first_is_at_most}};

use crate::branches::Branch;
use ados_text::{Name, NoMemory};
use std::alloc::Global;
use std::cmp::Ordering;

// How the name of a branch compares to another. Most names that are looked for are written as the object has them, and are
// compared at once.
fn order(kid: &Branch, name: &Name) -> Ordering
    ensures { result ≡ name_cmp kid.now.0 (folded_text name.now) }
{
    if kid.name().text() == name.text() {
        return Ordering::Equal;
    }
    kid.name().cmp(name)
}

/// Whether the first object has the name, or one before it.
pub fn begins_by(kids: &[Branch], name: &Name) -> bool
    ensures { result ≡ first_is_at_most (folded_text name.now) kids.now }
{
    match kids.first() {
        None => false,
        Some(first) => order(first, name).is_le(),
    }
}

/// The index of the object of a name, or the index at which it would be.
pub fn position(kids: &[Branch], name: &Name) -> Result<usize, usize>
    requires { IsTrue (map.is_sorted name_cmp kids.now) }
    ensures { IsKidPosition (folded_text name.now) kids.now result }
{
    kids.binary_search_by(|kid| order(kid, name))
}

/// The object of a name.
pub fn kid_at<'a>(kids: &'a [Branch], name: &Name) -> Option<&'a Branch>
    requires { IsTrue (map.is_sorted name_cmp kids.now) }
    ensures name { IfSome result (λ kid. kid.now.0 ≡ folded_text name.now) }
    ensures rows { branch_rows (option_copied result) ≡ rows_found (map.find name_cmp (folded_text name.now) kids.now) }
{
    match position(kids, name) {
        Ok(at) => Some(&kids[at]),
        Err(_) => None,
    }
}

/// Appends objects, shared.
pub fn share_kids(out: &mut Vec<Branch>, kids: &[Branch]) -> Result<(), NoMemory>
    ensures { OnOk result (out.new.items ≡ out.old.items ++ kids.now) }
{
    for kid in kids {
        out.push(kid.share()?)?;
    }
    Ok(())
}

/// The objects with another one of this name, or none.
pub fn changed(
    alloc: Global,
    kids: &[Branch],
    name: &Name,
    new: Option<Branch>,
) -> Result<Vec<Branch>, NoMemory>
    requires sorted { IsTrue (map.is_sorted name_cmp kids.now) }
    requires new { IfSome new (λ k. k.0 ≡ folded_text name.now) }
    ensures { IfOk result (λ v. v.items ≡ replace_kid (folded_text name.now) new kids.now) }
{
    let mut out = Vec::with_capacity(alloc, kids.len() + 1)?;
    share_kids(&mut out, kids)?;
    match (position(kids, name), new) {
        (Ok(at), Some(kid)) => out[at] = kid,
        (Err(at), Some(kid)) => out.insert(at, kid)?,
        (Ok(at), None) => {
            let _kid = out.remove(at);
        }
        (Err(_), None) => {}
    }
    Ok(out)
}
