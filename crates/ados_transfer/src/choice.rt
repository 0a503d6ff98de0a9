//! Which of the names of a folder are shared.
ghost use Rattle.std.specs.{Prelude.{◌≡◌}, Option.{option_copied}};
ghost use Rattle.ados_transfer.specs.Choice.{is_alike, is_chosen, is_known};

use crate::records::{Record, Records};
use std::alloc::{AllocError, Global};
use std::cmp::Ordering;

/// An object of a folder by its name alone.
#[derive(Drop)]
pub struct Named {
    /// Its path below the folder of the share in lower case.
    pub key: String,
    /// Its path.
    pub path: String,
}

/// In the order of their keys; those that differ only in case, by their paths.
pub fn order(a: &Named, b: &Named) -> Ordering {
    match a.key.as_str().cmp(b.key.as_str()) {
        Ordering::Equal => a.path.as_str().cmp(b.path.as_str()),
        order => order,
    }
}

/// For each name of a folder, in this order, whether it is shared: no other differs from it in case alone, or it is the one of the records. Of
/// others none is shared, since what the script does to one name would happen to another file.
pub fn chosen(alloc: Global, below: &[Named], records: &Records) -> Result<Vec<bool>, AllocError> {
    let mut chosen = Vec::new(alloc);
    for (place, named) in below.iter().enumerate() {
        let (before, from) = below.split_at(place);
        let record = records.get(named.key.as_str());
        chosen.push(is_chosen(named, before.last(), from.get(1), record))?;
    }
    Ok(chosen)
}

// A name is shared, given those before and after it, and the record of its key.
fn is_chosen(
    named: &Named,
    before: Option<&Named>,
    after: Option<&Named>,
    record: Option<&Record>,
) -> bool
    ensures { result ≡ is_chosen named.now (option_copied before.entry) (option_copied after.entry) (option_copied «record».entry) }
{
    let is_only = !is_alike(named, before) && !is_alike(named, after);
    is_only || is_known(named, record)
}

// Another name differs from this one in case alone.
fn is_alike(named: &Named, other: Option<&Named>) -> bool
    ensures { result ≡ is_alike named.now (option_copied other.entry) }
{
    other.is_some_and(|other| other.key.as_str() == named.key.as_str())
}

// The name is that of a record, in the same spelling.
fn is_known(named: &Named, record: Option<&Record>) -> bool
    ensures { result ≡ is_known named.now (option_copied «record».entry) }
{
    record.is_some_and(|record| record.path.as_str() == named.path.as_str())
}
