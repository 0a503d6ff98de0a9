//! One finding for all lines of a script that end in a carriage return, since one `tr` takes it off all of them.
ghost use Rattle.std.specs.{Prelude.{◌≡◌, not}, List.{filter, find, list_any}, Option.{option_map}};
ghost use Rattle.ados_check.specs.{Problems.{refuses_return, speaks_of_return}, Returns.{is_kept, merged}};

use crate::findings::{Finding, Problem};

/// Keeps only the first finding of a line that must not be run since it ends in a carriage return, if there is one, of those that speak of
/// one: it says how many other lines do.
#[tactic(auto, using(crate::proofs::ReturnLemmas::others_merged, crate::proofs::ReturnLemmas::refused_merged))]
pub fn merge_returns(found: &mut Vec<Finding>)
    ensures value { found.new.items ≡ merged found.old.items }
    // What speaks of something else stays, and so does that such a line must not be run.
    ensures others { filter (λ one. not (speaks_of_return one.problem)) found.new.items ≡ filter (λ one. not (speaks_of_return one.problem)) found.old.items }
    ensures refused { list_any (λ one. refuses_return one.problem) found.new.items ≡ list_any (λ one. refuses_return one.problem) found.old.items }
{
    if let Some(line) = refused_line(found.as_slice()) {
        keep(found, line);
    }
}

// Keeps what speaks of a carriage return in that line only, and all else.
fn keep(found: &mut Vec<Finding>, line: usize)
    ensures { found.new.items ≡ filter (is_kept line) found.old.items }
{
    found.retain(|one| one.line == line || !one.problem.is_return());
}

// The line of the first finding that refuses a carriage return.
fn refused_line(found: &[Finding]) -> Option<usize>
    ensures { result ≡ option_map (λ one. one.line) (find (λ one. refuses_return one.problem) found.now) }
{
    for one in found {
        if let Problem::EndReturn(_) = one.problem {
            return Some(one.line);
        }
    }
    None
}
