//! What a line is read as, whatever the variables of its shell are.
ghost use Rattle.std.specs.Prelude.{◌≡◌, IfSome};
ghost use Rattle.ados_text.specs.Text.{IsText};
ghost use Rattle.ados_line.specs.{Alias.{with_alias}, Answers.{Gives}, Comment.{without_comment}, Cut.{cut_of, expanded_of_cut}, Expansion.{expand_raw_line}, Values.{Variables}};
ghost use Rattle.ados_vars.specs.Vars.{Pairs};
ghost use Rattle.ados_check.specs.Readings.{is_marked};

use ados_line::{Expanded, LineFault, cut, without_comment};
use ados_text::{LINE_BYTES, Text};
use std::alloc::Global;

/// What a line is read as; `None` if that depends on variables or on the output of a command: it has a `$` or a back-tick.
///
/// The fault is `LineTooLong` for more than 512 bytes, and otherwise that of the cut.
#[tactic(auto, using(crate::proofs::ReadingLemmas::text_kept))]
pub fn read_line(alloc: Global, raw: &Text) -> Option<Result<Expanded, LineFault>>
    // Each shell reads it so that has no alias for its first word.
    ensures { IfSome result (λ read. (aliases : Pairs) (variables : Variables) → with_alias aliases (without_comment raw.now) ≡ without_comment raw.now
        → Gives read (expand_raw_line aliases variables raw.now)) }
{
    let bytes = raw.as_bytes();
    if bytes.len() > LINE_BYTES {
        return Some(Err(LineFault::LineTooLong));
    }
    let line = without_comment(bytes);
    if is_marked(line) {
        return None;
    }
    Some(cut_bytes(alloc, line))
}

// The line has a `$` or a back-tick.
fn is_marked(line: &[u8]) -> bool
    ensures { result ≡ is_marked line.now }
{
    line.contains(&b'$') || line.contains(&b'`')
}

/// What a line without comment, alias, variables and back-ticks is read as.
pub fn cut_bytes(alloc: Global, line: &[u8]) -> Result<Expanded, LineFault>
    requires { IsText line.now }
    ensures { Gives result (expanded_of_cut (cut_of line.now)) }
{
    cut(alloc, &Text::of_ascii(alloc, line)?)
}
