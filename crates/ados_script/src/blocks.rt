// Where blocks end: a table of one entry for each line, made from the last line up.
ghost use Rattle.std.specs.Prelude.{◌≡◌, ◌≤◌, true, IfSome, OnOk};
ghost use Rattle.ados_script.specs.{Blocks.{is_end}, Tables.{ends_above, kept_ends, with_entry}};

use crate::heads::Head;
use ados_text::NoMemory;

/// Where the block of a line ends.
#[derive(Clone, Copy)]
pub struct Ends {
    /// At its EndIf.
    pub end_if: Option<usize>,
    /// At its Else, or its EndIf if that comes first.
    pub branch: Option<usize>,
}

impl Ends {
    // Neither exists.
    const NOWHERE: Ends = Ends {
        end_if: None,
        branch: None,
    };
}

/// The entry of the line that is `down` lines below the topmost one that was read. If there is no such entry, no block
/// ends there.
pub fn kept_ends(entries: &[Ends], down: usize) -> Ends
    ensures { result ≡ kept_ends entries.now down }
{
    match entries.len().checked_sub(down) {
        None | Some(0) => Ends::NOWHERE,
        Some(place) => entries[place - 1],
    }
}

/// Pushes the entry of the line above this one.
pub fn push_entry(entries: &mut Vec<Ends>, line: usize, head: Head) -> Result<(), NoMemory>
    requires { IfSome (kept_ends entries.old.items 0).end_if (λ end. line ≤ end) }
    ensures { OnOk result (entries.new.items ≡ with_entry entries.old.items (ends_above entries.old.items line head)) }
{
    // Below the last line that ends a block no line has an end, so no entry is kept for it.
    if entries.is_empty() && !is_block_end(head) {
        return Ok(());
    }
    entries.push(ends_above(entries, line, head))?;
    Ok(())
}

// The line ends a block, or the first part of one.
fn is_block_end(head: Head) -> bool
    ensures { result ≡ is_end true head }
{
    matches!(head, Head::EndIf | Head::Else)
}

// Where the block of the line above this one ends. If this is an If, it ends where the block of that If's EndIf does.
fn ends_above(entries: &[Ends], line: usize, head: Head) -> Ends
    requires { IfSome (kept_ends entries.now 0).end_if (λ end. line ≤ end) }
    ensures { result ≡ ends_above entries.now line head }
{
    let below = kept_ends(entries, 0);
    match head {
        Head::EndIf => Ends {
            end_if: Some(line),
            branch: Some(line),
        },
        Head::Else => Ends {
            end_if: below.end_if,
            branch: Some(line),
        },
        Head::If => match below.end_if {
            None => Ends::NOWHERE,
            Some(end) => kept_ends(entries, end - line),
        },
        _ => below,
    }
}
