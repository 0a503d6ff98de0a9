// The comment of a line.
ghost use Rattle.std.specs.Prelude.{◌≡◌};
ghost use Rattle.ados_line.specs.Comment.{comment_start, without_comment};

use ados_items::{Item, next_item};

/// A line without its comment, which begins at the first `;` outside quotes.
///
/// A quote that is not closed takes the rest of the line, so that no comment begins after it. No memory is allocated. A
/// line without any `;`, as nearly all are, is not searched item by item.
#[tactic(auto, using(crate::proofs::CommentLemmas::whole))]
#[inline(always)]
pub fn without_comment(line: &[u8]) -> &[u8]
    ensures { result.now ≡ without_comment line.now }
{
    if !line.contains(&b';') {
        return line;
    }
    &line[..comment_start(line).min(line.len())]
}

// Where a line's comment begins, or the line's end if it has none.
fn comment_start(line: &[u8]) -> usize
    ensures { result ≡ comment_start line.now }
{
    let mut place = 0;
    for step in 0..line.len() + 1 {
        match next_item(line, place) {
            Item::Word { to, .. } => place = to,
            Item::Quoted { to, .. } => place = to + 1,
            Item::Equal(at) => place = at + 1,
            Item::End(at) => return at,
            Item::Unmatched(_) => return line.len(),
        }
    }
    line.len()
}
