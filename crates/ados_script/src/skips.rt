// Where a Skip leads: to the nearer of two lines, each the first one below the Skip in an ascending list.
ghost use Rattle.std.specs.{Prelude.{◌≡◌, ◌+◌, ◌<◌, ◌^◌, IfSome}, List.Sorted.{IsNonDecreasing}};
ghost use Rattle.ados_script.specs.Tables.{jump_past_first, first_below, nearer_of};

use crate::jumps::Jump;

/// The first of these lines that is below line `i`.
pub fn first_below(lines: &[usize], i: usize) -> Option<usize>
    requires { IsNonDecreasing lines.now }
    ensures { result ≡ first_below lines.now i }
{
    lines.get(lines.partition_point(|line| *line <= i)).copied()
}

/// The nearer of two lines, of which one may not be there.
pub fn nearer(line: Option<usize>, other: Option<usize>) -> Option<usize>
    ensures { result ≡ nearer_of line other }
{
    match (line, other) {
        (None, other) => other,
        (Some(line), None) => Some(line),
        (Some(line), Some(other)) => {
            if line < other {
                Some(line)
            } else {
                Some(other)
            }
        }
    }
}

/// To the line after the Lab or the EndSkip that was found, whichever comes first.
pub fn jump_past_first(lab: Option<usize>, end_skip: Option<usize>) -> Jump
    requires lab { IfSome lab (λ line. line + 1 < 2 ^ 64) }
    requires end_skip { IfSome end_skip (λ line. line + 1 < 2 ^ 64) }
    ensures { result ≡ jump_past_first lab end_skip }
{
    match (lab, end_skip) {
        (None, None) => Jump::None,
        (Some(lab), None) => Jump::To(lab + 1),
        (None, Some(end)) => Jump::EndSkip(end + 1),
        (Some(lab), Some(end)) => {
            if end < lab {
                Jump::EndSkip(end + 1)
            } else {
                Jump::To(lab + 1)
            }
        }
    }
}
