// Where a jump leads.
ghost use Rattle.std.specs.Prelude.{◌≡◌, ◌+◌, ◌<◌, ◌^◌, IfSome};
ghost use Rattle.ados_script.specs.Jumps.{jump_to_next};

/// Where a jump leads. Lines are numbered from 1.
#[derive(Clone, Copy, Debug, PartialEq, Eq)]
pub enum Jump {
    /// To the line of this number, which may be the one after the last.
    To(usize),
    /// The same, but the line follows an EndSkip.
    EndSkip(usize),
    /// What is searched for does not exist.
    None,
}

/// To the line after a line that was found.
pub fn jump_to_next(line: Option<usize>) -> Jump
    requires { IfSome line (λ line. line + 1 < 2 ^ 64) }
    ensures { result ≡ jump_to_next line }
{
    match line {
        None => Jump::None,
        Some(line) => Jump::To(line + 1),
    }
}
