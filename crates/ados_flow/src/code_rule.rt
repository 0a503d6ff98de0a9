// The code rule's test.
ghost use Rattle.std.specs.Prelude.{◌≡◌};
ghost use Rattle.ados_flow.specs.CodeRule.{is_reached};

use ados_text::Code;

/// The limit with which a shell begins, and which is in force again once no script is left.
pub const FIRST_LIMIT: Code = Code(10);

/// The code is at the limit, or above.
pub fn is_reached(limit: Code, code: Code) -> bool
    ensures { result ≡ is_reached limit code }
{
    limit.0 <= code.0
}
