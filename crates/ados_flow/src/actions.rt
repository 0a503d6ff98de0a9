// What a command of control flow does to its shell.
ghost use Rattle.std.specs.Prelude.{◌≡◌};

use crate::called::Called;
use ados_find::{Codes, Outcome};
use ados_text::Text;
use std::alloc::Global;

/// What a command does to its shell.
#[derive(Drop)]
pub enum Action {
    /// It returns.
    Does(Outcome),
    /// It ends its script with these codes, or returns them if it is in none.
    Quits(Codes),
    /// It returns these codes, and its script continues at this line, counted from 1.
    Jumps { line: usize, codes: Codes },
    /// It calls a script.
    Calls(Called),
    /// It asks for yes or no with this prompt.
    Asks(Text),
}

impl Action {
    ghost use Rattle.ados_find.specs.{Effects.{codes_effect}, Shared.{SharedState}};
    ghost use Rattle.ados_flow.specs.Actions.{Does, action_effect};

    /// It returns this, changes nothing and prints nothing.
    pub fn answering(alloc: Global, codes: Codes) -> Action
        ensures { (shared : SharedState) → action_effect shared result ≡ Does (codes_effect shared codes) }
    {
        Action::Does(Outcome::answering(alloc, codes))
    }
}
