// Quit: the end of a script.
ghost use Rattle.std.specs.Prelude.{◌≡◌};
ghost use Rattle.ados_find.specs.Shared.{SharedState};
ghost use Rattle.ados_flow.specs.{Actions.{action_effect}, Quit.{quit_row}};

use crate::actions::Action;
use ados_find::Codes;
use ados_readargs::Args;
use ados_text::{Code, Result2};

/// Quit ends its script with the code RC, or 0.
pub fn quit(args: &Args) -> Action
    ensures { (shared : SharedState) → action_effect shared result ≡ quit_row args.now }
{
    let code = match args.number(0) {
        None => Code::OK,
        Some(number) => Code(number),
    };
    Action::Quits(Codes {
        code,
        result2: Result2::NONE,
    })
}
