// Ask: a question that is answered by yes or no.
ghost use Rattle.std.specs.Prelude.{◌≡◌, IfOk};
ghost use Rattle.ados_flow.specs.{Actions.{action_effect}, Ask.{ask_row, reply_of}};

use crate::actions::Action;
use ados_find::{Codes, Shared};
use ados_readargs::Args;
use ados_text::{NoMemory, Result2, Text};
use std::alloc::Global;

/// Ask asks with its PROMPT.
pub fn ask(alloc: Global, shared: &Shared, args: &Args) -> Result<Action, NoMemory>
    ensures { IfOk result (λ action. action_effect shared.now action ≡ ask_row shared.now args.now) }
{
    match args.made_text(alloc, 0)? {
        None => Ok(Action::answering(alloc, Codes::failed(Result2::ARGUMENT_MISSING))),
        Some(prompt) => Ok(Action::Asks(prompt)),
    }
}

/// What a line replies to a question: `y` and `yes` answer it with 5, `n`, `no` and an empty line with 0, case ignored;
/// `None` for anything else, which is not an answer.
pub fn reply_of(line: &Text) -> Option<Codes>
    ensures { result ≡ reply_of line.now }
{
    if line.is("y") || line.is("yes") {
        Some(Codes::warned(Result2::NONE))
    } else if line.is("") || line.is("n") || line.is("no") {
        Some(Codes::NONE)
    } else {
        None
    }
}
