// What each command does.
ghost use Rattle.std.specs.{Prelude.{◌≡◌, IfOk}, Option.{option_copied}};
ghost use Rattle.ados_find.specs.Views.{IgnoresShells};
ghost use Rattle.ados_flow.specs.{Actions.{action_effect}, Frames.{script_line_of}, Rows.{row_of, template_of}};

use crate::actions::Action;
use crate::ask::ask;
use crate::branches::{branch, pass_block, skip};
use crate::execute::execute;
use crate::frames::Frame;
use crate::quit::quit;
use ados_find::{Codes, Shared, ShellView};
use ados_readargs::Args;
use ados_resident::{Dialect, FlowCommand};
use ados_text::NoMemory;
use std::alloc::Global;

/// The text of a command's template in a dialect.
pub fn template(dialect: Dialect, command: FlowCommand) -> &'static str
    ensures { result.now ≡ template_of dialect command }
{
    match (command, dialect) {
        (FlowCommand::Ask, _) => "PROMPT/A",
        (FlowCommand::Else | FlowCommand::EndIf | FlowCommand::EndSkip, _) => "",
        (FlowCommand::Execute, _) => "FILE/A,ARGS/F",
        (FlowCommand::If, _) => "NOT/S,WARN/S,ERROR/S,FAIL/S,,EQ/K,GT/K,GE/K,VAL/S,EXISTS/K",
        (FlowCommand::Lab, _) => "LABEL/F",
        (FlowCommand::Quit, _) => "RC/N",
        (FlowCommand::Skip, Dialect::Core) => "LABEL,BACK/S",
        (FlowCommand::Skip, Dialect::Full) => "LABEL/M,BACK/S",
    }
}

/// What a command does, by the shared state, the newest frame, its shell's view, and the arguments that its template
/// gave. It reads neither the names of the shells nor what they run from.
#[tactic(auto, using(crate::proofs::ShellsLemmas::ignores_shells))]
pub fn run(
    alloc: Global,
    command: FlowCommand,
    shared: &Shared,
    frame: Option<&Frame>,
    view: &ShellView,
    args: &Args,
) -> Result<Action, NoMemory>
    ensures row { IfOk result (λ action. action_effect shared.now action ≡ row_of command shared.now (script_line_of (option_copied frame.entry)) view.now args.now) }
    ensures names { IgnoresShells (λ v. row_of command shared.now (script_line_of (option_copied frame.entry)) v args.now) }
{
    match command {
        FlowCommand::Ask => ask(alloc, shared, args),
        FlowCommand::Else => Ok(pass_block(alloc, frame)),
        FlowCommand::EndIf | FlowCommand::EndSkip | FlowCommand::Lab => {
            Ok(Action::answering(alloc, Codes::NONE))
        }
        FlowCommand::Execute => execute(alloc, shared, view, args),
        FlowCommand::If => branch(alloc, shared, frame, view, args),
        FlowCommand::Quit => Ok(quit(args)),
        FlowCommand::Skip => skip(alloc, shared, frame, args),
    }
}
