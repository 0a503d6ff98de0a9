//! The jumps of a script that lead nowhere: an Else without EndIf, a Skip that finds neither its Lab nor an EndSkip.
ghost use Rattle.std.specs.Prelude.{◌≡◌, true, is_some, Some, None, IfOk, IfSome};
ghost use Rattle.ados_text.specs.declared.codes.TheConstants.Result2.{OBJECT_NOT_FOUND};
ghost use Rattle.ados_find.specs.{Codes.{fail_codes}, Shared.{SharedState}, Views.{View}};
ghost use Rattle.ados_flow.specs.{Actions.{Quits}, Rows.{row_of}};
ghost use Rattle.ados_machine.specs.Commands.{template_of};
ghost use Rattle.ados_readargs.specs.Fill.{fill_of};
ghost use Rattle.ados_resident.specs.{declared.commands.Builtin.TheVariants.{Flow}, declared.commands.FlowCommand.TheVariants.{Skip}};
ghost use Rattle.ados_check.specs.{Jumps.{label_filled, label_named, leads_nowhere, lost_jump}, Signs.{told_sign}};

use crate::findings::Problem;
use crate::readings::cut_bytes;
use ados_flow::{label_sought, skip_from};
use ados_line::{Expanded, LineFault, without_comment};
use ados_machine::{Builtin, parsed_template};
use ados_readargs::{ArgFault, Args};
use ados_resident::{Dialect, FlowCommand};
use ados_script::{Jump, Script};
use ados_text::{NoMemory, Text};
use std::alloc::Global;

/// The problem of a command with these arguments at a line of a script, which has its number beside it, if it is a jump that
/// leads nowhere in a world of a dialect.
pub fn jump_problem(
    alloc: Global,
    dialect: Dialect,
    at: (&Script, usize),
    command: FlowCommand,
    args: &Args,
) -> Result<Option<Problem>, NoMemory>
    ensures told { IfOk result (λ found. IfSome found (λ problem. told_sign problem ≡ None)) }
    ensures kind { IfOk result (λ found. IfSome found (λ problem. lost_jump problem ≡ Some command)) }
    ensures nowhere { IfOk result (λ found. is_some found ≡ leads_nowhere dialect command at.entry.0.now at.entry.1 args.now) }
    // Whenever the line is taken, in whatever shell, the script ends there with 20 and 205, and nothing else is done.
    ensures ends { IfOk result (λ found. is_some found ≡ true → (shared : SharedState) (view : View) → shared.dialect ≡ dialect
        → row_of command shared (Some (record { lines = at.entry.0.now; line = at.entry.1 })) view args.now ≡ Quits (fail_codes OBJECT_NOT_FOUND)) }
{
    let (script, line) = at;
    match command {
        FlowCommand::Else => Ok(match script.after_else(line) {
            Jump::None => Some(Problem::ElseWithoutEndIf),
            Jump::To(_) | Jump::EndSkip(_) => None,
        }),
        FlowCommand::Skip => match skip_from(alloc, dialect, script, line, args)? {
            Jump::None => {
                let label = label_sought(alloc, dialect, args)?;
                Ok(Some(Problem::NoLab(label.unwrap_or(Text::new(alloc)))))
            }
            Jump::To(_) | Jump::EndSkip(_) => Ok(None),
        },
        _ => Ok(None),
    }
}

/// The label that a line of Skip names in a dialect, with its variables as they are written; empty if it names none.
#[tactic(auto, using(crate::proofs::ReadingLemmas::text_kept))]
pub fn label_in(alloc: Global, dialect: Dialect, line: &Text) -> Result<Text, NoMemory>
    ensures { IfOk result (λ label. label ≡ label_named dialect line.now) }
{
    match cut_bytes(alloc, without_comment(line.as_bytes())) {
        Ok(Expanded::Ready(line)) => label_of(alloc, dialect, &line.args),
        Err(LineFault::NoMemory) => Err(NoMemory),
        Ok(_) | Err(_) => Ok(Text::new(alloc)),
    }
}

// The label that the text of Skip's arguments names; empty if it names none.
fn label_of(alloc: Global, dialect: Dialect, args: &Text) -> Result<Text, NoMemory>
    ensures { IfOk result (λ label. label ≡ label_filled dialect (fill_of (template_of dialect (Flow Skip)) args.now)) }
{
    let skip = Builtin::Flow(FlowCommand::Skip);
    match parsed_template(alloc, dialect, skip)?.fill(alloc, args.as_bytes()) {
        Ok(args) => Ok(label_sought(alloc, dialect, &args)?.unwrap_or(Text::new(alloc))),
        Err(ArgFault::NoMemory) => Err(NoMemory),
        Err(_) => Ok(Text::new(alloc)),
    }
}
