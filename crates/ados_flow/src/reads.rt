// What the commands read of the shells that run.
ghost use Rattle.std.specs.Prelude.{◌≡◌, List, Option, false};
ghost use Rattle.ados_readargs.specs.declared.args.Arg.{Arg};
ghost use Rattle.ados_find.specs.{Shared.{SharedState}, Views.{IgnoresInUse}};
ghost use Rattle.ados_flow.specs.{Frames.{ScriptLine}, Reads.{reads_in_use}, Rows.{row_of}};

use ados_resident::FlowCommand;

/// Whether a command needs the list of what is in use: Execute does, since it refuses a script that is an open output (202).
#[tactic(auto, using(crate::proofs::InUseLemmas::ignores))]
pub fn reads_in_use(command: FlowCommand) -> bool
    ensures value { result ≡ reads_in_use command }
    ensures ignores { result ≡ false → (shared : SharedState) (script_line : Option ScriptLine) (args : List Arg) → IgnoresInUse (λ view. row_of command shared script_line view args) }
{
    matches!(command, FlowCommand::Execute)
}
