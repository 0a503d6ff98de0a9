// What the commands read of the shells that run.
ghost use Rattle.std.specs.Prelude.{◌≡◌, List, false};
ghost use Rattle.ados_readargs.specs.declared.args.Arg.{Arg};
ghost use Rattle.ados_find.specs.{Shared.{SharedState}, Views.{IgnoresInUse, IgnoresShells}};
ghost use Rattle.ados_env.specs.{Reads.{reads_in_use, reads_shells}, Rows.{row_of}};

use ados_resident::{Dialect, EnvCommand};

/// Whether a command reads what is in use, in a dialect.
#[tactic(auto, using(crate::proofs::InUseLemmas::ignores))]
pub fn reads_in_use(dialect: Dialect, command: EnvCommand) -> bool
    ensures value { result ≡ reads_in_use dialect command }
    ensures ignores { result ≡ false → (shared : SharedState) (args : List Arg) → shared.dialect ≡ dialect → IgnoresInUse (λ view. row_of command shared view args) }
{
    match command {
        EnvCommand::Resident | EnvCommand::SetEnv | EnvCommand::UnsetEnv => true,
        EnvCommand::Eval => matches!(dialect, Dialect::Full),
        _ => false,
    }
}

/// Whether a command reads the names of the shells, and what they run from.
#[tactic(auto, using(crate::proofs::ShellsLemmas::ignores))]
pub fn reads_shells(command: EnvCommand) -> bool
    ensures value { result ≡ reads_shells command }
    ensures ignores { result ≡ false → (shared : SharedState) (args : List Arg) → IgnoresShells (λ view. row_of command shared view args) }
{
    matches!(
        command,
        EnvCommand::Break | EnvCommand::Resident | EnvCommand::Status
    )
}
