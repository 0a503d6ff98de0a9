// The shell that a turn makes, and its number.
ghost use Rattle.std.specs.Prelude.{◌≡◌, IfOk, IfSome, option_map};
ghost use Rattle.ados_machine.specs.Numbers.{free_number};
ghost use Rattle.ados_world.specs.{NewShells.{joined_shells, new_shell}, Shells.{IsShellNumber}};

use crate::table::ShellTable;
use ados_shell::{Begun, Shell, free_number};
use ados_text::NoMemory;
use std::alloc::Global;

/// The lowest free number of 2 to 20; `None` if all are taken.
pub fn next_number(shells: &[Option<Shell>; 20]) -> Option<u8>
    ensures number { result ≡ free_number shells.now }
    ensures within { IfSome result (λ number. IsShellNumber number) }
{
    free_number(shells)
}

/// The shell that a turn makes, with the lowest free number; `None` if it makes none, or no number is free.
///
/// `NoMemory` if there is none for the shell.
pub fn new_shell(
    alloc: Global,
    shells: &[Option<Shell>; 20],
    begun: Option<Box<Begun>>,
) -> Result<Option<Shell>, NoMemory>
    ensures shell { IfOk result (λ shell. shell ≡ new_shell (option_map (λ b. b.value) begun) (free_number shells.now)) }
    ensures number { IfOk result (λ shell. IfSome shell (λ new. IsShellNumber new.parts.number)) }
{
    let Some(begun) = begun else {
        return Ok(None);
    };
    match next_number(shells) {
        None => Ok(None),
        Some(number) => {
            let shell = Shell::begun(alloc, number, Box::into_inner(begun))?;
            Ok(Some(shell))
        }
    }
}

/// A shell that begins is placed at its number.
pub fn join(shells: &mut ShellTable, shell: Option<Shell>)
    requires { IfSome shell (λ new. IsShellNumber new.parts.number) }
    ensures { shells.new ≡ joined_shells shell shells.old }
{
    if let Some(shell) = shell {
        shells.put(shell.number(), Some(shell));
    }
}
