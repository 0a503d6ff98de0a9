// Breaks of shells.
ghost use Rattle.std.specs.{Prelude.{◌≡◌, ◌<◌, ◌≤◌}, List.{slice_get, slice_set}};
ghost use Rattle.ados_machine.specs.{Breaks.{kind_breaks, broken_number, broken_place}, World.{option_flatten}};
ghost use Rattle.ados_world.specs.Breaks.{shells_with_broken};

use crate::table::ShellTable;
use ados_find::{Breaking, Breaks};
use ados_machine::BreakKind;
use ados_shell::Shell;

/// What a break of a kind does: one by C marks, and one by D flags.
pub fn kind_breaks(kind: BreakKind) -> Breaks
    ensures { result ≡ kind_breaks kind }
{
    Breaks {
        marks: kind == BreakKind::C,
        flags: kind == BreakKind::D,
    }
}

/// The shell with this number is broken, if one runs.
pub fn break_number(shells: &mut [Option<Shell>; 20], number: usize, breaks: Breaks)
    ensures broken { shells.new ≡ broken_number breaks number shells.old }
    ensures outside { (1 ≤ number → 20 < number) → shells.new ≡ shells.old }
{
    match number {
        1..=20 => break_place(shells, number - 1, breaks),
        _ => {}
    }
}

/// The shell at a place is broken, if one runs.
fn break_place(shells: &mut [Option<Shell>; 20], place: usize, breaks: Breaks)
    requires { place < 20 }
    ensures { shells.new ≡ slice_set shells.old place (broken_place breaks (option_flatten (slice_get shells.old place))) }
{
    match &mut shells[place] {
        None => {}
        Some(shell) => shell.break_by(breaks),
    }
}

/// The shell that a command broke is broken, unless it is the command's own, which has this number.
pub fn break_other(shells: &mut ShellTable, number: u8, breaking: Option<Breaking>)
    ensures { shells.new ≡ shells_with_broken number breaking shells.old }
{
    match breaking {
        Some(breaking) if breaking.shell != number as usize => {
            shells.break_shell(breaking.shell, breaking.breaks)
        }
        _ => {}
    }
}
