// The ends of shells.
ghost use Rattle.std.specs.{Prelude.{◌≡◌, ◌-◌, None}, List.{slice_set}};
ghost use Rattle.ados_machine.specs.World.{option_flatten, at_number};
ghost use Rattle.ados_world.specs.{Endings.{final_codes, recorded_codes, remaining_shells}, Shells.{IsShellNumber}};

use crate::shells::find_shell;
use crate::table::ShellTable;
use ados_find::Codes;
use ados_shell::Shell;

/// The shell with this number ends, if it is a background shell that no longer runs a frame; its codes are kept.
pub fn end_done(shells: &mut ShellTable, ended: &mut [Codes; 20], number: u8)
    requires { IsShellNumber number }
    ensures shells { shells.new ≡ remaining_shells (final_codes number (option_flatten (at_number shells.old number))) number shells.old }
    ensures ended { ended.new ≡ recorded_codes (final_codes number (option_flatten (at_number shells.old number))) number ended.old }
{
    if let Some(codes) = codes_left(shells.places(), number) {
        end(shells, ended, number, codes);
    }
}

/// The shell with this number ends, and these codes of it are kept.
pub fn end(shells: &mut ShellTable, ended: &mut [Codes; 20], number: u8, codes: Codes)
    requires { IsShellNumber number }
    ensures shells { shells.new ≡ slice_set shells.old (number - 1) None }
    ensures ended { ended.new ≡ slice_set ended.old (number - 1) codes }
{
    shells.put(number, None);
    ended[number as usize - 1] = codes;
}

/// The codes that the shell with this number leaves, if it is a background shell that no longer runs a frame.
fn codes_left(shells: &[Option<Shell>; 20], number: u8) -> Option<Codes>
    ensures { result ≡ final_codes number (option_flatten (at_number shells.now number)) }
{
    match find_shell(shells, number) {
        Some(shell) if number != 1 && !shell.has_frame() => Some(shell.codes()),
        _ => None,
    }
}
