// The shells of a world, by their numbers.
ghost use Rattle.std.specs.{Prelude.{◌≡◌, None, map, length, replicate, is_some, OnErr, OnOk, OnSome, true}, List.{filter, list_any}, Option.{option_copied}};
ghost use Rattle.ados_machine.specs.World.{option_flatten, at_number};
ghost use Rattle.ados_world.specs.Shells.{IsShellNumber, updated_carried_shells, is_entry, runs_from, shells_after_draft};

use crate::carrying::carried_directories;
use crate::table::ShellTable;
use ados_find::Renamed;
use ados_shell::{Shell, ShellDraft};
use ados_text::{NoMemory, Text};

/// A place for each number, and no shell.
#[inline(always)]
pub fn no_shells() -> [Option<Shell>; 20]
    ensures { result ≡ replicate 20 None }
{
    [
        None, None, None, None, None, None, None, None, None, None, None, None, None, None, None,
        None, None, None, None, None,
    ]
}

/// Some shell runs.
pub fn any_runs(shells: &[Option<Shell>]) -> bool
    ensures { result ≡ list_any is_some shells.now }
{
    shells.iter().any(Option::is_some)
}

// A shell runs at this place, from the resident entry with this name.
fn runs_from(place: &Option<Shell>, name: &Text) -> bool
    ensures { result ≡ runs_from place.now name.now }
{
    match place {
        None => false,
        Some(shell) => is_entry(shell.entry(), name),
    }
}

/// How many shells run from the resident entry with this name.
pub fn count_uses(shells: &[Option<Shell>; 20], name: &Text) -> usize
    ensures { result ≡ length (filter (λ place. runs_from place name.now) shells.now) }
{
    shells.iter().filter(|place| runs_from(place, name)).count()
}

// The entry, if there is one, has a name.
fn is_entry(found: Option<&Text>, name: &Text) -> bool
    ensures { result ≡ is_entry (option_copied found.entry) name.now }
{
    match found {
        None => false,
        Some(entry) => entry.as_bytes().eq_ignore_ascii_case(name.as_bytes()),
    }
}

/// Which numbers have a shell.
pub fn taken(shells: &[Option<Shell>; 20]) -> [bool; 20]
    ensures { result ≡ map is_some shells.now }
{
    let mut taken = [false; 20];
    for place in 0..20 {
        taken[place] = shells[place].is_some();
    }
    taken
}

/// The shell with this number, counted from 1.
pub fn find_shell(shells: &[Option<Shell>; 20], number: u8) -> Option<&Shell>
    ensures shell { option_copied result ≡ option_flatten (at_number shells.now number) }
    ensures number { OnSome result (IsShellNumber number) }
{
    match number {
        0 => None,
        _ => match shells.get(number as usize - 1) {
            Some(Some(shell)) => Some(shell),
            _ => None,
        },
    }
}

/// Commits what a turn makes of the shell with this number, which runs; if objects were moved, the current directories of
/// all shells are carried.
///
/// `NoMemory` if there is no room for its frames or a directory; the shells are then as they were.
pub fn change_shell(
    shells: &mut ShellTable,
    number: u8,
    draft: &mut ShellDraft,
    moved: &[Renamed],
) -> Result<(), NoMemory>
    requires number { IsShellNumber number }
    requires runs { is_some (option_flatten (at_number shells.old number)) ≡ true }
    ensures ok { OnOk result (shells.new ≡ shells_after_draft number draft.old moved.now shells.old) }
    ensures err { OnErr result (shells.new ≡ shells.old) }
{
    match moved {
        [] => shells.commit(number, draft),
        _ => carry_in(shells, number, draft, moved),
    }
}

/// The same of a shell that runs, if objects were moved: the current directories of all shells are carried.
fn carry_in(
    shells: &mut ShellTable,
    number: u8,
    draft: &mut ShellDraft,
    moved: &[Renamed],
) -> Result<(), NoMemory>
    requires number { IsShellNumber number }
    requires runs { is_some (option_flatten (at_number shells.old number)) ≡ true }
    ensures ok { OnOk result (shells.new ≡ updated_carried_shells number moved.now draft.old shells.old) }
    ensures err { OnErr result (shells.new ≡ shells.old) }
{
    let Some(shell) = find_shell(shells.places(), number) else {
        return Ok(());
    };
    let own = draft.carried_directory(shell, moved)?;
    let mut directories = carried_directories(shells.places(), moved)?;
    directories[number as usize - 1] = Some(own);
    shells.commit(number, draft)?;
    shells.carry(directories);
    Ok(())
}
