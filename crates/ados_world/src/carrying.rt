// Carrying: the current directories of all shells move with the objects that were moved.
ghost use Rattle.std.specs.{Prelude.{◌≡◌, IfOk, None, option_map, replicate}, Option.{option_copied}};
ghost use Rattle.ados_find.specs.{Renames.{renames_in}, Shared.{version}};
ghost use Rattle.ados_machine.specs.Carrying.{carried_directory, has_moved, moved_objects};
ghost use Rattle.ados_world.specs.Shells.{placed_shells, carried_directories, placed_shell};

use ados_find::{Renamed, Renames, Shared};
use ados_ram::Place;
use ados_shell::Shell;
use ados_text::NoMemory;
use std::alloc::Global;

/// What a turn moved: what it renamed, as far as that was at its old place and is no longer there.
pub fn moved_by(
    alloc: Global,
    old: &Shared,
    new: Option<&Shared>,
    renamed: Option<&Renames>,
) -> Result<Vec<Renamed>, NoMemory>
    ensures { IfOk result (λ moved. moved.items ≡ moved_objects old.now (version old.now (option_copied new.entry)) (renames_in (option_copied renamed.entry))) }
{
    match renamed {
        None => Ok(Vec::new(alloc)),
        Some(renamed) => moved_of(alloc, old, version(old, new), renamed.as_slice()),
    }
}

// The shared state after the turn.
fn version<'a>(old: &'a Shared, new: Option<&'a Shared>) -> &'a Shared
    ensures { result.now ≡ version old.now (option_copied new.entry) }
{
    match new {
        None => old,
        Some(new) => new,
    }
}

fn moved_of(
    alloc: Global,
    old: &Shared,
    new: &Shared,
    renamed: &[Renamed],
) -> Result<Vec<Renamed>, NoMemory>
    ensures { IfOk result (λ moved. moved.items ≡ moved_objects old.now new.now renamed.now) }
{
    let mut moved = Vec::new(alloc);
    for object in renamed {
        if has_moved(old, new, object) {
            moved.push(object.copy()?)?;
        }
    }
    Ok(moved)
}

fn has_moved(old: &Shared, new: &Shared, renamed: &Renamed) -> bool
    ensures { result ≡ has_moved old.now new.now renamed.now }
{
    old.ram.look(&renamed.from).is_some() && new.ram.look(&renamed.from).is_none()
}

/// The current directories of all shells, moved along with what was moved; none for a number without a shell.
pub fn carried_directories(
    shells: &[Option<Shell>; 20],
    moved: &[Renamed],
) -> Result<[Option<Place>; 20], NoMemory>
    ensures { IfOk result (λ places. places ≡ carried_directories moved.now shells.now) }
{
    let mut directories = no_directories();
    for place in 0..20 {
        directories[place] = carried_directory(&shells[place], moved)?;
    }
    Ok(directories)
}

fn carried_directory(shell: &Option<Shell>, moved: &[Renamed]) -> Result<Option<Place>, NoMemory>
    ensures { IfOk result (λ place. place ≡ option_map (carried_directory moved.now) shell.now) }
{
    match shell {
        None => Ok(None),
        Some(shell) => Ok(Some(shell.carried_directory(moved)?)),
    }
}

/// From now on these are the current directories of the shells.
pub fn place_all(shells: &mut [Option<Shell>; 20], directories: [Option<Place>; 20])
    ensures { shells.new ≡ placed_shells directories shells.old }
{
    let mut left = directories;
    for place in 0..20 {
        move_to(&mut shells[place], left[place].take());
    }
}

fn move_to(shell: &mut Option<Shell>, directory: Option<Place>)
    ensures { shell.new ≡ placed_shell directory shell.old }
{
    if let (Some(shell), Some(directory)) = (shell, directory) {
        shell.move_to(directory);
    }
}

// A place for each number, and no directory.
fn no_directories() -> [Option<Place>; 20]
    ensures { result ≡ replicate 20 None }
{
    [
        None, None, None, None, None, None, None, None, None, None, None, None, None, None, None,
        None, None, None, None, None,
    ]
}
