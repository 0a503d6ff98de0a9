// Rename of several objects: each goes into a directory under its own name.
ghost use Rattle.std.specs.Prelude.{◌≡◌, IfOk, OnOk};
ghost use Rattle.ados_find.specs.{Effects.{effect_of}, Shared.{SharedState}};

use ados_find::{Codes, CommandResult, Outcome, Renamed, Shared, ShellView, Work, current};
use ados_ram::{Busy, Place, Ram};
use ados_text::{NoMemory, Result2, Stop};
use std::alloc::Global;
use std::slice;

/// What is done so far, and the objects that were renamed, in order.
#[derive(Drop)]
pub struct Gathering {
    work: Work,
    moves: Vec<Renamed>,
}

ghost use Rattle.ados_files.specs.Gather.{gather_each, gather_into, gather_moves, gather_one, gathered_effect, gathered_of, moves_into};

/// The outcome of Rename for several objects, each of which goes into a directory.
pub fn gather_into(
    alloc: Global,
    shared: &Shared,
    view: &ShellView,
    places: &[Place],
    to: &Place,
) -> CommandResult
    ensures { IfOk result (λ outcome. effect_of shared.now outcome ≡ gather_into shared.now view.now places.now to.now) }
{
    match shared.ram.look(to) {
        None => Ok(Outcome::answering(alloc, Codes::erred(Result2::DIRECTORY_NOT_FOUND))),
        Some(entry) => {
            if !entry.is_directory() {
                return Ok(Outcome::answering(alloc, Codes::erred(Result2::WRONG_TYPE)));
            }
            let moves = moves_into(alloc, &shared.ram, to, places)?;
            gather_moves(alloc, shared, view, &moves)
        }
    }
}

// Where each object goes.
fn moves_into(
    alloc: Global,
    ram: &Ram,
    to: &Place,
    places: &[Place],
) -> Result<Vec<Renamed>, NoMemory>
    ensures { IfOk result (λ moves. moves.items ≡ moves_into ram.now to.now places.now) }
{
    let mut moves = Vec::new(alloc);
    for place in places {
        if let Some(entry) = ram.look(place) {
            let from = place.copy()?;
            let to = to.joined(slice::from_ref(&entry.name))?;
            moves.push(Renamed { from, to })?;
        }
    }
    Ok(moves)
}

// Renames one object after the other.
fn gather_moves(
    alloc: Global,
    shared: &Shared,
    view: &ShellView,
    moves: &[Renamed],
) -> CommandResult
    ensures { IfOk result (λ outcome. effect_of shared.now outcome ≡ gather_moves shared.now view.now moves.now) }
{
    let mut gathering = Gathering {
        work: Work::new(alloc),
        moves: Vec::new(alloc),
    };
    gather_each(shared, &view.busy, &mut gathering, moves)?;
    gathered(alloc, gathering)
}

// The outcome of what was gathered.
fn gathered(alloc: Global, gathering: Gathering) -> CommandResult
    ensures { IfOk result (λ outcome. (shared : SharedState) → effect_of shared outcome ≡ gathered_effect (gathered_of shared gathering)) }
{
    let Gathering { work, moves } = gathering;
    work.end().with_gathered(alloc, moves)
}

fn gather_each(
    shared: &Shared,
    busy: &Busy,
    gathering: &mut Gathering,
    moves: &[Renamed],
) -> Result<(), NoMemory>
    ensures { OnOk result (gathered_of shared.now gathering.new ≡ gather_each busy.now (gathered_of shared.now gathering.old) moves.now) }
{
    for object in moves {
        match gathering.work.stopped {
            Some(_) => return Ok(()),
            None => gather_one(shared, busy, gathering, object)?,
        }
    }
    Ok(())
}

fn gather_one(
    shared: &Shared,
    busy: &Busy,
    gathering: &mut Gathering,
    object: &Renamed,
) -> Result<(), NoMemory>
    ensures { OnOk result (gathered_of shared.now gathering.new ≡ gather_one busy.now (gathered_of shared.now gathering.old) object.now) }
{
    let old = current(shared, &gathering.work.shared);
    match old.renamed(busy, &object.from, &object.to) {
        Err(Stop::NoMemory) => Err(NoMemory),
        Err(Stop::Refused(fault)) => {
            gathering.work.stopped = Some(Codes::erred(fault));
            Ok(())
        }
        Ok(new) => {
            gathering.moves.push(object.copy()?)?;
            gathering.work.shared = Some(new);
            Ok(())
        }
    }
}
