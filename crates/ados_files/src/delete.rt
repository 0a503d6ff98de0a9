// Delete: objects, and with ALL what is below them.
ghost use Rattle.std.specs.Prelude.{◌≡◌, IfOk};
ghost use Rattle.ados_find.specs.Effects.{effect_of};
ghost use Rattle.ados_files.specs.Delete.{delete_manner, delete_one, targets, delete_place, delete_row};

use crate::options::{DELETE_ALL, DELETE_FILE, DELETE_FORCE, DELETE_QUIET};
use ados_find::{Act, CommandResult, Shared, ShellView, Work, current, each};
use ados_objects::{done_with_named, go_on_saying, only};
use ados_ram::{Place, Ram};
use ados_readargs::Args;
use ados_text::NoMemory;
use std::alloc::Global;

/// Delete deletes objects.
pub fn delete(alloc: Global, shared: &Shared, view: &ShellView, args: &Args) -> CommandResult
    ensures { IfOk result (λ outcome. effect_of shared.now outcome ≡ delete_row shared.now view.now args.now) }
{
    let act = Deleting {
        view,
        all: args.has_switch(DELETE_ALL),
        manner: delete_manner(args),
    };
    let texts = args.made_texts(alloc, DELETE_FILE)?;
    done_with_named(alloc, shared, view, &act, texts.as_slice())
}

/// How objects are deleted.
#[derive(Clone, Copy)]
pub struct DeleteManner {
    /// Nothing is reported.
    pub quiet: bool,
    /// Bit d is not asked.
    pub force: bool,
}

// How the arguments want objects deleted.
fn delete_manner(args: &Args) -> DeleteManner
    ensures { result ≡ delete_manner args.now }
{
    DeleteManner {
        quiet: args.has_switch(DELETE_QUIET),
        force: args.has_switch(DELETE_FORCE),
    }
}

/// The deletion of an object, with ALL after all that is below it.
#[derive(Drop)]
pub struct Deleting<'a> {
    pub view: &'a ShellView<'a>,
    pub all: bool,
    pub manner: DeleteManner,
}

impl<'a> Act<Place> for Deleting<'a> {
    ghost act = { λ s. delete_place s.view.now s.all s.manner };

    fn act(&self, shared: &Shared, work: &mut Work, place: &Place) -> Result<(), NoMemory> {
        let alloc = *work.output.allocator();
        let places = targets(alloc, self.all, &current(shared, &work.shared).ram, place)?;
        let act = DeletingOne {
            view: self.view,
            manner: self.manner,
        };
        each(&act, shared, work, &places)
    }
}

/// The deletion of one object.
#[derive(Drop)]
pub struct DeletingOne<'a> {
    pub view: &'a ShellView<'a>,
    pub manner: DeleteManner,
}

impl<'a> Act<Place> for DeletingOne<'a> {
    ghost act = { λ s. delete_one s.view.now s.manner };

    fn act(&self, shared: &Shared, work: &mut Work, place: &Place) -> Result<(), NoMemory> {
        let view = self.view;
        let manner = self.manner;
        let ram = &current(shared, &work.shared).ram;
        let change = ram.delete(&view.busy, manner.force, place);
        go_on_saying(shared, work, change, manner.quiet, place, b"  Deleted\n")
    }
}

// The places that are deleted with a place.
fn targets(alloc: Global, all: bool, ram: &Ram, place: &Place) -> Result<Vec<Place>, NoMemory>
    ensures { IfOk result (λ places. places.items ≡ targets all ram.now place.now) }
{
    if !all {
        return only(alloc, place);
    }
    let mut places = ram.contents(place)?;
    places.push(place.copy()?)?;
    Ok(places)
}
