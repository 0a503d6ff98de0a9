// MakeDir.
ghost use Rattle.std.specs.Prelude.{◌≡◌, IfOk};
ghost use Rattle.ados_find.specs.Effects.{effect_of};
ghost use Rattle.ados_files.specs.MakeDir.{make_one, make_dir_row};

use crate::options::MAKE_DIR_NAME;
use ados_find::{Act, CommandResult, Outcome, Shared, ShellView, Work, current};
use ados_objects::{Paths, done_with, go_on};
use ados_ram::Place;
use ados_readargs::Args;
use ados_text::NoMemory;
use std::alloc::Global;

/// MakeDir creates directories.
pub fn make_dir(alloc: Global, shared: &Shared, view: &ShellView, args: &Args) -> CommandResult
    ensures { IfOk result (λ outcome. effect_of shared.now outcome ≡ make_dir_row shared.now view.now args.now) }
{
    let texts = args.made_texts(alloc, MAKE_DIR_NAME)?;
    let texts = texts.as_slice();
    if texts.is_empty() {
        return Ok(Outcome::missing(alloc));
    }
    done_with(alloc, shared, &Paths { act: &Making, view }, texts)
}

/// The creation of one directory.
#[derive(Drop)]
pub struct Making;

impl Act<Place> for Making {
    ghost act = { λ s. make_one };

    fn act(&self, shared: &Shared, work: &mut Work, place: &Place) -> Result<(), NoMemory> {
        let now = current(shared, &work.shared);
        let change = now.ram.make_dir(now.limits(), place);
        go_on(shared, work, change)
    }
}
