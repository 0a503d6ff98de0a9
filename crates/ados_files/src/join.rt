// Join: files, one after the other, written to a file.
ghost use Rattle.std.specs.Prelude.{◌≡◌, IfOk, OnOk};
ghost use Rattle.ados_find.specs.{Done.{done_of}, Effects.{effect_of}};
ghost use Rattle.ados_files.specs.Join.{write_one, write_read, join_row};

use crate::options::{JOIN_FILE, JOIN_TO};
use crate::type_files::{Printing, Typing};
use ados_find::{Act, CommandResult, Outcome, Shared, ShellView, Work, current, each};
use ados_objects::{Paths, at_path, go_on};
use ados_ram::Place;
use ados_readargs::Args;
use ados_text::{NoMemory, Text};
use std::alloc::Global;
use std::mem;

/// Join writes files, one after the other, to a file.
pub fn join_files(alloc: Global, shared: &Shared, view: &ShellView, args: &Args) -> CommandResult
    ensures { IfOk result (λ outcome. effect_of shared.now outcome ≡ join_row shared.now view.now args.now) }
{
    let Some(to) = args.made_text(alloc, JOIN_TO)? else {
        return Ok(Outcome::missing(alloc));
    };
    let texts = args.made_texts(alloc, JOIN_FILE)?;
    let typing = Typing {
        view: &*view,
        printing: Printing::Plain,
    };
    let paths = Paths {
        act: &typing,
        view: &*view,
    };
    let mut work = Work::new(alloc);
    each(&paths, shared, &mut work, texts.as_slice())?;
    written_to(view, shared, &mut work, &to)?;
    Ok(work.end())
}

/// Writes all that was read, if nothing was refused.
pub fn written_to(
    view: &ShellView,
    shared: &Shared,
    work: &mut Work,
    to: &Text,
) -> Result<(), NoMemory>
    ensures { OnOk result (done_of shared.now work.new ≡ write_read view.now to.now (done_of shared.now work.old)) }
{
    let none = Vec::new(*work.output.allocator());
    let read = mem::replace(&mut work.output, none);
    match work.stopped {
        Some(_) => Ok(()),
        None => {
            let act = Writing { view, bytes: &read };
            at_path(&act, view, shared, work, to)
        }
    }
}

/// The writing of one file.
#[derive(Drop)]
pub struct Writing<'a> {
    pub view: &'a ShellView<'a>,
    pub bytes: &'a [u8],
}

impl<'a> Act<Place> for Writing<'a> {
    ghost act = { λ s. write_one s.view.now s.bytes.now };

    fn act(&self, shared: &Shared, work: &mut Work, place: &Place) -> Result<(), NoMemory> {
        let view = self.view;
        let now = current(shared, &work.shared);
        let change = now.ram.write(now.limits(), &view.busy, place, self.bytes);
        go_on(shared, work, change)
    }
}
