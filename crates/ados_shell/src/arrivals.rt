// A line whose word leads to a directory: the change to it.
ghost use Rattle.std.specs.Prelude.{IfOk};
ghost use Rattle.ados_find.specs.Effects.{DoesTo};
ghost use Rattle.ados_machine.specs.Lines.{arrival, arriving_completion, directory_completion};

use crate::completions::Completion;
use crate::drafts::Draft;
use crate::inputs::is_end;
use crate::scenes::Scene;
use ados_find::{Change, Codes, CommandResult, Outcome};
use ados_items::next_item;
use ados_line::Line;
use ados_ram::Place;
use ados_text::{Result2, Stop, Text};
use std::alloc::Global;

impl Draft {
    ghost use Rattle.ados_shell.specs.{Completions.{HasEnded}, Drafts.{IsUnset, course_of, here_in}};

    /// A line whose word leads to a directory: its input is read and its output is opened, and it changes to the directory.
    pub(crate) fn change_directory(
        &mut self,
        scene: &Scene,
        place: Place,
        line: &Line,
    ) -> Result<Completion, Stop>
        requires { IsUnset self.old }
        ensures { HasEnded scene.now self.old self.new line.now.command result
            (directory_completion place line.now (here_in scene.now self.old) (course_of scene.now self.old)) }
    {
        self.read_own(scene, line.input.as_ref())?;
        self.arrive(scene, place, line)
    }

    /// Opens the output of the line, and changes to the directory.
    fn arrive(&mut self, scene: &Scene, place: Place, line: &Line) -> Result<Completion, Stop>
        requires { IsUnset self.old }
        ensures { HasEnded scene.now self.old self.new line.now.command result
            (arriving_completion place line.now (here_in scene.now self.old) (course_of scene.now self.old)) }
    {
        let target = self.open_own(scene, line.output.as_ref())?;
        let outcome = arrival(scene.alloc, place, &line.args)?;
        let codes = self.apply(scene, target.as_ref(), outcome)?;
        Ok(Completion::Answered {
            codes,
            quits: false,
        })
    }
}

/// What the change to a directory does: it takes no arguments.
fn arrival(alloc: Global, place: Place, args: &Text) -> CommandResult
    ensures { IfOk result (λ outcome. DoesTo outcome (λ shared. arrival shared place args.now)) }
{
    if is_end(next_item(args.as_bytes(), 0)) {
        Outcome::changing(alloc, Change::Directory(place))
    } else {
        let codes = Codes::failed(Result2::TOO_MANY_ARGUMENTS);
        Ok(Outcome::answering(alloc, codes))
    }
}
