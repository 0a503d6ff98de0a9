// A line whose word is a script: its call.
ghost use Rattle.std.specs.Prelude.{◌≡◌};
ghost use Rattle.ados_machine.specs.Lines.{calling_completion, script_completion};

use crate::completions::Completion;
use crate::drafts::Draft;
use crate::scenes::Scene;
use crate::seen::Others;
use ados_find::{ShellNames, Target};
use ados_flow::{Action, call_script};
use ados_line::Line;
use ados_ram::Place;
use ados_text::{NoMemory, Stop, Texts};

impl Draft {
    ghost use Rattle.std.specs.{Prelude.{IfOk}, Option.{option_copied}};
    ghost use Rattle.ados_flow.specs.{Actions.{action_effect}, Execute.{script_row}};
    ghost use Rattle.ados_machine.specs.Lines.{nameless_view};
    ghost use Rattle.ados_shell.specs.{Completions.{HasEnded}, Drafts.{IsUnset, course_of, here_in}};

    /// A line whose word is a script: its input is read and its output is opened, and the script is called.
    pub(crate) fn run_script(
        &mut self,
        scene: &Scene,
        place: &Place,
        line: &Line,
    ) -> Result<Completion, Stop>
        requires { IsUnset self.old }
        ensures { HasEnded scene.now self.old self.new line.now.command result
            (script_completion place.now line.now (here_in scene.now self.old) (course_of scene.now self.old)) }
    {
        self.read_own(scene, line.input.as_ref())?;
        self.call_into(scene, place, line)
    }

    /// Opens the output of the line, and calls the script.
    fn call_into(&mut self, scene: &Scene, place: &Place, line: &Line) -> Result<Completion, Stop>
        requires { IsUnset self.old }
        ensures { HasEnded scene.now self.old self.new line.now.command result
            (calling_completion place.now line.now (here_in scene.now self.old) (course_of scene.now self.old)) }
    {
        let target = self.open_own(scene, line.output.as_ref())?;
        let action = self.script(scene, place, line, target.as_ref())?;
        self.act(scene, &line.command, target, None, action)
    }

    /// What the call of a script does whose output leads there, with the shell and the shared state as it is now.
    fn script(
        &self,
        scene: &Scene,
        place: &Place,
        line: &Line,
        target: Option<&Target>,
    ) -> Result<Action, NoMemory>
        requires { IsUnset self.now }
        ensures { IfOk result (λ action. action_effect (course_of scene.now self.now).shared action
            ≡ script_row (course_of scene.now self.now).shared (nameless_view (option_copied target.entry) (course_of scene.now self.now)) line.now.args place.now) }
    {
        let others = Others {
            busy: self.in_use(scene, target)?,
            names: ShellNames::new(scene.alloc),
            uses: Texts::new(scene.alloc),
        };
        let view = self.shell.view(scene.shell, others);
        call_script(
            scene.alloc,
            self.current(scene),
            &view,
            place,
            line.args.as_bytes(),
        )
    }
}
