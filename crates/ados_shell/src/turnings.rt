// A turn of a shell.
ghost use Rattle.std.specs.{Prelude.{◌≡◌, [], IfOk, OnErr, OnOk, OnSome}, Option.{option_copied}};
ghost use Rattle.ados_machine.specs.{Lines.{answer_completion, line_completion, parted_completion}, NewShells.{gathered_completion, joined_completion}, Apply.{here_of, turn_of_completion}};
ghost use Rattle.ados_shell.specs.{Stacks.{NextLineFits}, Turnings.{next_frame_line}};

use crate::drafts::Draft;
use crate::scenes::{Input, Scene};
use crate::shells::Shell;
use crate::suspensions::Suspension;
use ados_machine::{Asking, Gathering, Parted, Wait};
use ados_text::{NoMemory, Text};

/// What a turn of a shell results in.
#[derive(Clone, Copy)]
pub enum TurnKind {
    /// The shell has nothing to take.
    NotReady,
    /// It ends: it runs no frame, and no line will come.
    Ends,
    /// It went on without a line of its input.
    Goes,
    /// It took the first line that waited.
    Takes,
}

impl Draft {
    ghost use Rattle.ados_shell.specs.{Drafts.{IsDrafted, turn_start}, Turnings.{console_turning, GivesTurning, IsScriptDrafted, MayLackMemory, plain_turning, scene_turning}};
    ghost use Rattle.ados_machine.specs.{Phases.{Ready, Waiting}, declared.phases.Wait.TheVariants.{ForAnswer, ForLines}};

    /// A turn of the scene's shell: if it goes on, the draft is filled with what is to be changed. Nothing else is
    /// changed, and what the draft held before is forgotten.
    ///
    /// A shell that waits for the answer to a prompt takes a line of its input, and at its end an empty one; one whose Run
    /// reads further lines, since its last one ends in `+`, takes a line, and goes on without one at the end; one that waits
    /// for a launcher takes nothing. A line whose command substitution has ended goes on. In the phase Ready a shell takes the
    /// next line of its newest frame; without a frame it takes a line of its input, and ends at the end of that. If the shell
    /// is flagged and runs a script, its scripts end instead of all this, and no line is taken.
    ///
    /// `NoMemory` if there is none for what the turn makes, and only if the shell has something to
    /// take: its end needs no memory.
    pub fn turn(&mut self, scene: &Scene, input: &Input) -> Result<TurnKind, NoMemory>
        ensures turn { IfOk result (λ turn. GivesTurning scene.now input.now (scene_turning scene.now input.now) turn self.new) }
        ensures memory { OnErr result (MayLackMemory input.now (scene_turning scene.now input.now)) }
    {
        let shell = scene.shell;
        if shell.flagged && shell.has_script() {
            self.broken_turn(scene, input)
        } else {
            self.plain_turn(scene, input)
        }
    }

    /// The same if no flag is found.
    fn plain_turn(&mut self, scene: &Scene, input: &Input) -> Result<TurnKind, NoMemory>
        ensures turn { IfOk result (λ turn. GivesTurning scene.now input.now (plain_turning scene.now input.now scene.now.shell.now.phase) turn self.new) }
        ensures memory { OnErr result (MayLackMemory input.now (plain_turning scene.now input.now scene.now.shell.now.phase)) }
    {
        let shell = scene.shell;
        match &shell.phase {
            None => self.ready_turn(scene, input),
            Some(suspension) => match &**suspension {
                Suspension::GoingOn(parted) => {
                    self.take_parted(scene, parted)?;
                    Ok(TurnKind::Goes)
                }
                Suspension::Waiting(Wait::ForAnswer(asking)) => {
                    self.answer_turn(scene, asking, input)
                }
                Suspension::Waiting(Wait::ForLines(gathering)) => {
                    self.gathering_turn(scene, gathering, input)
                }
                Suspension::Waiting(Wait::ForStart(_) | Wait::ForPiece(_) | Wait::ForEnd(_)) => {
                    Ok(TurnKind::NotReady)
                }
            },
        }
    }

    /// A line whose command substitution has ended goes on.
    fn take_parted(&mut self, scene: &Scene, parted: &Parted) -> Result<(), NoMemory>
        ensures { OnOk result (IsDrafted scene.now self.new
            (turn_of_completion (parted_completion parted.now (here_of scene.now.shell.now.frames) (turn_start scene.now)) scene.now.shell.now.frames)) }
    {
        self.begin_turn(scene.shell);
        self.go_on(scene, parted)?;
        self.bind(scene)
    }

    /// A turn of a shell in the phase Ready.
    fn ready_turn(&mut self, scene: &Scene, input: &Input) -> Result<TurnKind, NoMemory>
        ensures turn { IfOk result (λ turn. GivesTurning scene.now input.now (plain_turning scene.now input.now Ready) turn self.new) }
        ensures memory { OnErr result (MayLackMemory input.now (plain_turning scene.now input.now Ready)) }
    {
        let shell = scene.shell;
        if shell.frames.is_empty() {
            self.console_turn(scene, input)
        } else {
            self.script_turn(scene)?;
            Ok(TurnKind::Goes)
        }
    }

    /// A turn of a shell whose Run reads further lines: it takes a line, and at the end of its input it makes its shell.
    fn gathering_turn(
        &mut self,
        scene: &Scene,
        gathering: &Gathering,
        input: &Input,
    ) -> Result<TurnKind, NoMemory>
        ensures turn { IfOk result (λ turn. GivesTurning scene.now input.now (plain_turning scene.now input.now (Waiting (ForLines gathering.now))) turn self.new) }
        ensures memory { OnErr result (MayLackMemory input.now (plain_turning scene.now input.now (Waiting (ForLines gathering.now)))) }
    {
        match input.line {
            Some(line) => {
                self.take_command(scene, gathering, line)?;
                Ok(TurnKind::Takes)
            }
            None if !input.is_ended => Ok(TurnKind::NotReady),
            None => {
                self.take_no_command(scene, gathering)?;
                Ok(TurnKind::Goes)
            }
        }
    }

    /// Another line is taken for a Run that reads further lines.
    fn take_command(
        &mut self,
        scene: &Scene,
        gathering: &Gathering,
        line: &Text,
    ) -> Result<(), NoMemory>
        ensures { OnOk result (IsDrafted scene.now self.new
            (turn_of_completion (joined_completion gathering.now line.now (here_of scene.now.shell.now.frames).sink (turn_start scene.now)) scene.now.shell.now.frames)) }
    {
        self.begin_turn(scene.shell);
        self.join(scene, gathering, line)?;
        self.bind(scene)
    }

    /// No more lines come for a Run that reads further ones.
    fn take_no_command(&mut self, scene: &Scene, gathering: &Gathering) -> Result<(), NoMemory>
        ensures { OnOk result (IsDrafted scene.now self.new
            (turn_of_completion (gathered_completion gathering.now (here_of scene.now.shell.now.frames).sink (turn_start scene.now)) scene.now.shell.now.frames)) }
    {
        self.begin_turn(scene.shell);
        self.gather_no_more(scene, gathering)?;
        self.bind(scene)
    }

    /// A turn of a shell that waits for the answer to a prompt.
    fn answer_turn(
        &mut self,
        scene: &Scene,
        asking: &Asking,
        input: &Input,
    ) -> Result<TurnKind, NoMemory>
        ensures turn { IfOk result (λ turn. GivesTurning scene.now input.now (plain_turning scene.now input.now (Waiting (ForAnswer asking.now))) turn self.new) }
        ensures memory { OnErr result (MayLackMemory input.now (plain_turning scene.now input.now (Waiting (ForAnswer asking.now)))) }
    {
        match input.line {
            Some(line) => {
                self.take_answer(scene, asking, line)?;
                Ok(TurnKind::Takes)
            }
            None if !input.is_ended => Ok(TurnKind::NotReady),
            None => {
                self.take_answer(scene, asking, &Text::new(scene.alloc))?;
                Ok(TurnKind::Goes)
            }
        }
    }

    /// The answer to a prompt is taken: the line stands for the arguments as it is.
    fn take_answer(&mut self, scene: &Scene, asking: &Asking, line: &Text) -> Result<(), NoMemory>
        ensures { OnOk result (IsDrafted scene.now self.new
            (turn_of_completion (answer_completion line.now asking.now (here_of scene.now.shell.now.frames) (turn_start scene.now)) scene.now.shell.now.frames)) }
    {
        self.begin_turn(scene.shell);
        self.resume(scene, asking, line)?;
        self.bind(scene)
    }

    /// A turn of a shell in the phase Ready that runs no frame.
    fn console_turn(&mut self, scene: &Scene, input: &Input) -> Result<TurnKind, NoMemory>
        requires { scene.now.shell.now.frames ≡ [] }
        ensures turn { IfOk result (λ turn. GivesTurning scene.now input.now (console_turning scene.now input.now) turn self.new) }
        ensures memory { OnErr result (MayLackMemory input.now (console_turning scene.now input.now)) }
    {
        match input.line {
            Some(line) => {
                self.take_typed(scene, line)?;
                Ok(TurnKind::Takes)
            }
            None if !input.is_ended => Ok(TurnKind::NotReady),
            None => Ok(TurnKind::Ends),
        }
    }

    /// A typed line is taken.
    fn take_typed(&mut self, scene: &Scene, line: &Text) -> Result<(), NoMemory>
        ensures { OnOk result (IsDrafted scene.now self.new
            (turn_of_completion (line_completion line.now (here_of scene.now.shell.now.frames) (turn_start scene.now)) scene.now.shell.now.frames)) }
    {
        self.begin_turn(scene.shell);
        self.obey(scene, line)?;
        self.bind(scene)
    }

    /// The next line of the newest frame is taken; a frame without one ends.
    fn script_turn(&mut self, scene: &Scene) -> Result<(), NoMemory>
        ensures { OnOk result (IsScriptDrafted scene.now self.new scene.now.shell.now.frames) }
    {
        self.begin_turn(scene.shell);
        match scene.shell.next_line() {
            None => {
                self.pass(scene)?;
                self.bind(scene)
            }
            Some(line) => {
                self.shell.frames.move_on(scene.shell)?;
                self.obey(scene, line)?;
                self.bind(scene)
            }
        }
    }
}

impl Shell {
    /// The next line of the newest frame; `None` if none is left.
    fn next_line(&self) -> Option<&Text>
        ensures line { option_copied result ≡ next_frame_line self.now.frames }
        ensures below { OnSome result (NextLineFits self.now.frames) }
    {
        match self.frames.last() {
            None => None,
            Some(frame) => frame.next_line(),
        }
    }
}
