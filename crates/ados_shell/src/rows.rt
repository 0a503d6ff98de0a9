// What a command does: its output is opened, its row runs, and the draft holds what it made.
ghost use Rattle.std.specs.{Prelude.{◌≡◌, None, IfOk, OnOk}, Option.{option_copied, option_map}};
ghost use Rattle.ados_find.specs.Effects.{effect_of};
ghost use Rattle.ados_flow.specs.Actions.{action_effect};
ghost use Rattle.ados_machine.specs.Lines.{action_completion, action_in, busy_files, command_completion, shell_names, view_of, with_argument_devices};

use crate::completions::Completion;
use crate::drafts::{Draft, ShellDraft};
use crate::scenes::Scene;
use crate::seen::{Others, in_use, names_while, uses};
use ados_find::{Codes, Outcome, Shared, ShellNames, Target};
use ados_flow::Action;
use ados_line::Line;
use ados_machine::{Builtin, Question, reads_in_use, reads_shells};
use ados_ram::Busy;
use ados_readargs::Args;
use ados_resident::FlowCommand;
use ados_text::{Name, NoMemory, Stop, Text, Texts};

impl Draft {
    ghost use Rattle.ados_shell.specs.{Completions.{HasEnded}, Drafts.{IsUnset, course_of, here_in, parts_of}, Outputs.{IsPut, effect_put}, Views.{Serves, ServesInUse, ServesNames, ServesUses, shell_view}, Uses.{HasUsed}};
    ghost use Rattle.ados_machine.specs.Course.{uses_of};

    /// Runs a command whose arguments are there: its output is opened, and its row runs. Its input has these lines, if there is one.
    #[inline(always)]
    pub(crate) fn command(
        &mut self,
        scene: &Scene,
        builtin: Builtin,
        line: &Line,
        input: Option<&[Text]>,
    ) -> Result<Completion, Stop>
        requires { IsUnset self.old }
        ensures { HasEnded scene.now self.old self.new line.now.command result
            (command_completion builtin line.now (option_map (λ l. l.now) input.entry) (here_in scene.now self.old) (course_of scene.now self.old)) }
    {
        let target = self.open_own(scene, line.output.as_ref())?;
        let action = self.action(scene, builtin, line, target.as_ref())?;
        self.act(scene, &line.command, target, input, action)
    }

    /// Holds what is done by a command whose output leads there, and whose input has these lines.
    #[inline(always)]
    pub(crate) fn act(
        &mut self,
        scene: &Scene,
        word: &Text,
        target: Option<Target>,
        input: Option<&[Text]>,
        action: Action,
    ) -> Result<Completion, Stop>
        requires { IsUnset self.old }
        ensures { HasEnded scene.now self.old self.new word.now result
            (action_completion word.now target (option_map (λ l. l.now) input.entry) (action_effect (course_of scene.now self.old).shared action)
            (here_in scene.now self.old) (course_of scene.now self.old)) }
    {
        match action {
            Action::Does(outcome) => {
                let codes = self.apply(scene, target.as_ref(), outcome)?;
                Ok(Completion::Answered {
                    codes,
                    quits: false,
                })
            }
            Action::Quits(codes) => Ok(Completion::Answered { codes, quits: true }),
            Action::Jumps { line, codes } => Ok(Completion::Jumped { codes, line }),
            Action::Calls(script) => Ok(Completion::calling(scene.alloc, target, script)?),
            Action::Asks(prompt) => {
                let question = Question {
                    word: word.copy()?,
                    prompt,
                    output: target,
                };
                self.inquire(scene, question, input)
            }
        }
    }

    /// What a command does whose output leads there, with the shell and the shared state as it is now; the devices that its
    /// arguments use are used.
    #[tactic(auto, unfolding(ados_machine::specs::Uses::devices_reached))]
    fn action(
        &mut self,
        scene: &Scene,
        builtin: Builtin,
        line: &Line,
        target: Option<&Target>,
    ) -> Result<Action, NoMemory>
        requires { IsUnset self.old }
        ensures action { IfOk result (λ action. action_effect (course_of scene.now self.old).shared action
            ≡ action_in builtin line.now (option_copied target.entry) (here_in scene.now self.old) (course_of scene.now self.old)) }
        ensures used { OnOk result (HasUsed scene.now self.old self.new (with_argument_devices builtin line.now (course_of scene.now self.old))) }
    {
        let others = self.others_for(scene, builtin, &line.command, target)?;
        let shared = match &self.shared {
            None => scene.shared,
            Some(new) => new,
        };
        let args = &mut self.args;
        let used = &mut self.used;
        let action = self
            .shell
            .perform(scene, builtin, line, shared, others, args, used)?;
        self.note_script(scene, builtin)?;
        Ok(action)
    }

    /// The cache may learn where S: has the script that an Execute calls, unless it is to learn something else.
    #[inline(always)]
    fn note_script(&mut self, scene: &Scene, builtin: Builtin) -> Result<(), NoMemory>
        ensures { OnOk result (self.new ≡ record self.old { asked = self.new.asked }) }
    {
        if !matches!(builtin, Builtin::Flow(FlowCommand::Execute)) || self.asked.is_some() {
            return Ok(());
        }
        if let Some(script) = self.args.made_text(scene.alloc, 0)? {
            self.note_question(scene, b"S:", &script);
        }
        Ok(())
    }

    /// What the command with this word, whose output leads there, sees of the shells that run.
    fn others_for(
        &self,
        scene: &Scene,
        builtin: Builtin,
        word: &Text,
        target: Option<&Target>,
    ) -> Result<Others, NoMemory>
        ensures { IfOk result (λ others. Serves (course_of scene.now self.now).shared builtin (shell_view (parts_of scene.now self.now) others.busy others.names others.uses)
            (view_of word.now (option_copied target.entry) (course_of scene.now self.now))) }
    {
        let busy = self.busy_for(scene, builtin, target)?;
        let names = self.names_for(scene, builtin, word)?;
        let uses = self.uses_for(scene, builtin)?;
        Ok(Others { busy, names, uses })
    }

    /// What is in use, for a command whose output leads there. It is gathered only for those that read it.
    fn busy_for(
        &self,
        scene: &Scene,
        builtin: Builtin,
        target: Option<&Target>,
    ) -> Result<Busy, NoMemory>
        ensures { IfOk result (λ busy. ServesInUse (course_of scene.now self.now).shared builtin busy (busy_files (option_copied target.entry) (course_of scene.now self.now))) }
    {
        if reads_in_use(self.dialect(scene), builtin) {
            self.in_use(scene, target)
        } else {
            Ok(Busy::none(scene.alloc))
        }
    }

    /// The names of the shells that run, for the command of this word. They are gathered only for those that read them.
    fn names_for(
        &self,
        scene: &Scene,
        builtin: Builtin,
        word: &Text,
    ) -> Result<ShellNames, NoMemory>
        ensures { IfOk result (λ names. ServesNames builtin names (shell_names word.now (course_of scene.now self.now))) }
    {
        if reads_shells(builtin) {
            names_while(scene.alloc, scene.shells, scene.shell.number(), word)
        } else {
            Ok(ShellNames::new(scene.alloc))
        }
    }

    /// The entries from which the shells run, for a command. They are gathered only for those that read them.
    fn uses_for(&self, scene: &Scene, builtin: Builtin) -> Result<Texts, NoMemory>
        ensures { IfOk result (λ uses. ServesUses builtin uses (uses_of (course_of scene.now self.now).seen)) }
    {
        if reads_shells(builtin) {
            uses(scene.alloc, scene.shells)
        } else {
            Ok(Texts::new(scene.alloc))
        }
    }

    /// What is in use while a command runs whose output leads there.
    pub(crate) fn in_use(&self, scene: &Scene, target: Option<&Target>) -> Result<Busy, NoMemory>
        ensures { IfOk result (λ busy. busy ≡ busy_files (option_copied target.entry) (course_of scene.now self.now)) }
    {
        in_use(
            scene.alloc,
            scene.shells,
            target,
            &self.current(scene).assigns,
        )
    }

    /// The draft holds what a command made, and its output is put; gives what it returns then.
    #[inline(always)]
    pub(crate) fn apply(
        &mut self,
        scene: &Scene,
        target: Option<&Target>,
        outcome: Outcome,
    ) -> Result<Codes, NoMemory>
        requires { IsUnset self.old }
        ensures { IfOk result (λ codes. IsPut scene.now self.old self.new codes
            (effect_put (option_copied target.entry) (effect_of (course_of scene.now self.old).shared outcome) (here_in scene.now self.old) (course_of scene.now self.old))) }
    {
        let Outcome {
            shared,
            codes,
            output,
            change,
            renamed,
            breaking,
        } = outcome;
        self.affect(scene.shell.number(), change, shared, renamed, breaking);
        self.put(scene, target, output, codes)
    }
}

impl ShellDraft {
    ghost use Rattle.std.specs.{Prelude.{◌++◌}, List.{flat_map}};
    ghost use Rattle.ados_assign.specs.Uses.{reached_devices};
    ghost use Rattle.ados_machine.specs.{Uses.{devices_of}, Commands.{action_of}, Apply.{newest}};
    ghost use Rattle.ados_flow.specs.Frames.{script_line_of};
    ghost use Rattle.ados_shell.specs.{Drafts.{drafted_shell}, Stacks.{drafted_frames}, Views.{shell_view}};

    /// What is done by a command of the newest frame that sees this of the shells that run; its arguments are filled into those
    /// that are lent, and the devices that they use are pushed.
    fn perform(
        &self,
        scene: &Scene,
        builtin: Builtin,
        line: &Line,
        shared: &Shared,
        others: Others,
        args: &mut Args,
        used: &mut Vec<Name>,
    ) -> Result<Action, NoMemory>
        requires { self.now.setting ≡ None }
        ensures used { OnOk result (used.new.items ≡ used.old.items ++ flat_map (reached_devices shared.now.assigns) (devices_of builtin shared.now (drafted_shell self.now scene.now.shell.now).parts line.now.args)) }
        ensures action { IfOk result (λ action. action_effect shared.now action ≡ action_of builtin shared.now
            (script_line_of (newest (drafted_frames scene.now.shell.now self.now.frames))) (shell_view (drafted_shell self.now scene.now.shell.now).parts others.busy others.names others.uses) line.now.args) }
    {
        let view = self.view(scene.shell, others);
        let frame = self.frames.newest(scene.shell);
        let commands = scene.commands;
        commands.perform(
            scene.alloc,
            builtin,
            shared,
            frame,
            &view,
            &line.args,
            args,
            used,
        )
    }
}
