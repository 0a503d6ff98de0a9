// The commands and their templates.
ghost use Rattle.std.specs.{Prelude.{◌≡◌, ◌++◌, IfErr, IfOk, Ok, OnOk}, List.{flat_map}, Option.{option_copied}};
ghost use Rattle.ados_readargs.specs.{Faults.{IsFaultOf}, Fill.{fill_of}};
ghost use Rattle.ados_assign.specs.Uses.{reached_devices};
ghost use Rattle.ados_machine.specs.{Uses.{devices_of}, Commands.{action_of, template_of}};
ghost use Rattle.ados_flow.specs.{Actions.{action_effect}, Frames.{script_line_of}};

use ados_find::{Codes, Shared, ShellView};
use ados_flow::{Action, Frame};
use ados_machine::{Builtin, parsed_template, template};
use ados_readargs::{ArgFault, Args, Template};
use ados_resident::{Dialect, EnvCommand, FilesCommand, FlowCommand};
use ados_text::{Name, NoMemory, Text};
use std::alloc::Global;
use std::cell::OnceCell;
use std::marker::Model;

/// The commands in a dialect. The template of each is parsed where it is first used.
#[derive(Drop)]
pub struct Commands {
    dialect: Dialect,
    // Each list is in the order of the enum that names its commands.
    env: Vec<Kept>,
    files: Vec<Kept>,
    flow: Vec<Kept>,
}

// The template of a command, once it was used.
type Kept = OnceCell<Box<KnownTemplate>>;

// A template with its text, by which its command and its dialect are known.
#[derive(Drop)]
struct KnownTemplate {
    text: Text,
    template: Template,
}

impl Model for KnownTemplate {
    ghost use Rattle.std.specs.Prelude.{◌≡◌, List, ℕ};

    ghost Value = { List ℕ };

    ghost view = { λ k. k.template };

    ghost invariant = { λ k. k.template ≡ k.text };
}

impl KnownTemplate {
    // That of a command in a dialect.
    #[tactic(auto, using(ados_machine::proofs::TemplateLemmas::ascii))]
    fn parse(
        alloc: Global,
        dialect: Dialect,
        builtin: Builtin,
    ) -> Result<Box<KnownTemplate>, NoMemory> {
        let text = Text::from_bytes(alloc, template(dialect, builtin).as_bytes())?;
        let template = parsed_template(alloc, dialect, builtin)?;
        Ok(Box::new(alloc, KnownTemplate { text, template })?)
    }
}

impl Model for Commands {
    ghost use Rattle.ados_resident.specs.declared.dialects.Dialect.{Dialect};

    ghost Value = { Dialect };

    ghost view = { λ c. c.dialect };
}

impl Commands {
    /// The commands of a dialect.
    pub fn new(alloc: Global, dialect: Dialect) -> Result<Commands, NoMemory>
        ensures { IfOk result (λ commands. commands ≡ dialect) }
    {
        Ok(Commands {
            dialect,
            env: none_kept(alloc, EnvCommand::COUNT)?,
            files: none_kept(alloc, FilesCommand::COUNT)?,
            flow: none_kept(alloc, FlowCommand::COUNT)?,
        })
    }

    /// Their dialect.
    pub fn dialect(&self) -> Dialect
        ensures { result ≡ self.now }
    {
        self.dialect
    }

    // Where the template of a command is kept.
    fn kept(&self, builtin: Builtin) -> Option<&Kept> {
        match builtin {
            Builtin::Env(command) => self.env.get(command as usize),
            Builtin::Files(command) => self.files.get(command as usize),
            Builtin::Flow(command) => self.flow.get(command as usize),
        }
    }

    // Fills the arguments of a command by its template in a dialect. If the one that is kept is of another dialect, it is parsed here; each
    // world has commands of its own.
    fn fill(
        &self,
        alloc: Global,
        dialect: Dialect,
        builtin: Builtin,
        text: &[u8],
        args: &mut Args,
    ) -> Result<(), ArgFault>
        ensures ok { OnOk result (fill_of (template_of dialect builtin) text.now ≡ Ok args.new) }
        ensures fault { IfErr result (λ e. IsFaultOf (fill_of (template_of dialect builtin) text.now) e) }
    {
        if let Some(kept) = self.kept(builtin) {
            let known = kept.get_or_try_init(move || KnownTemplate::parse(
                alloc, dialect, builtin,
            ))?;
            if known.text.as_bytes() == template(dialect, builtin).as_bytes() {
                return known.template.fill_into(text, args);
            }
        }
        parsed_template(alloc, dialect, builtin)?.fill_into(text, args)
    }

    /// What a command of the newest frame does with the text of its arguments, which are filled into the arguments that are
    /// lent; and the devices that they use are pushed.
    #[tactic(auto, unfolding(ados_machine::specs::Commands::action_of, ados_machine::specs::Uses::devices_of))]
    pub fn perform(
        &self,
        alloc: Global,
        builtin: Builtin,
        shared: &Shared,
        frame: Option<&Frame>,
        view: &ShellView,
        text: &Text,
        args: &mut Args,
        used: &mut Vec<Name>,
    ) -> Result<Action, NoMemory>
        ensures action { IfOk result (λ action. action_effect shared.now action ≡ action_of builtin shared.now (script_line_of (option_copied frame.entry)) view.now text.now) }
        ensures used { OnOk result (used.new.items ≡ used.old.items ++ flat_map (reached_devices shared.now.assigns) (devices_of builtin shared.now view.now.parts text.now)) }
    {
        if let Err(fault) = self.fill(alloc, shared.dialect, builtin, text.as_bytes(), args) {
            return Ok(Action::answering(alloc, Codes::failed(fault.result2()?)));
        }
        match builtin {
            Builtin::Env(command) => {
                ados_env::push_devices(alloc, command, shared, view, args, used)?;
                Ok(Action::Does(ados_env::run(alloc, command, shared, view, args)?))
            }
            Builtin::Files(command) => {
                ados_files::push_devices(alloc, command, shared, args, used)?;
                Ok(Action::Does(ados_files::run(alloc, command, shared, view, args)?))
            }
            Builtin::Flow(command) => {
                ados_flow::push_devices(alloc, command, shared, view, args, used)?;
                ados_flow::run(alloc, command, shared, frame, view, args)
            }
        }
    }
}

// Room for the templates of so many commands, none of which was used.
fn none_kept(alloc: Global, count: usize) -> Result<Vec<Kept>, NoMemory> {
    let mut kept = Vec::with_capacity(alloc, count)?;
    for _ in 0..count {
        kept.push(OnceCell::new())?;
    }
    Ok(kept)
}
