// What a turn has changed so far, to be committed.
ghost use Rattle.std.specs.Prelude.{◌≡◌, [], None, false, OnOk, option_map};
ghost use Rattle.ados_find.specs.{Renames.{renames_in}, Shared.{version}};
ghost use Rattle.ados_machine.specs.Step.{event_out};

use crate::begun::Begun;
use crate::breaks::flags_own;
use crate::scenes::Scene;
use crate::shells::Shell;
use crate::stacks::Stack;
use crate::suspensions::Suspension;
use ados_find::{Breaking, Change, Codes, Question, Renames, Setting, Shared};
use ados_flow::FIRST_LIMIT;
use ados_machine::{EndReport, Out, Request};
use ados_ram::Place;
use ados_readargs::Args;
use ados_text::{Code, Name, NoMemory, Octets};
use std::alloc::Global;

/// What a turn has changed so far, and nothing else. One draft serves for one turn after another, so that its buffers
/// live on.
pub struct Draft {
    /// What the turn makes of its shell.
    pub shell: ShellDraft,
    /// The shared state, if it is a new one.
    pub shared: Option<Shared>,
    /// What was renamed, by which the current directories of all shells are carried.
    pub renamed: Option<Box<Renames>>,
    /// The shell that is to begin.
    pub begun: Option<Box<Begun>>,
    /// The shell that is broken.
    pub breaking: Option<Breaking>,
    /// What is printed on the console.
    pub printed: Vec<u8>,
    /// What the launcher is asked for.
    pub request: Option<Request>,
    /// The scripts that ended, innermost first.
    pub reports: Vec<EndReport>,
    /// Room for the arguments of the line that runs; between two lines its content has no meaning.
    pub args: Args,
    /// The devices that the event used so far, with those to which they lead; it takes no memory if none was used.
    pub used: Vec<Name>,
    /// What the cache of the shared state may learn: what this turn, or one before it, asked for and did not find. It is
    /// a hint, and no definition speaks of it.
    pub asked: Option<Box<Question>>,
}

/// What a turn makes of its shell. What it did not change it does not hold.
pub struct ShellDraft {
    /// The frames.
    pub frames: Stack,
    /// What the shell does next; `None` in the phase Ready.
    pub phase: Option<Box<Suspension>>,
    /// The fail limit.
    pub limit: Code,
    /// What the last command returned.
    pub codes: Codes,
    /// The current directory, if it is a new one.
    pub directory: Option<Place>,
    /// What the command set in the shell, if it set something.
    pub setting: Option<Setting>,
    /// The output of its command substitutions so far, if that changed; that of the newest is the last.
    pub kept: Option<Vec<Octets>>,
    /// Its scripts end at its next turn.
    pub flagged: bool,
}

// Written out, so that to drop a draft is one step, and not one for each of its parts.
impl Drop for Draft {
    fn drop(self) {
        let Draft {
            shell: _shell,
            shared: _shared,
            renamed: _renamed,
            begun: _begun,
            breaking: _breaking,
            printed: _printed,
            request: _request,
            reports: _reports,
            args: _args,
            used: _used,
            asked: _asked,
        } = self;
    }
}

impl Drop for ShellDraft {
    fn drop(self) {
        let ShellDraft {
            frames: _frames,
            phase: _phase,
            limit: _limit,
            codes: _codes,
            directory: _directory,
            setting: _setting,
            kept: _kept,
            flagged: _flagged,
        } = self;
    }
}

impl Draft {
    ghost use Rattle.ados_shell.specs.Drafts.{HoldsEffect, IsFresh, IsUnset, out_of, parts_of, drafted_phase};
    ghost use Rattle.ados_machine.specs.Requests.{request_of};

    /// A draft in which nothing is changed yet.
    pub fn new(alloc: Global) -> Draft
        ensures { out_of result ≡ event_out [] None [] }
    {
        Draft {
            shell: ShellDraft {
                frames: Stack::new(alloc),
                phase: None,
                limit: FIRST_LIMIT,
                codes: Codes::NONE,
                directory: None,
                setting: None,
                kept: None,
                flagged: false,
            },
            shared: None,
            renamed: None,
            begun: None,
            breaking: None,
            printed: Vec::new(alloc),
            request: None,
            reports: Vec::new(alloc),
            args: Args::new(alloc),
            used: Vec::new(alloc),
            asked: None,
        }
    }

    /// A turn of a shell begins: nothing is changed yet, except that its flag is cleared.
    #[inline(always)]
    pub(crate) fn begin_turn(&mut self, shell: &Shell)
        ensures { IsFresh shell.now false self.new }
    {
        self.shell.begin_turn(shell);
        self.shared = None;
        self.renamed = None;
        self.begun = None;
        self.breaking = None;
        self.printed.clear();
        self.reports.clear();
        self.used.clear();
    }

    /// A launcher's answer for a shell is taken: nothing is changed yet, and its flag stays.
    pub(crate) fn begin_answer(&mut self, shell: &Shell)
        ensures { IsFresh shell.now shell.now.flagged self.new }
    {
        self.begin_turn(shell);
        self.shell.flagged = shell.flagged;
    }

    /// Nothing is printed, nothing is asked for, and no script ended.
    #[inline(always)]
    pub fn give_nothing(&mut self)
        ensures { out_of self.new ≡ event_out [] None [] }
    {
        self.printed.clear();
        self.request = None;
        self.reports.clear();
    }

    /// The launcher is asked for what the shell waits for after its event.
    pub fn ask_for(&mut self, shell: &Shell) -> Result<(), NoMemory>
        ensures { OnOk result (self.new ≡ record self.old { request = request_of shell.now.parts.number (drafted_phase self.old.shell) }) }
    {
        if self.shell.phase.is_none() {
            self.request = None;
            return Ok(());
        }
        self.request = self.shell.request(shell.number())?;
        Ok(())
    }

    /// What is given by the event that printed this, asks for this, and at which these scripts ended.
    pub fn into_out(self) -> Out
        ensures { result ≡ out_of self }
    {
        let Draft {
            shell: _,
            shared: _,
            renamed: _,
            begun: _,
            breaking: _,
            printed,
            request,
            reports,
            args: _,
            used: _,
            asked: _,
        } = self;
        Out::giving(printed, request, reports)
    }

    /// The current directory as it is now.
    pub(crate) fn directory<'b>(&'b self, scene: &'b Scene) -> &'b Place
        ensures { result.now ≡ (parts_of scene.now self.now).directory }
    {
        self.shell.directory(scene.shell)
    }

    /// The shared state as it is now.
    pub(crate) fn current<'b>(&'b self, scene: &'b Scene) -> &'b Shared
        ensures { result.now ≡ version scene.now.shared.now self.now.shared }
    {
        match &self.shared {
            None => scene.shared,
            Some(new) => new,
        }
    }

    /// The draft holds what a command of the shell with this number made: what it changed of the shell's parts, a new shared
    /// state, if there is one, what was renamed, and which shell was broken. A shell that breaks itself is flagged at once.
    pub(crate) fn affect(
        &mut self,
        number: u8,
        change: Option<Box<Change>>,
        shared: Option<Shared>,
        renamed: Option<Box<Renames>>,
        breaking: Option<Breaking>,
    )
        requires { IsUnset self.old }
        ensures { HoldsEffect number self.old self.new (option_map (λ c. c.value) change) shared (renames_in (option_map (λ r. r.value) renamed)) breaking }
    {
        self.shell.affect(change, flags_own(number, breaking));
        if let Some(shared) = shared {
            self.shared = Some(shared);
        }
        self.renamed = renamed;
        self.breaking = breaking;
    }
}
