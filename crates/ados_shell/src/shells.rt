// A shell: its frames, what it waits for, its parts.
ghost use Rattle.std.specs.{Prelude.{◌≡◌, ◌∷◌, [], reverse, IfOk}, Option.{option_copied}};
ghost use Rattle.ados_machine.specs.Shells.{begun_shell, phase_entry, fresh_shell};
ghost use Rattle.ados_flow.specs.{Frames.{new_frame, first_limit}, declared.kinds.FrameKind.TheVariants.{RunCommands}};

use crate::begun::Begun;
use crate::suspensions::Suspension;
use ados_find::{Codes, Settings, Target};
use ados_flow::{FIRST_LIMIT, Frame, FrameKind};
use ados_machine::Request;
use ados_ram::Place;
use ados_script::Script;
use ados_text::{Code, NoMemory, Octets, Text};
use std::alloc::Global;
use std::marker::Model;

/// A shell.
pub struct Shell {
    // The newest is the last.
    pub(crate) frames: Vec<Frame>,
    // `None` in the phase Ready.
    pub(crate) phase: Option<Box<Suspension>>,
    // What it asked a launcher for, and waits for.
    pub(crate) request: Option<Request>,
    pub(crate) number: u8,
    pub(crate) directory: Place,
    pub(crate) limit: Code,
    pub(crate) codes: Codes,
    pub(crate) settings: Settings,
    // The output of its command substitutions so far; that of the newest is the last.
    pub(crate) kept: Vec<Octets>,
    // Its scripts end at its next turn.
    pub(crate) flagged: bool,
}

// Written out, so that to drop a shell is one step, and not one for each of its parts.
impl Drop for Shell {
    fn drop(self) {
        let Shell {
            frames: _frames,
            phase: _phase,
            request: _request,
            number: _number,
            directory: _directory,
            limit: _limit,
            codes: _codes,
            settings: _settings,
            kept: _kept,
            flagged: _flagged,
        } = self;
    }
}

impl Model for Shell {
    ghost use Rattle.std.specs.Prelude.{option_map, reverse, ◌≡◌};
    ghost use Rattle.ados_machine.specs.{Shells.{ShellState}, Requests.{request_of}};
    ghost use Rattle.ados_shell.specs.Suspensions.{phase_of};

    ghost Value = { ShellState };

    ghost view = { λ s. record {
      frames = reverse s.frames.items;
      phase = phase_of (option_map (λ p. p.value) s.phase);
      parts = record { number = s.number; directory = s.directory; limit = s.limit; codes = s.codes; settings = s.settings };
      kept = reverse s.kept.items;
      flagged = s.flagged;
    } };

    // What it asked for is what its phase asks for.
    ghost invariant = { λ s. s.request ≡ request_of s.number (phase_of (option_map (λ p. p.value) s.phase)) };
}

impl Shell {
    ghost use Rattle.ados_machine.specs.{Turning.{Input}, Requests.{request_of}, World.{can_take, has_frame, has_input, takes_input}};
    ghost use Rattle.ados_shell.specs.Asking.{asks_for_line};

    /// The shell with this number in which no command has returned yet, in the root.
    pub fn new(alloc: Global, number: u8) -> Result<Shell, NoMemory>
        ensures { IfOk result (λ shell. shell ≡ fresh_shell number) }
    {
        Ok(Shell {
            frames: Vec::new(alloc),
            phase: None,
            request: None,
            number,
            directory: Place::root(alloc),
            limit: FIRST_LIMIT,
            codes: Codes::NONE,
            settings: Settings::first(alloc, number)?,
            kept: Vec::new(alloc),
            flagged: false,
        })
    }

    /// The shell with this number that a Run makes, in which no command has returned yet; its commands are its one frame.
    pub fn begun(alloc: Global, number: u8, begun: Begun) -> Result<Shell, NoMemory>
        ensures { IfOk result (λ shell. shell ≡ begun_shell number begun) }
    {
        let Begun {
            directory,
            settings,
            commands,
            output,
        } = begun;
        Ok(Shell {
            frames: single_frame(alloc, commands, output)?,
            phase: None,
            request: None,
            number,
            directory,
            limit: FIRST_LIMIT,
            codes: Codes::NONE,
            settings,
            kept: Vec::new(alloc),
            flagged: false,
        })
    }

    /// What the last command returned.
    pub fn codes(&self) -> Codes
        ensures { result ≡ self.now.parts.codes }
    {
        self.codes
    }

    /// Its number.
    pub fn number(&self) -> u8
        ensures { result ≡ self.now.parts.number }
    {
        self.number
    }

    /// Its fail limit.
    pub fn limit(&self) -> Code
        ensures { result ≡ self.now.parts.limit }
    {
        self.limit
    }

    /// Its current directory.
    pub fn directory(&self) -> &Place
        ensures { result.now ≡ self.now.parts.directory }
    {
        &self.directory
    }

    /// The output of its command substitutions so far; that of the newest is the last.
    pub(crate) fn kept(&self) -> &[Octets]
        ensures { reverse result.now ≡ self.now.kept }
    {
        self.kept.as_slice()
    }

    /// What is set in it.
    pub fn settings(&self) -> &Settings
        ensures { result.now ≡ self.now.parts.settings }
    {
        &self.settings
    }

    /// Its frames: the newest is the last.
    pub fn frames(&self) -> &[Frame]
        ensures { reverse result.now ≡ self.now.frames }
    {
        self.frames.as_slice()
    }

    /// It runs a frame.
    pub fn has_frame(&self) -> bool
        ensures { result ≡ has_frame self.now.frames }
    {
        !self.frames.is_empty()
    }

    /// It can take a turn: it is in the phase Ready and runs a frame, a line of it goes on, or it has input to take, as
    /// `has_lines` says.
    pub fn can_take(&self, has_lines: bool) -> bool
        ensures { (input : Input) → has_input input ≡ has_lines → result ≡ can_take input self.now.frames self.now.phase }
    {
        match self.phase.as_deref() {
            None => has_lines || !self.frames.is_empty(),
            Some(Suspension::GoingOn(_)) => true,
            Some(Suspension::Waiting(wait)) => wait.is_for_input() && has_lines,
        }
    }

    /// It reads its input next: it is in the phase Ready and runs no frame, or waits for a line.
    pub fn takes_input(&self) -> bool
        ensures { result ≡ takes_input self.now.frames self.now.phase }
    {
        match self.phase.as_deref() {
            None => self.frames.is_empty(),
            Some(Suspension::GoingOn(_)) => false,
            Some(Suspension::Waiting(wait)) => wait.is_for_input(),
        }
    }

    /// It waits for a line of its input: an answer to a prompt, or another line of a Run.
    pub fn asks_for_line(&self) -> bool
        ensures { result ≡ asks_for_line self.now.phase }
    {
        match self.phase.as_deref() {
            Some(Suspension::Waiting(wait)) => wait.is_for_input(),
            _ => false,
        }
    }

    /// The name of the resident entry from which it runs: if it starts a program from one, reads its output, or waits
    /// for its end.
    pub fn entry(&self) -> Option<&Text>
        ensures { option_copied result ≡ phase_entry self.now.phase }
    {
        match self.phase.as_deref() {
            Some(Suspension::Waiting(wait)) => wait.entry(),
            _ => None,
        }
    }

    /// What it asked a launcher for, and waits for.
    pub fn request(&self) -> Option<&Request>
        ensures { option_copied result ≡ request_of self.now.parts.number self.now.phase }
    {
        self.request.as_ref()
    }
}

/// The frame of a Run's commands alone.
fn single_frame(
    alloc: Global,
    commands: Script,
    output: Option<Target>,
) -> Result<Vec<Frame>, NoMemory>
    ensures { IfOk result (λ frames. frames.items ≡ new_frame RunCommands commands first_limit output ∷ []) }
{
    let frame = Frame::new(alloc, FrameKind::RunCommands, commands, FIRST_LIMIT, output)?;
    let mut frames = Vec::new(alloc);
    frames.push(frame)?;
    Ok(frames)
}
