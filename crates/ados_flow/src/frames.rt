// Frames.
ghost use Rattle.std.specs.{Prelude.{◌≡◌, suc, ◌+◌, ◌<◌, ◌^◌, List, Some, IfOk, OnSome, length, slice_get}, Option.{option_copied, option_map}};

use crate::code_rule::is_reached;
use crate::kinds::FrameKind;
use crate::records::Record;
use ados_find::{Codes, Target};
use ados_script::Script;
use ados_text::{Code, NoMemory, Text};
use std::alloc::Global;
use std::marker::Model;
use std::rc::Rc;

/// A shell has at most this many frames.
pub const FRAME_LIMIT: usize = 32;

/// The parts of a frame that do not change while it runs.
#[derive(Drop)]
struct Fixed {
    kind: FrameKind,
    script: Script,
    output: Option<Target>,
}

/// A frame that runs. Copies share its kind, its lines and its output.
#[derive(Drop)]
pub struct Frame {
    fixed: Rc<Fixed>,
    position: usize,
    line: usize,
    limit: Code,
    last: Option<Record>,
}

impl Model for Frame {
    ghost use Rattle.ados_flow.specs.Frames.{FrameState};

    ghost Value = { FrameState };

    ghost view = { λ f. record {
      kind = f.fixed.value.kind;
      lines = f.fixed.value.script;
      position = f.position;
      line = f.line;
      limit = f.limit;
      output = f.fixed.value.output;
      last = f.last;
    } };
}

impl Frame {
    ghost use Rattle.ados_flow.specs.Frames.{FrameState, new_frame, advanced_frame, untaken_lines, frame_at_line, script_line_of, answered_frame, is_over, is_ended, is_script, last_line, last_codes, is_early};

    /// A frame that begins: what it is, its lines, the limit in force, and its own output, if it has one.
    pub fn new(
        alloc: Global,
        kind: FrameKind,
        script: Script,
        limit: Code,
        output: Option<Target>,
    ) -> Result<Frame, NoMemory>
        ensures { IfOk result (λ frame. frame ≡ new_frame kind script limit output) }
    {
        let fixed = Fixed {
            kind,
            script,
            output,
        };
        Ok(Frame {
            fixed: Rc::new(alloc, fixed)?,
            position: 0,
            line: 0,
            limit,
            last: None,
        })
    }

    /// A copy of the frame, which shares the parts that do not change.
    pub fn share(&self) -> Result<Frame, NoMemory>
        ensures { IfOk result (λ frame. frame ≡ self.now) }
    {
        Ok(Frame {
            fixed: self.fixed.clone()?,
            position: self.position,
            line: self.line,
            limit: self.limit,
            last: self.last,
        })
    }

    /// The next line; `None` if none is left.
    pub fn next_line(&self) -> Option<&Text>
        ensures line { option_copied result ≡ slice_get self.now.lines self.now.position }
        ensures below { OnSome result (self.now.position + 1 < 2 ^ 64) }
    {
        self.fixed.script.lines().get(self.position)
    }

    /// Moves past the next line, which was taken.
    pub fn move_on(&mut self)
        requires { self.old.position + 1 < 2 ^ 64 }
        ensures { self.new ≡ advanced_frame self.old }
    {
        self.position += 1;
        self.line = self.position;
    }

    /// How many of its lines were taken, or jumped over.
    pub fn position(&self) -> usize
        ensures { result ≡ self.now.position }
    {
        self.position
    }

    /// The lines that are not taken yet.
    pub fn further(&self) -> &[Text]
        ensures lines { result.now ≡ untaken_lines self.now }
        ensures below { self.now.position + length result.now < 2 ^ 64 }
    {
        let lines = self.fixed.script.lines();
        lines.get(self.position()..).unwrap_or(&[])
    }

    /// Takes this many of the lines that are not taken yet.
    pub fn skip(&mut self, taken: usize)
        requires { self.old.position + taken < 2 ^ 64 }
        ensures { self.new ≡ frame_at_line (suc (self.old.position + taken)) self.old }
    {
        self.position += taken;
    }

    /// Continues at a line, counted from 1.
    pub fn jump_to(&mut self, line: usize)
        ensures { self.new ≡ frame_at_line line self.old }
    {
        self.position = line.saturating_sub(1);
    }

    /// Where its command is, if it is a script: the script, and the line at which the command began.
    pub fn script_line(&self) -> Option<(&Script, usize)>
        ensures { option_map (λ here. record { lines = here.0.now; line = here.1 }) result ≡ script_line_of (Some self.now) }
    {
        match &self.fixed.kind {
            FrameKind::Script { .. } => Some((&self.fixed.script, self.line)),
            FrameKind::RunCommands | FrameKind::Tick { .. } => None,
        }
    }

    /// A command of it returned, with this limit after it.
    pub fn answer(&mut self, answered: Codes, limit: Code)
        ensures { (below : List FrameState) → self.new ≡ answered_frame self.old below answered limit }
    {
        self.last = Some(Record {
            line: self.line,
            codes: answered,
            limit,
        });
    }

    /// No line is left.
    pub fn is_over(&self) -> bool
        ensures { result ≡ is_over self.now }
    {
        self.fixed.script.lines().len() <= self.position
    }

    /// The code rule: after a command that returned this, with this limit after it, the frame ends if no line is
    /// left, and a script also if the command quits or its code reaches the limit.
    pub fn is_ended(&self, quits: bool, answered: Codes, limit: Code) -> bool
        ensures { result ≡ is_ended quits answered limit self.now }
    {
        self.is_over() || (self.is_script() && (quits || is_reached(limit, answered.code)))
    }

    /// What it is.
    pub fn kind(&self) -> &FrameKind
        ensures { result.now ≡ self.now.kind }
    {
        &self.fixed.kind
    }

    /// It is the frame of a script.
    pub fn is_script(&self) -> bool
        ensures { result ≡ is_script self.now.kind }
    {
        matches!(self.fixed.kind, FrameKind::Script { .. })
    }

    /// The fail limit in force at its beginning.
    pub fn limit(&self) -> Code
        ensures { result ≡ self.now.limit }
    {
        self.limit
    }

    /// Its own output, which is open until it ends.
    pub fn output(&self) -> Option<&Target>
        ensures { option_copied result ≡ self.now.output }
    {
        self.fixed.output.as_ref()
    }

    /// The line of its last record; 0 if it has none.
    pub fn last_line(&self) -> usize
        ensures { result ≡ last_line self.now.last }
    {
        match self.last {
            None => 0,
            Some(last) => last.line,
        }
    }

    /// What its last command returned; success if none has.
    pub fn last_codes(&self) -> Codes
        ensures { result ≡ last_codes self.now.last }
    {
        match self.last {
            None => Codes::NONE,
            Some(last) => last.codes,
        }
    }

    /// It is a script whose last record reached the limit in force after the command: such an end is reported as early, also
    /// if that command was Quit or stood on the last line.
    pub fn is_early(&self) -> bool
        ensures { result ≡ is_early self.now.kind self.now.last }
    {
        match self.last {
            None => false,
            Some(last) => self.is_script() && is_reached(last.limit, last.codes.code),
        }
    }
}
