// How a line ends whose command was found, and what that does to the frames.
ghost use Rattle.std.specs.Prelude.{◌≡◌, IfOk, OnOk};

use crate::drafts::Draft;
use crate::scenes::Scene;
use ados_find::{Codes, Target};
use ados_flow::Called;
use ados_machine::Wait;
use ados_text::{NoMemory, Stop, Text};
use std::alloc::Global;

/// How a line ends whose command was found.
#[derive(Drop)]
pub enum Completion {
    /// Its command returns codes, and may end its script.
    Answered { codes: Codes, quits: bool },
    /// Its command returns codes, and its frame continues at this line, counted from 1.
    Jumped { codes: Codes, line: usize },
    /// Its command returns codes, and took this many more lines of its frame, or all that are left.
    Took { codes: Codes, taken: usize },
    /// A script is called.
    Called(Box<Call>),
    /// The shell waits.
    Waits(Box<Wait>),
}

/// A script that is called.
#[derive(Drop)]
pub struct Call {
    /// The output that its line names, which is open until it ends.
    pub output: Option<Target>,
    /// The script.
    pub script: Called,
}

impl Completion {
    ghost use Rattle.std.specs.Prelude.{ℕ, List, Option};
    ghost use Rattle.ados_machine.specs.{Course.{Course}, Completions.{FrameLines}};
    ghost use Rattle.ados_machine.specs.Completions as machine;
    ghost use Rattle.ados_shell.specs.Completions.{completion_of};

    /// The shell waits for this.
    pub(crate) fn waiting(alloc: Global, wait: Wait) -> Result<Completion, NoMemory>
        ensures { IfOk result (λ completion. (word : List ℕ) (frame : Option FrameLines) (course : Course) → completion_of word completion frame course ≡ machine.Waits wait course) }
    {
        Ok(Completion::Waits(Box::new(alloc, wait)?))
    }

    /// A script is called, whose output leads there.
    pub(crate) fn calling(
        alloc: Global,
        output: Option<Target>,
        script: Called,
    ) -> Result<Completion, NoMemory>
        ensures { IfOk result (λ completion. (word : List ℕ) (frame : Option FrameLines) (course : Course) → completion_of word completion frame course ≡ machine.Calls word output script course) }
    {
        Ok(Completion::Called(Box::new(alloc, Call { output, script })?))
    }
}

impl Draft {
    ghost use Rattle.ados_shell.specs.Completions.{Concludes};

    /// Lays on the frames how a line ended whose command has this word: what refused it is its code 20.
    #[inline(always)]
    pub(crate) fn conclude(
        &mut self,
        scene: &Scene,
        word: &Text,
        ended: Result<Completion, Stop>,
    ) -> Result<(), NoMemory>
        ensures { OnOk result (Concludes scene.now self.old self.new word.now ended) }
    {
        match ended {
            Err(Stop::NoMemory) => Err(NoMemory),
            Err(Stop::Refused(fault)) => self.refuse(scene, word, fault),
            Ok(Completion::Answered { codes, quits }) => {
                self.answer(scene, word.as_bytes(), codes, quits)
            }
            Ok(Completion::Jumped { codes, line }) => self.jump(scene, word, codes, line),
            Ok(Completion::Took { codes, taken }) => self.skip(scene, word, codes, taken),
            Ok(Completion::Called(call)) => {
                let Call { output, script } = Box::into_inner(call);
                self.call(scene, word, output, script)
            }
            Ok(Completion::Waits(wait)) => self.wait(scene, Box::into_inner(wait)),
        }
    }
}
