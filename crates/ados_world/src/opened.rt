// Shells that are opened for a line of their own.
ghost use Rattle.std.specs.{Prelude.{◌≡◌, ◌≤◌, ◌∷◌, ◌-◌, ℕ, List, [], length, IfOk, IfSome, Some}, List.{slice_set}};
ghost use Rattle.ados_machine.specs.{FrameEnds.{IsSane}, Numbers.{free_number}, declared.answers.Answer.{Answer}, LoneReports.{TellsReports, collect_reports}, LoneShell.{opened_shell, whole}};
ghost use Rattle.ados_world.specs.{Opened.{Refuses, world_after_opening, opening_fault}, Shells.{IsShellNumber}};

use crate::new_shells::next_number;
use crate::worlds::World;
use ados_find::{Codes, Settings};
use ados_machine::Refusal;
use ados_ram::Place;
use ados_script::Script;
use ados_shell::{Begun, Shell};
use ados_text::{LINE_BYTES, NoMemory, Text};
use std::alloc::Global;

impl World {
    /// Opens a shell for one line and gives its number, the lowest of 2 to 20 that is free; `None` if all are taken.
    ///
    /// The shell is a fresh one: its current directory is RAM:, and it has no path and no aliases. The line is its one
    /// frame, and the shell ends after it. If it alone is given turns and answers, its scripts report what the direct meaning
    /// of the line says.
    ///
    /// `Over` if no shell is left, then `LineTooLong` for a line of more than 512 bytes, then `NoMemory`, which is possible
    /// only if a number is free. At a refusal, and at `None`, the world is unchanged.
    pub fn open_shell(&mut self, line: &Text) -> Result<Option<u8>, Refusal>
        ensures number { IfOk result (λ number. number ≡ free_number self.old.shells) }
        // Its number has a place for the codes that it leaves.
        ensures place { IfOk result (λ number. IfSome number (λ k. k ≤ length self.old.ended)) }
        // What it reports, if it runs alone from then on.
        ensures reports { IfOk result (λ number. IfSome number (λ k. (n : ℕ) (answers : List Answer) →
            TellsReports (whole n k self.old (line.now ∷ []) answers) (collect_reports k n answers self.new []))) }
        ensures refusal { Refuses result (opening_fault self.old line.now) (free_number self.old.shells) }
        ensures world { self.new ≡ world_after_opening self.old line.now result }
    {
        if self.is_over() {
            return Err(Refusal::Over);
        }
        if line.as_bytes().len() > LINE_BYTES {
            return Err(Refusal::LineTooLong);
        }
        let Some(number) = next_number(self.shells.places()) else {
            return Ok(None);
        };
        match opened_shell(self.alloc, number, line) {
            Err(NoMemory) => Err(Refusal::NoMemory),
            Ok(shell) => {
                note_places(&self.ended);
                self.place(number, shell);
                Ok(Some(number))
            }
        }
    }

    /// Places a shell at its number.
    fn place(&mut self, number: u8, shell: Shell)
        requires number { IsShellNumber number }
        requires sane { IsSane (record self.old { shells = slice_set self.old.shells (number - 1) (Some shell) }) }
        ensures { self.new ≡ record self.old { shells = slice_set self.old.shells (number - 1) (Some shell) } }
    {
        self.shells.put(number, Some(shell));
    }
}

// Nothing is done: each number has a place for its codes.
#[inline(always)]
fn note_places(ended: &[Codes; 20])
    ensures { length ended.now ≡ 20 }
{}

/// A fresh shell with this number and one line.
fn opened_shell(alloc: Global, number: u8, line: &Text) -> Result<Shell, NoMemory>
    ensures { IfOk result (λ shell. shell ≡ opened_shell number (line.now ∷ [])) }
{
    let mut lines = Vec::new(alloc);
    lines.push(line.copy()?)?;
    let begun = Begun {
        directory: Place::root(alloc),
        settings: Settings::first(alloc, number)?,
        commands: Script::of(alloc, lines)?,
        output: None,
    };
    Shell::begun(alloc, number, begun)
}
