// Runs: a list of events, one after another.
ghost use Rattle.std.specs.Prelude.{◌≡◌, ℕ, ◌++◌, IfOk, IfErr};
ghost use Rattle.ados_machine.specs.{Early.{EndsEarlyAtFirst, GivesBack, OfEachFrameIn}, Given.{all_lines_taken, all_lines_typed}, Kept.{codes_after_trace}, Runs.{Runs}, FrameEnds.{LimitsHold, ReportsHold}, Reports.{reports_of_trace, shell_stack}, Stacks.{FramesHold}, Trace.{own, all_reports, trace}, World.{codes_at}, Starts.{FailedStartsLeaveNothingIn}};
ghost use Rattle.ados_world.specs.Laws.{BreaksEndScriptsIn, QuietShellsAreInvisibleIn};

use crate::worlds::World;
use ados_machine::{Event, Out, Refusal};
use ados_text::Items;

/// The result of each event of a run, in order.
pub type Outs = Items<Result<Out, Refusal>>;

/// What a run leaves.
#[derive(Drop)]
pub struct Run {
    /// The world after its last event.
    pub world: World,
    /// One result for each event.
    pub outs: Outs,
}

impl World {
    /// Takes the events one after another.
    ///
    /// Whatever the events, of every script: the place of the first command whose code reaches the limit in force after it is the
    /// place at which the script ended early, or there is neither (`early`). Each script that ends gives back the line and the codes
    /// of its last command, and the limit at which it began, or 10 if no script is left; one that is broken gives back 10 and 304
    /// (`back`).
    ///
    /// Each item of `outs` is what the step returns; a refused event keeps the world. If there is no memory for the list
    /// of results, the world is returned unchanged.
    ///
    /// The reports of the outs are the ends of scripts, in their order. Each end is
    /// that of the newest frame of its shell, reported once with the frame's own name and last record. Scripts end at a break
    /// exactly at a turn that finds the flag of its shell, in which a script runs. If the next event accepted after the turn
    /// that requested a program is the reply that it could not be started, then what all share, the other shells and each use
    /// count are as before that turn. If no event of a shell changes what the others see of it and around it, the events of the
    /// others alone give the same results. The lines that waited at first and those typed are, in order, those that shell 1 took
    /// and those that still wait. Each report gives the last record of its script, and the last codes of each number, even if
    /// its shell has ended, are those of its last command.
    pub fn run(mut self, events: &[Event]) -> Result<Run, World>
        ensures early { IfOk result (λ run. OfEachFrameIn EndsEarlyAtFirst self events.now run.outs) }
        ensures back { IfOk result (λ run. OfEachFrameIn GivesBack self events.now run.outs) }
        ensures run { IfOk result (λ run. Runs self events.now run.outs run.world) }
        ensures limits { IfOk result (λ run. LimitsHold self events.now run.outs) }
        ensures reports { IfOk result (λ run. ReportsHold self events.now run.outs) }
        ensures frames { IfOk result (λ run. FramesHold self events.now run.outs run.world) }
        ensures breaks { IfOk result (λ run. BreaksEndScriptsIn self events.now run.outs) }
        ensures starts { IfOk result (λ run. FailedStartsLeaveNothingIn self events.now run.outs) }
        ensures quiet { IfOk result (λ run. QuietShellsAreInvisibleIn self events.now run.outs run.world) }
        ensures typed { IfOk result (λ run. self.queue ++ all_lines_typed events.now run.outs ≡ all_lines_taken self events.now run.outs ++ run.world.queue) }
        ensures records { IfOk result (λ run. all_reports run.outs ≡ reports_of_trace (shell_stack self) (trace self events.now run.outs)) }
        ensures codes { IfOk result (λ run. (k : ℕ) → codes_at run.world k ≡ codes_after_trace (codes_at self k) (own k (trace self events.now run.outs))) }
        ensures err { IfErr result (λ world. world ≡ self) }
    {
        let Ok(mut outs) = Vec::with_capacity(self.alloc, events.len()) else {
            return Err(self);
        };
        for event in events {
            let out = self.step(event);
            let Ok(()) = outs.push(out) else {
                unreachable!();
            };
        }
        Ok(Run {
            world: self,
            outs: Outs::from_vec(outs),
        })
    }
}
