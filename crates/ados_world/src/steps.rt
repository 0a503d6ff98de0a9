// The step: what an event makes of a world.
ghost use Rattle.std.specs.Prelude.{◌≡◌, ℕ, [], drop, false, IfErr, IfOk, OnErr, OnOk, is_some, true};
ghost use Rattle.ados_machine.specs.{Given.{request_after_event}, InUse.{has_request, resident_name_of, outputs_held, runs_program}, Laws.{finds_flag}, FrameEnds.{IsSane}, World.{at_number, is_over, numbered_shell, option_flatten}, Step.{step_of, turn_response, answer_response, break_response, event_out, queue_after_event}, Runs.{IsResponse, resulting_world}, declared.refusals.Refusal.TheVariants.{NoMemory as OutOfMemory}, Starts.{FailedStart}};
ghost use Rattle.ados_find.specs.Shared.{version};
ghost use Rattle.ados_shell.specs.Drafts.{out_of};
ghost use Rattle.ados_world.specs.{Binding.{BindsOnlyWhatItUsed}, Laws.{reports_break}, Shells.{IsShellNumber}, Steps.{begun_shells, step_result, draft_out, ended_world, world_after_turn}};

use crate::breaks::{break_other, kind_breaks};
use crate::carrying::moved_by;
use crate::endings::{end, end_done};
use crate::new_shells::{join, new_shell};
use crate::shells::change_shell;
use crate::table::ShellTable;
use crate::worlds::World;
use ados_find::{Codes, Question, Shared};
use ados_machine::{Answer, BreakKind, Event, Out, Refusal};
use ados_shell::{Answering, Draft, TurnKind};
use ados_text::{NoMemory, Text};
use std::alloc::Global;

impl World {
    /// Takes one event, or refuses it and stays unchanged.
    ///
    /// If several refusals apply, the first of the enum `Refusal` is given. The first six of them, an accepted end of input, a
    /// break and the end of a shell allocate nothing. A break is refused by `Over` and `NoSuchShell` alone.
    ///
    /// - A reply that a start has failed changes the codes of the shell that requested it, and what depends on these: what all
    ///   shells share, the other shells and the input stay.
    /// - `Out::request` is the request to a launcher for which the event's shell then waits, if any; there is none after a typed
    ///   line, the end of input or a break.
    /// - At its end an event binds only those Defers that it used.
    /// - A report says that a script was broken exactly if the event is a turn that finds its shell flagged by a Break D while a
    ///   script runs in it.
    /// - A resident entry stays in use from the start of its program to the reply that ends it, and the outputs that its shell
    ///   has open stay open as long as the program runs.
    pub fn step(&mut self, event: &Event) -> Result<Out, Refusal>
        ensures response { IsResponse event.now result (step_of self.old event.now) }
        ensures world { self.new ≡ resulting_world self.old result (step_of self.old event.now) }
        ensures failed_start { OnOk result (FailedStart self.old event.now self.new) }
        ensures request { IfOk result (λ out. out.request ≡ request_after_event self.new event.now) }
        ensures binding { OnOk result (BindsOnlyWhatItUsed self.old event.now self.new) }
        ensures breaks { IfOk result (λ out. reports_break out.reports ≡ finds_flag self.old event.now) }
        ensures residents { OnOk result ((k : ℕ) → has_request self.old k ≡ true → has_request self.new k ≡ true → resident_name_of self.new k ≡ resident_name_of self.old k) }
        ensures outputs { OnOk result ((k : ℕ) → runs_program self.old k ≡ true → runs_program self.new k ≡ true → outputs_held self.new k ≡ outputs_held self.old k) }
    {
        let mut draft = Draft::new(self.alloc);
        self.step_into(event, &mut draft)?;
        Ok(draft.into_out())
    }

    /// The same with a draft that is lent; it then holds what the event prints, requests and reports. What it held before is
    /// dropped: one draft serves for a whole run, and its buffers are reused.
    pub fn step_into(&mut self, event: &Event, draft: &mut Draft) -> Result<(), Refusal>
        ensures response { IsResponse event.now (step_result (out_of draft.new) result) (step_of self.old event.now) }
        ensures world { self.new ≡ resulting_world self.old (step_result (out_of draft.new) result) (step_of self.old event.now) }
    {
        if self.is_over() {
            return Err(Refusal::Over);
        }
        match event {
            Event::Typed(line) => {
                draft.give_nothing();
                self.queue_copy(line)
            }
            Event::EndOfInput => {
                draft.give_nothing();
                self.end_input()
            }
            Event::Turn(number) => self.turn(*number, draft),
            Event::Answer(number, answer) => self.answer(*number, answer, draft),
            Event::Break(number, kind) => {
                draft.give_nothing();
                self.break_shell(*number, *kind)
            }
        }
    }

    /// A line was typed: the event of that name, which gives nothing, by a line that the world keeps.
    pub fn type_line(&mut self, line: Text) -> Result<(), Refusal>
        ensures response { IsResponse (Event.Typed line) (step_result (event_out [] None []) result) (step_of self.old (Event.Typed line)) }
        ensures world { self.new ≡ resulting_world self.old (step_result (event_out [] None []) result) (step_of self.old (Event.Typed line)) }
    {
        if self.is_over() {
            return Err(Refusal::Over);
        }
        self.admit(&line)?;
        self.queue_line(line)
    }

    fn turn(&mut self, number: u8, draft: &mut Draft) -> Result<(), Refusal>
        requires { is_over self.old ≡ false }
        ensures response { IsResponse (Event.Turn number) (step_result (out_of draft.new) result) (turn_response self.old number (numbered_shell self.old number)) }
        ensures world { self.new ≡ resulting_world self.old (step_result (out_of draft.new) result) (turn_response self.old number (numbered_shell self.old number)) }
    {
        // This lets a turn use what holds of every world: no script runs on after a failure, each background shell runs a
        // frame, and each shell has the number of its place.
        let _ = &self.alloc;
        let Some(shell) = self.shell(number) else {
            return Err(Refusal::NoSuchShell);
        };
        let codes = shell.codes();
        match draft.turn(&self.scene(number, shell), &self.input(number)) {
            Err(_) => Err(Refusal::NoMemory),
            Ok(TurnKind::NotReady) => Err(Refusal::NotReady),
            Ok(TurnKind::Ends) => {
                draft.give_nothing();
                self.end_shell(number, codes);
                Ok(())
            }
            Ok(TurnKind::Goes) => self.take(number, draft),
            Ok(TurnKind::Takes) => self.take_typed(number, draft),
        }
    }

    fn answer(&mut self, number: u8, answer: &Answer, draft: &mut Draft) -> Result<(), Refusal>
        requires { is_over self.old ≡ false }
        ensures response { IsResponse (Event.Answer number answer.now) (step_result (out_of draft.new) result) (answer_response self.old number answer.now (numbered_shell self.old number)) }
        ensures world { self.new ≡ resulting_world self.old (step_result (out_of draft.new) result) (answer_response self.old number answer.now (numbered_shell self.old number)) }
    {
        // This lets an answer use what holds of every world, as a turn does.
        let _ = &self.alloc;
        let Some(shell) = self.shell(number) else {
            return Err(Refusal::NoSuchShell);
        };
        match draft.take_answer_of(&self.scene(number, shell), answer) {
            Err(_) => Err(Refusal::NoMemory),
            Ok(Answering::WrongAnswer) => Err(Refusal::WrongAnswer),
            Ok(Answering::Goes) => self.take(number, draft),
        }
    }

    fn break_shell(&mut self, number: u8, kind: BreakKind) -> Result<(), Refusal>
        requires { is_over self.old ≡ false }
        ensures response { IsResponse (Event.Break number kind) (step_result (event_out [] None []) result) (break_response self.old number kind (numbered_shell self.old number)) }
        ensures world { self.new ≡ resulting_world self.old (step_result (event_out [] None []) result) (break_response self.old number kind (numbered_shell self.old number)) }
    {
        // This lets a break use what holds of every world, as a turn does.
        let _ = &self.alloc;
        if self.shell(number).is_none() {
            return Err(Refusal::NoSuchShell);
        }
        self.shells.break_shell(number as usize, kind_breaks(kind));
        Ok(())
    }

    /// Commits what is changed by a turn that took the first line of its input.
    fn take_typed(&mut self, number: u8, draft: &mut Draft) -> Result<(), Refusal>
        requires number { IsShellNumber number }
        requires runs { is_some (numbered_shell self.old number) ≡ true }
        requires sane { IsSane (world_after_turn number draft.old self.old) }
        ensures out { OnOk result (out_of draft.new ≡ draft_out (numbered_shell self.old number) draft.old) }
        ensures world { OnOk result (self.new ≡ record (world_after_turn number draft.old self.old) { queue = queue_after_event number self.old.queue (drop 1 self.old.queue) }) }
        ensures refusal { IfErr result (λ why. why ≡ OutOfMemory) }
        ensures unchanged { OnErr result (self.new ≡ self.old) }
    {
        self.take(number, draft)?;
        if number == 1 {
            let _ = self.queue.pop_front();
        }
        Ok(())
    }

    /// Commits what a turn, or an answer, changes: the shell that it makes is placed at its number, the shell that it broke is
    /// broken, and the turn's own shell ends if it is a background shell that no longer runs a frame.
    fn take(&mut self, number: u8, draft: &mut Draft) -> Result<(), Refusal>
        requires number { IsShellNumber number }
        requires runs { is_some (numbered_shell self.old number) ≡ true }
        requires sane { IsSane (world_after_turn number draft.old self.old) }
        ensures out { OnOk result (out_of draft.new ≡ draft_out (numbered_shell self.old number) draft.old) }
        ensures world { OnOk result (self.new ≡ world_after_turn number draft.old self.old) }
        ensures refusal { IfErr result (λ why. why ≡ OutOfMemory) }
        ensures unchanged { OnErr result (self.new ≡ self.old) }
    {
        let Ok(()) = self.ask(number, draft) else {
            return Err(Refusal::NoMemory);
        };
        let Ok(()) = change_shells(self.alloc, &mut self.shells, &self.shared, number, draft) else {
            return Err(Refusal::NoMemory);
        };
        break_other(&mut self.shells, number, draft.breaking);
        end_done(&mut self.shells, &mut self.ended, number);
        renew(
            self.alloc,
            &mut self.shared,
            draft.shared.take(),
            draft.asked.take(),
        );
        Ok(())
    }

    /// The launcher is asked for what the shell of this number waits for after the event.
    fn ask(&self, number: u8, draft: &mut Draft) -> Result<(), NoMemory>
        ensures out { OnOk result (out_of draft.new ≡ draft_out (numbered_shell self.now number) draft.old) }
        ensures same { OnOk result (draft.new ≡ record draft.old { request = draft.new.request }) }
    {
        match self.shell(number) {
            None => Ok(()),
            Some(shell) => draft.ask_for(shell),
        }
    }

    /// The shell of this number ends; its codes are kept.
    fn end_shell(&mut self, number: u8, codes: Codes)
        requires number { IsShellNumber number }
        requires sane { IsSane (ended_world number codes self.old) }
        ensures { self.new ≡ ended_world number codes self.old }
    {
        end(&mut self.shells, &mut self.ended, number, codes);
    }
}

// Commits what a turn makes of its shell, which runs, with the current directories of all shells if objects were moved, and places the
// shell that it begins. Nearly no turn moves an object or begins a shell.
fn change_shells(
    alloc: Global,
    shells: &mut ShellTable,
    shared: &Shared,
    number: u8,
    draft: &mut Draft,
) -> Result<(), NoMemory>
    requires number { IsShellNumber number }
    requires runs { is_some (option_flatten (at_number shells.old number)) ≡ true }
    ensures draft { draft.new ≡ record draft.old { begun = draft.new.begun; shell = draft.new.shell } }
    ensures ok { OnOk result (shells.new ≡ begun_shells number draft.old shared.now shells.old) }
    ensures err { OnErr result (shells.new ≡ shells.old) }
{
    if draft.begun.is_none() && draft.renamed.is_none() {
        return shells.commit(number, &mut draft.shell);
    }
    let begun = new_shell(alloc, shells.places(), draft.begun.take())?;
    let moved = moved_by(
        alloc,
        shared,
        draft.shared.as_ref(),
        draft.renamed.as_deref(),
    )?;
    change_shell(shells, number, &mut draft.shell, &moved)?;
    join(shells, begun);
    Ok(())
}

// The shared state becomes a new one, if there is one; otherwise its cache learns what was asked.
fn renew(alloc: Global, shared: &mut Shared, new: Option<Shared>, asked: Option<Box<Question>>)
    ensures { shared.new ≡ version shared.old new }
{
    match new {
        None => learn(alloc, shared, asked),
        Some(new) => *shared = new,
    }
}

/// The cache of the shared state, which the event left as it was, learns what it was asked for.
fn learn(alloc: Global, shared: &mut Shared, asked: Option<Box<Question>>)
    ensures { shared.new ≡ shared.old }
{
    if let Some(asked) = asked {
        shared.learn(alloc, &asked.path, &asked.directory);
    }
}
