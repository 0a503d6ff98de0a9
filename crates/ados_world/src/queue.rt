// The typed lines that wait for shell 1.
ghost use Rattle.std.specs.{Prelude.{◌≡◌, [], IfErr, OnErr, OnOk}, Option.{option_copied}};
ghost use Rattle.ados_machine.specs.{World.{has_input, input_of}, Step.{Accepted, Refused, typing_response, end_of_input, event_out}, Runs.{IsResponse, resulting_world}, declared.refusals.Refusal.TheVariants.{NoMemory}};
ghost use Rattle.ados_shell.specs.Turnings.{IsFirst};
ghost use Rattle.ados_world.specs.Steps.{step_result, with_queued_line};

use crate::worlds::World;
use ados_machine::{Event, Refusal};
use ados_shell::Input;
use ados_text::{LINE_BYTES, Text};

const QUEUE_LINES: usize = 256;

impl World {
    /// A copy of a line joins the queue.
    pub(crate) fn queue_copy(&mut self, line: &Text) -> Result<(), Refusal>
        ensures response { IsResponse (Event.Typed line.now) (step_result (event_out [] None []) result) (typing_response self.old line.now) }
        ensures world { self.new ≡ resulting_world self.old (step_result (event_out [] None []) result) (typing_response self.old line.now) }
    {
        self.admit(line)?;
        match line.copy() {
            Ok(line) => self.queue_line(line),
            Err(_) => Err(Refusal::NoMemory),
        }
    }

    /// A line may join the queue, unless an allocation fails.
    pub(crate) fn admit(&self, line: &Text) -> Result<(), Refusal>
        ensures ok { OnOk result (typing_response self.now line.now ≡ Accepted (with_queued_line line.now self.now) (event_out [] None []) []) }
        ensures err { IfErr result (λ why. typing_response self.now line.now ≡ Refused why) }
    {
        if self.input_ended {
            return Err(Refusal::NotReady);
        }
        if self.queue.len() >= QUEUE_LINES {
            return Err(Refusal::QueueFull);
        }
        if line.as_bytes().len() > LINE_BYTES {
            return Err(Refusal::LineTooLong);
        }
        Ok(())
    }

    /// A line joins the queue.
    #[inline(always)]
    pub(crate) fn queue_line(&mut self, line: Text) -> Result<(), Refusal>
        ensures ok { OnOk result (self.new ≡ with_queued_line line self.old) }
        ensures err { IfErr result (λ why. why ≡ NoMemory) }
        ensures unchanged { OnErr result (self.new ≡ self.old) }
    {
        match self.queue.push_back(line) {
            Ok(()) => Ok(()),
            Err(_) => Err(Refusal::NoMemory),
        }
    }

    /// No more lines will be typed.
    pub(crate) fn end_input(&mut self) -> Result<(), Refusal>
        ensures response { IsResponse Event.EndOfInput (step_result (event_out [] None []) result) (end_of_input self.old) }
        ensures world { self.new ≡ resulting_world self.old (step_result (event_out [] None []) result) (end_of_input self.old) }
    {
        if self.input_ended {
            return Err(Refusal::NotReady);
        }
        self.input_ended = true;
        Ok(())
    }

    /// The input of the shell of this number: shell 1 reads the console, and that of a background shell is at its end.
    pub(crate) fn input(&self, number: u8) -> Input<'_>
        ensures line { IsFirst (option_copied result.line) (input_of self.now number).queue }
        ensures is_ended { result.is_ended ≡ (input_of self.now number).is_ended }
    {
        if number == 1 {
            Input {
                line: self.queue.front(),
                is_ended: self.input_ended,
            }
        } else {
            Input {
                line: None,
                is_ended: true,
            }
        }
    }

    /// A line waits for the shell of this number, or its input has ended.
    pub(crate) fn has_input(&self, number: u8) -> bool
        ensures { result ≡ has_input (input_of self.now number) }
    {
        number != 1 || !self.queue.is_empty() || self.input_ended
    }
}
