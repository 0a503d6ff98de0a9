//! Lines that are run by `system`.

use crate::answers::{name_of, push_numbered, push_words};
use crate::launchers::launcher_of;
use crate::lines::{Order, answer_of};
use crate::texts::{push_all, push_codes, push_count, push_hex, push_lines};
use ados_launch::{SystemEnd, SystemFault, system};
use ados_text::{NoMemory, push_number};
use ados_world::{Answer, Event, Out, Refusal, Request, World};
use std::alloc::Global;

/// The texts of a launcher's answers, and how many of them were taken.
#[derive(Drop)]
struct Left<'a> {
    texts: &'a [&'a str],
    taken: usize,
}

impl<'a> Left<'a> {
    // The answer of the next text; `None` if none is left.
    fn next(&mut self, alloc: Global) -> Result<Option<Answer>, NoMemory> {
        match self.texts.get(self.taken) {
            None => Ok(None),
            Some(text) => {
                self.taken += 1;
                answer_of(alloc, text)
            }
        }
    }
}

/// Runs a line by `system`, with a launcher that takes its answers from these texts, and adds what that gave.
///
/// At a fault its fields are added, and if an allocation failed the shell goes on from them.
pub fn push_system(
    text: &mut Vec<u8>,
    alloc: Global,
    world: &mut World,
    order: &Order,
    texts: &[&str],
) -> Result<(), NoMemory> {
    let mut launcher = launcher_of(alloc, world, texts)?;
    let before = launcher.left();
    let mut printed = Vec::new(alloc);
    let result = system(
        alloc,
        world,
        &order.line,
        &mut launcher,
        order.events,
        &mut printed,
    );
    let mut left = Left {
        texts,
        taken: before.saturating_sub(launcher.left()),
    };
    let end = match result {
        Ok(end) => Some(end),
        Err(fault) => {
            push_fault(text, &fault)?;
            end_after(alloc, world, order, fault, &mut left, &mut printed)?
        }
    };
    push_lines(text, b"", printed.as_slice())?;
    push_end(text, end)?;
    push_left(text, &left)
}

// Adds how a line ended that was not refused.
fn push_end(text: &mut Vec<u8>, end: Option<SystemEnd>) -> Result<(), NoMemory> {
    match end {
        None => Ok(()),
        Some(SystemEnd::NoShell) => push_all(text, &[b"system: NoShell\n"]),
        Some(SystemEnd::Ended(codes)) => {
            text.extend_from_slice(b"system: Ended ")?;
            push_codes(text, codes)
        }
        Some(SystemEnd::StillRunning(number)) => {
            text.extend_from_slice(b"system: StillRunning ")?;
            push_number(text, i32::from(number))?;
            push_all(text, &[b"\n"])
        }
    }
}

// Adds the fields of a fault.
fn push_fault(text: &mut Vec<u8>, fault: &SystemFault) -> Result<(), NoMemory> {
    push_all(text, &[b"fault: ", name_of(fault.refusal).as_bytes()])?;
    match fault.shell {
        None => push_all(text, &[b", shell none"])?,
        Some(number) => push_numbered(text, b", shell ", number)?,
    }
    text.extend_from_slice(b", events ")?;
    push_count(text, fault.events)?;
    text.extend_from_slice(b", answer ")?;
    match &fault.answer {
        None => push_all(text, &[b"none"])?,
        Some(answer) => push_words(text, answer)?,
    }
    match fault.unwritten.as_bytes() {
        [] => push_all(text, &[b", unwritten none"])?,
        bytes => push_hex(text, b", unwritten ", bytes)?,
    }
    push_all(text, &[b"\n"])
}

// Adds how many of the listed answers were not taken, if any were listed.
fn push_left(text: &mut Vec<u8>, left: &Left) -> Result<(), NoMemory> {
    if left.texts.is_empty() {
        return Ok(());
    }
    text.extend_from_slice(b"left: ")?;
    push_count(text, left.texts.len().saturating_sub(left.taken))?;
    push_all(text, &[b"\n"])
}

// How a line ends that was stopped by a fault: if an allocation failed its shell goes on by steps, from what the fault
// gives, with the answers of the texts that are left.
fn end_after(
    alloc: Global,
    world: &mut World,
    order: &Order,
    fault: SystemFault,
    left: &mut Left,
    printed: &mut Vec<u8>,
) -> Result<Option<SystemEnd>, NoMemory> {
    let SystemFault {
        refusal,
        shell,
        events,
        answer,
        unwritten,
    } = fault;
    if refusal != Refusal::NoMemory {
        return Ok(None);
    }
    let Some(number) = shell_of(world, order, shell)? else {
        return Ok(Some(SystemEnd::NoShell));
    };
    printed.extend_from_slice(unwritten.as_bytes())?;
    let mut untaken = answer;
    for _ in events..order.events {
        if world.shell(number).is_none() {
            break;
        }
        let out = match untaken.take() {
            Some(answer) => accepted(world.step(&Event::Answer(number, answer)))?,
            None => next_out(alloc, world, number, left)?,
        };
        printed.extend_from_slice(out.bytes.as_bytes())?;
    }
    Ok(Some(end_of(world, number)))
}

// The shell of a line: the one that was opened for it, otherwise one that is opened now.
fn shell_of(world: &mut World, order: &Order, shell: Option<u8>) -> Result<Option<u8>, NoMemory> {
    if shell.is_some() {
        return Ok(shell);
    }
    match world.open_shell(&order.line) {
        Ok(number) => Ok(number),
        Err(_) => Err(NoMemory),
    }
}

// The state of the shell with this number after its last event.
fn end_of(world: &World, number: u8) -> SystemEnd {
    match world.shell(number) {
        None => SystemEnd::Ended(world.codes(number)),
        Some(_) => SystemEnd::StillRunning(number),
    }
}

// Gives a shell its next event: a turn, or the answer that a listed launcher gives to what it waits for.
fn next_out(
    alloc: Global,
    world: &mut World,
    number: u8,
    left: &mut Left,
) -> Result<Out, NoMemory> {
    let Some(request) = world.pending(number) else {
        return accepted(world.step(&Event::Turn(number)));
    };
    let other = answer_without(request);
    if let Some(answer) = left.next(alloc)? {
        match world.step(&Event::Answer(number, answer)) {
            Err(Refusal::WrongAnswer) => {}
            out => return accepted(out),
        }
    }
    accepted(world.step(&Event::Answer(number, other)))
}

// What a listed launcher answers to a request for which it has no answer of its kind.
fn answer_without(request: &Request) -> Answer {
    match request {
        Request::Start(_) => Answer::Other,
        Request::Read(_) => Answer::PipeFault,
        Request::Wait(_) => Answer::WaitFault,
    }
}

// What an event gave that can be refused only if an allocation fails.
fn accepted(out: Result<Out, Refusal>) -> Result<Out, NoMemory> {
    match out {
        Ok(out) => Ok(out),
        Err(_) => Err(NoMemory),
    }
}
