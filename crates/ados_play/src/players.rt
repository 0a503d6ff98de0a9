//! A world to which a list is played.

use crate::answers::{push_answer, push_new_fault, push_opening};
use crate::lines::{
    Line, answer_of, event_of, host_of, line_of, listed_text_of, opened_line_of, order_of,
};
use crate::systems::push_system;
use crate::texts::push_all;
use crate::views::push_view;
use ados_text::{NoMemory, Text};
use ados_world::{Dialect, Event, HostEntry, Out, Refusal, Run, World};
use std::alloc::Global;
use std::mem::replace;
use thiserror::Error;

/// How events are played.
#[derive(Clone, Copy)]
pub enum Way {
    /// One by one.
    Step,
    /// All at once.
    Run,
    /// One by one, each as a run of its own.
    Each,
}

/// Why a list is not played.
#[derive(Clone, Copy, Debug, Error)]
pub enum Fault {
    /// This line, counted from 1, is not a line of a list.
    #[error("line {0} is none of a list of events")]
    BadLine(usize),
    /// There was no memory.
    #[error("no free store")]
    NoMemory,
}

impl From<NoMemory> for Fault {
    fn from(_e: NoMemory) -> Fault {
        Fault::NoMemory
    }
}

/// A world, the events that are still to be played to it, each with its line, the dialect and the hosts of the next world, and
/// the texts of the answers for the next line that is run by `system`.
#[derive(Drop)]
struct Player<'a> {
    alloc: Global,
    way: Way,
    dialect: Dialect,
    hosts: Vec<HostEntry>,
    world: World,
    lines: Vec<&'a str>,
    events: Vec<Event>,
    listed: Vec<&'a str>,
}

/// What a list prints.
///
/// `BadLine` for the first line that is not a line of a list.
pub fn played(alloc: Global, way: Way, list: &str) -> Result<Vec<u8>, Fault> {
    let mut player = Player {
        alloc,
        way,
        dialect: Dialect::Core,
        hosts: Vec::new(alloc),
        world: fresh(alloc)?,
        lines: Vec::new(alloc),
        events: Vec::new(alloc),
        listed: Vec::new(alloc),
    };
    let mut text = Vec::new(alloc);
    player.take_all(list, &mut text)?;
    Ok(text)
}

impl<'a> Player<'a> {
    // Takes the lines of a list.
    fn take_all(&mut self, list: &'a str, text: &mut Vec<u8>) -> Result<(), Fault> {
        for (place, line) in list.lines().enumerate() {
            if !self.take(line, text)? {
                return Err(Fault::BadLine(place.saturating_add(1)));
            }
        }
        self.play(text)?;
        Ok(())
    }

    // Takes the next line; `false` if it is not a line of a list.
    fn take(&mut self, line: &'a str, text: &mut Vec<u8>) -> Result<bool, NoMemory> {
        match line_of(line) {
            Line::Nothing => {}
            Line::Event => return self.take_event(line),
            Line::Host => {
                self.play(text)?;
                push_line(text, line)?;
                self.hosts.push(host_of(self.alloc, line)?)?;
            }
            Line::Full => {
                self.play(text)?;
                push_line(text, line)?;
                self.dialect = Dialect::Full;
            }
            Line::Fresh => {
                self.play(text)?;
                push_line(text, line)?;
                self.begin(text)?;
            }
            Line::Open => {
                self.play(text)?;
                push_line(text, line)?;
                let line = opened_line_of(self.alloc, line)?;
                push_opening(text, opened(&mut self.world, &line))?;
            }
            Line::Listed => {
                self.play(text)?;
                push_line(text, line)?;
                return self.take_listed(line);
            }
            Line::System => {
                self.play(text)?;
                push_line(text, line)?;
                return self.run_alone(line, text);
            }
            Line::Show(view) => {
                self.play(text)?;
                push_line(text, line)?;
                push_view(text, &self.world, view)?;
            }
        }
        Ok(true)
    }

    // Goes on with a fresh world that has the dialect and the hosts named for it; if it is refused, with the world so far.
    fn begin(&mut self, text: &mut Vec<u8>) -> Result<(), NoMemory> {
        match World::with_dialect(self.alloc, &self.hosts, self.dialect) {
            Ok(world) => self.world = world,
            Err(fault) => push_new_fault(text, fault)?,
        }
        self.dialect = Dialect::Core;
        self.hosts.clear();
        Ok(())
    }

    // Keeps the text of an answer, for the next line that is run by `system`.
    fn take_listed(&mut self, line: &'a str) -> Result<bool, NoMemory> {
        let listed = listed_text_of(line);
        if answer_of(self.alloc, listed)?.is_none() {
            return Ok(false);
        }
        self.listed.push(listed)?;
        Ok(true)
    }

    // Runs a line by `system`.
    fn run_alone(&mut self, line: &'a str, text: &mut Vec<u8>) -> Result<bool, NoMemory> {
        let Some(order) = order_of(self.alloc, line)? else {
            return Ok(false);
        };
        push_system(text, self.alloc, &mut self.world, &order, &self.listed)?;
        self.listed.clear();
        Ok(true)
    }

    // Keeps the event of a line, to be played.
    fn take_event(&mut self, line: &'a str) -> Result<bool, NoMemory> {
        match event_of(self.alloc, line)? {
            None => Ok(false),
            Some(event) => {
                self.events.push(event)?;
                self.lines.push(line)?;
                Ok(true)
            }
        }
    }

    // Plays the events that are still to be played.
    fn play(&mut self, text: &mut Vec<u8>) -> Result<(), NoMemory> {
        if self.events.is_empty() {
            return Ok(());
        }
        let answers = self.answers()?;
        for (line, answer) in self.lines.iter().zip(&answers) {
            push_line(text, line)?;
            push_answer(text, answer)?;
        }
        self.lines.clear();
        self.events.clear();
        Ok(())
    }

    // What the world answers to the events.
    fn answers(&mut self) -> Result<Vec<Result<Out, Refusal>>, NoMemory> {
        match self.way {
            Way::Step => stepped(self.alloc, &mut self.world, &self.events),
            Way::Run => ran(self.alloc, &mut self.world, &self.events),
            Way::Each => ran_each(self.alloc, &mut self.world, &self.events),
        }
    }
}

// Adds a line of a list.
fn push_line(text: &mut Vec<u8>, line: &str) -> Result<(), NoMemory> {
    push_all(text, &[b"> ", line.as_bytes(), b"\n"])
}

// A world in which nothing happened, without hosts.
fn fresh(alloc: Global) -> Result<World, NoMemory> {
    match World::new(alloc, &[]) {
        Ok(world) => Ok(world),
        Err(_) => Err(NoMemory),
    }
}

// What the world answers to the events, one by one.
fn stepped(
    alloc: Global,
    world: &mut World,
    events: &[Event],
) -> Result<Vec<Result<Out, Refusal>>, NoMemory> {
    let mut answers = Vec::new(alloc);
    for event in events {
        answers.push(step(world, event))?;
    }
    Ok(answers)
}

// What the world answers to an event; one for which an allocation failed is given once more.
fn step(world: &mut World, event: &Event) -> Result<Out, Refusal> {
    match world.step(event) {
        Err(Refusal::NoMemory) => world.step(event),
        answer => answer,
    }
}

// The number of the shell that the world opens for a line; if an allocation failed it is asked once more.
fn opened(world: &mut World, line: &Text) -> Result<Option<u8>, Refusal> {
    match world.open_shell(line) {
        Err(Refusal::NoMemory) => world.open_shell(line),
        opening => opening,
    }
}

// What the world answers to the events as one run.
fn ran(
    alloc: Global,
    world: &mut World,
    events: &[Event],
) -> Result<Vec<Result<Out, Refusal>>, NoMemory> {
    match replace(world, fresh(alloc)?).run(events) {
        Ok(run) => {
            *world = run.world;
            Ok(run.outs.into_vec())
        }
        Err(_) => Err(NoMemory),
    }
}

// What the world answers to the events, each as a run of its own.
fn ran_each(
    alloc: Global,
    world: &mut World,
    events: &[Event],
) -> Result<Vec<Result<Out, Refusal>>, NoMemory> {
    let mut answers = Vec::with_capacity(alloc, events.len())?;
    let mut now = replace(world, fresh(alloc)?);
    for event in events.chunks(1) {
        let Ok(run) = ran_again(now, event) else {
            return Err(NoMemory);
        };
        now = run.world;
        answers.append(&mut run.outs.into_vec())?;
    }
    *world = now;
    Ok(answers)
}

// The run of these events; if there was no memory for its list, or for an event, it is tried once more.
fn ran_again(world: World, events: &[Event]) -> Result<Run, World> {
    match world.run(events) {
        Err(world) => world.run(events),
        Ok(run) if wanted_memory(&run) => run.world.run(events),
        Ok(run) => Ok(run),
    }
}

// An event was refused because an allocation failed.
fn wanted_memory(run: &Run) -> bool {
    run.outs
        .as_slice()
        .iter()
        .any(|answer| matches!(answer, Err(Refusal::NoMemory)))
}
