//! The lines of a list.

use ados_text::{NoMemory, Octets, Text};
use ados_world::{Answer, BreakKind, Event, HostEntry};
use std::alloc::Global;

/// What a line of a list asks for.
#[derive(Clone, Copy)]
pub enum Line {
    /// Nothing: it is blank or a comment.
    Nothing,
    /// A command of the next fresh world that is a program of the host.
    Host,
    /// The next fresh world is one of Full.
    Full,
    /// A fresh world.
    Fresh,
    /// A shell that is opened for a line of its own.
    Open,
    /// An answer of the launcher of the next line that is run by `system`.
    Listed,
    /// A line that is run by `system`.
    System,
    /// What the world shows.
    Show(View),
    /// An event, if it is well formed.
    Event,
}

/// What a world shows.
#[derive(Clone, Copy)]
pub enum View {
    Shells,
    /// A shell's current directory, its fail limit, and what is set in it.
    Shell(u8),
    Codes(u8),
    Ready(u8),
    Pending(u8),
    WantsLine,
    Files,
    Assigns,
    Residents,
}

/// A line that is to be run by `system`, and how many events it has.
#[derive(Drop)]
pub struct Order {
    pub events: u64,
    pub line: Text,
}

/// What a line asks for.
pub fn line_of(text: &str) -> Line {
    if text.is_empty() || text.starts_with('#') {
        return Line::Nothing;
    }
    if text == "fresh" {
        return Line::Fresh;
    }
    if text == "dialect full" {
        return Line::Full;
    }
    if text.starts_with("host ") {
        return Line::Host;
    }
    if text.starts_with("open ") {
        return Line::Open;
    }
    if text.starts_with("listed ") {
        return Line::Listed;
    }
    if text.starts_with("system ") {
        return Line::System;
    }
    match view_of(text) {
        Some(view) => Line::Show(view),
        None => Line::Event,
    }
}

/// The command of the host that a line names, and its program, which is all that follows the name.
pub fn host_of(alloc: Global, text: &str) -> Result<HostEntry, NoMemory> {
    let (_, rest) = parted(text);
    let (name, program) = parted(rest);
    Ok(HostEntry {
        name: Text::from_bytes(alloc, name.as_bytes())?,
        program: Text::from_bytes(alloc, program.as_bytes())?,
    })
}

/// The line for which a line opens a shell: all that follows the blank.
pub fn opened_line_of(alloc: Global, text: &str) -> Result<Text, NoMemory> {
    let (_, line) = parted(text);
    Text::from_bytes(alloc, line.as_bytes())
}

/// The text of an answer that is listed: all that follows the blank.
pub fn listed_text_of(text: &str) -> &str {
    let (_, answer) = parted(text);
    answer
}

/// The line that is to be run, which is all that follows the number of events and the blank; `None` if there is
/// no such number.
pub fn order_of(alloc: Global, text: &str) -> Result<Option<Order>, NoMemory> {
    let (_, rest) = parted(text);
    let (events, line) = parted(rest);
    let Ok(events) = events.parse::<u64>() else {
        return Ok(None);
    };
    let line = Text::from_bytes(alloc, line.as_bytes())?;
    Ok(Some(Order { events, line }))
}

// The view that a line asks for.
fn view_of(text: &str) -> Option<View> {
    let (word, rest) = parted(text);
    match word {
        "shells" => Some(View::Shells),
        "shell" => number(rest).map(View::Shell),
        "codes" => number(rest).map(View::Codes),
        "ready" => number(rest).map(View::Ready),
        "pending" => number(rest).map(View::Pending),
        "wants" => Some(View::WantsLine),
        "files" => Some(View::Files),
        "assigns" => Some(View::Assigns),
        "residents" => Some(View::Residents),
        _ => None,
    }
}

/// The event that a line gives; `None` if it gives none.
pub fn event_of(alloc: Global, text: &str) -> Result<Option<Event>, NoMemory> {
    let (word, rest) = parted(text);
    match word {
        "type" => Ok(Some(Event::Typed(Text::from_bytes(alloc, rest.as_bytes())?))),
        "end" => Ok(Some(Event::EndOfInput)),
        "turn" => Ok(number(rest).map(Event::Turn)),
        "answer" => answer_event_of(alloc, rest),
        "break" => Ok(break_of(rest)),
        _ => Ok(None),
    }
}

// The event of a break: the number of a shell, and how it is broken.
fn break_of(text: &str) -> Option<Event> {
    let (shell, kind) = parted(text);
    number(shell)
        .zip(kind_of(kind))
        .map(|(shell, kind)| Event::Break(shell, kind))
}

fn kind_of(text: &str) -> Option<BreakKind> {
    match text {
        "C" => Some(BreakKind::C),
        "D" => Some(BreakKind::D),
        _ => None,
    }
}

// The event of an answer: the number of a shell, and the answer.
fn answer_event_of(alloc: Global, text: &str) -> Result<Option<Event>, NoMemory> {
    let (shell, answer) = parted(text);
    let answer = answer_of(alloc, answer)?;
    Ok(
        number(shell)
            .zip(answer)
            .map(|(shell, answer)| Event::Answer(shell, answer)),
    )
}

/// The answer that a text gives; `None` if it gives none.
pub fn answer_of(alloc: Global, text: &str) -> Result<Option<Answer>, NoMemory> {
    let (kind, rest) = parted(text);
    if kind == "bytes" {
        return bytes_of(alloc, rest);
    }
    Ok(plain_answer_of(kind, rest))
}

// The answer of bytes in hexadecimal digits.
fn bytes_of(alloc: Global, digits: &str) -> Result<Option<Answer>, NoMemory> {
    match hex::decode(alloc, digits) {
        Ok(bytes) => Ok(Some(Answer::Bytes(Octets::from_vec(bytes)))),
        Err(hex::FromHexError::OutOfMemory) => Err(NoMemory),
        Err(_) => Ok(None),
    }
}

// The answer of a kind, which has a status if it is `exit`.
fn plain_answer_of(kind: &str, status: &str) -> Option<Answer> {
    match kind {
        "started" => Some(Answer::Started),
        "notfound" => Some(Answer::NotFound),
        "denied" => Some(Answer::Denied),
        "memory" => Some(Answer::Memory),
        "other" => Some(Answer::Other),
        "end" => Some(Answer::End),
        "pipefault" => Some(Answer::PipeFault),
        "exit" => number(status).map(Answer::Exit),
        "signal" => Some(Answer::Signal),
        "waitfault" => Some(Answer::WaitFault),
        _ => None,
    }
}

// The first word of a text, and what follows the blank after it.
fn parted(text: &str) -> (&str, &str) {
    text.split_once(' ').unwrap_or((text, ""))
}

fn number(text: &str) -> Option<u8> {
    text.parse::<u8>().ok()
}
