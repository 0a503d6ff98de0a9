//! Recordings of sessions.
ghost use Rattle.std.specs.Prelude.{◌≡◌, ◌&&◌, [], ◌∷◌, Some, true, IfOk, IfErr};
ghost use Rattle.ados_text.specs.{Lines.{lines_of}, Text.{IsText}};
ghost use Rattle.ados_session.specs.{Breaks.{are_rising}, Faults.{IsFault}, Hosts.{are_free}, Recordings.{IsRecordingFault, answer_line, are_records, break_line, break_line_in_form, dialect_of, recording_form, is_record, is_recording, is_session, joined_sessions, record_line, record_of, session_of_lines, session_in}};

use crate::answers::answer_of;
use crate::breaks::{add_break, break_of};
use crate::faults::FileFault;
use crate::hosts::add_host;
use crate::parts::parted;
use ados_machine::BreakAt;
use ados_text::{NoMemory, Text, lines_of};
use ados_world::{Answer, Dialect, HostEntry};
use std::alloc::Global;
use std::marker::Model;

/// The form of a recording, by its first line.
#[derive(Clone, Copy)]
pub enum Form {
    /// `amishell 1`: there are no breaks.
    First,
    /// `amishell 2`: there may be breaks.
    Second,
    /// `amishell 3`: as the second, in a world of Full.
    Third,
}

/// What a line of a recording says, after the first.
#[derive(Drop)]
pub enum RecordLine {
    /// A program of the host is a command.
    Host(HostEntry),
    /// A line is typed.
    Typed(Text),
    /// A launcher gives an answer.
    Answered(Answer),
    /// A shell is broken before an event.
    Broken(BreakAt),
    /// None of these.
    Bad,
}

/// A recorded session.
#[derive(Drop)]
pub struct Recording {
    /// The dialect of the world that it is played to.
    pub dialect: Dialect,
    /// The programs of the host that are commands.
    pub hosts: Vec<HostEntry>,
    /// The typed lines, each followed by a byte 10.
    pub typed: Vec<u8>,
    /// The answers of a launcher.
    pub answers: Vec<Answer>,
    /// The breaks, each before the event of its number.
    pub breaks: Vec<BreakAt>,
}

impl Model for Recording {
    ghost use Rattle.ados_session.specs.Recordings.{RecordedSession};

    ghost Value = { RecordedSession };

    ghost view = { λ r. record { dialect = r.dialect; hosts = r.hosts.items; typed = r.typed.items; answers = r.answers.items; breaks = r.breaks.items } };
}

/// The session that a file records. A world can be made with its hosts.
///
/// Its first line is `amishell 1`, `amishell 2` or, for a world of Full, `amishell 3`. Each other one is `host NAME`, a command
/// whose program is NAME; `line TEXT`, a typed line; or `answer ANSWER`, the next answer of a launcher: `started`, `notfound`,
/// `denied`, `memory`, `other`, `bytes HEX` of 1 to 4,096 bytes, `end`, `pipefault`, `exit N` with N from 0 to 255, `signal` or
/// `waitfault`. Except after `amishell 1` a line may also be `break N K C` or `break N K D`: shell K, from 1 to 20, is broken before
/// event N, from 1 to 1,000,000,000. A byte past ASCII is read as `?`.
///
/// `BadLine` names the first line that is none of these, or whose NAME is not a name, that of a command, or that of an earlier
/// host, or that is a 65th host, or whose N is less than that of the break before it. It names line 1 of an empty file.
pub fn read_recording(alloc: Global, bytes: &[u8]) -> Result<Recording, FileFault>
    ensures good { IfOk result (λ recording. is_recording (lines_of bytes.now) ≡ true) }
    ensures recording { IfOk result (λ recording. session_in (lines_of bytes.now) ≡ Some recording) }
    ensures free { IfOk result (λ recording. are_free recording.dialect recording.hosts ≡ true) }
    ensures rising { IfOk result (λ recording. are_rising recording.breaks ≡ true) }
    ensures fault { IfErr result (IsRecordingFault (lines_of bytes.now)) }
{
    let lines = lines_of(alloc, bytes)?;
    let [first, records @ ..] = lines.as_slice() else {
        return Err(FileFault::BadLine(1));
    };
    match recording_form(first) {
        Some(form) => read_records(alloc, form, records),
        None => Err(FileFault::BadLine(1)),
    }
}

// The form that a first line names.
fn recording_form(line: &Text) -> Option<Form>
    ensures { result ≡ recording_form line.now }
{
    if line.as_bytes() == b"amishell 1".as_slice() {
        Some(Form::First)
    } else if line.as_bytes() == b"amishell 2".as_slice() {
        Some(Form::Second)
    } else if line.as_bytes() == b"amishell 3".as_slice() {
        Some(Form::Third)
    } else {
        None
    }
}

// The dialect of the world that a recording of this form is played to.
fn dialect_of(form: Form) -> Dialect
    ensures { result ≡ dialect_of form }
{
    match form {
        Form::First | Form::Second => Dialect::Core,
        Form::Third => Dialect::Full,
    }
}

// The session of the lines after the first.
fn read_records(alloc: Global, form: Form, lines: &[Text]) -> Result<Recording, FileFault>
    ensures good { IfOk result (λ recording. are_records form lines.now ≡ true) }
    ensures recording { IfOk result (λ recording. recording ≡ session_of_lines form lines.now) }
    ensures free { IfOk result (λ recording. are_free recording.dialect recording.hosts ≡ true) }
    ensures rising { IfOk result (λ recording. are_rising recording.breaks ≡ true) }
    ensures fault { IfErr result (IsFault (are_records form) 1 lines.now) }
{
    let mut recording = Recording::new(alloc, dialect_of(form));
    for (place, line) in lines.iter().enumerate() {
        if !recording.take(alloc, form, line)? {
            return Err(FileFault::BadLine(place + 2));
        }
    }
    Ok(recording)
}

impl Recording {
    // A session in which nothing happens, in a world of this dialect.
    fn new(alloc: Global, dialect: Dialect) -> Recording
        ensures { result ≡ record { dialect = dialect; hosts = []; typed = []; answers = []; breaks = [] } }
    {
        Recording {
            dialect,
            hosts: Vec::new(alloc),
            typed: Vec::new(alloc),
            answers: Vec::new(alloc),
            breaks: Vec::new(alloc),
        }
    }

    // Adds what a line says; `false` if the line is invalid.
    fn take(&mut self, alloc: Global, form: Form, line: &Text) -> Result<bool, NoMemory>
        requires free { are_free self.old.dialect self.old.hosts ≡ true }
        requires rising { are_rising self.old.breaks ≡ true }
        ensures good { IfOk result (λ is_good. is_good ≡ (is_record (record_line form line.now) && is_session self.new)) }
        ensures recording { IfOk result (λ _. self.new ≡ joined_sessions self.old (session_of_lines form (line.now ∷ []))) }
    {
        match record_line(alloc, form, line)? {
            RecordLine::Host(host) => add_host(self.dialect, &mut self.hosts, host),
            RecordLine::Typed(text) => {
                self.typed.extend_from_slice(text.as_bytes())?;
                self.typed.push(b'\n')?;
                Ok(true)
            }
            RecordLine::Answered(answer) => {
                self.answers.push(answer)?;
                Ok(true)
            }
            RecordLine::Broken(at) => add_break(&mut self.breaks, at),
            RecordLine::Bad => Ok(false),
        }
    }
}

// What a line says.
fn record_line(alloc: Global, form: Form, line: &Text) -> Result<RecordLine, NoMemory>
    ensures { IfOk result (λ read. read ≡ record_line form line.now) }
{
    match parted(line.as_bytes()) {
        Some((word, text)) => record_of(alloc, form, word, text),
        None => Ok(RecordLine::Bad),
    }
}

// What the text after a word says.
fn record_of(alloc: Global, form: Form, word: &[u8], text: &[u8]) -> Result<RecordLine, NoMemory>
    requires { IsText text.now }
    ensures { IfOk result (λ read. read ≡ record_of form word.now text.now) }
{
    if word == b"host".as_slice() {
        Ok(RecordLine::Host(HostEntry {
            name: Text::of_ascii(alloc, text)?,
            program: Text::of_ascii(alloc, text)?,
        }))
    } else if word == b"line".as_slice() {
        Ok(RecordLine::Typed(Text::of_ascii(alloc, text)?))
    } else if word == b"answer".as_slice() {
        Ok(answered(answer_of(alloc, text)?))
    } else if word == b"break".as_slice() {
        Ok(broken_in(form, text))
    } else {
        Ok(RecordLine::Bad)
    }
}

// What a line that gives this answer says.
fn answered(answer: Option<Answer>) -> RecordLine
    ensures { result ≡ answer_line answer }
{
    match answer {
        Some(answer) => RecordLine::Answered(answer),
        None => RecordLine::Bad,
    }
}

// What a line says that writes a break in a recording of this form.
fn broken_in(form: Form, text: &[u8]) -> RecordLine
    requires { IsText text.now }
    ensures { result ≡ break_line_in_form form text.now }
{
    match form {
        Form::First => RecordLine::Bad,
        Form::Second | Form::Third => broken(break_of(text)),
    }
}

// What a line that writes this break says.
fn broken(at: Option<BreakAt>) -> RecordLine
    ensures { result ≡ break_line at }
{
    match at {
        Some(at) => RecordLine::Broken(at),
        None => RecordLine::Bad,
    }
}
