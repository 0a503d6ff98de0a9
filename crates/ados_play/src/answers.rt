//! What an event gave, as text.

use crate::texts::{push_all, push_count, push_hex, push_lines};
use ados_text::{NoMemory, push_number};
use ados_world::{Answer, EndReport, Job, NewFault, Out, Refusal, Request};

/// Adds what the world answered to an event.
pub fn push_answer(text: &mut Vec<u8>, answer: &Result<Out, Refusal>) -> Result<(), NoMemory> {
    match answer {
        Ok(out) => push_out(text, out),
        Err(refusal) => push_refusal(text, *refusal),
    }
}

/// Adds the number of the shell that the world opened, or why it opened none.
pub fn push_opening(
    text: &mut Vec<u8>,
    opening: Result<Option<u8>, Refusal>,
) -> Result<(), NoMemory> {
    match opening {
        Ok(None) => push_all(text, &[b"opened: none\n"]),
        Ok(Some(number)) => {
            push_numbered(text, b"opened: ", number)?;
            push_all(text, &[b"\n"])
        }
        Err(refusal) => push_refusal(text, refusal),
    }
}

fn push_refusal(text: &mut Vec<u8>, refusal: Refusal) -> Result<(), NoMemory> {
    push_all(text, &[b"refused: ", name_of(refusal).as_bytes(), b"\n"])
}

/// The name of a refusal.
pub fn name_of(refusal: Refusal) -> &'static str {
    match refusal {
        Refusal::Over => "Over",
        Refusal::NoSuchShell => "NoSuchShell",
        Refusal::NotReady => "NotReady",
        Refusal::WrongAnswer => "WrongAnswer",
        Refusal::QueueFull => "QueueFull",
        Refusal::LineTooLong => "LineTooLong",
        Refusal::NoMemory => "NoMemory",
    }
}

/// Adds why a world with these hosts is not made.
pub fn push_new_fault(text: &mut Vec<u8>, fault: NewFault) -> Result<(), NoMemory> {
    match fault {
        NewFault::TooMany => push_all(text, &[b"refused: TooMany\n"]),
        NewFault::BadName(host) => push_host_fault(text, b"BadName ", host),
        NewFault::Double(host) => push_host_fault(text, b"Double ", host),
        NewFault::NoMemory => Err(NoMemory),
    }
}

// Adds the fault of the host with this number.
fn push_host_fault(text: &mut Vec<u8>, fault: &[u8], host: usize) -> Result<(), NoMemory> {
    push_all(text, &[b"refused: ", fault])?;
    push_count(text, host)?;
    text.push(b'\n')?;
    Ok(())
}

fn push_out(text: &mut Vec<u8>, out: &Out) -> Result<(), NoMemory> {
    push_lines(text, b"", out.bytes.as_bytes())?;
    if let Some(request) = &out.request {
        push_request(text, b"asks: ", request)?;
    }
    for report in out.reports.as_slice() {
        push_report(text, report)?;
    }
    Ok(())
}

/// Adds a line of what a launcher is asked for, after a word.
pub fn push_request(text: &mut Vec<u8>, word: &[u8], request: &Request) -> Result<(), NoMemory> {
    text.extend_from_slice(word)?;
    match request {
        Request::Start(job) => push_job(text, job)?,
        Request::Read(shell) => push_numbered(text, b"read ", *shell)?,
        Request::Wait(shell) => push_numbered(text, b"wait ", *shell)?,
    }
    text.push(b'\n')?;
    Ok(())
}

fn push_job(text: &mut Vec<u8>, job: &Job) -> Result<(), NoMemory> {
    push_numbered(text, b"start ", job.shell)?;
    push_all(text, &[b" \"", job.program.as_bytes(), b"\""])?;
    for arg in job.args.as_slice() {
        push_all(text, &[b" \"", arg.as_bytes(), b"\""])?;
    }
    Ok(())
}

/// Adds a small number after a word.
pub fn push_numbered(text: &mut Vec<u8>, word: &[u8], number: u8) -> Result<(), NoMemory> {
    text.extend_from_slice(word)?;
    push_number(text, i32::from(number))
}

/// Adds an answer of a launcher, in the words of a list.
pub fn push_words(text: &mut Vec<u8>, answer: &Answer) -> Result<(), NoMemory> {
    match answer {
        Answer::Started => push_all(text, &[b"started"]),
        Answer::NotFound => push_all(text, &[b"notfound"]),
        Answer::Denied => push_all(text, &[b"denied"]),
        Answer::Memory => push_all(text, &[b"memory"]),
        Answer::Other => push_all(text, &[b"other"]),
        Answer::Bytes(bytes) => push_hex(text, b"bytes ", bytes.as_bytes()),
        Answer::End => push_all(text, &[b"end"]),
        Answer::PipeFault => push_all(text, &[b"pipefault"]),
        Answer::Exit(status) => push_numbered(text, b"exit ", *status),
        Answer::Signal => push_all(text, &[b"signal"]),
        Answer::WaitFault => push_all(text, &[b"waitfault"]),
    }
}

fn push_report(text: &mut Vec<u8>, report: &EndReport) -> Result<(), NoMemory> {
    push_all(text, &[b"ended: ", report.name.as_bytes()])?;
    push_numbered(text, b" of shell ", report.shell)?;
    text.extend_from_slice(b", line ")?;
    push_count(text, report.last_line)?;
    text.extend_from_slice(b", code ")?;
    push_number(text, report.code.0)?;
    let early: &[u8] = if report.early { b", early" } else { b"" };
    let broken: &[u8] = if report.broken { b", broken" } else { b"" };
    push_all(text, &[early, broken, b"\n"])
}
