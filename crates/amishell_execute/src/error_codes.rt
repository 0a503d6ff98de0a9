//! `--error`: the code that a command of the host has at least where it fails.
ghost use Rattle.std.specs.Prelude.{◌≡◌, option_map};
ghost use Rattle.amishell_execute.specs.ErrorCodes.{last_code, least_code, raised};

use crate::faults::{Fault, bad_words};
use ados_machine::Answer;
use ados_text::{Text, same_name};
use ados_world::HostEntry;
use std::alloc::Global;

/// A program, and the code that it has at least where it fails.
#[derive(Drop)]
pub struct ErrorCode {
    program: Text,
    least: u8,
}

/// The codes that words `NAME=CODE` give to programs of these commands.
pub fn error_codes(
    alloc: Global,
    all: &[&str],
    hosts: &[HostEntry],
) -> Result<Vec<ErrorCode>, Fault> {
    let mut codes = Vec::new(alloc);
    for words in all {
        codes.push(error_code(alloc, words, hosts)?)?;
    }
    Ok(codes)
}

// The code that words give to a program of one of these commands.
fn error_code(alloc: Global, words: &str, hosts: &[HostEntry]) -> Result<ErrorCode, Fault> {
    let Some((name, code)) = words.rsplit_once('=') else {
        return Err(bad_words(alloc, "--error", words, "NAME=CODE"));
    };
    let least = match code {
        "5" => 5,
        "10" => 10,
        "20" => 20,
        _ => return Err(bad_words(alloc, "--error", words, "CODE is 5, 10 or 20")),
    };
    let host = hosts
        .iter()
        .find(|host| same_name(host.name.as_bytes(), name.as_bytes()));
    match host {
        Some(host) => Ok(ErrorCode {
            program: host.program.copy()?,
            least,
        }),
        None => Err(bad_words(alloc, "--error", words, "no --host has this name")),
    }
}

/// The code that a program has at least where it fails; 0 if none is given.
pub fn least_code(codes: &[ErrorCode], program: &Text) -> u8
    ensures { result ≡ least_code codes.now program.now }
{
    match last_code(codes, program) {
        Some(code) => code.least,
        None => 0,
    }
}

// What was given last for a program.
fn last_code<'a>(codes: &'a [ErrorCode], program: &Text) -> Option<&'a ErrorCode>
    ensures { option_map (λ code. code.now) result ≡ last_code codes.now program.now }
{
    codes
        .iter()
        .rev()
        .find(|code| code.program.as_bytes() == program.as_bytes())
}

/// The end of a program that has at least this code where it fails.
pub fn raised(answer: Answer, least: u8) -> Answer
    ensures { result ≡ raised least answer }
{
    match answer {
        Answer::Exit(status) if status != 0 && status < least => Answer::Exit(least),
        other => other,
    }
}
