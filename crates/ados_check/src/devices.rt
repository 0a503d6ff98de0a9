//! The devices that a line of a script mentions, and those that it assigns or asks for.
ghost use Rattle.std.specs.{Prelude.{◌≡◌, ◌++◌, ◌≤◌, length, IfOk, OnOk}, List.{prefix_len}, Option.{option_map}};
ghost use Rattle.ados_check.specs.Devices.{assigned_in, device_at, device_in, devices_in, first_device, is_among, is_device_byte, mentioned_in, names_top, one_or_none, path_in, used_by};

use crate::arguments::{Word, argument_words, redirected_words};
use crate::command_words::unquoted;
use crate::commands::Meaning;
use crate::device_paths::{meaning_at, past_run, path_words};
use crate::left_out::command_text;
use ados_items::between;
use ados_machine::Builtin;
use ados_resident::{Dialect, EnvCommand, FlowCommand};
use ados_text::{NoMemory, Text, same_name};
use std::alloc::Global;

/// The devices that a line mentions: of the names after its redirections, of its command, and of the command's paths. Of a line with a
/// back-tick it is not known what its words are.
pub fn mentioned(alloc: Global, dialect: Dialect, line: &[u8]) -> Result<Vec<Text>, NoMemory>
    ensures { IfOk result (λ devices. devices.items ≡ mentioned_in dialect line.now) }
{
    let mut devices = Vec::new(alloc);
    if line.contains(&b'`') {
        return Ok(devices);
    }
    let names = redirected_words(alloc, line)?;
    push_devices(line, names.as_slice(), &mut devices)?;
    let words = argument_words(alloc, line)?;
    push_used(
        dialect,
        line,
        past_run(line, words.as_slice()),
        &mut devices,
    )?;
    Ok(devices)
}

// Adds the devices of a line's command and of its paths, given the words from that of the command on.
fn push_used(
    dialect: Dialect,
    line: &[u8],
    words: &[Word],
    devices: &mut Vec<Text>,
) -> Result<(), NoMemory>
    ensures { OnOk result (devices.new.items ≡ devices.old.items ++ used_by dialect line.now words.now) }
{
    let [command, rest @ ..] = words else {
        return Ok(());
    };
    let meaning = meaning_at(*devices.allocator(), dialect, line, *command)?;
    push_device(line, *command, devices)?;
    push_devices(line, path_words(meaning, line, rest), devices)
}

/// A line mentions a path that begins with a colon. On an Amiga it begins at the top of the current disk, here at that of `RAM:`.
pub fn names_top(alloc: Global, dialect: Dialect, line: &Text) -> Result<bool, NoMemory>
    ensures { IfOk result (λ is. is ≡ names_top dialect line.now) }
{
    let devices = mentioned(alloc, dialect, command_text(line.as_bytes()))?;
    Ok(devices.iter().any(|device| device.as_bytes().is_empty()))
}

/// Adds the devices that a line assigns, or asks for: the first one of Assign, and all of If.
pub fn push_assigned(dialect: Dialect, line: &[u8], devices: &mut Vec<Text>) -> Result<(), NoMemory>
    ensures { OnOk result (devices.new.items ≡ devices.old.items ++ assigned_in dialect line.now) }
{
    let words = argument_words(*devices.allocator(), line)?;
    let [command, rest @ ..] = past_run(line, words.as_slice()) else {
        return Ok(());
    };
    match meaning_at(*devices.allocator(), dialect, line, *command)? {
        Meaning::Builtin(Builtin::Env(EnvCommand::Assign)) => {
            let device = first_device(*devices.allocator(), line, rest)?;
            push_found(device, devices)
        }
        Meaning::Builtin(Builtin::Flow(FlowCommand::If)) => push_devices(line, rest, devices),
        _ => Ok(()),
    }
}

// Adds the devices with which words of a line begin.
fn push_devices(line: &[u8], words: &[Word], devices: &mut Vec<Text>) -> Result<(), NoMemory>
    ensures { OnOk result (devices.new.items ≡ devices.old.items ++ devices_in line.now words.now) }
{
    for word in words {
        push_device(line, *word, devices)?;
    }
    Ok(())
}

// Adds that of a word.
fn push_device(line: &[u8], word: Word, devices: &mut Vec<Text>) -> Result<(), NoMemory>
    ensures { OnOk result (devices.new.items ≡ devices.old.items ++ one_or_none (device_at line.now word)) }
{
    let device = device_at(*devices.allocator(), line, word)?;
    push_found(device, devices)
}

// Adds a device, if one was found.
fn push_found(device: Option<Text>, devices: &mut Vec<Text>) -> Result<(), NoMemory>
    ensures { OnOk result (devices.new.items ≡ devices.old.items ++ one_or_none device) }
{
    match device {
        Some(device) => {
            devices.push(device)?;
            Ok(())
        }
        None => Ok(()),
    }
}

// The first of the devices with which words of a line begin.
fn first_device(alloc: Global, line: &[u8], words: &[Word]) -> Result<Option<Text>, NoMemory>
    ensures { IfOk result (λ device. device ≡ first_device line.now words.now) }
{
    for word in words {
        if let Some(device) = device_at(alloc, line, *word)? {
            return Ok(Some(device));
        }
    }
    Ok(None)
}

/// A device is one of these, ignoring case.
pub fn is_among(devices: &[Text], device: &Text) -> bool
    ensures { result ≡ is_among devices.now device.now }
{
    devices
        .iter()
        .any(|one| same_name(one.as_bytes(), device.as_bytes()))
}

// The device with which a word of a line begins, as the path that it may be.
fn device_at(alloc: Global, line: &[u8], word: Word) -> Result<Option<Text>, NoMemory>
    ensures { IfOk result (λ device. device ≡ device_at line.now word) }
{
    match device_in(path_in(line, word)) {
        Some(name) => Ok(Some(Text::from_bytes(alloc, name)?)),
        None => Ok(None),
    }
}

// The path that a word may be: what follows `=` and the name of an option, or all of it.
fn path_in(line: &[u8], word: Word) -> &[u8]
    ensures { result.now ≡ path_in line.now word }
{
    match between(line, word.name_to, word.to) {
        [b'=', path @ ..] if word.name_to > word.from => path,
        _ => between(line, word.from, word.to),
    }
}

// The device with which a path begins, if it is a plain name, without the colon, which alone may stand there; there may be quotes around
// the path.
fn device_in(word: &[u8]) -> Option<&[u8]>
    ensures { option_map (λ name. name.now) result ≡ device_in word.now }
{
    let path = unquoted(word);
    let (name, rest) = path.split_at(device_len(path));
    match rest {
        [b':', ..] => Some(name),
        _ => None,
    }
}

// How many bytes a path has before the first one that is not of a plain name.
fn device_len(path: &[u8]) -> usize
    ensures value { result ≡ prefix_len is_device_byte path.now }
    ensures within { result ≤ length path.now }
{
    path.iter()
        .take_while(|byte| is_device_byte(**byte))
        .count()
}

// The byte may stand in the plain name of a device: a letter, a digit, or one of four signs.
fn is_device_byte(byte: u8) -> bool
    ensures { result ≡ is_device_byte byte }
{
    matches!(byte, b'A'..=b'Z' | b'a'..=b'z' | b'0'..=b'9' | b'_' | b'-' | b'.' | b' ')
}
