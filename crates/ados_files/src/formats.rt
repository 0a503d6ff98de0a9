// LFORMAT of List: a text in which parts of an object are put.
ghost use Rattle.std.specs.{Prelude.{◌≡◌, ◌≤◌, ◌++◌, false, length, decimal, IfOk, OnOk}, List.{suffix_len}};
ghost use Rattle.ados_text.specs.Text.{fold_of};
ghost use Rattle.ados_ram.specs.Entry.{size_of};
ghost use Rattle.ados_files.specs.Formats.{part_named, parts_behind_sign, parts_from, slot_count, slot_part, without_slots, format_of, is_no_dot, behind_dot, stem_of, extension_of, part_text, format_line};

use ados_ram::Entry;
use ados_text::{LINE_BYTES, NoMemory, Text, at_most, fold};
use std::alloc::Global;
use std::marker::Model;

/// What stands at a place of an LFORMAT.
#[derive(Clone, Copy)]
pub enum Part {
    /// This byte.
    Byte(u8),
    /// The name of the object.
    Name,
    /// The path before its name.
    Path,
    /// The path and the name.
    FullName,
    /// The name before its last dot.
    Stem,
    /// What follows the last dot of the name.
    Extension,
    /// The size in bytes.
    Size,
    /// The bits.
    Bits,
    /// The comment.
    Comment,
    /// What is not kept of objects, as a date: nothing.
    NotKept,
    /// `%S`: the path or the name, depending on how many there are.
    Slot,
}

/// An LFORMAT: its parts, none of which is a `%S` any more.
#[derive(Drop)]
pub struct Format {
    parts: Vec<Part>,
}

impl Model for Format {
    ghost use Rattle.std.specs.Prelude.{List};
    ghost use Rattle.ados_files.specs.declared.formats.Part.{Part};

    ghost Value = { List Part };

    ghost view = { λ f. f.parts.items };
}

impl Format {
    /// The format of a text.
    pub fn of(alloc: Global, text: &Text) -> Result<Format, NoMemory>
        ensures { IfOk result (λ format. format ≡ format_of text.now) }
    {
        let parts = parts_of(alloc, text.as_bytes())?;
        Ok(Format {
            parts: without_slots(alloc, &parts)?,
        })
    }

    /// Appends the line of an object, with the path before its name.
    pub fn push_line(
        &self,
        output: &mut Vec<u8>,
        path: &Text,
        entry: &Entry,
    ) -> Result<(), NoMemory>
        ensures { OnOk result (output.new.items ≡ output.old.items ++ format_line self.now path.now entry.now) }
    {
        let mut line = Vec::new(*output.allocator());
        let parts = self.parts.as_slice();
        for part in parts {
            push_part(&mut line, *part, path, entry)?;
        }
        output.extend_from_slice(at_most(&line, LINE_BYTES))?;
        output.push(b'\n')?;
        Ok(())
    }
}

// The parts of a text.
fn parts_of(alloc: Global, text: &[u8]) -> Result<Vec<Part>, NoMemory>
    ensures { IfOk result (λ parts. parts.items ≡ parts_from false text.now) }
{
    let mut parts = Vec::new(alloc);
    let mut signed = false;
    for byte in text {
        if signed {
            push_behind_sign(&mut parts, *byte)?;
            signed = false;
        } else if *byte == b'%' {
            signed = true;
        } else {
            parts.push(Part::Byte(*byte))?;
        }
    }
    if signed {
        parts.push(Part::Byte(b'%'))?;
    }
    Ok(parts)
}

// Appends what a byte stands for behind a percent sign.
fn push_behind_sign(parts: &mut Vec<Part>, byte: u8) -> Result<(), NoMemory>
    ensures { OnOk result (parts.new.items ≡ parts.old.items ++ parts_behind_sign byte (part_named (fold_of byte))) }
{
    match part_named(fold(byte)) {
        Some(part) => parts.push(part)?,
        None => {
            parts.push(Part::Byte(b'%'))?;
            parts.push(Part::Byte(byte))?;
        }
    }
    Ok(())
}

// What a letter in lower case stands for behind a percent sign.
fn part_named(letter: u8) -> Option<Part>
    ensures { result ≡ part_named letter }
{
    match letter {
        b'n' => Some(Part::Name),
        b'p' => Some(Part::Path),
        b'f' => Some(Part::FullName),
        b'm' => Some(Part::Stem),
        b'e' => Some(Part::Extension),
        b'l' => Some(Part::Size),
        b'a' => Some(Part::Bits),
        b'c' => Some(Part::Comment),
        b's' => Some(Part::Slot),
        b'd' | b't' | b'b' | b'k' => Some(Part::NotKept),
        b'%' => Some(Part::Byte(b'%')),
        _ => None,
    }
}

fn slot_count(parts: &[Part]) -> usize
    ensures value { result ≡ slot_count parts.now }
    ensures within { result ≤ length parts.now }
{
    match parts.split_first() {
        None => 0,
        Some((Part::Slot, rest)) => 1 + slot_count(rest),
        Some((_, rest)) => slot_count(rest),
    }
}

// The parts, with the path or the name in place of each `%S`.
fn without_slots(alloc: Global, parts: &[Part]) -> Result<Vec<Part>, NoMemory>
    ensures { IfOk result (λ out. out.items ≡ without_slots (slot_count parts.now) 0 parts.now) }
{
    let count = slot_count(parts);
    let mut number = 0;
    let mut out = Vec::new(alloc);
    for part in parts {
        match *part {
            Part::Slot => {
                out.push(slot_part(count, number))?;
                number += 1;
            }
            other => out.push(other)?,
        }
    }
    Ok(out)
}

// What the `%S` with this number is of so many.
fn slot_part(count: usize, number: usize) -> Part
    ensures { result ≡ slot_part count number }
{
    if (count >= 2 && number == 0) || (count >= 4 && number == 2) {
        Part::Path
    } else {
        Part::Name
    }
}

fn push_part(output: &mut Vec<u8>, part: Part, path: &Text, entry: &Entry) -> Result<(), NoMemory>
    ensures { OnOk result (output.new.items ≡ output.old.items ++ part_text path.now entry.now part) }
{
    let name = entry.name.text().as_bytes();
    match part {
        Part::Byte(byte) => output.push(byte)?,
        Part::Name | Part::Slot => output.extend_from_slice(name)?,
        Part::Path => output.extend_from_slice(path.as_bytes())?,
        Part::FullName => {
            output.extend_from_slice(path.as_bytes())?;
            output.extend_from_slice(name)?;
        }
        Part::Stem => output.extend_from_slice(stem_of(name))?,
        Part::Extension => output.extend_from_slice(extension_of(name))?,
        Part::Size => push_size(output, entry)?,
        Part::Bits => output.extend_from_slice(&entry.bits.letters())?,
        Part::Comment => output.extend_from_slice(entry.comment.as_bytes())?,
        Part::NotKept => {}
    }
    Ok(())
}

fn push_size(output: &mut Vec<u8>, entry: &Entry) -> Result<(), NoMemory>
    ensures { OnOk result (output.new.items ≡ output.old.items ++ decimal (size_of entry.now)) }
{
    let size = Text::of_number(*output.allocator(), entry.len())?;
    output.extend_from_slice(size.as_bytes())?;
    Ok(())
}

// Where a name goes on behind its last dot; 0 without a dot.
fn behind_dot(name: &[u8]) -> usize
    ensures value { result ≡ behind_dot name.now }
    ensures within { result ≤ length name.now }
{
    name.len() - tail_len(name)
}

// How many bytes a name has behind its last dot.
fn tail_len(name: &[u8]) -> usize
    ensures value { result ≡ suffix_len is_no_dot name.now }
    ensures within { result ≤ length name.now }
{
    name.iter().rev().take_while(|byte| **byte != b'.').count()
}

fn stem_of(name: &[u8]) -> &[u8]
    ensures { result.now ≡ stem_of name.now }
{
    let end = behind_dot(name);
    if end <= 1 {
        return name;
    }
    &name[..end - 1]
}

fn extension_of(name: &[u8]) -> &[u8]
    ensures { result.now ≡ extension_of name.now }
{
    let end = behind_dot(name);
    if end <= 1 {
        return &[];
    }
    &name[end..]
}
