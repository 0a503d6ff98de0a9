// What Search finds in files: the lines, or the names, that have a hit.
ghost use Rattle.std.specs.Prelude.{◌≡◌, ◌++◌, ◌∷◌, [], IfOk, OnOk};
ghost use Rattle.std.specs.FinMap as finite;
ghost use Rattle.ados_ram.specs.{Place.{key_of}, Written.{full_path}};
ghost use Rattle.ados_files.specs.SortOrder.{plain_lines};

use crate::dumps::push_line_number;
use crate::parts::stands_in;
use crate::sort_order::line_len;
use ados_find::{Shared, ShellView};
use ados_objects::{put_between, say_path};
use ados_pattern::Pattern;
use ados_ram::{Place, Ram};
use ados_text::{LINE_BYTES, NoMemory, Result2, Text, at_most, fault_text, without};
use std::alloc::Global;

/// What Search looks for.
#[derive(Drop)]
pub enum Wanted {
    /// A text, wherever it stands.
    Inside(Text),
    /// A pattern of whole lines.
    Matching(Pattern),
}

/// How Search looks, and what it prints.
#[derive(Drop)]
pub struct Searching {
    pub wanted: Wanted,
    /// Lines have their numbers: there is no NONUM.
    pub numbered: bool,
    /// QUIET: no file is announced.
    pub quiet: bool,
    /// FILE: names are looked at, and no file is read.
    pub names: bool,
}

/// What is printed so far, and whether there was a hit.
#[derive(Drop)]
pub struct Hits {
    pub output: Vec<u8>,
    pub has_hit: bool,
}

ghost use Rattle.ados_files.specs.{declared.hits.Wanted.TheVariants.{Matching}, Hits.{hit_lines, hit_text, hits_of, is_hit, search_file, search_files, search_lines, search_name, unread_line, with_hit, with_hits}};

/// Looks in one file after the other.
pub fn search_files(
    searching: &Searching,
    shared: &Shared,
    view: &ShellView,
    hits: &mut Hits,
    places: &[Place],
) -> Result<(), NoMemory>
    ensures { OnOk result (hits_of hits.new ≡ search_files searching.now view.now.busy shared.now.files (hits_of hits.old) places.now) }
{
    for place in places {
        search_file(searching, shared, view, hits, place)?;
    }
    Ok(())
}

fn search_file(
    searching: &Searching,
    shared: &Shared,
    view: &ShellView,
    hits: &mut Hits,
    place: &Place,
) -> Result<(), NoMemory>
    ensures { OnOk result (hits_of hits.new ≡ search_file searching.now view.now.busy shared.now.files (hits_of hits.old) place.now) }
{
    if searching.names {
        return search_name(searching, &shared.ram, hits, place);
    }
    match shared.ram.read(&view.busy, place) {
        Err(fault) => say_unread(hits, &shared.ram, place, fault),
        Ok(bytes) => {
            say_path(
                searching.quiet,
                &mut hits.output,
                &shared.ram,
                place,
                b"..\n",
            )?;
            let alloc = *hits.output.allocator();
            let bytes = bytes.to_vec(alloc)?;
            search_lines(searching, hits, &bytes)
        }
    }
}

// FILE: the name of a file is looked at.
fn search_name(
    searching: &Searching,
    ram: &Ram,
    hits: &mut Hits,
    place: &Place,
) -> Result<(), NoMemory>
    ensures { OnOk result (hits_of hits.new ≡ search_name searching.now (full_path ram.now place.now) (hits_of hits.old) (finite.get ram.now (key_of place.now))) }
{
    let alloc = *hits.output.allocator();
    let Some(entry) = ram.look(place) else {
        return Ok(());
    };
    if !searching.wanted.is_in(alloc, entry.name.text().as_bytes())? {
        return Ok(());
    }
    hits.output
        .extend_from_slice(ram.full_path(place)?.as_bytes())?;
    hits.output.push(b'\n')?;
    hits.has_hit = true;
    Ok(())
}

// A file that cannot be read is reported.
fn say_unread(hits: &mut Hits, ram: &Ram, place: &Place, fault: Result2) -> Result<(), NoMemory>
    ensures { OnOk result (hits_of hits.new ≡ record (hits_of hits.old) { output = hits.old.output.items ++ unread_line (full_path ram.now place.now) fault }) }
{
    let path = ram.full_path(place)?;
    put_between(
        &mut hits.output,
        path.as_bytes(),
        b": ",
        fault_text(fault).as_bytes(),
    )?;
    hits.output.push(b'\n')?;
    Ok(())
}

// Looks in the lines of a file, one after the other.
#[tactic(auto, using(crate::proofs::HitLemmas::first_line_and_more))]
fn search_lines(searching: &Searching, hits: &mut Hits, bytes: &[u8]) -> Result<(), NoMemory>
    ensures { OnOk result (hits_of hits.new ≡ search_lines searching.now (hits_of hits.old) (plain_lines bytes.now)) }
{
    let mut rest = bytes;
    let mut number = 1;
    while !rest.is_empty() {
        let line = at_most(rest, line_len(rest));
        search_line(searching, hits, number, line)?;
        rest = without(rest, line_len(rest) + 1);
        number += 1;
    }
    Ok(())
}

// Looks in a line.
fn search_line(
    searching: &Searching,
    hits: &mut Hits,
    number: usize,
    line: &[u8],
) -> Result<(), NoMemory>
    ensures { OnOk result (hits_of hits.new ≡ with_hits searching.now.numbered (hits_of hits.old) (hit_lines searching.now.wanted ((number, line.now) ∷ []))) }
{
    let alloc = *hits.output.allocator();
    if !searching.wanted.is_in(alloc, line)? {
        return Ok(());
    }
    push_hit(hits, searching.numbered, number, line)
}

fn push_hit(hits: &mut Hits, numbered: bool, number: usize, line: &[u8]) -> Result<(), NoMemory>
    ensures { OnOk result (hits_of hits.new ≡ with_hit (hit_text numbered (number, line.now)) (hits_of hits.old)) }
{
    push_line_number(&mut hits.output, 6, numbered, number)?;
    hits.output.extend_from_slice(line)?;
    hits.output.push(b'\n')?;
    hits.has_hit = true;
    Ok(())
}

impl Wanted {
    // Whether a line is a hit.
    fn is_in(&self, alloc: Global, line: &[u8]) -> Result<bool, NoMemory>
        ensures { IfOk result (λ b. b ≡ is_hit self.now line.now) }
    {
        match self {
            Wanted::Inside(text) => Ok(stands_in(text.as_bytes(), line)),
            Wanted::Matching(pattern) => matches_line(alloc, pattern, line),
        }
    }
}

fn matches_line(alloc: Global, pattern: &Pattern, line: &[u8]) -> Result<bool, NoMemory>
    ensures { IfOk result (λ b. b ≡ is_hit (Matching pattern.now) line.now) }
{
    if line.len() > LINE_BYTES {
        return Ok(false);
    }
    pattern.matches(&Text::from_bytes(alloc, line)?)
}
