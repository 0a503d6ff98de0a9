//! Contents of files that are looked for in other files, each of which is read once for all of them.

use crate::around::Around;
use crate::contents::digest;
use crate::samples::{Counts, Filter, Sample, next_window, samples_of, window_at_end};
use ados_ram::{FileBytes, Place};
use ados_text::NoMemory;
use std::alloc::Global;
use std::collections::BTreeMap;

/// Shorter contents stand in others by chance, and are found nowhere.
pub const LEAST: usize = 16;

// After so many comparisons in vain contents are compared no longer: a file of zeros would be at each place of a larger one.
const COMPARISONS: usize = 64;

/// What is looked for, and where it was found.
#[derive(Drop)]
pub struct Sought {
    alloc: Global,
    parts: Vec<Part>,
    // The numbers of the parts, by the digests of their bytes.
    by_digest: BTreeMap<u64, Vec<usize>>,
    // The same by the samples by which they are looked for.
    by_window: BTreeMap<u64, Vec<usize>>,
    filter: Filter,
    // Some are looked for outside of the directory.
    seeks_outside: bool,
}

/// The contents of a file that are to be looked for.
#[derive(Drop)]
pub struct Content {
    pub bytes: FileBytes,
    /// They count also where they stand among others outside of the directory.
    pub is_foreign: bool,
    /// The Shell has them elsewhere as a whole, or has moved their file: then they need not be looked for outside of the directory.
    pub is_elsewhere: bool,
    /// Where the file is of which they are.
    pub place: Place,
    /// A file of the directory in which they stand, if one is known already: the one that takes the place of theirs.
    pub inside: Option<Around>,
}

// How contents are looked for in a file.
#[derive(Drop)]
struct Reading {
    // Contents are found only as a whole; else they are without an end of line at their end, or if there were too many comparisons.
    is_strict: bool,
    // What came of the comparisons, for each part.
    trials: Vec<Trial>,
}

// What came of the comparisons of a part.
#[derive(Clone, Copy, PartialEq, Eq)]
enum Trial {
    // There may be so many more.
    Open(usize),
    Found,
    GivenUp,
}

// Contents, and where they were found.
#[derive(Drop)]
struct Part {
    content: Content,
    // How many bytes they have without an end of line at their end.
    length: usize,
    sample: Option<Sample>,
    // The last of those bytes.
    ending: u64,
    // A file outside of the directory in which they stand.
    outside: Option<Place>,
}

impl Sought {
    /// Nothing is looked for.
    pub fn empty(alloc: Global) -> Sought {
        Sought {
            alloc,
            parts: Vec::new(alloc),
            by_digest: BTreeMap::new(alloc),
            by_window: BTreeMap::new(alloc),
            filter: Filter::empty(alloc),
            seeks_outside: false,
        }
    }

    /// These contents are looked for, each by a sample of it that is as rare in all of them as can be.
    pub fn new(alloc: Global, contents: Vec<Content>) -> Result<Sought, NoMemory> {
        let mut counts = Counts::new(alloc);
        let mut samples = Vec::new(alloc);
        for content in &contents {
            let own = if content.bytes.len() < LEAST {
                Vec::new(alloc)
            } else {
                samples_of(alloc, text_of(&content.bytes.to_vec(alloc)?))?
            };
            counts.add(&own)?;
            samples.push(own)?;
        }
        let mut sought = Sought::empty(alloc);
        sought.filter = Filter::new(alloc)?;
        for (content, own) in contents.into_iter().zip(samples) {
            sought.add(content, counts.rarest(&own))?;
        }
        Ok(sought)
    }

    // Looks for contents by a sample of them.
    fn add(&mut self, content: Content, sample: Option<Sample>) -> Result<(), NoMemory> {
        let number = self.parts.len();
        let key = digest(&content.bytes);
        self.seeks_outside |= content.is_foreign && !content.is_elsewhere;
        push_number(self.alloc, &mut self.by_digest, key, number)?;
        if let Some(sample) = sample {
            push_number(self.alloc, &mut self.by_window, sample.window, number)?;
            self.filter.add(sample.window);
        }
        let bytes = content.bytes.to_vec(self.alloc)?;
        let text = text_of(&bytes);
        self.parts.push(Part {
            content,
            length: text.len(),
            sample,
            ending: window_at_end(text),
            outside: None,
        })?;
        Ok(())
    }

    // The first part with these bytes, of a file at a place if one is told.
    fn part_of(&self, bytes: &FileBytes, place: Option<&Place>) -> Option<&Part> {
        for number in self.by_digest.get(&digest(bytes))? {
            if let Some(part) = self.parts.get(*number)
                && place.is_none_or(|place| part.content.place == *place)
                && part.content.bytes == *bytes
            {
                return Some(part);
            }
        }
        None
    }

    /// The file outside of the directory in which contents stand among others.
    pub fn place_of(&self, bytes: &FileBytes) -> Option<&Place> {
        self.part_of(bytes, None)?.outside.as_ref()
    }

    /// The file of the directory in which the contents of the file at a place stand among others.
    pub fn around(&self, place: &Place, bytes: &FileBytes) -> Option<&Around> {
        self.part_of(bytes, Some(place))?.content.inside.as_ref()
    }

    /// The Shell has some contents elsewhere, and none in a file of the directory that was looked at.
    pub fn lacks_inside(&self) -> bool {
        self.parts.iter().any(|part| {
            let is_elsewhere = part.content.is_elsewhere || part.outside.is_some();
            is_elsewhere && part.content.inside.is_none()
        })
    }

    /// Notes which contents stand in a file outside of the directory.
    pub fn note_outside(&mut self, place: &Place, bytes: &FileBytes) -> Result<(), NoMemory> {
        if !self.seeks_outside {
            return Ok(());
        }
        for number in self.within(bytes, false)? {
            if let Some(part) = self.parts.get_mut(number)
                && part.content.is_foreign
            {
                part.outside = Some(place.copy()?);
            }
        }
        Ok(())
    }

    /// Notes which contents stand in a file of the directory; rather in the one that takes the place of theirs. Gives if foreign ones do.
    pub fn note_inside(&mut self, place: &Place, bytes: &FileBytes) -> Result<bool, NoMemory> {
        let mut has_foreign = false;
        for number in self.within(bytes, true)? {
            if let Some(part) = self.parts.get_mut(number) {
                has_foreign |= part.content.is_foreign;
                if part.content.inside.is_none() || part.content.place == *place {
                    part.content.inside = Some(Around::of(place, bytes)?);
                }
            }
        }
        Ok(has_foreign)
    }

    // The numbers of the parts that stand in these bytes.
    fn within(&self, bytes: &FileBytes, is_strict: bool) -> Result<Vec<usize>, NoMemory> {
        if self.by_window.is_empty() {
            return Ok(Vec::new(self.alloc));
        }
        let text = bytes.to_vec(self.alloc)?;
        let mut reading = Reading {
            is_strict,
            trials: vec![in self.alloc; Trial::Open(COMPARISONS); self.parts.len()]?,
        };
        let mut window = 0;
        for (at, byte) in text.iter().enumerate() {
            window = next_window(window, *byte);
            if self.filter.may_have(window) {
                self.compare_at(&text, at.saturating_add(1), window, &mut reading)?;
            }
        }
        let mut numbers = Vec::new(self.alloc);
        for (number, trial) in reading.trials.iter().enumerate() {
            if *trial == Trial::Found || !is_strict && *trial == Trial::GivenUp {
                numbers.push(number)?;
            }
        }
        Ok(numbers)
    }

    // Compares the parts that are looked for by the bytes that end at a place of a text.
    fn compare_at(
        &self,
        text: &[u8],
        end: usize,
        window: u64,
        reading: &mut Reading,
    ) -> Result<(), NoMemory> {
        let Some(alike) = self.by_window.get(&window) else {
            return Ok(());
        };
        for number in alike {
            if let Some(part) = self.parts.get(*number)
                && let Some(trial) = reading.trials.get_mut(*number)
                && let Trial::Open(left) = *trial
                && let Some(found) = part.place_in(text, end, reading.is_strict)
            {
                let bytes = part.content.bytes.to_vec(self.alloc)?;
                *trial = match left {
                    _ if bytes.starts_with(found) => Trial::Found,
                    0 => Trial::GivenUp,
                    left => Trial::Open(left.saturating_sub(1)),
                };
            }
        }
        Ok(())
    }
}

impl Part {
    // What of a text it would be if its sample ends there at a place: nothing if that is too short, or has another ending.
    fn place_in<'t>(&self, text: &'t [u8], end: usize, is_strict: bool) -> Option<&'t [u8]> {
        let start = self.sample?.start_in(end)?;
        let length = if is_strict {
            self.content.bytes.len()
        } else {
            self.length
        };
        let found = text.get(start..start.saturating_add(length))?;
        if window_at_end(found.get(..self.length)?) == self.ending {
            Some(found)
        } else {
            None
        }
    }
}

// What is looked for of these bytes: an end of line at the end is not. Back-ticks leave it out.
fn text_of(bytes: &[u8]) -> &[u8] {
    match bytes {
        [text @ .., b'\n'] => text,
        _ => bytes,
    }
}

// A number follows those that a table has under a key.
fn push_number(
    alloc: Global,
    table: &mut BTreeMap<u64, Vec<usize>>,
    key: u64,
    number: usize,
) -> Result<(), NoMemory> {
    if let Some(numbers) = table.get_mut(&key) {
        numbers.push(number)?;
        return Ok(());
    }
    table.insert(key, vec![in alloc; number]?)?;
    Ok(())
}
