//! A few bytes of contents by which these are looked for in others.

use ados_text::NoMemory;
use std::alloc::Global;
use std::collections::BTreeMap;

// Contents are looked for by so many of their bytes.
const WIDTH: usize = 8;

// They are chosen at so many places of the contents: many files begin alike.
const SAMPLES: usize = 16;

// How many places a filter has, and how numbers are spread to them: Knuth multiplies by it too.
const PLACES: usize = 65_536;

const SPREAD: u64 = 11_400_714_819_323_198_485;

/// Bytes at a place in others.
#[derive(Clone, Copy)]
pub struct Sample {
    start: usize,
    /// Each of the bytes is a digit of this number.
    pub window: u64,
}

/// How often samples were counted.
#[derive(Drop)]
pub struct Counts {
    by_window: BTreeMap<u64, usize>,
}

/// Tells of most bytes by which nothing is looked for that it is so.
#[derive(Drop)]
pub struct Filter {
    places: Vec<bool>,
}

impl Sample {
    /// Where contents would begin in a text if this sample of theirs ends there at a place.
    pub fn start_in(&self, end: usize) -> Option<usize> {
        end.checked_sub(self.start.saturating_add(WIDTH))
    }
}

impl Counts {
    /// Nothing was counted.
    pub fn new(alloc: Global) -> Counts {
        Counts {
            by_window: BTreeMap::new(alloc),
        }
    }

    /// Counts samples.
    pub fn add(&mut self, samples: &[Sample]) -> Result<(), NoMemory> {
        for sample in samples {
            let count = self.of(sample);
            self.by_window
                .insert(sample.window, count.saturating_add(1))?;
        }
        Ok(())
    }

    /// The first of these samples that were counted least.
    pub fn rarest(&self, samples: &[Sample]) -> Option<Sample> {
        let mut rarest: Option<Sample> = None;
        for sample in samples {
            if rarest.is_none_or(|other| self.of(sample) < self.of(&other)) {
                rarest = Some(*sample);
            }
        }
        rarest
    }

    // How often a sample was counted.
    fn of(&self, sample: &Sample) -> usize {
        self.by_window.get(&sample.window).copied().unwrap_or(0)
    }
}

impl Filter {
    /// Nothing is looked for, and nothing will be.
    pub fn empty(alloc: Global) -> Filter {
        Filter {
            places: Vec::new(alloc),
        }
    }

    /// Nothing is looked for yet.
    pub fn new(alloc: Global) -> Result<Filter, NoMemory> {
        Ok(Filter {
            places: vec![in alloc; false; PLACES]?,
        })
    }

    /// Something is looked for by these bytes.
    pub fn add(&mut self, window: u64) {
        if let Some(place) = self.places.get_mut(spread(window)) {
            *place = true;
        }
    }

    /// Something may be looked for by these bytes.
    pub fn may_have(&self, window: u64) -> bool {
        self.places.get(spread(window)).is_some_and(|place| *place)
    }
}

// The place of bytes in a filter.
fn spread(window: u64) -> usize {
    (window.wrapping_mul(SPREAD) >> 48) as usize
}

/// The bytes at places that are spread over a text, with the first and the last ones; none if it is too short.
pub fn samples_of(alloc: Global, text: &[u8]) -> Result<Vec<Sample>, NoMemory> {
    let mut samples = Vec::new(alloc);
    let last = text.len().saturating_sub(WIDTH);
    for number in 0..SAMPLES {
        let start = last.saturating_mul(number) / (SAMPLES - 1);
        if let Some(bytes) = text.get(start..start.saturating_add(WIDTH)) {
            let window = window_at_end(bytes);
            samples.push(Sample { start, window })?;
        }
    }
    Ok(samples)
}

/// The bytes that end with this one, after those that end before it.
pub fn next_window(window: u64, byte: u8) -> u64 {
    window.wrapping_mul(256).wrapping_add(u64::from(byte))
}

/// The last bytes of a text.
pub fn window_at_end(text: &[u8]) -> u64 {
    let start = text.len().saturating_sub(WIDTH);
    let mut window = 0;
    for byte in text.get(start..).unwrap_or(&[]) {
        window = next_window(window, *byte);
    }
    window
}
