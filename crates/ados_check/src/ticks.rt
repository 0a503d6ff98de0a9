//! The texts between back-ticks in a line, and the line around them.
ghost use Rattle.std.specs.Prelude.{◌≡◌, ◌<◌, ◌^◌, IfOk};
ghost use Rattle.ados_check.specs.Ticks.{after_byte, around, around_byte, closed_at, is_tick, texts_in_ticks};

use std::alloc::{AllocError, Global};

// Each byte of a text between back-ticks, and the back-ticks too, become this byte in the line around it, so that they are one
// word.
pub const TICK_BYTE: u8 = b'_';

/// A text between back-ticks.
#[derive(Clone, Copy)]
pub struct Ticked {
    /// Where it begins, after its back-tick.
    pub from: usize,
    /// Where it ends, before the next one.
    pub to: usize,
}

// What stands before a byte of a line.
#[derive(Clone, Copy)]
struct Before {
    // Where the text between back-ticks begins that is open.
    opened: Option<usize>,
    // A star that no star escapes: it escapes the byte.
    is_starred: bool,
}

impl Before {
    // The byte is a back-tick that no star escapes.
    fn is_tick(&self, byte: u8) -> bool
        ensures { result ≡ is_tick self.now byte }
    {
        byte == b'`' && !self.is_starred
    }

    // What stands before the next byte.
    fn after(&self, place: usize, byte: u8) -> Before
        requires { place < 2 ^ 63 }
        ensures { result ≡ after_byte self.now place byte }
    {
        let opened = match self.opened {
            None if self.is_tick(byte) => Some(place + 1),
            Some(_) if self.is_tick(byte) => None,
            opened => opened,
        };
        Before {
            opened,
            is_starred: byte == b'*' && !self.is_starred,
        }
    }

    // The text that a byte closes.
    fn closed(&self, place: usize, byte: u8) -> Option<Ticked>
        ensures { result ≡ closed_at self.now place byte }
    {
        match self.opened {
            Some(from) if self.is_tick(byte) => Some(Ticked { from, to: place }),
            _ => None,
        }
    }

    // What a byte is in the line around.
    fn around(&self, byte: u8) -> u8
        ensures { result ≡ around_byte self.now byte }
    {
        if self.opened.is_some() || self.is_tick(byte) {
            TICK_BYTE
        } else {
            byte
        }
    }
}

// Before a line stands nothing.
const START: Before = Before {
    opened: None,
    is_starred: false,
};

/// The texts between back-ticks in a line. A back-tick after a star is none; one that is not closed has no text.
pub fn texts_in_ticks(alloc: Global, line: &[u8]) -> Result<Vec<Ticked>, AllocError>
    ensures { IfOk result (λ texts. texts.items ≡ texts_in_ticks line.now) }
{
    let mut texts = Vec::new(alloc);
    let mut before = START;
    for place in 0..line.len() {
        let byte = line[place];
        if let Some(text) = before.closed(place, byte) {
            texts.push(text)?;
        }
        before = before.after(place, byte);
    }
    Ok(texts)
}

/// A line with one word in the place of each text between back-ticks.
pub fn around(alloc: Global, line: &[u8]) -> Result<Vec<u8>, AllocError>
    ensures { IfOk result (λ text. text.items ≡ around line.now) }
{
    let mut text = Vec::with_capacity(alloc, line.len())?;
    let mut before = START;
    for place in 0..line.len() {
        let byte = line[place];
        text.push(before.around(byte))?;
        before = before.after(place, byte);
    }
    Ok(text)
}
