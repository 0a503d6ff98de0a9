// The texts of what options were given, one after another in a buffer.
ghost use Rattle.std.specs.Prelude.{◌≡◌, ◌++◌, ◌+◌, ◌≤◌, [], ◌∷◌, length, map, take, drop, get_or, IfOk, OnOk, OnErr};
ghost use Rattle.ados_text.specs.Text.{IsText};
ghost use Rattle.ados_items.specs.Items.{value_of};
ghost use Rattle.ados_readargs.specs.Buffers.{AreLaid, span_texts};

use ados_items::{Item, push_value};
use ados_text::NoMemory;
use std::alloc::Global;
use std::marker::Model;

/// Where a text is in a buffer: from one place up to another.
#[derive(Clone, Copy)]
pub struct Span {
    from: usize,
    to: usize,
}

/// Texts of items, one after another in a buffer that is reused from line to line.
#[derive(Drop)]
pub struct Buffer {
    bytes: Vec<u8>,
    spans: Vec<Span>,
}

impl Model for Buffer {
    ghost use Rattle.std.specs.Prelude.{List, ℕ};
    ghost use Rattle.ados_readargs.specs.Buffers.{AreLaid, span_texts};

    ghost Value = { List (List ℕ) };

    ghost view = { λ b. span_texts b.bytes.items b.spans.items };

    ghost invariant = { λ b. AreLaid b.bytes.items b.spans.items };
}

impl Buffer {
    /// No text.
    pub fn new(alloc: Global) -> Buffer
        ensures { result ≡ [] }
    {
        Buffer {
            bytes: Vec::new(alloc),
            spans: Vec::new(alloc),
        }
    }

    /// Removes all texts, and keeps the allocation.
    pub fn clear(&mut self)
        ensures { self.new ≡ [] }
    {
        self.spans.clear();
        self.bytes.clear();
    }

    /// How many texts there are.
    pub fn len(&self) -> usize
        ensures { result ≡ length self.now }
    {
        self.spans.len()
    }

    /// The text at a place, counted from 0; the empty text past the last.
    pub fn get(&self, place: usize) -> &[u8]
        ensures value { result.now ≡ get_or self.now place [] }
        ensures ascii { IsText result.now }
    {
        match self.spans.get(place) {
            Some(span) => &self.bytes.as_slice()[span.from..span.to],
            None => &[],
        }
    }

    #[tactic(auto, using(crate::proofs::BufferLemmas::laid))]
    /// Adds the text of an item of a line; at `NoMemory` the texts are unchanged.
    pub fn push(&mut self, line: &[u8], item: &Item) -> Result<(), NoMemory>
        ensures ok { OnOk result (self.new ≡ self.old ++ value_of line.now item.now ∷ []) }
        ensures err { OnErr result (self.new ≡ self.old) }
    {
        let from = self.bytes.len();
        push_value(&mut self.bytes, line, item)?;
        let to = self.bytes.len();
        self.spans.push(Span { from, to })?;
        Ok(())
    }

    /// Adds the texts of items of a line, in order. At `NoMemory` the contents are unspecified.
    pub fn push_all(&mut self, line: &[u8], items: &[Item]) -> Result<(), NoMemory>
        ensures ok { OnOk result (self.new ≡ self.old ++ map (value_of line.now) items.now) }
        ensures grown { length self.old ≤ length self.new }
    {
        let laid = self.push_copied(line, items)?;
        for place in laid..items.len() {
            self.push(line, &items[place])?;
        }
        Ok(())
    }

    // Adds the texts of the words with which items begin; returns how many they are. Nearly always a line is
    // ASCII: then it is copied once, and each of its words is a place in the copy. For a single item
    // it does not pay.
    fn push_copied(&mut self, line: &[u8], items: &[Item]) -> Result<usize, NoMemory>
        ensures ok { IfOk result (λ count. self.new ≡ self.old ++ map (value_of line.now) (take count items.now)) }
        ensures within { IfOk result (λ count. count ≤ length items.now) }
        ensures grown { length self.old ≤ length self.new }
    {
        if items.len() <= 1 || !line.is_ascii() {
            return Ok(0);
        }
        let base = self.bytes.len();
        self.bytes.extend_from_slice(line)?;
        lay_words(&mut self.spans, self.bytes.as_slice(), line, base, items)
    }
}

// Adds spans for the words with which items begin, in a line that was copied to the end of the bytes; returns how many
// they are.
fn lay_words(
    spans: &mut Vec<Span>,
    bytes: &[u8],
    line: &[u8],
    base: usize,
    items: &[Item],
) -> Result<usize, NoMemory>
    requires laid { AreLaid bytes.now spans.old.items }
    requires copied { drop base bytes.now ≡ line.now }
    requires len { base + length line.now ≡ length bytes.now }
    ensures ok { IfOk result (λ count. span_texts bytes.now spans.new.items ≡ span_texts bytes.now spans.old.items ++ map (value_of line.now) (take count items.now)) }
    ensures within { IfOk result (λ count. count ≤ length items.now) }
    ensures laid { AreLaid bytes.now spans.new.items }
    ensures grown { length spans.old.items ≤ length spans.new.items }
{
    for place in 0..items.len() {
        match items[place] {
            Item::Word { from, to } if from <= to && to <= line.len() => spans.push(Span {
                from: base + from,
                to: base + to,
            })?,
            _ => return Ok(place),
        }
    }
    Ok(items.len())
}
