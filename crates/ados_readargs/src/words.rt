// The words of a command's arguments.
ghost use Rattle.std.specs.{Prelude.{◌≡◌, ◌+◌, true, length}, List.{list_any}};
ghost use Rattle.ados_items.specs.Items.{item_at};
ghost use Rattle.ados_readargs.specs.Words.{run_end, run_end_from, word_of, line_words_of, item_of, start_of, is_open_quote, is_equals_sign};

use ados_items::{Item, next_item};

/// A word of a line, by its places; bytes count from 0, and `to` is the place after the last.
#[derive(Clone, Copy)]
pub enum LineWord {
    /// Touching Word and Equal items. `key` is where the Word with which they begin ends: `from`
    /// if they begin with an equal sign.
    Run { from: usize, key: usize, to: usize },
    /// The bytes between the quotes.
    Quoted { from: usize, to: usize },
    /// The place after a quote that is never closed.
    Open(usize),
}

impl LineWord {
    /// The item whose text is the word's.
    pub fn item(self) -> Item
        ensures { result ≡ item_of self }
    {
        match self {
            LineWord::Run { from, to, .. } => Item::Word { from, to },
            LineWord::Quoted { from, to } => Item::Quoted { from, to },
            LineWord::Open(from) => Item::Unmatched(from),
        }
    }

    /// Where it begins, including its quote.
    pub fn start(self) -> usize
        ensures { result ≡ start_of self }
    {
        match self {
            LineWord::Run { from, .. } => from,
            LineWord::Quoted { from, .. } => from.saturating_sub(1),
            LineWord::Open(from) => from.saturating_sub(1),
        }
    }

    /// Whether it is a quote that is never closed.
    pub fn is_open_quote(self) -> bool
        ensures { result ≡ is_open_quote self }
    {
        matches!(self, LineWord::Open(_))
    }

    /// Whether it is `=` alone.
    pub fn is_equals_sign(self) -> bool
        ensures { result ≡ is_equals_sign self }
    {
        match self {
            LineWord::Run { from, key, to } => from == key && to > from && to - from == 1,
            LineWord::Quoted { .. } => false,
            LineWord::Open(_) => false,
        }
    }
}

/// A blank or the line's end is at a place, so that a run that has reached it ends.
pub fn is_run_over(line: &[u8], place: usize) -> bool
    ensures { result ≡ true → run_end line.now place ≡ place }
{
    match line.get(place) {
        None => true,
        Some(byte) => *byte == b' ' || *byte == b'\t',
    }
}

// Where the touching Word and Equal items from a place on end.
fn run_end(line: &[u8], from: usize) -> usize
    ensures { result ≡ run_end_from (length line.now + 1) line.now from }
{
    if is_run_over(line, from) {
        // nearly always: the word after the blank is not read here, only to be read again
        return from;
    }
    let mut end = from;
    for step in 0..line.len() + 1 {
        match next_item(line, end) {
            Item::Word { from, to } => {
                if from != end {
                    return end;
                }
                end = to;
            }
            Item::Equal(place) => {
                if place != end {
                    return end;
                }
                end = place + 1;
            }
            Item::Quoted { .. } => return end,
            Item::End(_) => return end,
            Item::Unmatched(_) => return end,
        }
    }
    end
}

/// The word at a place of a line, after the blanks there, and where the words after it begin; `None`
/// at the line's end.
pub fn word_at(line: &[u8], place: usize) -> Option<(LineWord, usize)>
    ensures { result ≡ word_of line.now (item_at true line.now place) }
{
    match next_item(line, place) {
        Item::Word { from, to } => {
            let end = run_end(line, to);
            let word = LineWord::Run {
                from,
                key: to,
                to: end,
            };
            Some((word, end))
        }
        Item::Equal(from) => {
            let end = run_end(line, from + 1);
            let word = LineWord::Run {
                from,
                key: from,
                to: end,
            };
            Some((word, end))
        }
        Item::Quoted { from, to } => Some((LineWord::Quoted { from, to }, to + 1)),
        Item::Unmatched(from) => Some((LineWord::Open(from), line.len())),
        Item::End(_) => None,
    }
}

/// Whether one of the words of a line is a quote that is never closed.
pub fn is_unclosed(line: &[u8]) -> bool
    ensures { result ≡ list_any is_open_quote (line_words_of line.now) }
{
    let mut place = 0;
    for step in 0..line.len() + 1 {
        let Some((word, after)) = word_at(line, place) else {
            return false;
        };
        if word.is_open_quote() {
            return true;
        }
        place = after;
    }
    false
}
