//! The parts of a pattern.

/// A part of a pattern. A row of items is a `Then` for each item, and `Empty` at its end.
#[derive(Drop)]
pub enum Part {
    /// The empty text.
    Empty,
    /// A character; case is ignored.
    Char(u8),
    /// Any one character.
    Any,
    /// A character that is one of a range, both ends included; case is ignored.
    Range(u8, u8),
    /// One character that the part does not match.
    Outside(Box<Part>),
    /// Texts that the part matches, one after the other; or the empty text.
    Many(Box<Part>),
    /// A text that the part does not match.
    Other(Box<Part>),
    /// A text of the first, followed by one of the second.
    Then(Box<Part>, Box<Part>),
    /// A text of the one or of the other.
    Either(Box<Part>, Box<Part>),
}
