// References to variables: where their names begin and end.
ghost use Rattle.std.specs.{Prelude.{◌≡◌, ◌≤◌, length, slice_get, IfSome, IsTrue, ◌<◌}, List.{prefix_len}};
ghost use Rattle.ados_line.specs.Values.{is_of_name, is_plain, is_this, reference};

use crate::letters::Letter;

/// A reference to a variable, in the characters after its `$`.
#[derive(Clone, Copy, PartialEq, Eq)]
pub struct Reference {
    /// Where its name begins.
    pub from: usize,
    /// Where its name ends.
    pub to: usize,
    /// Where the reference ends.
    pub end: usize,
}

/// The reference whose `$` is before these characters: `name`, as long as it goes, or `{name}`.
pub fn find_reference(rest: &[Letter]) -> Option<Reference>
    ensures value { result ≡ reference rest.now }
    ensures within { IfSome result (λ r. (r.from ≤ r.to) × (r.to ≤ r.end) × (r.end ≤ length rest.now)) }
{
    if is_at(rest, 0, b'{') {
        let to = 1 + name_len(&rest[1..]);
        if to > 1 && is_at(rest, to, b'}') {
            Some(Reference {
                from: 1,
                to,
                end: to + 1,
            })
        } else {
            None
        }
    } else {
        let to = name_len(rest);
        if to > 0 {
            Some(Reference {
                from: 0,
                to,
                end: to,
            })
        } else {
            None
        }
    }
}

/// Whether the character is this byte, without a star before it.
pub fn is_plain(letter: Letter, byte: u8) -> bool
    ensures { result ≡ is_plain byte letter }
{
    match letter {
        Letter::Plain(c) => c == byte,
        Letter::Starred(_) => false,
    }
}

// Whether this byte is at a place, without a star before it.
fn is_at(rest: &[Letter], place: usize, byte: u8) -> bool
    ensures value { result ≡ is_this byte (slice_get rest.now place) }
    ensures within { IsTrue result → place < length rest.now }
{
    match rest.get(place) {
        Some(letter) => is_plain(*letter, byte),
        None => false,
    }
}

// How many characters of a name the characters begin with.
fn name_len(rest: &[Letter]) -> usize
    ensures value { result ≡ prefix_len is_of_name rest.now }
    ensures within { result ≤ length rest.now }
{
    rest.iter()
        .take_while(|letter| is_of_name(**letter))
        .count()
}

// A digit, a letter or `_`.
fn is_of_name(letter: Letter) -> bool
    ensures { result ≡ is_of_name letter }
{
    match letter {
        Letter::Plain(c) => c.is_ascii_alphanumeric() || c == b'_',
        Letter::Starred(_) => false,
    }
}
