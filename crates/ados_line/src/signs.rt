// The signs of redirections.
ghost use Rattle.std.specs.Prelude.{◌≡◌, ◌≤◌, length, slice_index};
ghost use Rattle.ados_line.specs.Signs.{begins, is_both, sign_at, width_of};

/// The sign of a redirection.
#[derive(Clone, Copy)]
pub enum Sign {
    /// `<`: a file is read.
    Input,
    /// `>`: a file is created or truncated.
    Output,
    /// `>>`: a file is created or appended to.
    Append,
}

impl Sign {
    /// How many bytes the sign has.
    pub fn width(self) -> usize
        ensures { result ≡ width_of self }
    {
        match self {
            Sign::Input => 1,
            Sign::Output => 1,
            Sign::Append => 2,
        }
    }
}

/// The sign at a place of a line, if a word begins there with one.
pub fn sign_at(line: &[u8], place: usize) -> Option<Sign>
    requires { place ≤ length line.now }
    ensures { result ≡ sign_at line.now place }
{
    if begins(line, b'<', place) {
        return Some(Sign::Input);
    }
    if !begins(line, b'>', place) {
        return None;
    }
    if byte_at(line, place + 1) == b'>' {
        Some(Sign::Append)
    } else {
        Some(Sign::Output)
    }
}

/// Whether `<>` is at a place of a line where a word begins: it is neither an input nor an output.
pub fn is_both(line: &[u8], place: usize) -> bool
    requires { place ≤ length line.now }
    ensures { result ≡ is_both line.now place }
{
    begins(line, b'<', place) && byte_at(line, place + 1) == b'>'
}

// Whether the byte at a place is this one, at the start of a word: a byte after `=` continues a word.
fn begins(line: &[u8], byte: u8, place: usize) -> bool
    ensures { result ≡ begins line.now byte place }
{
    byte_at(line, place) == byte && !(0 < place && byte_at(line, place - 1) == b'=')
}

// The byte at a place of a line; 0 past its end.
fn byte_at(line: &[u8], place: usize) -> u8
    ensures { result ≡ slice_index line.now place }
{
    match line.get(place) {
        Some(byte) => *byte,
        None => 0,
    }
}
