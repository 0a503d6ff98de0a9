//! What each byte of a pattern's text is, from left to right.

ghost use Rattle.std.specs.Prelude.{◌≡◌};
ghost use Rattle.ados_pattern.specs.Tokens.{begins_range, class_mode, class_token, member_mode, member_token, next_mode, plain_token, token_of};

/// What one byte of a pattern's text is.
#[derive(Clone, Copy)]
pub enum Token {
    /// A part of the token after it: a quote, or the beginning of a range.
    Silent,
    /// A character.
    Char(u8),
    /// `?`
    Any,
    /// `%`
    Nothing,
    /// `#`
    Many,
    /// `~`
    Other,
    /// `|`
    Bar,
    /// `(`
    Open,
    /// `)`
    Close,
    /// `[`
    ClassOpen,
    /// The `~` after `[`.
    Negated,
    /// The last byte of a range of a class, or of a single character.
    Member(u8, u8),
    /// The `]` of a class.
    ClassClose,
    /// A quote with nothing after it.
    Hanging,
}

/// What comes before a byte.
#[derive(Clone, Copy)]
pub enum Mode {
    /// No class and no quote.
    Plain,
    /// A quote.
    Quoted,
    /// The `[` of a class.
    Begun,
    /// A class.
    Class,
    /// A quote in a class.
    ClassQuoted,
    /// The low end of a range, with its `-` to come.
    Low(u8),
    /// The low end of a range and its `-`.
    Ranged(u8),
    /// The low end of a range, its `-` and a quote.
    RangedQuoted(u8),
}

impl Mode {
    /// What the byte is, and what comes before the rest, which follows it.
    pub fn read(self, byte: u8, rest: &[u8]) -> (Token, Mode)
        ensures token { result.0 ≡ token_of self byte rest.now }
        ensures mode { result.1 ≡ next_mode self byte rest.now }
    {
        match self {
            Mode::Plain => read_plain(byte, rest),
            Mode::Quoted => (Token::Char(byte), Mode::Plain),
            Mode::Begun => match byte {
                b'~' => (Token::Negated, Mode::Class),
                _ => read_in_class(byte, rest),
            },
            Mode::Class => read_in_class(byte, rest),
            Mode::ClassQuoted => read_member(byte, rest),
            Mode::Low(low) => (Token::Silent, Mode::Ranged(low)),
            Mode::Ranged(low) => match byte {
                b'\'' => (Token::Silent, Mode::RangedQuoted(low)),
                _ => (Token::Member(low, byte), Mode::Class),
            },
            Mode::RangedQuoted(low) => (Token::Member(low, byte), Mode::Class),
        }
    }
}

// Outside of a class.
fn read_plain(byte: u8, rest: &[u8]) -> (Token, Mode)
    ensures token { result.0 ≡ plain_token byte rest.now }
    ensures mode { result.1 ≡ next_mode Mode.Plain byte rest.now }
{
    match byte {
        b'\'' => {
            if rest.is_empty() {
                (Token::Hanging, Mode::Quoted)
            } else {
                (Token::Silent, Mode::Quoted)
            }
        }
        b'[' => (Token::ClassOpen, Mode::Begun),
        b'?' => (Token::Any, Mode::Plain),
        b'%' => (Token::Nothing, Mode::Plain),
        b'#' => (Token::Many, Mode::Plain),
        b'~' => (Token::Other, Mode::Plain),
        b'|' => (Token::Bar, Mode::Plain),
        b'(' => (Token::Open, Mode::Plain),
        b')' => (Token::Close, Mode::Plain),
        c => (Token::Char(c), Mode::Plain),
    }
}

fn read_in_class(byte: u8, rest: &[u8]) -> (Token, Mode)
    ensures token { result.0 ≡ class_token byte rest.now }
    ensures mode { result.1 ≡ class_mode byte rest.now }
{
    match byte {
        b']' => (Token::ClassClose, Mode::Plain),
        b'\'' => (Token::Silent, Mode::ClassQuoted),
        c => read_member(c, rest),
    }
}

fn read_member(byte: u8, rest: &[u8]) -> (Token, Mode)
    ensures token { result.0 ≡ member_token byte rest.now }
    ensures mode { result.1 ≡ member_mode byte rest.now }
{
    if starts_range(rest) {
        (Token::Silent, Mode::Low(byte))
    } else {
        (Token::Member(byte, byte), Mode::Class)
    }
}

// A `-` and the high end of a range, which a `]` can only be after a quote.
fn starts_range(rest: &[u8]) -> bool
    ensures { result ≡ begins_range rest.now }
{
    match rest {
        [] => false,
        [_] => false,
        [dash, high, ..] => *dash == b'-' && *high != b']',
    }
}
