//! The tokens of an expression: what its text is made of.
ghost use Rattle.std.specs.{Prelude.{◌≡◌, ◌≤◌, ◌++◌, IfOk, OnOk}, List.{prefix_len}, Char.{is_ascii_alphabetic}};
ghost use Rattle.ados_env.specs.Tokens.{bits_token, character_cut, decimal_cut, decimal_token, digits_cut, is_either, letters_in, marks_hexadecimal, shift_cut, sign_token, tokens_from, tokens_of, word_cut, word_token};

use crate::numerals::Base;
use crate::operators::Operator;
use ados_items::is_blank;
use ados_text::{NoMemory, at_most, fold, same_name, without};
use std::alloc::Global;

/// A token of an expression.
#[derive(Clone, Copy)]
pub enum Token {
    /// A number.
    Number(i32),
    /// 2147483648, which is a number only as the value of a `-`.
    Limit,
    /// An operator between two values; `-` also stands before one.
    Operator(Operator),
    /// `~`
    Complement,
    /// `(`
    Open,
    /// `)`
    Close,
    /// None of these.
    Wrong,
}

/// A token, and how many bytes it has.
#[derive(Clone, Copy)]
pub struct Cut {
    pub token: Token,
    pub length: usize,
}

/// The tokens of a text.
pub fn tokens_of(alloc: Global, text: &[u8]) -> Result<Vec<Token>, NoMemory>
    ensures { IfOk result (λ tokens. tokens.items ≡ tokens_of text.now) }
{
    let mut tokens = Vec::new(alloc);
    push_tokens(&mut tokens, 0, text)?;
    Ok(tokens)
}

// Adds the tokens of a text; so many of its first bytes are those of the token before.
fn push_tokens(tokens: &mut Vec<Token>, taken: usize, text: &[u8]) -> Result<(), NoMemory>
    ensures { OnOk result (tokens.new.items ≡ tokens.old.items ++ tokens_from taken text.now) }
{
    match text {
        [] => Ok(()),
        [byte, rest @ ..] => {
            if taken > 0 {
                return push_tokens(tokens, taken - 1, rest);
            }
            if is_blank(*byte) {
                return push_tokens(tokens, 0, rest);
            }
            let cut = Cut::first(*byte, rest, text);
            tokens.push(cut.token)?;
            push_tokens(tokens, cut.length.saturating_sub(1), rest)
        }
    }
}

impl Cut {
    ghost use Rattle.ados_env.specs.Tokens.{token_cut};

    // The token with which a text begins, by its first byte and the rest.
    fn first(byte: u8, rest: &[u8], text: &[u8]) -> Cut
        ensures { result ≡ token_cut byte rest.now text.now }
    {
        if byte == b'\'' {
            character_cut(rest)
        } else if (byte == b'#' || byte == b'0') && marks_hexadecimal(rest) {
            digits_cut(Base::Hexadecimal, 2, text)
        } else if byte == b'#' {
            digits_cut(Base::Octal, 1, text)
        } else if byte == b'0' {
            digits_cut(Base::Octal, 0, text)
        } else if byte.is_ascii_digit() {
            decimal_cut(text)
        } else if byte.is_ascii_alphabetic() {
            word_cut(text)
        } else if byte == b'<' {
            shift_cut(Operator::ShiftLeft, byte, rest)
        } else if byte == b'>' {
            shift_cut(Operator::ShiftRight, byte, rest)
        } else {
            Cut {
                token: sign_token(byte),
                length: 1,
            }
        }
    }
}

// The character after a quote.
fn character_cut(rest: &[u8]) -> Cut
    ensures { result ≡ character_cut rest.now }
{
    match rest {
        [] => Cut {
            token: Token::Wrong,
            length: 1,
        },
        [character, ..] => Cut {
            token: Token::Number(i32::from(*character)),
            length: 2,
        },
    }
}

// An `x` marks a hexadecimal number.
fn marks_hexadecimal(rest: &[u8]) -> bool
    ensures { result ≡ marks_hexadecimal rest.now }
{
    match rest {
        [] => false,
        [mark, ..] => fold(*mark) == b'x',
    }
}

// The bits that the digits after a mark write.
fn digits_cut(base: Base, mark: usize, text: &[u8]) -> Cut
    requires { mark ≤ 2 }
    ensures { result ≡ digits_cut base mark text.now }
{
    let digits = base.digits_in(without(text, mark));
    Cut {
        token: bits_token(base.number(digits)),
        length: mark + digits.len(),
    }
}

fn bits_token(number: Option<u32>) -> Token
    ensures { result ≡ bits_token number }
{
    match number {
        None => Token::Wrong,
        Some(bits) => Token::Number(bits.cast_signed()),
    }
}

fn decimal_cut(text: &[u8]) -> Cut
    ensures { result ≡ decimal_cut text.now }
{
    let digits = Base::Decimal.digits_in(text);
    Cut {
        token: decimal_token(Base::Decimal.number(digits)),
        length: digits.len(),
    }
}

fn decimal_token(number: Option<u32>) -> Token
    ensures { result ≡ decimal_token number }
{
    let Some(number) = number else {
        return Token::Wrong;
    };
    match i32::try_from(number) {
        Ok(number) => Token::Number(number),
        Err(_) if number == 1 << 31 => Token::Limit,
        Err(_) => Token::Wrong,
    }
}

// The longest run of letters is a word.
fn word_cut(text: &[u8]) -> Cut
    ensures { result ≡ word_cut text.now }
{
    let word = letters_in(text);
    Cut {
        token: word_token(word),
        length: word.len(),
    }
}

fn letters_in(text: &[u8]) -> &[u8]
    ensures { result.now ≡ letters_in text.now }
{
    at_most(text, letters_len(text))
}

fn letters_len(text: &[u8]) -> usize
    ensures { result ≡ prefix_len is_ascii_alphabetic text.now }
{
    text.iter()
        .take_while(|byte| byte.is_ascii_alphabetic())
        .count()
}

fn word_token(word: &[u8]) -> Token
    ensures { result ≡ word_token word.now }
{
    if is_either(word, b"MOD", b"M") {
        Token::Operator(Operator::Modulo)
    } else if is_either(word, b"LSH", b"L") {
        Token::Operator(Operator::ShiftLeft)
    } else if is_either(word, b"RSH", b"R") {
        Token::Operator(Operator::ShiftRight)
    } else if is_either(word, b"XOR", b"X") {
        Token::Operator(Operator::Xor)
    } else if is_either(word, b"EQV", b"E") {
        Token::Operator(Operator::Equal)
    } else {
        Token::Wrong
    }
}

// The word is one of two; case is ignored.
fn is_either(word: &[u8], long: &[u8], short: &[u8]) -> bool
    ensures { result ≡ is_either word.now long.now short.now }
{
    same_name(word, long) || same_name(word, short)
}

// `<<` or `>>`.
fn shift_cut(operator: Operator, byte: u8, rest: &[u8]) -> Cut
    ensures { result ≡ shift_cut operator byte rest.now }
{
    match rest {
        [next, ..] if *next == byte => Cut {
            token: Token::Operator(operator),
            length: 2,
        },
        _ => Cut {
            token: Token::Wrong,
            length: 1,
        },
    }
}

fn sign_token(byte: u8) -> Token
    ensures { result ≡ sign_token byte }
{
    match byte {
        b'(' => Token::Open,
        b')' => Token::Close,
        b'~' => Token::Complement,
        b'*' => Token::Operator(Operator::Times),
        b'/' => Token::Operator(Operator::Divide),
        b'%' => Token::Operator(Operator::Modulo),
        b'+' => Token::Operator(Operator::Plus),
        b'-' => Token::Operator(Operator::Minus),
        b'&' => Token::Operator(Operator::And),
        b'|' => Token::Operator(Operator::Or),
        _ => Token::Wrong,
    }
}
