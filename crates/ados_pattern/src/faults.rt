//! The first fault of a pattern's text.

ghost use Rattle.std.specs.Prelude.{◌≡◌, ◌+◌, ◌<◌, ◌≤◌, ◌^◌, length};
ghost use Rattle.ados_pattern.specs.{Fault.{closes, depth_after, ends_row, fault_from, has_nothing, is_bad_class, is_fault}, Tokens.{tokens_from}};

use crate::tokens::{Mode, Token};

/// The place of the first fault of bytes from a place on, inside `depth` groups.
pub fn first_fault(depth: usize, place: usize, mode: Mode, bytes: &[u8]) -> Option<usize>
    requires depth { depth + length bytes.now < 2 ^ 63 }
    requires place { place + length bytes.now < 2 ^ 63 }
    ensures { result ≡ fault_from depth place (tokens_from mode bytes.now) }
{
    match bytes {
        [] => None,
        [byte, rest @ ..] => {
            let (token, mode) = mode.read(*byte, rest);
            if is_bad(depth, token, mode, rest) {
                Some(place)
            } else {
                first_fault(after(depth, token), place + 1, mode, rest)
            }
        }
    }
}

fn after(depth: usize, token: Token) -> usize
    requires { depth < 2 ^ 63 }
    ensures value { result ≡ depth_after depth token }
    ensures bound { result ≤ depth + 1 }
{
    match token {
        Token::Open => depth + 1,
        Token::Close => depth.saturating_sub(1),
        _ => depth,
    }
}

// Whether a token is a fault, by what follows it.
fn is_bad(depth: usize, token: Token, mode: Mode, rest: &[u8]) -> bool
    requires { length rest.now < 2 ^ 63 }
    ensures { result ≡ is_fault depth token (tokens_from mode rest.now) }
{
    match token {
        Token::Open => !closed_in(0, mode, rest),
        Token::Close => depth == 0,
        Token::Many => nothing_in(mode, rest),
        Token::Other => nothing_in(mode, rest),
        Token::ClassOpen => bad_class(false, mode, rest),
        Token::Hanging => true,
        _ => false,
    }
}

fn nothing_in(mode: Mode, bytes: &[u8]) -> bool
    ensures { result ≡ has_nothing (tokens_from mode bytes.now) }
{
    match bytes {
        [] => true,
        [byte, rest @ ..] => {
            let (token, _) = mode.read(*byte, rest);
            row_ends(token)
        }
    }
}

fn row_ends(token: Token) -> bool
    ensures { result ≡ ends_row token }
{
    matches!(token, Token::Bar | Token::Close)
}

fn closed_in(depth: usize, mode: Mode, bytes: &[u8]) -> bool
    requires { depth + length bytes.now < 2 ^ 63 }
    ensures { result ≡ closes depth (tokens_from mode bytes.now) }
{
    match bytes {
        [] => false,
        [byte, rest @ ..] => {
            let (token, next) = mode.read(*byte, rest);
            match token {
                Token::Open => closed_in(depth + 1, next, rest),
                Token::Close => depth == 0 || closed_in(depth - 1, next, rest),
                _ => closed_in(depth, next, rest),
            }
        }
    }
}

fn bad_class(has_member: bool, mode: Mode, bytes: &[u8]) -> bool
    ensures { result ≡ is_bad_class has_member (tokens_from mode bytes.now) }
{
    match bytes {
        [] => true,
        [byte, rest @ ..] => {
            let (token, next) = mode.read(*byte, rest);
            match token {
                Token::ClassClose => !has_member,
                Token::Member(low, high) => high < low || bad_class(true, next, rest),
                _ => bad_class(has_member, next, rest),
            }
        }
    }
}
