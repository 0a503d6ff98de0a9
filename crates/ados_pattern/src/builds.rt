//! The parts of a pattern from its text, from right to left.

ghost use Rattle.std.specs.Prelude.{◌≡◌, IfOk, option_map};
ghost use Rattle.ados_pattern.specs.{Form.{form_of}, Build.{with_token, levels_of_tokens, with_group, item_many, item_other, levels_of, with_bar, form_of_tokens, whole_row, with_item, with_member}, Tokens.{tokens_from, tokens_of}};

use crate::parts::Part;
use crate::tokens::{Mode, Token};
use ados_text::NoMemory;
use std::alloc::Global;

/// The groups that are open at a place, read from the right, the innermost first: of each the row so far, and the
/// alternatives after it.
#[derive(Drop)]
pub enum Stack {
    Bottom,
    Level(Part, Option<Part>, Box<Stack>),
}

// The stack with another row in the innermost group that is open, if there is one.
macro_rules! on_row {
    ($stack:expr, $row:ident => $new:expr) => {
        match $stack {
            Stack::Bottom => Ok(Stack::Bottom),
            Stack::Level($row, rest, below) => Ok(Stack::Level($new, rest, below)),
        }
    };
}

/// What a pattern's text says.
pub fn whole(alloc: Global, bytes: &[u8]) -> Result<Part, NoMemory>
    ensures { IfOk result (λ p. form_of p ≡ form_of_tokens (tokens_of bytes.now)) }
{
    let stack = built(alloc, Mode::Plain, bytes)?;
    match stack {
        Stack::Bottom => Ok(Part::Empty),
        Stack::Level(row, rest, _) => row_and_rest(alloc, row, rest),
    }
}

fn built(alloc: Global, mode: Mode, bytes: &[u8]) -> Result<Stack, NoMemory>
    ensures { IfOk result (λ s. levels_of s ≡ levels_of_tokens (tokens_from mode bytes.now)) }
{
    match bytes {
        [] => level(alloc, Stack::Bottom),
        [byte, rest @ ..] => {
            let (token, next) = mode.read(*byte, rest);
            added(alloc, token, built(alloc, next, rest)?)
        }
    }
}

fn added(alloc: Global, token: Token, stack: Stack) -> Result<Stack, NoMemory>
    ensures { IfOk result (λ s. levels_of s ≡ with_token token (levels_of stack)) }
{
    match token {
        Token::Silent => Ok(stack),
        Token::Char(c) => item_in(alloc, Part::Char(c), stack),
        Token::Any => item_in(alloc, Part::Any, stack),
        Token::Nothing => item_in(alloc, Part::Empty, stack),
        Token::Many => on_row!(stack, row => first_repeated(alloc, row)?),
        Token::Other => on_row!(stack, row => first_denied(alloc, row)?),
        Token::Bar => parted(alloc, stack),
        Token::Close => level(alloc, stack),
        Token::Open => closed(alloc, stack),
        Token::ClassClose => level(alloc, stack),
        Token::Member(low, high) => on_row!(stack, row => member_or(alloc, low, high, row)?),
        Token::Negated => on_row!(stack, row => Part::Outside(Box::new(alloc, row)?)),
        Token::ClassOpen => closed(alloc, stack),
        Token::Hanging => Ok(stack),
    }
}

fn level(alloc: Global, stack: Stack) -> Result<Stack, NoMemory>
    ensures { IfOk result (λ s. levels_of s ≡ with_token Token.Close (levels_of stack)) }
{
    Ok(Stack::Level(Part::Empty, None, Box::new(alloc, stack)?))
}

fn item_in(alloc: Global, item: Part, stack: Stack) -> Result<Stack, NoMemory>
    ensures { IfOk result (λ s. levels_of s ≡ with_item (form_of item) (levels_of stack)) }
{
    on_row!(stack, row => Part::Then(Box::new(alloc, item)?, Box::new(alloc, row)?))
}

fn first_repeated(alloc: Global, row: Part) -> Result<Part, NoMemory>
    ensures { IfOk result (λ p. form_of p ≡ item_many (form_of row)) }
{
    match row {
        Part::Then(item, rest) => Ok(Part::Then(Box::new(alloc, Part::Many(item))?, rest)),
        other => Ok(other),
    }
}

fn first_denied(alloc: Global, row: Part) -> Result<Part, NoMemory>
    ensures { IfOk result (λ p. form_of p ≡ item_other (form_of row)) }
{
    match row {
        Part::Then(item, rest) => Ok(Part::Then(Box::new(alloc, Part::Other(item))?, rest)),
        other => Ok(other),
    }
}

fn parted(alloc: Global, stack: Stack) -> Result<Stack, NoMemory>
    ensures { IfOk result (λ s. levels_of s ≡ with_bar (levels_of stack)) }
{
    match stack {
        Stack::Bottom => Ok(Stack::Bottom),
        Stack::Level(row, rest, below) => {
            let rest = row_and_rest(alloc, row, rest)?;
            Ok(Stack::Level(Part::Empty, Some(rest), below))
        }
    }
}

fn row_and_rest(alloc: Global, row: Part, rest: Option<Part>) -> Result<Part, NoMemory>
    ensures { IfOk result (λ p. form_of p ≡ whole_row (form_of row) (option_map form_of rest)) }
{
    match rest {
        None => Ok(row),
        Some(rest) => Ok(Part::Either(Box::new(alloc, row)?, Box::new(alloc, rest)?)),
    }
}

fn closed(alloc: Global, stack: Stack) -> Result<Stack, NoMemory>
    ensures { IfOk result (λ s. levels_of s ≡ with_group (levels_of stack)) }
{
    match stack {
        Stack::Bottom => Ok(Stack::Bottom),
        Stack::Level(row, rest, below) => {
            let group = row_and_rest(alloc, row, rest)?;
            item_in(alloc, group, Box::into_inner(below))
        }
    }
}

fn member_or(alloc: Global, low: u8, high: u8, row: Part) -> Result<Part, NoMemory>
    ensures { IfOk result (λ p. form_of p ≡ with_member low high (form_of row)) }
{
    match row {
        Part::Empty => Ok(Part::Range(low, high)),
        other => Ok(Part::Either(
            Box::new(alloc, Part::Range(low, high))?,
            Box::new(alloc, other)?,
        )),
    }
}
