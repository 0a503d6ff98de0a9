//! The value of an expression, by its tokens from left to right.
ghost use Rattle.std.specs.Prelude.{◌≡◌, ℤ, [], Option, IfOk};
ghost use Rattle.ados_text.specs.Stop.{Gives};
ghost use Rattle.ados_env.specs.{Grammar.{IsExpression}, Tokens.{tokens_of}, Expression.{closed, expression_value, limit_read, operator_read, settled_value, state_after, state_of, value_read, waits_left, waits_of, wanting_after, whole_value}};

use crate::operators::{Operator, Prefix};
use crate::tokens::{Token, tokens_of};
use ados_text::{NoMemory, Result2, Stop};
use std::alloc::Global;

/// What waits for a value.
#[derive(Clone, Copy)]
pub enum Wait {
    /// A bracket that is open.
    Bracket,
    /// A prefix.
    Prefix(Prefix),
    /// An operator, after its first value, which is `None` if it has a fault.
    Operator(Option<i32>, Operator),
}

/// All that waits for a value, the last first.
#[derive(Drop)]
pub enum Waits {
    Nothing,
    First(Wait, Box<Waits>),
}

/// How far an expression was read.
#[derive(Drop)]
pub enum Reader {
    /// A value is wanted.
    Wanting(Waits),
    /// A value was read; it is `None` if it has a fault.
    Having(Option<i32>, Waits),
    /// A token stands where it may not.
    Failing,
}

/// The value of an expression.
///
/// 116 where a value is wanted and the text ends; 115 for any other fault of form, and for a value that is no number. What the
/// grammar writes has the value that it says.
#[tactic(auto, using(crate::proofs::GrammarLemmas::grammar_read))]
pub fn expression_value(alloc: Global, text: &[u8]) -> Result<i32, Stop>
    ensures value { Gives result (expression_value text.now) }
    ensures grammar { (value : Option ℤ) → IsExpression (tokens_of text.now) value → expression_value text.now ≡ whole_value value [] }
{
    let tokens = tokens_of(alloc, text)?;
    read(alloc, Reader::Wanting(Waits::Nothing), tokens.as_slice())?.ended()
}

// Reads tokens in order.
fn read(alloc: Global, reader: Reader, tokens: &[Token]) -> Result<Reader, NoMemory>
    ensures { IfOk result (λ r. state_of r ≡ state_after (state_of reader) tokens.now) }
{
    match tokens {
        [] => Ok(reader),
        [token, rest @ ..] => {
            let reader = reader.with(alloc, *token)?;
            read(alloc, reader, rest)
        }
    }
}

impl Reader {
    ghost use Rattle.ados_env.specs.Expression.{with_token, ended};

    fn with(self, alloc: Global, token: Token) -> Result<Reader, NoMemory>
        ensures { IfOk result (λ r. state_of r ≡ with_token token (state_of self)) }
    {
        match self {
            Reader::Wanting(waits) => value_read(alloc, token, waits),
            Reader::Having(value, waits) => operator_read(alloc, token, value, waits),
            Reader::Failing => Ok(Reader::Failing),
        }
    }

    fn ended(self) -> Result<i32, Stop>
        ensures { Gives result (ended (state_of self)) }
    {
        match self {
            Reader::Wanting(_) => Err(Stop::Refused(Result2::ARGUMENT_MISSING)),
            Reader::Having(value, waits) => {
                let (value, waits) = settled(0, value, waits);
                whole(value, waits)
            }
            Reader::Failing => Err(Stop::Refused(Result2::BAD_NUMBER)),
        }
    }
}

// The value of an expression at whose end this waits.
fn whole(value: Option<i32>, waits: Waits) -> Result<i32, Stop>
    ensures { Gives result (whole_value value (waits_of waits)) }
{
    match waits {
        Waits::Nothing => match value {
            Some(value) => Ok(value),
            None => Err(Stop::Refused(Result2::BAD_NUMBER)),
        },
        Waits::First(_, _) => Err(Stop::Refused(Result2::BAD_NUMBER)),
    }
}

// A token where a value is wanted.
fn value_read(alloc: Global, token: Token, waits: Waits) -> Result<Reader, NoMemory>
    ensures { IfOk result (λ r. state_of r ≡ value_read token (waits_of waits)) }
{
    match token {
        Token::Number(number) => Ok(Reader::Having(Some(number), waits)),
        Token::Limit => Ok(limit_read(waits)),
        Token::Operator(Operator::Minus) => {
            wanting(alloc, Wait::Prefix(Prefix::Negative), waits)
        }
        Token::Complement => wanting(alloc, Wait::Prefix(Prefix::Complement), waits),
        Token::Open => wanting(alloc, Wait::Bracket, waits),
        Token::Operator(_) | Token::Close | Token::Wrong => Ok(Reader::Failing),
    }
}

// One thing more waits for a value.
fn wanting(alloc: Global, wait: Wait, waits: Waits) -> Result<Reader, NoMemory>
    ensures { IfOk result (λ r. state_of r ≡ wanting_after wait (waits_of waits)) }
{
    Ok(Reader::Wanting(Waits::First(wait, Box::new(alloc, waits)?)))
}

// 2147483648 is a number only as the value of a `-`.
fn limit_read(waits: Waits) -> Reader
    ensures { state_of result ≡ limit_read (waits_of waits) }
{
    match waits {
        Waits::Nothing => Reader::Failing,
        Waits::First(wait, below) => match wait {
            Wait::Prefix(Prefix::Negative) => {
                Reader::Having(Some(i32::MIN), Box::into_inner(below))
            }
            _ => Reader::Failing,
        },
    }
}

// A token after a value.
fn operator_read(
    alloc: Global,
    token: Token,
    value: Option<i32>,
    waits: Waits,
) -> Result<Reader, NoMemory>
    ensures { IfOk result (λ r. state_of r ≡ operator_read token value (waits_of waits)) }
{
    match token {
        Token::Operator(operator) => {
            let (first, waits) = settled(operator.level(), value, waits);
            wanting(alloc, Wait::Operator(first, operator), waits)
        }
        Token::Close => {
            let (value, waits) = settled(0, value, waits);
            Ok(closed(value, waits))
        }
        _ => Ok(Reader::Failing),
    }
}

// The value in a bracket is a value.
fn closed(value: Option<i32>, waits: Waits) -> Reader
    ensures { state_of result ≡ closed value (waits_of waits) }
{
    match waits {
        Waits::First(Wait::Bracket, below) => Reader::Having(value, Box::into_inner(below)),
        _ => Reader::Failing,
    }
}

// The value after what waits for it has acted, the last first, as long as it binds as strongly as a level; and what
// still waits.
fn settled(level: u8, value: Option<i32>, waits: Waits) -> (Option<i32>, Waits)
    ensures value { result.0 ≡ settled_value level value (waits_of waits) }
    ensures left { waits_of result.1 ≡ waits_left level (waits_of waits) }
{
    match waits {
        Waits::Nothing => (value, Waits::Nothing),
        Waits::First(wait, below) => match wait {
            Wait::Bracket => (value, Waits::First(wait, below)),
            Wait::Prefix(prefix) => settled(level, prefix.value(value), Box::into_inner(below)),
            Wait::Operator(first, operator) => {
                if level > operator.level() {
                    return (value, Waits::First(wait, below));
                }
                settled(level, operator.value(first, value), Box::into_inner(below))
            }
        },
    }
}
