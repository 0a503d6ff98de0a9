// What Eval prints of a value with LFORMAT.
ghost use Rattle.std.specs.Prelude.{◌≡◌, ◌++◌, OnOk, IfOk};
ghost use Rattle.ados_env.specs.EvalFormat.{field_len, formatted_from, formatted_value, piece_bytes, piece_len, width_digits, width_in};

use crate::numerals::Base;
use ados_text::{NoMemory, at_most, fold, push_number, push_zero_padded};
use std::alloc::Global;

/// What is put in for a `%` and a letter.
#[derive(Clone, Copy)]
pub enum Field {
    Hexadecimal,
    Octal,
    Decimal,
    /// The character of the low 7 bits.
    Character,
    Percent,
}

/// A value by a format.
pub fn formatted_value(alloc: Global, value: i32, format: &[u8]) -> Result<Vec<u8>, NoMemory>
    ensures { IfOk result (λ output. output.items ≡ formatted_value value format.now) }
{
    let mut output = Vec::new(alloc);
    push_formatted(&mut output, value, 0, format)?;
    Ok(output)
}

// Adds a value by a format, of which so many first bytes are those of the field before.
fn push_formatted(
    output: &mut Vec<u8>,
    value: i32,
    taken: usize,
    format: &[u8],
) -> Result<(), NoMemory>
    ensures { OnOk result (output.new.items ≡ output.old.items ++ formatted_from value taken format.now) }
{
    match format {
        [] => Ok(()),
        [byte, rest @ ..] => {
            if taken > 0 {
                return push_formatted(output, value, taken - 1, rest);
            }
            if *byte != b'%' {
                output.push(*byte)?;
                return push_formatted(output, value, 0, rest);
            }
            push_piece(output, value, rest)?;
            push_formatted(output, value, piece_len(rest), rest)
        }
    }
}

impl Field {
    ghost use Rattle.ados_env.specs.EvalFormat.{field_bytes, field_of};

    // The field that a letter stands for; case is ignored.
    fn of(letter: u8) -> Option<Field>
        ensures { result ≡ field_of letter }
    {
        match fold(letter) {
            b'x' => Some(Field::Hexadecimal),
            b'o' => Some(Field::Octal),
            b'n' => Some(Field::Decimal),
            b'c' => Some(Field::Character),
            b'%' => Some(Field::Percent),
            _ => None,
        }
    }

    // Adds what is put in for it, before the rest.
    fn push(self, output: &mut Vec<u8>, value: i32, rest: &[u8]) -> Result<(), NoMemory>
        ensures { OnOk result (output.new.items ≡ output.old.items ++ field_bytes value self rest.now) }
    {
        let alloc = *output.allocator();
        let bits = value.cast_unsigned();
        match self {
            Field::Hexadecimal => {
                let digits = format!(in alloc; "{bits:X}")?;
                push_zero_padded(output, width_in(rest), digits.as_bytes())
            }
            Field::Octal => {
                let digits = format!(in alloc; "{bits:o}")?;
                push_zero_padded(output, width_in(rest), digits.as_bytes())
            }
            Field::Decimal => push_number(output, value),
            Field::Character => {
                output.push((bits % 128) as u8)?;
                Ok(())
            }
            Field::Percent => {
                output.push(b'%')?;
                Ok(())
            }
        }
    }
}

// Adds what a `%` stands for before the rest.
#[tactic(auto, unfolding(crate::specs::EvalFormat::piece_bytes))]
fn push_piece(output: &mut Vec<u8>, value: i32, rest: &[u8]) -> Result<(), NoMemory>
    ensures { OnOk result (output.new.items ≡ output.old.items ++ piece_bytes value rest.now) }
{
    match rest {
        [] => {
            output.push(b'%')?;
            Ok(())
        }
        [letter, rest @ ..] => match Field::of(*letter) {
            None => {
                output.push(b'%')?;
                Ok(())
            }
            Some(field) => field.push(output, value, rest),
        },
    }
}

// How many bytes of the rest belong to it.
#[tactic(auto, unfolding(crate::specs::EvalFormat::piece_len))]
fn piece_len(rest: &[u8]) -> usize
    ensures { result ≡ piece_len rest.now }
{
    match rest {
        [] => 0,
        [letter, rest @ ..] => match Field::of(*letter) {
            None => 0,
            Some(field) => 1 + field_len(field, rest),
        },
    }
}

// How many digits belong to a field.
fn field_len(field: Field, rest: &[u8]) -> usize
    ensures value { result ≡ field_len field rest.now }
{
    match field {
        Field::Hexadecimal | Field::Octal => width_digits(rest).len(),
        Field::Decimal | Field::Character | Field::Percent => 0,
    }
}

// How many digits there are at least.
fn width_in(rest: &[u8]) -> usize
    ensures { result ≡ width_in rest.now }
{
    match Base::Decimal.number(width_digits(rest)) {
        None => 0,
        Some(width) => width as usize,
    }
}

// A width has one digit or two.
fn width_digits(rest: &[u8]) -> &[u8]
    ensures { result.now ≡ width_digits rest.now }
{
    at_most(Base::Decimal.digits_in(rest), 2)
}
