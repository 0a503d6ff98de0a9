// Eval in Full: the value of an expression.
ghost use Rattle.std.specs.{Prelude.{◌≡◌, ◌++◌, IfOk, OnOk}, List.{flat_map}, Option.{option_map}};
ghost use Rattle.ados_find.specs.Effects.{DoesTo, effect_of};
ghost use Rattle.ados_readargs.specs.Args.{option_texts};
ghost use Rattle.ados_env.specs.EvalFull.{after_blank, eval_text, expression_row, full_eval_row, value_output};

use crate::eval_format::formatted_value;
use crate::expressions::expression_value;
use crate::options::{EVAL_LFORMAT, EVAL_OP, EVAL_TO, EVAL_VALUE1, EVAL_VALUE2};
use ados_find::{Codes, CommandResult, Outcome, Shared, ShellView, output_to};
use ados_readargs::Args;
use ados_text::{NoMemory, Stop, push_number};
use std::alloc::Global;

/// Eval prints the value of an expression, or writes it to the file of TO, with the refusals of `output_to`.
///
/// 116 where a value is wanted and the text ends; 115 for any other fault of form, and for a value that is no number: all
/// with 20.
pub fn eval_in_full(alloc: Global, shared: &Shared, view: &ShellView, args: &Args) -> CommandResult
    ensures { IfOk result (λ outcome. effect_of shared.now outcome ≡ full_eval_row shared.now view.now args.now) }
{
    let to = args.made_text(alloc, EVAL_TO)?;
    let outcome = print_expression(alloc, args)?;
    output_to(alloc, shared, view, to.as_ref(), outcome)
}

// Eval without TO.
fn print_expression(alloc: Global, args: &Args) -> CommandResult
    ensures { IfOk result (λ outcome. DoesTo outcome (λ shared. expression_row shared args.now)) }
{
    let text = eval_text(alloc, args)?;
    match expression_value(alloc, text.as_slice()) {
        Err(Stop::NoMemory) => Err(NoMemory),
        Err(Stop::Refused(fault)) => Ok(Outcome::answering(alloc, Codes::failed(fault))),
        Ok(value) => {
            let output = value_output(alloc, value, args.text(EVAL_LFORMAT))?;
            Ok(Outcome::putting(output))
        }
    }
}

// The words, with a blank between one and the next.
fn eval_text(alloc: Global, args: &Args) -> Result<Vec<u8>, NoMemory>
    ensures { IfOk result (λ text. text.items ≡ eval_text args.now) }
{
    let mut text = Vec::from_slice(alloc, args.text_of(EVAL_VALUE1, 0))?;
    push_words(&mut text, args, EVAL_OP)?;
    push_words(&mut text, args, EVAL_VALUE2)?;
    Ok(text)
}

// Adds the words of an option, each after a blank.
fn push_words(text: &mut Vec<u8>, args: &Args, place: usize) -> Result<(), NoMemory>
    ensures { OnOk result (text.new.items ≡ text.old.items ++ flat_map after_blank (option_texts args.now place)) }
{
    for number in 0..args.texts_len(place) {
        push_word(text, args.text_of(place, number))?;
    }
    Ok(())
}

fn push_word(text: &mut Vec<u8>, word: &[u8]) -> Result<(), NoMemory>
    ensures { OnOk result (text.new.items ≡ text.old.items ++ after_blank word.now) }
{
    text.push(b' ')?;
    text.extend_from_slice(word)?;
    Ok(())
}

fn value_output(alloc: Global, value: i32, format: Option<&[u8]>) -> Result<Vec<u8>, NoMemory>
    ensures { IfOk result (λ output. output.items ≡ value_output value (option_map (λ f. f.now) format.entry)) }
{
    match format {
        Some(format) => formatted_value(alloc, value, format),
        None => {
            let mut output = Vec::new(alloc);
            push_number(&mut output, value)?;
            output.push(b'\n')?;
            Ok(output)
        }
    }
}
