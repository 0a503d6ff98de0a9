//! Branches: If, Else and Skip, by which a script continues at another line.
ghost use Rattle.std.specs.{Prelude.{◌≡◌, IfOk}, Option.{option_copied, option_map}};
ghost use Rattle.ados_text.specs.declared.codes.TheConstants.Result2.{WRONG_TYPE};
ghost use Rattle.ados_find.specs.{Codes.{fail_codes}, Effects.{codes_effect}, Shared.{SharedState}};
ghost use Rattle.ados_readargs.specs.Args.{has_switch, option_texts};
ghost use Rattle.ados_script.specs.Skips.{skip as skip_of};
ghost use Rattle.ados_flow.specs.{Actions.{Does, action_effect}, Branches.{else_row, if_row, jump_action, label_sought, phrase_or_none, skip_row}, Frames.{script_line_of}};

use crate::actions::Action;
use crate::conditions::tested;
use crate::frames::Frame;
use ados_find::{Codes, Refusal, Shared, ShellView};
use ados_readargs::Args;
use ados_resident::Dialect;
use ados_script::{Jump, Script};
use ados_text::{NoMemory, Result2, Text};
use std::alloc::Global;

/// The place of Skip's LABEL among its options.
pub const SKIP_LABEL: usize = 0;

/// The place of its BACK.
pub const SKIP_BACK: usize = 1;

/// If continues, or jumps after its Else or EndIf if its test fails. NOT inverts the test.
///
/// 212 if the newest frame is not a script; then what `tested` refuses.
pub fn branch(
    alloc: Global,
    shared: &Shared,
    frame: Option<&Frame>,
    view: &ShellView,
    args: &Args,
) -> Result<Action, NoMemory>
    ensures { IfOk result (λ action. action_effect shared.now action ≡ if_row shared.now (script_line_of (option_copied frame.entry)) view.now args.now) }
{
    let Some((script, line)) = script_line(frame) else {
        return Ok(wrong_type(alloc));
    };
    match tested(alloc, shared, view, args) {
        Err(Refusal::NoMemory) => Err(NoMemory),
        Err(Refusal::Stopped(codes)) => Ok(Action::answering(alloc, codes)),
        Ok(held) if held != args.has_switch(0) => Ok(Action::answering(alloc, Codes::NONE)),
        Ok(_) => Ok(jumped(script.after_if(line))),
    }
}

/// Else jumps after its EndIf.
///
/// 212 if the newest frame is not a script.
pub fn pass_block(alloc: Global, frame: Option<&Frame>) -> Action
    ensures { (shared : SharedState) → action_effect shared result ≡ else_row shared (script_line_of (option_copied frame.entry)) }
{
    match script_line(frame) {
        None => wrong_type(alloc),
        Some((script, line)) => jumped(script.after_else(line)),
    }
}

/// Skip jumps after the Lab with its LABEL, or any Lab without one, looked for below it or with BACK from the first line on, or
/// after an EndSkip that comes before that.
///
/// 212 if the newest frame is not a script.
pub fn skip(
    alloc: Global,
    shared: &Shared,
    frame: Option<&Frame>,
    args: &Args,
) -> Result<Action, NoMemory>
    ensures { IfOk result (λ action. action_effect shared.now action ≡ skip_row shared.now (script_line_of (option_copied frame.entry)) args.now) }
{
    match script_line(frame) {
        None => Ok(wrong_type(alloc)),
        Some((script, line)) => Ok(jumped(skip_from(alloc, shared.dialect, script, line, args)?)),
    }
}

/// Where a Skip with these arguments at a line of a script leads. `NoMemory` only if an allocation fails.
pub fn skip_from(
    alloc: Global,
    dialect: Dialect,
    script: &Script,
    line: usize,
    args: &Args,
) -> Result<Jump, NoMemory>
    ensures { IfOk result (λ jump. jump ≡ skip_of dialect script.now line (label_sought dialect args.now) (has_switch args.now SKIP_BACK)) }
{
    let back = args.has_switch(SKIP_BACK);
    if let Dialect::Core = dialect {
        return Ok(script.skip(dialect, line, args.text(SKIP_LABEL), back));
    }
    match label_sought(alloc, dialect, args)? {
        None => Ok(script.skip(dialect, line, None, back)),
        Some(label) => Ok(script.skip(dialect, line, Some(label.as_bytes()), back)),
    }
}

/// The label that Skip's arguments name, if they do. `NoMemory` only if an allocation fails.
pub fn label_sought(alloc: Global, dialect: Dialect, args: &Args) -> Result<Option<Text>, NoMemory>
    ensures { IfOk result (λ label. label ≡ label_sought dialect args.now) }
{
    match dialect {
        Dialect::Core => args.made_text(alloc, SKIP_LABEL),
        Dialect::Full => phrase(alloc, args),
    }
}

// The words of the label, with one blank between two.
#[tactic(auto, using(crate::proofs::PhraseLemmas::joined))]
fn phrase(alloc: Global, args: &Args) -> Result<Option<Text>, NoMemory>
    ensures { IfOk result (λ label. label ≡ phrase_or_none (option_texts args.now SKIP_LABEL)) }
{
    let count = args.texts_len(SKIP_LABEL);
    if count == 0 {
        return Ok(None);
    }
    let mut label = Text::new(alloc);
    label.push_bytes(args.text_of(SKIP_LABEL, 0))?;
    for number in 1..count {
        label.push(b' ')?;
        label.push_bytes(args.text_of(SKIP_LABEL, number))?;
    }
    Ok(Some(label))
}

// Where a command of the newest frame is, if that is a script.
fn script_line(frame: Option<&Frame>) -> Option<(&Script, usize)>
    ensures { option_map (λ here. record { lines = here.0.now; line = here.1 }) result ≡ script_line_of (option_copied frame.entry) }
{
    match frame {
        None => None,
        Some(frame) => frame.script_line(),
    }
}

// A script continues where its jump leads, with 5 after an EndSkip; if nothing is found it ends with 20 and 205.
fn jumped(jump: Jump) -> Action
    ensures { (shared : SharedState) → action_effect shared result ≡ jump_action jump }
{
    match jump {
        Jump::To(line) => Action::Jumps {
            line,
            codes: Codes::NONE,
        },
        Jump::EndSkip(line) => Action::Jumps {
            line,
            codes: Codes::warned(Result2::NONE),
        },
        Jump::None => Action::Quits(Codes::failed(Result2::OBJECT_NOT_FOUND)),
    }
}

// What a branch returns outside a script.
fn wrong_type(alloc: Global) -> Action
    ensures { (shared : SharedState) → action_effect shared result ≡ Does (codes_effect shared (fail_codes WRONG_TYPE)) }
{
    Action::answering(alloc, Codes::failed(Result2::WRONG_TYPE))
}
