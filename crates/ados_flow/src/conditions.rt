// The conditions of If. A number is the index of an option in If's template (src/rows.rt), from 0.
ghost use Rattle.std.specs.{Prelude.{◌≡◌, ◌++◌, Err, IfOk, filter, option_to_list}, Option.{option_map}};
ghost use Rattle.ados_find.specs.{Codes.{fail_codes}, Paths.{Gives, place_of}};
ghost use Rattle.ados_readargs.specs.Args.{option_text};
ghost use Rattle.ados_flow.specs.Conditions.{exists, code_reaches, is_given, place_exists, single_test, argument_order, order_if_both, order_of, if_test};

use crate::code_rule::is_reached;
use ados_find::{Codes, Refusal, Shared, ShellView, place_of};
use ados_readargs::Args;
use ados_text::{Code, NoMemory, Result2, Text, bounded_number, name_order};
use std::alloc::Global;
use std::cmp::Ordering;

/// What If may test.
#[derive(Clone, Copy)]
pub enum Test {
    /// The last command's code is 5 or above.
    Warn,
    /// It is 10 or above.
    Error,
    /// It is 20 or above.
    Fail,
    /// The word is equal to the value of EQ.
    Equal,
    /// It is greater than that of GT.
    Greater,
    /// It is that of GE, or greater.
    GreaterOrEqual,
    /// The path of EXISTS leads to an object.
    Exists,
}

impl Test {
    ghost use Rattle.ados_flow.specs.Conditions.{holds, is_given, test_of};

    /// All tests.
    pub const ALL: [Test; 7] = [
        Test::Warn,
        Test::Error,
        Test::Fail,
        Test::Equal,
        Test::Greater,
        Test::GreaterOrEqual,
        Test::Exists,
    ];

    /// The one test that the arguments ask for.
    ///
    /// 116 if they ask for none, and 118 if they ask for more than one.
    fn of(args: &Args) -> Result<Test, Refusal>
        ensures { Gives result (test_of args.now) }
    {
        only(args, None, &Test::ALL)
    }

    // The arguments ask for it.
    fn is_given(self, args: &Args) -> bool
        ensures { result ≡ is_given args.now self }
    {
        match self {
            Test::Warn => args.has_switch(1),
            Test::Error => args.has_switch(2),
            Test::Fail => args.has_switch(3),
            Test::Equal => args.text(5).is_some(),
            Test::Greater => args.text(6).is_some(),
            Test::GreaterOrEqual => args.text(7).is_some(),
            Test::Exists => args.text(9).is_some(),
        }
    }

    // Whether it holds.
    //
    // 116 if a word to compare is missing, and with VAL 115 if one is not a number.
    fn holds(
        self,
        alloc: Global,
        shared: &Shared,
        view: &ShellView,
        args: &Args,
    ) -> Result<bool, Refusal>
        ensures { Gives result (holds shared.now view.now args.now self) }
    {
        match self {
            Test::Warn => Ok(code_reaches(Code::WARN, view)),
            Test::Error => Ok(code_reaches(Code::ERROR, view)),
            Test::Fail => Ok(code_reaches(Code::FAIL, view)),
            Test::Equal => Ok(argument_order(args, 5)?.is_eq()),
            Test::Greater => Ok(argument_order(args, 6)?.is_gt()),
            Test::GreaterOrEqual => Ok(argument_order(args, 7)?.is_ge()),
            Test::Exists => Ok(exists(alloc, shared, view, args)?),
        }
    }
}

// The one test that the arguments ask for, of these and the one that was found before.
fn only(args: &Args, found: Option<Test>, tests: &[Test]) -> Result<Test, Refusal>
    ensures { Gives result (single_test (option_to_list found ++ filter (is_given args.now) tests.now)) }
{
    match (tests.split_first(), found) {
        (None, None) => refused(Result2::ARGUMENT_MISSING),
        (None, Some(test)) => Ok(test),
        (Some((test, tests)), found) if !test.is_given(args) => only(args, found, tests),
        (Some((test, tests)), None) => only(args, Some(*test), tests),
        (Some(_), Some(_)) => refused(Result2::TOO_MANY_ARGUMENTS),
    }
}

/// Whether the one test that the arguments ask for holds.
///
/// 118 if they ask for more than one; 116 if they ask for none, or a word to compare is missing; with VAL 115
/// if a word is not a number. A path that can't be parsed or resolved leads to no object.
pub fn tested(
    alloc: Global,
    shared: &Shared,
    view: &ShellView,
    args: &Args,
) -> Result<bool, Refusal>
    ensures { Gives result (if_test shared.now view.now args.now) }
{
    Test::of(args)?.holds(alloc, shared, view, args)
}

// The last command's code is at a level, or above.
fn code_reaches(level: Code, view: &ShellView) -> bool
    ensures { result ≡ code_reaches level view.now }
{
    is_reached(level, view.codes.code)
}

// The order of the unnamed word and the value of the option with this index.
fn argument_order(args: &Args, index: usize) -> Result<Ordering, Refusal>
    ensures { Gives result (argument_order args.now index) }
{
    order_by(args.has_switch(8), args.text(4), args.text(index))
}

fn order_by(by_value: bool, left: Option<&[u8]>, right: Option<&[u8]>) -> Result<Ordering, Refusal>
    ensures { Gives result (order_if_both by_value (option_map (λ t. t.now) left.entry) (option_map (λ t. t.now) right.entry)) }
{
    match (left, right) {
        (Some(left), Some(right)) => order_of(by_value, left, right),
        _ => refused(Result2::ARGUMENT_MISSING),
    }
}

// The order of two words: of their numbers, or of their bytes in lower case.
fn order_of(by_value: bool, left: &[u8], right: &[u8]) -> Result<Ordering, Refusal>
    ensures { Gives result (order_of by_value left.now right.now) }
{
    if by_value {
        match (bounded_number(left), bounded_number(right)) {
            (Some(left), Some(right)) => Ok(left.cmp(&right)),
            _ => refused(Result2::BAD_NUMBER),
        }
    } else {
        Ok(name_order(left, right))
    }
}

// The path of EXISTS leads to an object.
fn exists(alloc: Global, shared: &Shared, view: &ShellView, args: &Args) -> Result<bool, NoMemory>
    ensures { IfOk result (λ there. there ≡ exists shared.now view.now (option_text args.now 9)) }
{
    match args.made_text(alloc, 9)? {
        None => Ok(false),
        Some(word) => place_exists(alloc, shared, view, &word),
    }
}

fn place_exists(
    alloc: Global,
    shared: &Shared,
    view: &ShellView,
    word: &Text,
) -> Result<bool, NoMemory>
    ensures { IfOk result (λ there. there ≡ place_exists shared.now (place_of shared.now view.now.parts.directory word.now)) }
{
    match place_of(alloc, shared, view.directory, word) {
        Err(Refusal::NoMemory) => Err(NoMemory),
        Err(Refusal::Stopped(_)) => Ok(false),
        Ok(place) => Ok(shared.ram.look(&place).is_some()),
    }
}

// If returns 20 for a fault of its arguments.
fn refused<X>(fault: Result2) -> Result<X, Refusal>
    ensures { Gives result (Err (fail_codes fault)) }
{
    Err(Refusal::Stopped(Codes::failed(fault)))
}
