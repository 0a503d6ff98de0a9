// What is asked of an option once the words are read: `/A` and `/N`.
ghost use Rattle.std.specs.{Prelude.{◌≡◌, length, slice_get}, List.{list_any}};
ghost use Rattle.ados_readargs.specs.{Args.{or_absent, option_texts}, Checks.{any_option, is_broken_by, lacks, is_bad_text, has_bad}};

use crate::option_list::OptionList;
use crate::options::TemplateOption;
use crate::slots::Slots;
use ados_text::bounded_number;

/// Whether an option with `/A` has no argument.
#[tactic(auto, using(crate::proofs::OptionLemmas::none_lacks))]
pub fn lacks(options: &OptionList, args: &Slots) -> bool
    requires { length args.now ≡ length options.now }
    ensures { result ≡ lacks options.now args.now }
{
    options.with_required() && Demand::Argument.is_broken(options.as_slice(), args)
}

/// Whether an option with `/N` has a text that is not a number.
#[tactic(auto, using(crate::proofs::OptionLemmas::none_bad))]
pub fn has_bad(options: &OptionList, args: &Slots) -> bool
    requires { length args.now ≡ length options.now }
    ensures { result ≡ has_bad options.now args.now }
{
    options.with_number() && Demand::Numbers.is_broken(options.as_slice(), args)
}

// What may be asked of an option.
#[derive(Clone, Copy)]
enum Demand {
    // `/A`: an argument.
    Argument,
    // `/N`: texts that are numbers.
    Numbers,
}

impl Demand {
    // Whether one of the options does not meet it.
    fn is_broken(self, options: &[TemplateOption], args: &Slots) -> bool
        requires { length args.now ≡ length options.now }
        ensures { result ≡ any_option (is_broken_by self) options.now args.now }
    {
        for place in 0..options.len() {
            if self.is_broken_by(&options[place], args, place) {
                return true;
            }
        }
        false
    }

    // Whether the option at a place does not meet it.
    #[tactic(auto, using(crate::proofs::CheckLemmas::bad_text))]
    fn is_broken_by(self, option: &TemplateOption, args: &Slots, place: usize) -> bool
        ensures { result ≡ is_broken_by self option.now (or_absent (slice_get args.now place)) }
    {
        match self {
            Demand::Argument => option.qualifiers.required && args.is_absent(place),
            Demand::Numbers => option.qualifiers.number && has_bad_text(args, place),
        }
    }
}

// Whether a text of the option at a place is not a number.
fn has_bad_text(args: &Slots, place: usize) -> bool
    ensures { result ≡ list_any is_bad_text (option_texts args.now place) }
{
    for number in 0..args.texts_len(place) {
        if is_bad_text(args.text_of(place, number)) {
            return true;
        }
    }
    false
}

fn is_bad_text(text: &[u8]) -> bool
    ensures { result ≡ is_bad_text text.now }
{
    bounded_number(text).is_none()
}
