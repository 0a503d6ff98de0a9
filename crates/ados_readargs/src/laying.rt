// What was read is given to the options.
ghost use Rattle.std.specs.Prelude.{◌≡◌, ◌++◌, ◌∷◌, [], ◌<◌, length, OnOk};
ghost use Rattle.ados_readargs.specs.Args.{sets_flag, arg_at, args_of};

use crate::option_list::OptionList;
use crate::options::Qualifiers;
use crate::readings::{Readings, named_count};
use crate::shares::share;
use crate::slots::Slots;
use ados_text::NoMemory;

// Whether a switch or toggle that was named `named` times is on.
fn sets_flag(q: Qualifiers, named: usize) -> bool
    ensures { result ≡ sets_flag q named }
{
    if q.switch { named > 0 } else { named % 2 == 1 }
}

// Adds what the option at a place, with its qualifiers, was given.
#[tactic(auto, unfolding(crate::specs::Args::arg_at))]
fn lay_option(
    options: &OptionList,
    line: &[u8],
    readings: &Readings,
    place: usize,
    q: Qualifiers,
    slots: &mut Slots,
) -> Result<(), NoMemory>
    requires { place < length options.now }
    ensures { OnOk result (slots.new ≡ slots.old ++ arg_at options.now line.now readings.now place q ∷ []) }
{
    let given = readings.given.as_slice();
    if q.takes_value() {
        slots.push_values(q, line, given, place, share(options, readings, place))
    } else {
        slots.push_switch(sets_flag(q, named_count(given, place)))
    }
}

/// Assigns what the words of a line were read as to the options, in place of what is there. At `NoMemory`
/// the contents are unspecified.
pub fn lay(
    options: &OptionList,
    line: &[u8],
    readings: &Readings,
    slots: &mut Slots,
) -> Result<(), NoMemory>
    ensures args { OnOk result (slots.new ≡ args_of options.now line.now readings.now) }
    ensures len { OnOk result (length slots.new ≡ length options.now) }
{
    slots.clear();
    let items = options.as_slice();
    for place in 0..items.len() {
        lay_option(
            options,
            line,
            readings,
            place,
            items[place].qualifiers,
            slots,
        )?;
    }
    Ok(())
}
