// The arguments of a line, or its first fault.
ghost use Rattle.std.specs.Prelude.{◌≡◌, Ok, false, IfErr, OnOk};
ghost use Rattle.ados_readargs.specs.{Checks.{has_bad}, Faults.{IsFaultOf}, Fill.{args_of_readings}, Shares.{TakesAll}};

use crate::checks::{has_bad, lacks};
use crate::errors::ArgFault;
use crate::laying::lay;
use crate::option_list::OptionList;
use crate::readings::Readings;
use crate::shares::is_left;
use crate::slots::Slots;

/// The arguments, if no word is left over, none is missing and numbers are numbers. After a fault
/// the contents are unspecified.
pub fn args_read(
    options: &OptionList,
    line: &[u8],
    readings: &Readings,
    args: &mut Slots,
) -> Result<(), ArgFault>
    ensures ok { OnOk result (args_of_readings options.now line.now (Ok readings.now) ≡ Ok args.new) }
    ensures numbers { OnOk result (has_bad options.now args.new ≡ false) }
    ensures taken { OnOk result (TakesAll options.now readings.now) }
    ensures fault { IfErr result (λ e. IsFaultOf (args_of_readings options.now line.now (Ok readings.now)) e) }
{
    lay(options, line, readings, args)?;
    if is_left(options, readings) {
        return Err(ArgFault::TooMany);
    }
    if lacks(options, args) {
        return Err(ArgFault::ArgumentMissing);
    }
    if has_bad(options, args) {
        return Err(ArgFault::BadNumber);
    }
    Ok(())
}
