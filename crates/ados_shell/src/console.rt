// What is printed on the console.
ghost use Rattle.std.specs.{Prelude.{◌≡◌, ◌++◌, OnOk}, Fmt.{signed_decimal}};
ghost use Rattle.ados_machine.specs.FaultLines.{fault_line, failure, failed_line};

use ados_flow::is_reached;
use ados_text::{Code, NoMemory, Octets, Result2, fault_text, push_number};

/// Prints a command's output. If nothing was printed before, the output is moved, not copied.
pub fn push_output(out: &mut Vec<u8>, output: Octets) -> Result<(), NoMemory>
    ensures { OnOk result (out.new.items ≡ out.old.items ++ output) }
{
    if out.is_empty() {
        *out = output.into_vec();
    } else {
        out.extend_from_slice(output.as_bytes())?;
    }
    Ok(())
}

/// Prints the text of a fault under the command's word, if there is a fault.
pub fn push_fault(out: &mut Vec<u8>, word: &[u8], fault: Result2) -> Result<(), NoMemory>
    ensures { OnOk result (out.new.items ≡ out.old.items ++ fault_line word.now fault) }
{
    if fault.0 == 0 {
        return Ok(());
    }
    out.extend_from_slice(word)?;
    out.extend_from_slice(b": ")?;
    out.extend_from_slice(fault_text(fault).as_bytes())?;
    out.push(b'\n')?;
    Ok(())
}

/// Prints that a command failed, if its code is at the limit or above.
pub fn push_failed(out: &mut Vec<u8>, word: &[u8], code: Code, limit: Code) -> Result<(), NoMemory>
    ensures { OnOk result (out.new.items ≡ out.old.items ++ failed_line word.now code limit) }
{
    if is_reached(limit, code) {
        push_failure(out, word, code)
    } else {
        Ok(())
    }
}

fn push_failure(out: &mut Vec<u8>, word: &[u8], code: Code) -> Result<(), NoMemory>
    ensures { OnOk result (out.new.items ≡ out.old.items ++ failure word.now code) }
{
    out.extend_from_slice(word)?;
    out.extend_from_slice(b" failed returncode ")?;
    push_code(out, code)?;
    out.push(b'\n')?;
    Ok(())
}

/// Prints a code in decimal.
pub fn push_code(out: &mut Vec<u8>, code: Code) -> Result<(), NoMemory>
    ensures { OnOk result (out.new.items ≡ out.old.items ++ signed_decimal code.0) }
{
    push_number(out, code.0)
}
