// Texts in columns of a line.
ghost use Rattle.std.specs.{Prelude.{◌≡◌, ◌++◌, ◌-◌, OnErr, OnOk}, Io.{StartsWith}};
ghost use Rattle.std.proofs.Math.ListN.{replicate};
ghost use Rattle.ados_text.specs.Columns.{left_aligned_text, right_aligned_text, zero_padded_text};

use crate::errors::NoMemory;

/// Writes a text at the left of `width` columns: blanks fill them up; a longer text is written as it is. At `NoMemory` there
/// may be a part of it, behind what stood there before.
#[tactic(auto, using(std::proofs::Transfers::starts_with_of_append, std::proofs::Transfers::starts_with_of_eq, std::proofs::Transfers::starts_with_trans))]
pub fn push_left(output: &mut Vec<u8>, width: usize, text: &[u8]) -> Result<(), NoMemory>
    ensures ok { OnOk result (output.new.items ≡ output.old.items ++ left_aligned_text width text.now) }
    ensures err { OnErr result (StartsWith output.new.items output.old.items) }
{
    output.extend_from_slice(text)?;
    push_padding(output, b' ', width, text.len())
}

/// Writes a text at the right of `width` columns: blanks fill them up; a longer text is written as it is. At `NoMemory` there
/// may be a part of it, behind what stood there before.
#[tactic(auto, using(std::proofs::Transfers::starts_with_of_append, std::proofs::Transfers::starts_with_of_eq, std::proofs::Transfers::starts_with_trans))]
pub fn push_right(output: &mut Vec<u8>, width: usize, text: &[u8]) -> Result<(), NoMemory>
    ensures ok { OnOk result (output.new.items ≡ output.old.items ++ right_aligned_text width text.now) }
    ensures err { OnErr result (StartsWith output.new.items output.old.items) }
{
    push_padding(output, b' ', width, text.len())?;
    output.extend_from_slice(text)?;
    Ok(())
}

/// Writes digits at the right of `width` columns: zeros fill them up; more digits are written as they are. At `NoMemory` there
/// may be a part of it, behind what stood there before.
#[tactic(auto, using(std::proofs::Transfers::starts_with_of_append, std::proofs::Transfers::starts_with_of_eq, std::proofs::Transfers::starts_with_trans))]
pub fn push_zero_padded(output: &mut Vec<u8>, width: usize, digits: &[u8]) -> Result<(), NoMemory>
    ensures ok { OnOk result (output.new.items ≡ output.old.items ++ zero_padded_text width digits.now) }
    ensures err { OnErr result (StartsWith output.new.items output.old.items) }
{
    push_padding(output, b'0', width, digits.len())?;
    output.extend_from_slice(digits)?;
    Ok(())
}

// Writes the bytes that fill up `width` columns, of which some are taken.
#[tactic(auto, using(std::proofs::Transfers::starts_with_of_append, std::proofs::Transfers::starts_with_of_eq))]
fn push_padding(output: &mut Vec<u8>, byte: u8, width: usize, taken: usize) -> Result<(), NoMemory>
    ensures ok { OnOk result (output.new.items ≡ output.old.items ++ replicate (width - taken) byte) }
    ensures err { OnErr result (StartsWith output.new.items output.old.items) }
{
    for _ in 0..width.saturating_sub(taken) {
        output.push(byte)?;
    }
    Ok(())
}
