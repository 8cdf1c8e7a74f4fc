//! A masked account number.

ghost use Rattle.std.specs.Prelude.{◌≡◌, ◌++◌, OnOk, replicate};
ghost use Rattle.iso_mask.specs.Masks as spec;

use std::alloc::AllocError;

/// An account number of fewer digits than this is masked whole.
const SHORTEST: usize = 11;

fn push_asterisks(text: &mut Vec<u8>, count: usize) -> Result<(), AllocError>
    ensures { OnOk result (text.new.items ≡ text.old.items ++ replicate count 42) }
{
    for _ in 0..count {
        text.push(b'*')?;
    }
    Ok(())
}

/// Adds an account number whose middle digits are masked, each by an asterisk.
pub fn push_masked_number(text: &mut Vec<u8>, value: &[u8]) -> Result<(), AllocError>
    ensures { OnOk result (text.new.items ≡ text.old.items ++ spec.masked_number value.now) }
{
    if value.len() < SHORTEST {
        return push_asterisks(text, value.len());
    }
    text.extend_from_slice(&value[..6])?;
    push_asterisks(text, value.len() - 10)?;
    text.extend_from_slice(&value[value.len() - 4..])
}
