//! The line of a masked field.

ghost use Rattle.std.specs.Prelude.{◌≡◌, ◌++◌, OnOk};
ghost use Rattle.cli_decode.specs.Masks as spec;

use crate::text::push_number;
use iso_mask::push_masked_number;
use std::alloc::AllocError;

fn push_masked_length(text: &mut Vec<u8>, value: &[u8]) -> Result<(), AllocError>
    ensures { OnOk result (text.new.items ≡ text.old.items ++ spec.masked_length value.now) }
{
    push_number(text, value.len() as u64)?;
    text.extend_from_slice(b" bytes")
}

fn push_masked_value(text: &mut Vec<u8>, number: u8, value: &[u8]) -> Result<(), AllocError>
    ensures { OnOk result (text.new.items ≡ text.old.items ++ spec.masked_value number value.now) }
{
    if number == 2 {
        push_masked_number(text, value)
    } else {
        push_masked_length(text, value)
    }
}

/// Adds the line of a masked field.
pub fn push_masked(text: &mut Vec<u8>, number: u8, value: &[u8]) -> Result<(), AllocError>
    ensures { OnOk result (text.new.items ≡ text.old.items ++ spec.masked_line number value.now) }
{
    push_number(text, u64::from(number))?;
    text.extend_from_slice(b"* ")?;
    push_masked_value(text, number, value)?;
    text.extend_from_slice(b"\n")
}
