//! A message read where it lies: its type and the numbers of its fields, and then field by field,
//! without memory.

ghost use Rattle.std.specs.Prelude.{◌≡◌, [], IfOk};
ghost use Rattle.iso_msg.specs.Messages.{IsMti};
ghost use Rattle.iso_codec.specs.Reads.{Exactly, content_is, field_numbers, front_at};

use crate::bitmap::{check_known, read_bitmaps};
use crate::error::DecodeError;
use crate::numbers::Numbers;
use crate::parts::{mti_of, split};
use iso_msg::{FieldForm, fits_content};

/// Reads the type and the bitmaps. Returns the digits of the type and the bytes of the fields, and
/// adds the numbers of the set bits.
#[tactic(auto, unfolding(crate::specs::Reads::front_at))]
pub fn read_front<'a>(
    bytes: &'a [u8],
    numbers: &mut Numbers,
) -> Result<(&'a [u8], &'a [u8]), DecodeError>
    requires { numbers.old ≡ [] }
    ensures front { Exactly (λ x. (x.0.now, field_numbers numbers.new, x.1.now)) result
        (front_at bytes.now) }
    ensures digits { IfOk result (λ x. IsMti x.0.now) }
{
    let (digits, rest) = split(bytes, 4)?;
    let _ = mti_of(digits)?;
    let rest = read_bitmaps(rest, numbers)?;
    check_known(numbers.fields())?;
    Ok((digits, rest))
}

/// Refuses a value with a byte that the field does not take.
pub fn check_content(form: FieldForm, number: u8, value: &[u8]) -> Result<(), DecodeError>
    ensures { Exactly (λ _. tt) result (content_is form number value.now) }
{
    if fits_content(form, value) {
        Ok(())
    } else {
        Err(DecodeError::BadContent(number))
    }
}
