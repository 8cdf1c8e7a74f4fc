//! Looking over bytes of the ASCII profile without memory: their first fault, or the first field that
//! cannot be written in another profile.

ghost use Rattle.std.specs.Prelude.{◌≡◌, None, Some, not};
ghost use Rattle.sw_base.specs.Refusals.{or_else, refused_if};
ghost use Rattle.iso_codec.specs.Reads.{Exactly};
ghost use Rattle.iso_msg.specs.Table.{form_of, IsForm};
ghost use Rattle.iso_dialect.specs.Lookings.{looked_field, looked_fields, looked_form, looked_over};

use crate::profile::Profile;
use crate::row::Row;
use crate::write_field::takes_form;
use iso_codec::{
    DecodeError, Numbers, check_content, read_binary, read_front, read_variable, split,
};
use iso_msg::{FieldForm, form_at};

/// Whether a field of this form can be written or is left out, and the bytes after it.
fn look_form(
    row: Option<Row>,
    form: FieldForm,
    number: u8,
    bytes: &[u8],
) -> Result<(bool, &[u8]), DecodeError>
    requires known { IsForm form }
    requires form { form_of number ≡ Some form }
    ensures { Exactly (λ x. (x.0, x.1.now)) result (looked_form row form number bytes.now) }
{
    match form {
        FieldForm::Fixed { length, .. } => {
            let (value, rest) = split(bytes, length as usize)?;
            check_content(form, number, value)?;
            Ok((takes_form(row, form, value), rest))
        }
        FieldForm::Variable {
            length_digits,
            max_length,
            ..
        } => {
            let (value, rest) = read_variable(length_digits, max_length, number, bytes)?;
            check_content(form, number, value)?;
            Ok((takes_form(row, form, value), rest))
        }
        FieldForm::Binary => {
            let (value, rest) = read_binary(number, bytes)?;
            check_content(form, number, &value)?;
            Ok((takes_form(row, form, &value), rest))
        }
    }
}

fn look_field(row: Option<Row>, number: u8, bytes: &[u8]) -> Result<(bool, &[u8]), DecodeError>
    ensures { Exactly (λ x. (x.0, x.1.now)) result
        (looked_field row (form_of number) number bytes.now) }
{
    match form_at(number) {
        Some(form) => look_form(row, form, number, bytes),
        None => Err(DecodeError::FieldNotInProfile(number)),
    }
}

/// The first of two numbers that there are.
fn first_of_two(first: Option<u8>, number: u8, is_taken: bool) -> Option<u8>
    ensures { result ≡ or_else first (refused_if (not is_taken) number) }
{
    match first {
        Some(first) => Some(first),
        None => { if is_taken { None } else { Some(number) } }
    }
}

/// The first of the fields of these numbers that cannot be written, and the bytes after all of them.
#[tactic(auto, unfolding(crate::specs::Lookings::looked_fields))]
fn look_fields<'a>(
    profile: &Profile,
    numbers: &[u8],
    bytes: &'a [u8],
) -> Result<(Option<u8>, &'a [u8]), DecodeError>
    ensures { Exactly (λ x. (x.0, x.1.now)) result
        (looked_fields profile.now.rows None numbers.now bytes.now) }
{
    let mut first = None;
    let mut rest = bytes;
    for number in numbers {
        let (is_taken, after) = look_field(profile.row(*number), *number, rest)?;
        first = first_of_two(first, *number, is_taken);
        rest = after;
    }
    Ok((first, rest))
}

/// The first field that cannot be written of the message that the bytes spell in the ASCII profile;
/// refuses bytes that spell none.
#[tactic(auto, unfolding(crate::specs::Lookings::looked_over))]
pub fn look_over(profile: &Profile, bytes: &[u8]) -> Result<Option<u8>, DecodeError>
    ensures { Exactly (λ o. o) result (looked_over profile.now.rows bytes.now) }
{
    let mut numbers = Numbers::new();
    let (_, rest) = match read_front(bytes, &mut numbers) {
        Ok(front) => front,
        Err(e) => return Err(e),
    };
    let (first, rest) = match look_fields(profile, numbers.fields(), rest) {
        Ok(looked) => looked,
        Err(e) => return Err(e),
    };
    if !rest.is_empty() {
        return Err(DecodeError::Trailing);
    }
    Ok(first)
}
