//! Looking bytes over without memory: which fault they have, if any.

ghost use Rattle.std.specs.Prelude.{◌≡◌};
ghost use Rattle.iso_msg.specs.Table.{form_of, IsForm};
ghost use Rattle.iso_codec.specs.Reads.{Exactly, form_over, field_over, fields_over, read, read_over, type_of};

use crate::error::DecodeError;
use crate::in_place::{check_content, read_front};
use crate::numbers::Numbers;
use crate::parts::{mti_of, read_binary, read_variable, split};
use iso_msg::{FieldForm, Mti, form_at};

/// Passes over a field of this form.
fn check_form(form: FieldForm, number: u8, bytes: &[u8]) -> Result<&[u8], DecodeError>
    requires { IsForm form }
    ensures { Exactly (λ rest. rest.now) result (form_over form number bytes.now) }
{
    match form {
        FieldForm::Fixed { length, .. } => {
            let (value, rest) = split(bytes, length as usize)?;
            check_content(form, number, value)?;
            Ok(rest)
        }
        FieldForm::Variable {
            length_digits,
            max_length,
            ..
        } => {
            let (value, rest) = read_variable(length_digits, max_length, number, bytes)?;
            check_content(form, number, value)?;
            Ok(rest)
        }
        FieldForm::Binary => {
            let (value, rest) = read_binary(number, bytes)?;
            check_content(form, number, &value)?;
            Ok(rest)
        }
    }
}

/// Passes over the field of this number.
fn check_field(number: u8, bytes: &[u8]) -> Result<&[u8], DecodeError>
    ensures { Exactly (λ rest. rest.now) result (field_over (form_of number) number bytes.now) }
{
    match form_at(number) {
        None => Err(DecodeError::FieldNotInProfile(number)),
        Some(form) => check_form(form, number, bytes),
    }
}

#[tactic(auto, unfolding(crate::specs::Reads::fields_over))]
fn check_fields<'a>(numbers: &[u8], bytes: &'a [u8]) -> Result<&'a [u8], DecodeError>
    ensures { Exactly (λ rest. rest.now) result (fields_over numbers.now bytes.now) }
{
    let mut rest = bytes;
    for number in numbers {
        rest = check_field(*number, rest)?;
    }
    Ok(rest)
}

/// The type of the message that the bytes spell; refuses bytes that spell none.
#[tactic(auto, unfolding(crate::specs::Reads::read_over))]
pub fn check(bytes: &[u8]) -> Result<Mti, DecodeError>
    ensures { Exactly (λ m. m) result (read_over bytes.now) }
{
    let mut numbers = Numbers::new();
    let (digits, rest) = read_front(bytes, &mut numbers)?;
    let mti = mti_of(digits)?;
    let rest = check_fields(numbers.fields(), rest)?;
    if !rest.is_empty() {
        return Err(DecodeError::Trailing);
    }
    Ok(mti)
}

/// The type of the message that the bytes spell, or `None` if they spell none. It looks the bytes over, which
/// takes no memory.
pub fn type_in(bytes: &[u8]) -> Option<Mti>
    ensures { result ≡ type_of (read bytes.now) }
{
    match check(bytes) {
        Ok(mti) => Some(mti),
        Err(_) => None,
    }
}
