//! Which values a field takes.

ghost use Rattle.std.specs.Prelude.{◌≡◌, length};
ghost use Rattle.std.specs.List.{list_all};
ghost use Rattle.sw_base.specs.Digits.{is_digit};
ghost use Rattle.iso_msg.specs.Values.{is_text, takes, has_length, has_content, refusal};

use crate::error::MessageError;
use crate::table::{Content, FieldForm, form_at};

fn are_digits(bytes: &[u8]) -> bool
    ensures { result ≡ list_all is_digit bytes.now }
{
    bytes.iter().all(u8::is_ascii_digit)
}

fn are_text(bytes: &[u8]) -> bool
    ensures { result ≡ list_all is_text bytes.now }
{
    bytes.iter().all(|b| b' ' <= *b && *b <= b'~')
}

pub(crate) fn takes_all(content: Content, bytes: &[u8]) -> bool
    ensures { result ≡ takes content bytes.now }
{
    match content {
        Content::Numeric => are_digits(bytes),
        Content::Printable => are_text(bytes),
    }
}

fn fits_length(form: FieldForm, value_length: usize) -> bool
    ensures { result ≡ has_length form value_length }
{
    match form {
        FieldForm::Fixed { length, .. } => value_length == length as usize,
        FieldForm::Variable { max_length, .. } => value_length <= max_length as usize,
        FieldForm::Binary => value_length == 8,
    }
}

/// Whether a field of this form takes the bytes of the value, whatever its length.
pub fn fits_content(form: FieldForm, value: &[u8]) -> bool
    ensures { result ≡ has_content form value.now }
{
    match form {
        FieldForm::Fixed { content, .. } | FieldForm::Variable { content, .. } => takes_all(
            content, value,
        ),
        FieldForm::Binary => true,
    }
}

/// Why a field does not take the value, or `None` if it does: the number is not in the profile, then
/// the length is wrong, then a byte is.
pub(crate) fn refused(number: u8, value: &[u8]) -> Option<MessageError>
    ensures { result ≡ refusal number value.now }
{
    let Some(form) = form_at(number) else {
        return Some(MessageError::FieldNotInProfile(number));
    };
    if !fits_length(form, value.len()) {
        return Some(MessageError::BadLength(number));
    }
    if !fits_content(form, value) {
        return Some(MessageError::BadContent(number));
    }
    None
}
