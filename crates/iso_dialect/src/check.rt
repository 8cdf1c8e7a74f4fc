//! Looking bytes over without memory: which fault they have, if any.

ghost use Rattle.std.specs.Prelude.{◌≡◌, Some, length, true};
ghost use Rattle.iso_codec.specs.Reads.{Exactly};
ghost use Rattle.iso_msg.specs.Table.{form_of};
ghost use Rattle.iso_dialect.specs.Profiles.{counts, has_text_length, is_count};
ghost use Rattle.iso_dialect.specs.Readings.{field_over, fields_over, read_over, value_is, value_over};

use crate::field::{octets_of, pass_field, read_field_text};
use crate::front::read_front;
use crate::profile::Profile;
use crate::row::Row;
use crate::text::Text;
use iso_codec::{DecodeError, Numbers, check_content};
use iso_msg::{FieldForm, form_at};

/// Whether a text of the right length is that of a value.
fn check_value(form: FieldForm, number: u8, text: &[u8]) -> Result<(), DecodeError>
    requires { has_text_length form (length text.now) ≡ true }
    ensures { Exactly (λ _. tt) result (value_is form number text.now) }
{
    match form {
        FieldForm::Fixed { .. } | FieldForm::Variable { .. } => check_content(form, number, text),
        FieldForm::Binary => match octets_of(number, text) {
            Ok(_) => Ok(()),
            Err(e) => Err(e),
        },
    }
}

/// Passes over a field that the switch has in this form.
fn check_form(row: Row, form: FieldForm, number: u8, bytes: &[u8]) -> Result<&[u8], DecodeError>
    requires count { is_count row.size ≡ true }
    requires form { form_of number ≡ Some form }
    ensures { Exactly (λ rest. rest.now) result (value_over row (Some form) number bytes.now) }
{
    let mut text = Text::new();
    let rest = read_field_text(&mut text, row, form, number, bytes)?;
    check_value(form, number, text.as_slice())?;
    Ok(rest)
}

fn check_kept(row: Row, number: u8, bytes: &[u8]) -> Result<&[u8], DecodeError>
    requires { is_count row.size ≡ true }
    ensures { Exactly (λ rest. rest.now) result
        (value_over row (form_of number) number bytes.now) }
{
    match form_at(number) {
        Some(form) => check_form(row, form, number, bytes),
        None => Err(DecodeError::FieldNotInProfile(number)),
    }
}

/// Passes over the field of this number.
fn check_field(row: Option<Row>, number: u8, bytes: &[u8]) -> Result<&[u8], DecodeError>
    requires { counts row ≡ true }
    ensures { Exactly (λ rest. rest.now) result (field_over row number bytes.now) }
{
    let Some(row) = row else {
        return Err(DecodeError::FieldNotInProfile(number));
    };
    if row.is_kept {
        check_kept(row, number, bytes)
    } else {
        pass_field(row, number, bytes)
    }
}

#[tactic(auto, unfolding(crate::specs::Readings::fields_over))]
fn check_fields<'a>(
    profile: &Profile,
    numbers: &[u8],
    bytes: &'a [u8],
) -> Result<&'a [u8], DecodeError>
    ensures { Exactly (λ rest. rest.now) result
        (fields_over profile.now.rows numbers.now bytes.now) }
{
    let mut rest = bytes;
    for number in numbers {
        rest = check_field(profile.row(*number), *number, rest)?;
    }
    Ok(rest)
}

/// Refuses bytes that spell no message, with their first fault.
#[tactic(auto, unfolding(crate::specs::Readings::read_over))]
pub fn check(profile: &Profile, bytes: &[u8]) -> Result<(), DecodeError>
    ensures { Exactly (λ _. tt) result (read_over profile.now bytes.now) }
{
    let mut numbers = Numbers::new();
    let (_, rest) = match read_front(profile, bytes, &mut numbers) {
        Ok(front) => front,
        Err(e) => return Err(e),
    };
    let rest = check_fields(profile, numbers.fields(), rest)?;
    if !rest.is_empty() {
        return Err(DecodeError::Trailing);
    }
    Ok(())
}
