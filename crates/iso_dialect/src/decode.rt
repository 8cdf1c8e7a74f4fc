//! Reading a message of another system.

ghost use Rattle.std.specs.Prelude.{◌≡◌, Err, Some, length, true};
ghost use Rattle.iso_codec.specs.Reads.{Answers, Fails, GivesMessage};
ghost use Rattle.iso_codec.specs.GrowingMessage.{placed};
ghost use Rattle.iso_msg.specs.Table.{form_of};
ghost use Rattle.iso_msg.specs.Values.{has_length};
ghost use Rattle.iso_dialect.specs.Profiles.{counts, has_text_length, is_count};
ghost use Rattle.iso_dialect.specs.Readings.{added_as, grown_as, grown_value, placed_as, read_as, read_grown};

use crate::check::check;
use crate::field::{octets_of, pass_field, read_field_text};
use crate::front::read_front;
use crate::profile::Profile;
use crate::row::Row;
use crate::text::Text;
use iso_codec::{DecodeError, Numbers};
use iso_msg::{FieldForm, Message, form_at};
use std::alloc::Global;

/// Puts a value of the right length.
fn put(
    alloc: Global,
    form: FieldForm,
    number: u8,
    value: &[u8],
    message: &mut Message,
) -> Result<(), DecodeError>
    requires form { form_of number ≡ Some form }
    requires len { has_length form (length value.now) ≡ true }
    ensures { GivesMessage (λ _. message.new) result
        (placed form message.old number value.now) }
{
    Ok(message.set(alloc, number, value)?)
}

/// Puts the eight bytes that sixteen digits stand for.
fn put_binary(
    alloc: Global,
    number: u8,
    text: &[u8],
    message: &mut Message,
) -> Result<(), DecodeError>
    requires form { form_of number ≡ Some FieldForm.Binary }
    requires len { length text.now ≡ 16 }
    ensures { GivesMessage (λ _. message.new) result
        (placed_as FieldForm.Binary message.old number text.now) }
{
    match octets_of(number, text) {
        Ok(value) => put(alloc, FieldForm::Binary, number, &value, message),
        Err(e) => Err(e),
    }
}

/// Puts the value of a text of the right length.
fn put_text(
    alloc: Global,
    form: FieldForm,
    number: u8,
    text: &[u8],
    message: &mut Message,
) -> Result<(), DecodeError>
    requires form { form_of number ≡ Some form }
    requires len { has_text_length form (length text.now) ≡ true }
    ensures { GivesMessage (λ _. message.new) result
        (placed_as form message.old number text.now) }
{
    match form {
        FieldForm::Fixed { .. } | FieldForm::Variable { .. } => put(
            alloc, form, number, text, message,
        ),
        FieldForm::Binary => put_binary(alloc, number, text, message),
    }
}

/// Reads a field that the switch has in this form.
fn read_value<'a>(
    alloc: Global,
    row: Row,
    form: FieldForm,
    number: u8,
    bytes: &'a [u8],
    message: &mut Message,
) -> Result<&'a [u8], DecodeError>
    requires count { is_count row.size ≡ true }
    requires form { form_of number ≡ Some form }
    ensures { GivesMessage (λ rest. (message.new, rest.now)) result
        (grown_value row (Some form) message.old number bytes.now) }
{
    let mut text = Text::new();
    let rest = read_field_text(&mut text, row, form, number, bytes)?;
    put_text(alloc, form, number, text.as_slice(), message)?;
    Ok(rest)
}

fn read_kept<'a>(
    alloc: Global,
    row: Row,
    number: u8,
    bytes: &'a [u8],
    message: &mut Message,
) -> Result<&'a [u8], DecodeError>
    requires { is_count row.size ≡ true }
    ensures { GivesMessage (λ rest. (message.new, rest.now)) result
        (grown_value row (form_of number) message.old number bytes.now) }
{
    match form_at(number) {
        Some(form) => read_value(alloc, row, form, number, bytes, message),
        None => Err(DecodeError::FieldNotInProfile(number)),
    }
}

/// Reads the field of this number, and puts it if it is kept.
fn read_field<'a>(
    alloc: Global,
    row: Option<Row>,
    number: u8,
    bytes: &'a [u8],
    message: &mut Message,
) -> Result<&'a [u8], DecodeError>
    requires { counts row ≡ true }
    ensures { GivesMessage (λ rest. (message.new, rest.now)) result
        (grown_as row message.old number bytes.now) }
{
    let Some(row) = row else {
        return Err(DecodeError::FieldNotInProfile(number));
    };
    if row.is_kept {
        read_kept(alloc, row, number, bytes, message)
    } else {
        pass_field(row, number, bytes)
    }
}

#[tactic(auto, unfolding(crate::specs::Readings::added_as))]
fn read_fields<'a>(
    alloc: Global,
    profile: &Profile,
    numbers: &[u8],
    bytes: &'a [u8],
    message: &mut Message,
) -> Result<&'a [u8], DecodeError>
    ensures { GivesMessage (λ rest. (message.new, rest.now)) result
        (added_as profile.now.rows message.old numbers.now bytes.now) }
{
    let mut rest = bytes;
    for number in numbers {
        rest = read_field(alloc, profile.row(*number), *number, rest, message)?;
    }
    Ok(rest)
}

/// Reads the message that all the bytes spell, or stops where memory is refused.
#[tactic(auto, unfolding(crate::specs::Readings::read_grown))]
fn read_message(alloc: Global, profile: &Profile, bytes: &[u8]) -> Result<Message, DecodeError>
    ensures { GivesMessage (λ m. m) result (read_grown profile.now bytes.now) }
{
    let mut all = Numbers::new();
    let (mti, rest) = match read_front(profile, bytes, &mut all) {
        Ok(front) => front,
        Err(e) => return Err(e),
    };
    let mut message = Message::new(alloc, mti);
    let rest = read_fields(alloc, profile, all.fields(), rest, &mut message)?;
    if !rest.is_empty() {
        return Err(DecodeError::Trailing);
    }
    Ok(message)
}

/// The refusal to report after reading stopped with this one. If that was out of memory, the
/// bytes are looked over for a fault, which would come first.
fn to_report(e: DecodeError, profile: &Profile, bytes: &[u8]) -> DecodeError
    requires { Fails e (read_as profile.now bytes.now) }
    ensures { Answers (Err result) (read_as profile.now bytes.now) }
{
    match e {
        DecodeError::OutOfMemory => match check(profile, bytes) {
            Ok(_) => DecodeError::OutOfMemory,
            Err(fault) => fault,
        },
        fault => fault,
    }
}

/// Decodes the message that all the bytes spell, without the fields that are not kept.
pub fn decode_as(alloc: Global, profile: &Profile, bytes: &[u8]) -> Result<Message, DecodeError>
    ensures { Answers result (read_as profile.now bytes.now) }
{
    match read_message(alloc, profile, bytes) {
        Ok(message) => Ok(message),
        Err(e) => Err(to_report(e, profile, bytes)),
    }
}
