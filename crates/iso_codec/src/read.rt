//! Reading a message.

ghost use Rattle.std.specs.Prelude.{◌≡◌, ◌≤◌, length, Some, Err, true, IfOk, IsErrOf, MatchResult};
ghost use Rattle.iso_msg.specs.Table.{form_of};
ghost use Rattle.iso_msg.specs.Values.{has_length};
ghost use Rattle.iso_msg.specs.Messages.{PlainMessage};
ghost use Rattle.iso_codec.specs.Grammar.{Spells};
ghost use Rattle.iso_codec.specs.Reads.{Fails, GivesMessage, Answers, read};
ghost use Rattle.iso_codec.specs.GrowingMessage.{placed, grown, grown_at, added, read_grown};
ghost use Rattle.iso_codec.specs.declared.error.DecodeError.TheVariants.{OutOfMemory};

use crate::check::check;
use crate::error::DecodeError;
use crate::in_place::read_front;
use crate::numbers::Numbers;
use crate::parts::{mti_of, read_binary, read_variable, split};
use iso_msg::{Content, FieldForm, Message, form_at};
use std::alloc::Global;

/// Puts a value of the right length, which is copied here and nowhere else.
fn put(
    alloc: Global,
    form: FieldForm,
    number: u8,
    value: &[u8],
    message: &mut Message,
) -> Result<(), DecodeError>
    requires form { form_of number ≡ Some form }
    requires len { has_length form (length value.now) ≡ true }
    ensures { GivesMessage (λ _. message.new) result (placed form message.old number value.now) }
{
    Ok(message.set(alloc, number, value)?)
}

fn read_fixed<'a>(
    alloc: Global,
    content: Content,
    length: u16,
    number: u8,
    bytes: &'a [u8],
    message: &mut Message,
) -> Result<&'a [u8], DecodeError>
    requires { form_of number ≡ Some (FieldForm.Fixed content length) }
    ensures { GivesMessage (λ rest. (message.new, rest.now)) result
        (grown (FieldForm.Fixed content length) message.old number bytes.now) }
{
    let (value, rest) = split(bytes, length as usize)?;
    put(
        alloc,
        FieldForm::Fixed { content, length },
        number,
        value,
        message,
    )?;
    Ok(rest)
}

/// The form of a field whose length stands before its value.
struct VariableForm {
    content: Content,
    length_digits: u16,
    max_length: u16,
}

fn read_after_length<'a>(
    alloc: Global,
    form: VariableForm,
    number: u8,
    bytes: &'a [u8],
    message: &mut Message,
) -> Result<&'a [u8], DecodeError>
    requires form { form_of number
        ≡ Some (FieldForm.Variable form.content form.length_digits form.max_length) }
    requires digits { form.length_digits ≤ 3 }
    ensures { GivesMessage (λ rest. (message.new, rest.now)) result (grown
        (FieldForm.Variable form.content form.length_digits form.max_length)
        message.old number bytes.now) }
{
    let VariableForm {
        content,
        length_digits,
        max_length,
    } = form;
    let (value, rest) = read_variable(length_digits, max_length, number, bytes)?;
    let form = FieldForm::Variable {
        content,
        length_digits,
        max_length,
    };
    put(alloc, form, number, value, message)?;
    Ok(rest)
}

fn read_hex<'a>(
    alloc: Global,
    number: u8,
    bytes: &'a [u8],
    message: &mut Message,
) -> Result<&'a [u8], DecodeError>
    requires { form_of number ≡ Some FieldForm.Binary }
    ensures { GivesMessage (λ rest. (message.new, rest.now)) result
        (grown FieldForm.Binary message.old number bytes.now) }
{
    let (value, rest) = read_binary(number, bytes)?;
    put(alloc, FieldForm::Binary, number, &value, message)?;
    Ok(rest)
}

/// Reads the field of this number.
fn read_field<'a>(
    alloc: Global,
    number: u8,
    bytes: &'a [u8],
    message: &mut Message,
) -> Result<&'a [u8], DecodeError>
    ensures { GivesMessage (λ rest. (message.new, rest.now)) result
        (grown_at (form_of number) message.old number bytes.now) }
{
    match form_at(number) {
        None => Err(DecodeError::FieldNotInProfile(number)),
        Some(FieldForm::Fixed { content, length }) => {
            read_fixed(alloc, content, length, number, bytes, message)
        }
        Some(
            FieldForm::Variable {
                content,
                length_digits,
                max_length,
            },
        ) => {
            let form = VariableForm {
                content,
                length_digits,
                max_length,
            };
            read_after_length(alloc, form, number, bytes, message)
        }
        Some(FieldForm::Binary) => read_hex(alloc, number, bytes, message),
    }
}

#[tactic(auto, unfolding(crate::specs::GrowingMessage::added))]
fn read_fields<'a>(
    alloc: Global,
    numbers: &[u8],
    bytes: &'a [u8],
    message: &mut Message,
) -> Result<&'a [u8], DecodeError>
    ensures { GivesMessage (λ rest. (message.new, rest.now)) result
        (added message.old numbers.now bytes.now) }
{
    let mut rest = bytes;
    for number in numbers {
        rest = read_field(alloc, *number, rest, message)?;
    }
    Ok(rest)
}

/// Reads the message that all the bytes spell, or stops where memory is refused.
#[tactic(auto, unfolding(crate::specs::GrowingMessage::read_grown))]
fn read_message(alloc: Global, bytes: &[u8]) -> Result<Message, DecodeError>
    ensures { GivesMessage (λ m. m) result (read_grown bytes.now) }
{
    let mut all = Numbers::new();
    let (digits, rest) = read_front(bytes, &mut all)?;
    let mti = mti_of(digits)?;
    let numbers = all.fields();
    let mut message = Message::new(alloc, mti);
    message.reserve(numbers.len())?;
    let rest = read_fields(alloc, numbers, rest, &mut message)?;
    if !rest.is_empty() {
        return Err(DecodeError::Trailing);
    }
    Ok(message)
}

/// The refusal to report after reading stopped with this one. If that was out of memory, the
/// bytes are looked over for a fault, which would come first.
fn to_report(e: DecodeError, bytes: &[u8]) -> DecodeError
    requires { Fails e (read bytes.now) }
    ensures { Answers (Err result) (read bytes.now) }
{
    match e {
        DecodeError::OutOfMemory => match check(bytes) {
            Ok(_) => DecodeError::OutOfMemory,
            Err(fault) => fault,
        },
        fault => fault,
    }
}

fn answer(alloc: Global, bytes: &[u8]) -> Result<Message, DecodeError>
    ensures { Answers result (read bytes.now) }
{
    match read_message(alloc, bytes) {
        Ok(message) => Ok(message),
        Err(e) => Err(to_report(e, bytes)),
    }
}

/// Decodes the message that all the bytes spell. A refusal is the first fault from the left, in the
/// order of reading: each part is taken whole (`Short`), and then looked at. The field numbers are
/// looked at after the bitmaps, and before the fields.
///
/// Out of memory is reported only if the bytes are those of a message.
pub fn decode(alloc: Global, bytes: &[u8]) -> Result<Message, DecodeError>
    ensures found { IfOk result (λ m. Spells bytes.now m) }
    ensures only { (m : PlainMessage) → Spells bytes.now m
        → MatchResult result (λ x. x ≡ m) (λ e. e ≡ OutOfMemory) }
    ensures first_fault { Answers result (read bytes.now) }
    ensures memory_last { IsErrOf result OutOfMemory → (m : PlainMessage) × Spells bytes.now m }
{
    answer(alloc, bytes)
}
