//! What no subcommand does with a message: a field is removed, the numbers of the fields are gone through, and the
//! refusal of a value is reported (`tests/encode` has the reports of the program). The message with every field of
//! the table goes round too.

use iso_codec::{decode, encode};
use iso_msg::{FieldForm, Message, MessageError, Mti, form_at};
use std::alloc::Global;
use std::test::Fail;

/// A message of this type with these fields, put in the order in which they stand.
pub fn message_of(
    alloc: Global,
    mti: &[u8],
    fields: &[(u8, &[u8])],
) -> Result<Message, MessageError> {
    let mut message = Message::new(alloc, Mti::new(mti)?);
    for (number, value) in fields {
        message.set(alloc, *number, *value)?;
    }
    Ok(message)
}

fn greatest_length(form: FieldForm) -> u16 {
    match form {
        FieldForm::Fixed { length, .. } => length,
        FieldForm::Variable { max_length, .. } => max_length,
        FieldForm::Binary => 8,
    }
}

/// Puts a value of the greatest length that the field takes, if the table has the field.
fn fill(alloc: Global, message: &mut Message, number: u8) -> Result<(), MessageError> {
    let Some(form) = form_at(number) else {
        return Ok(());
    };
    let value = vec![in alloc; b'7'; greatest_length(form) as usize]?;
    message.set(alloc, number, &value)
}

/// The message with every field of the table, each as long as it can be.
fn largest(alloc: Global) -> Result<Message, MessageError> {
    let mut message = Message::new(alloc, Mti::new(b"0100")?);
    for number in 0..=255u8 {
        fill(alloc, &mut message, number)?;
    }
    Ok(message)
}

fn largest_bytes(alloc: Global) -> Result<Vec<u8>, MessageError> {
    let message = largest(alloc)?;
    Ok(encode(alloc, &message)?)
}

fn is_spelled(alloc: Global, message: &Message, wanted: &[u8]) -> bool {
    match encode(alloc, message) {
        Ok(bytes) => bytes.as_slice() == wanted,
        Err(_) => false,
    }
}

fn is_read_back(alloc: Global, bytes: &[u8]) -> bool {
    match decode(alloc, bytes) {
        Ok(message) => message.field_count() == 53 && is_spelled(alloc, &message, bytes),
        Err(_) => false,
    }
}

/// Type, two bitmaps and 53 fields: 4 + 32 + 6,762 bytes.
#[test]
fn the_largest_message_goes_round(rt: HostRuntime) -> Result<(), Fail> {
    let bytes = largest_bytes(rt.alloc())?;
    assert!(rt; bytes.len() == 6_798 && is_read_back(rt.alloc(), &bytes));
    Ok(())
}

fn has_numbers(message: &Message, wanted: &[u8]) -> bool {
    message.field_count() == wanted.len()
        && message
            .fields()
            .zip(wanted)
            .all(|(number, want)| number == *want)
}

// Whether the field had this value, and is removed once.
fn loses(message: &mut Message, number: u8, value: &[u8]) -> bool {
    match message.remove(number) {
        Some(removed) => removed.as_slice() == value && message.remove(number).is_none(),
        None => false,
    }
}

fn loses_the_second(message: &mut Message) -> bool {
    has_numbers(message, &[7, 11, 70])
        && loses(message, 11, b"000001")
        && has_numbers(message, &[7, 70])
}

#[test]
fn a_field_is_removed(rt: HostRuntime) -> Result<(), Fail> {
    let fields: [(u8, &[u8]); 3] = [(70, b"301"), (11, b"000001"), (7, b"0102030405")];
    let mut message = message_of(rt.alloc(), b"0800", &fields)?;
    assert!(rt; loses_the_second(&mut message));
    Ok(())
}

fn has_text(alloc: Global, error: &MessageError, wanted: &str) -> bool {
    match error.to_string(alloc) {
        Ok(text) => text.as_str() == wanted,
        Err(_) => false,
    }
}

/// Whether a value is refused with this text.
fn is_reported(alloc: Global, number: u8, value: &[u8], wanted: &str) -> bool {
    match message_of(alloc, b"0800", &[(number, value)]) {
        Ok(_) => false,
        Err(error) => has_text(alloc, &error, wanted),
    }
}

/// Numbers with values that are refused, and the texts of the refusals.
const REFUSED: [(u8, &[u8], &str); 4] = [
    (
        65,
        b"1",
        "field 65: unknown field; expected 2 to 7, 9 to 19, 22 to 26, 32, 33, 35, \
37 to 39, 41 to 45, 48 to 55, 60 to 64, 70, 90, 95, 100, 102, 103 or 128",
    ),
    (
        2,
        b"12345678901234567890",
        "field 2 (primary account number): wrong length, expected at most 19 digits",
    ),
    (
        128,
        b"1234567",
        "field 128 (message authentication code): wrong length, expected 8 bytes",
    ),
    (
        41,
        b"\n\n\n\n\n\n\n\n",
        "field 41 (card acceptor terminal identification): a byte that the field does not take, \
expected 8 printable characters",
    ),
];

#[test]
fn a_refused_value_is_reported(rt: HostRuntime) {
    for (number, value, wanted) in REFUSED {
        assert!(rt; is_reported(rt.alloc(), number, value, wanted), "{wanted}");
    }
}

fn is_type_reported(alloc: Global, digits: &[u8], wanted: &str) -> bool {
    match Mti::new(digits) {
        Ok(_) => false,
        Err(error) => has_text(alloc, &error, wanted),
    }
}

#[test]
fn a_refused_type_is_reported(rt: HostRuntime) {
    assert!(rt; is_type_reported(rt.alloc(), b"080", "message type: expected 4 digits"));
}
