//! Writing the one spelling of a message.

ghost use Rattle.std.specs.Prelude.{◌≡◌, ◌<◌, ◌≤◌, ◌+◌, ◌*◌, ◌∷◌, ◌++◌, length, nat_lt, Ok, IfOk, OnOk, None};
ghost use Rattle.std.specs.List.{flat_map, list_any};
ghost use Rattle.iso_msg.specs.Values.{refusal};
ghost use Rattle.iso_msg.specs.Messages.{numbers_of};
ghost use Rattle.iso_codec.specs.Grammar.{Spells};
ghost use Rattle.iso_codec.specs.Reads.{read};
ghost use Rattle.iso_codec.specs.Spelling.{upper, decimal, hex, field_text, spelling};
ghost use Rattle.iso_codec.specs.RisingBitmaps.{bit_of, digit_of, bits_of, bitmaps_of, merged};

use crate::numbers::Numbers;
use iso_msg::{FieldForm, Message, form_at};
use std::alloc::{AllocError, Global};

fn upper_digit(d: u8) -> u8
    requires { d < 16 }
    ensures { result ≡ upper d }
{
    if d < 10 { b'0' + d } else { b'A' + (d - 10) }
}

/// Whether the first number is this one, as a bit, and the numbers after it.
fn take_bit(number: u8, numbers: &[u8]) -> (u8, &[u8])
    ensures bit { (result.0, result.1.now) ≡ bit_of number numbers.now }
    ensures small { result.0 ≤ 1 }
{
    match numbers {
        [first, rest @ ..] if *first == number => (1, rest),
        _ => (0, numbers),
    }
}

fn take_digit(number: u8, numbers: &[u8]) -> (u8, &[u8])
    requires { number < 253 }
    ensures digit { (result.0, result.1.now) ≡ digit_of number numbers.now }
    ensures small { result.0 < 16 }
{
    let (a, after) = take_bit(number, numbers);
    let (b, after) = take_bit(number + 1, after);
    let (c, after) = take_bit(number + 2, after);
    let (d, after) = take_bit(number + 3, after);
    (8 * a + 4 * b + 2 * c + d, after)
}

/// The first digit if bit 1 is set.
fn take_digit_1(numbers: &[u8]) -> (u8, &[u8])
    ensures digit { (result.0, result.1.now) ≡ digit_of 1 (1 ∷ numbers.now) }
    ensures small { result.0 < 16 }
{
    let (b, after) = take_bit(2, numbers);
    let (c, after) = take_bit(3, after);
    let (d, after) = take_bit(4, after);
    (8 + 4 * b + 2 * c + d, after)
}

/// Writes the digits of a bitmap of rising numbers, whose first bit has this number.
fn push_bits(out: &mut Vec<u8>, first: u8, digits: u8, numbers: &[u8]) -> Result<(), AllocError>
    requires { first + 4 * digits < 253 }
    ensures { OnOk result (out.new.items ≡ out.old.items ++ bits_of first digits numbers.now) }
{
    let mut at = first;
    let mut rest = numbers;
    for _ in 0..digits {
        let (digit, after) = take_digit(at, rest);
        out.push(upper_digit(digit))?;
        rest = after;
        at += 4;
    }
    Ok(())
}

/// Whether a second bitmap is needed.
fn is_wide(numbers: &[u8]) -> bool
    ensures { result ≡ list_any (λ n. nat_lt 64 n) numbers.now }
{
    numbers.iter().any(|number| 64 < *number)
}

/// Writes the bitmaps of rising numbers of fields.
fn push_bitmaps(out: &mut Vec<u8>, numbers: &Numbers) -> Result<(), AllocError>
    ensures { OnOk result (out.new.items ≡ out.old.items ++ bitmaps_of numbers.now) }
{
    let numbers = numbers.as_slice();
    if is_wide(numbers) {
        let (one, after) = take_digit_1(numbers);
        out.push(upper_digit(one))?;
        push_bits(out, 5, 31, after)
    } else {
        push_bits(out, 1, 16, numbers)
    }
}

/// Writes a length of two or three digits.
fn push_length(out: &mut Vec<u8>, length_digits: u16, length: u16) -> Result<(), AllocError>
    requires { length < 1000 }
    ensures { OnOk result (out.new.items ≡ out.old.items ++ decimal length_digits length) }
{
    if length_digits == 3 {
        out.push(b'0' + (length / 100) as u8)?;
    }
    out.push(b'0' + (length / 10 % 10) as u8)?;
    out.push(b'0' + (length % 10) as u8)?;
    Ok(())
}

/// Adds bytes as hexadecimal digits in upper case.
pub fn push_hex(out: &mut Vec<u8>, bytes: &[u8]) -> Result<(), AllocError>
    ensures { OnOk result (out.new.items ≡ out.old.items ++ flat_map hex bytes.now) }
{
    for b in bytes {
        out.push(upper_digit(*b / 16))?;
        out.push(upper_digit(*b % 16))?;
    }
    Ok(())
}

/// Writes the text of a field.
fn push_field(out: &mut Vec<u8>, number: u8, value: &[u8]) -> Result<(), AllocError>
    requires { refusal number value.now ≡ None }
    ensures { OnOk result (out.new.items ≡ out.old.items ++ field_text (number, value.now)) }
{
    match form_at(number) {
        None => Ok(()),
        Some(FieldForm::Fixed { .. }) => {
            out.extend_from_slice(value)?;
            Ok(())
        }
        Some(
            FieldForm::Variable {
                length_digits,
                max_length,
                ..
            },
        ) => {
            if value.len() > max_length as usize {
                return Ok(());
            }
            push_length(out, length_digits, value.len() as u16)?;
            out.extend_from_slice(value)?;
            Ok(())
        }
        Some(FieldForm::Binary) => push_hex(out, value),
    }
}

fn push_fields(out: &mut Vec<u8>, message: &Message) -> Result<(), AllocError>
    ensures { OnOk result (out.new.items
        ≡ out.old.items ++ flat_map field_text message.now.fields) }
{
    for i in 0..message.field_count() {
        let (number, value) = message.field_at(i);
        push_field(out, number, value)?;
    }
    Ok(())
}

/// The numbers of a message's fields.
fn numbers_in(message: &Message) -> Numbers
    ensures { result ≡ numbers_of message.now.fields }
{
    let mut numbers = Numbers::new();
    for i in 0..message.field_count() {
        let (number, _) = message.field_at(i);
        numbers.push(number);
    }
    numbers
}

fn write_message(alloc: Global, message: &Message) -> Result<Vec<u8>, AllocError>
    ensures { IfOk result (λ v. v.items ≡ merged message.now) }
{
    let mut out = Vec::with_capacity(alloc, 256)?;
    out.extend_from_slice(message.mti().digits())?;
    push_bitmaps(&mut out, &numbers_in(message))?;
    push_fields(&mut out, message)?;
    Ok(out)
}

/// Encodes a message, with hexadecimal digits in upper case, and with a second bitmap only if there
/// is a field above 64. No message has more than 9,999 bytes, so each fits a frame.
pub fn encode(alloc: Global, message: &Message) -> Result<Vec<u8>, AllocError>
    ensures spelled { IfOk result (λ v. v.items ≡ spelling message.now) }
    ensures related { IfOk result (λ v. Spells v.items message.now) }
    ensures short { IfOk result (λ v. length v.items ≤ 9999) }
    ensures read_back { IfOk result (λ v. read v.items ≡ Ok message.now) }
{
    message.is_message();
    write_message(alloc, message)
}
