//! The parts of a message from the left, read without memory.

ghost use Rattle.std.specs.Prelude.{◌≡◌, ◌<◌, ◌≤◌, ◌+◌, ◌*◌, length, IfOk, IfSome};
ghost use Rattle.iso_codec.specs.Digits.{both, hex_value, octets};
ghost use Rattle.iso_codec.specs.Reads.{Exactly, part, mti_is, after_length, octets_at};

use crate::error::DecodeError;
use iso_msg::Mti;
use sw_base::decimal;

/// The first `count` bytes, and those after them; `Short` if there are fewer.
pub fn split(bytes: &[u8], count: usize) -> Result<(&[u8], &[u8]), DecodeError>
    ensures parts { Exactly (λ x. (x.0.now, x.1.now)) result (part count bytes.now) }
    ensures len { IfOk result (λ x. length x.0.now ≡ count) }
{
    if bytes.len() < count {
        return Err(DecodeError::Short);
    }
    Ok(bytes.split_at(count))
}

pub fn mti_of(digits: &[u8]) -> Result<Mti, DecodeError>
    requires { length digits.now ≡ 4 }
    ensures { Exactly (λ m. m) result (mti_is digits.now) }
{
    match Mti::new(digits) {
        Ok(mti) => Ok(mti),
        Err(_) => Err(DecodeError::BadMti),
    }
}

/// The value of a hexadecimal digit, in either case.
pub fn hex_digit(c: u8) -> Option<u8>
    ensures value { result ≡ hex_value c }
    ensures small { IfSome result (λ d. d < 16) }
{
    if b'0' <= c && c <= b'9' {
        return Some(c - b'0');
    }
    if b'A' <= c && c <= b'F' {
        return Some(c - b'A' + 10);
    }
    if b'a' <= c && c <= b'f' {
        return Some(c - b'a' + 10);
    }
    None
}

/// The value of an LLVAR or LLLVAR field, which comes after the digits of its length, and the bytes
/// after it. Refuses `Short` and `BadLength`; the content is not looked at.
#[tactic(auto, unfolding(crate::specs::Reads::after_length))]
pub fn read_variable(
    length_digits: u16,
    max_length: u16,
    number: u8,
    bytes: &[u8],
) -> Result<(&[u8], &[u8]), DecodeError>
    requires { length_digits ≤ 3 }
    ensures text { Exactly (λ x. (x.0.now, x.1.now)) result
        (after_length length_digits max_length number bytes.now) }
    ensures len { IfOk result (λ x. length x.0.now ≤ max_length) }
{
    let (digits, after) = split(bytes, length_digits as usize)?;
    let Some(length) = decimal(digits) else {
        return Err(DecodeError::BadLength(number));
    };
    if u32::from(max_length) < length {
        return Err(DecodeError::BadLength(number));
    }
    let (text, rest) = split(after, length as usize)?;
    Ok((text, rest))
}

fn octet(high: u8, low: u8) -> Option<u8>
    ensures { result ≡ both (λ h l. 16 * h + l) (hex_value high) (hex_value low) }
{
    match (hex_digit(high), hex_digit(low)) {
        (Some(h), Some(l)) => Some(16 * h + l),
        _ => None,
    }
}

fn read_octets(text: &[u8]) -> Option<[u8; 8]>
    requires { length text.now ≡ 16 }
    ensures { result ≡ octets text.now }
{
    let mut bytes = [0; 8];
    for i in 0..8usize {
        let Some(byte) = octet(text[2 * i], text[2 * i + 1]) else {
            return None;
        };
        bytes[i] = byte;
    }
    Some(bytes)
}

/// The bytes that a binary field represents, and those after its sixteen digits.
#[tactic(auto, unfolding(crate::specs::Reads::octets_at))]
pub fn read_binary(number: u8, bytes: &[u8]) -> Result<([u8; 8], &[u8]), DecodeError>
    ensures { Exactly (λ x. (x.0, x.1.now)) result (octets_at number bytes.now) }
{
    let (text, rest) = split(bytes, 16)?;
    match read_octets(text) {
        Some(value) => Ok((value, rest)),
        None => Err(DecodeError::BadContent(number)),
    }
}
