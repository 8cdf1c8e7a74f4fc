//! The frame of a message.

ghost use Rattle.std.specs.Prelude.{◌≡◌, ◌≤◌, ◌<◌, ◌+◌, OnOk, IfOk, Some, length};
ghost use Rattle.std.specs.List.{flat_map};
ghost use Rattle.sw_base.specs.Digits.{number_of, two_digits as two_digits_of};
ghost use Rattle.dialect_frame.specs.Forms.{beside as beside_of, digits_in};
ghost use Rattle.dialect_frame.specs.Writings.{
  AddsLength,
  IsFrameOf,
  WrittenAs,
  greatest as greatest_of,
};

use crate::error::FrameError;
use crate::form::{beside, greatest, start};
use dialect_toml::{Frame, FrameLength};
use std::alloc::{AllocError, Global};
use sw_base::two_digits;

/// The four digits of a number.
fn ascii_digits(number: u16) -> [u8; 4]
    requires { number < 10000 }
    ensures { number_of result ≡ Some number }
{
    let [first, second] = two_digits((number / 100) as u8);
    let [third, fourth] = two_digits((number % 100) as u8);
    [first, second, third, fourth]
}

/// The two digits of a number, packed.
fn packed(number: u8) -> u8
    requires { number < 100 }
    ensures { digits_in result ≡ two_digits_of number }
{
    number / 10 * 16 + number % 10
}

/// The four digits of a number, packed.
fn packed_digits(number: u16) -> [u8; 2]
    requires { number < 10000 }
    ensures { number_of (flat_map digits_in result) ≡ Some number }
{
    [packed((number / 100) as u8), packed((number % 100) as u8)]
}

/// Adds a length that spells a number.
fn push_length(text: &mut Vec<u8>, length: FrameLength, number: u32) -> Result<(), AllocError>
    requires { number ≤ greatest_of length }
    ensures { OnOk result (AddsLength length number text.old.items text.new.items) }
{
    match length {
        FrameLength::Ascii4 => text.extend_from_slice(&ascii_digits(number as u16)),
        FrameLength::Binary2 => text.extend_from_slice(&(number as u16).to_be_bytes()),
        FrameLength::Binary4 => text.extend_from_slice(&number.to_be_bytes()),
        FrameLength::Packed2 => text.extend_from_slice(&packed_digits(number as u16)),
    }
}

fn write_frame(
    alloc: Global,
    form: &Frame,
    counted: u32,
    message: &[u8],
) -> Result<Vec<u8>, AllocError>
    requires most { length message.now ≤ form.now.most }
    requires counted { counted ≡ beside_of form.now + length message.now }
    requires fits { counted ≤ greatest_of form.now.length }
    ensures { IfOk result (λ v. WrittenAs form.now v.items message.now) }
{
    let mut text = Vec::with_capacity(alloc, start(form) + message.len())?;
    push_length(&mut text, form.length, counted)?;
    text.extend_from_slice(form.header.as_slice())?;
    text.extend_from_slice(message)?;
    Ok(text)
}

/// The frame of a message, with the header of the form. `OverMost` of a message that has more bytes than
/// the form allows, and `OverLength` of one that its length cannot count. Out of memory comes last.
pub fn frame_of(alloc: Global, form: &Frame, message: &[u8]) -> Result<Vec<u8>, FrameError>
    ensures { IsFrameOf form.now message.now result }
{
    let most = form.most;
    if message.len() > usize::from(most) {
        return Err(FrameError::OverMost(most));
    }
    let counted = beside(form) + message.len();
    if counted > greatest(form.length) {
        return Err(FrameError::OverLength);
    }
    match write_frame(alloc, form, counted as u32, message) {
        Ok(text) => Ok(text),
        Err(_) => Err(FrameError::OutOfMemory),
    }
}
