//! The length of a frame, read.

ghost use Rattle.std.specs.Prelude.{◌≡◌, ◌++◌, slice_get};
ghost use Rattle.std.specs.List.{flat_map};
ghost use Rattle.dialect_frame.specs.Feeds.{IsFront, IsLead, IsLeadFor, IsSpelled};
ghost use Rattle.dialect_frame.specs.Forms.{digits_in};

use crate::form::beside;
use dialect_toml::{Frame, FrameLength};
use sw_base::decimal;

/// What the bytes of a length spell.
#[derive(Clone, Copy)]
pub enum Spelled {
    /// There are fewer bytes than a length has.
    Short,
    /// They aren't digits.
    NoNumber,
    Number(u32),
}

/// What is found where a length is expected.
#[derive(Clone, Copy)]
pub enum Lead {
    /// Fewer bytes than a length has.
    Short,
    /// The length of no message that may come.
    Bad,
    /// The length of a message of this many bytes.
    Message(u16),
}

fn byte_at(held: &[u8], piece: &[u8], index: usize) -> Option<u8>
    ensures { result ≡ slice_get (held.now ++ piece.now) index }
{
    if index < held.len() {
        Some(held[index])
    } else {
        piece.get(index - held.len()).copied()
    }
}

fn first_two(held: &[u8], piece: &[u8]) -> Option<[u8; 2]>
    ensures { IsFront 2 (held.now ++ piece.now) result }
{
    let first = byte_at(held, piece, 0)?;
    let second = byte_at(held, piece, 1)?;
    Some([first, second])
}

fn first_four(held: &[u8], piece: &[u8]) -> Option<[u8; 4]>
    ensures { IsFront 4 (held.now ++ piece.now) result }
{
    let first = byte_at(held, piece, 0)?;
    let second = byte_at(held, piece, 1)?;
    let third = byte_at(held, piece, 2)?;
    let fourth = byte_at(held, piece, 3)?;
    Some([first, second, third, fourth])
}

fn ascii_number(held: &[u8], piece: &[u8]) -> Spelled
    ensures { IsSpelled FrameLength.Ascii4 (held.now ++ piece.now) result }
{
    let Some(digits) = first_four(held, piece) else {
        return Spelled::Short;
    };
    match decimal(&digits) {
        Some(number) => Spelled::Number(number),
        None => Spelled::NoNumber,
    }
}

fn two_byte_number(held: &[u8], piece: &[u8]) -> Spelled
    ensures { IsSpelled FrameLength.Binary2 (held.now ++ piece.now) result }
{
    match first_two(held, piece) {
        Some(bytes) => Spelled::Number(u32::from(u16::from_be_bytes(bytes))),
        None => Spelled::Short,
    }
}

fn four_byte_number(held: &[u8], piece: &[u8]) -> Spelled
    ensures { IsSpelled FrameLength.Binary4 (held.now ++ piece.now) result }
{
    match first_four(held, piece) {
        Some(bytes) => Spelled::Number(u32::from_be_bytes(bytes)),
        None => Spelled::Short,
    }
}

/// The four digits that two bytes pack, as characters. A half above 9 gives one that is no digit.
fn unpacked(bytes: [u8; 2]) -> [u8; 4]
    ensures { result ≡ flat_map digits_in bytes }
{
    let [high, low] = bytes;
    [
        b'0' + high / 16,
        b'0' + high % 16,
        b'0' + low / 16,
        b'0' + low % 16,
    ]
}

fn packed_number(held: &[u8], piece: &[u8]) -> Spelled
    ensures { IsSpelled FrameLength.Packed2 (held.now ++ piece.now) result }
{
    let Some(bytes) = first_two(held, piece) else {
        return Spelled::Short;
    };
    match decimal(&unpacked(bytes)) {
        Some(number) => Spelled::Number(number),
        None => Spelled::NoNumber,
    }
}

fn number_at(length: FrameLength, held: &[u8], piece: &[u8]) -> Spelled
    ensures { IsSpelled length (held.now ++ piece.now) result }
{
    match length {
        FrameLength::Ascii4 => ascii_number(held, piece),
        FrameLength::Binary2 => two_byte_number(held, piece),
        FrameLength::Binary4 => four_byte_number(held, piece),
        FrameLength::Packed2 => packed_number(held, piece),
    }
}

/// What a length says that spells this number, where so many are counted beside those of the message.
fn lead_for(beside: usize, most: u16, number: u32) -> Lead
    ensures { IsLeadFor beside most number result }
{
    let counted = number as usize;
    if counted < beside {
        return Lead::Bad;
    }
    let length = counted - beside;
    if length > usize::from(most) {
        return Lead::Bad;
    }
    Lead::Message(length as u16)
}

/// What is found at the front of held bytes and a piece after them.
pub fn lead_at(form: &Frame, held: &[u8], piece: &[u8]) -> Lead
    ensures { IsLead form.now (held.now ++ piece.now) result }
{
    match number_at(form.length, held, piece) {
        Spelled::Short => Lead::Short,
        Spelled::NoNumber => Lead::Bad,
        Spelled::Number(number) => lead_for(beside(form), form.most, number),
    }
}
