//! The four digits of a frame's length.

ghost use Rattle.std.specs.Prelude.{◌≡◌, ◌<◌, ◌≤◌, ◌+◌, ℕ, List, ◌++◌, length, take, Some, slice_get};
ghost use Rattle.sw_base.specs.Digits.{number_of};
ghost use Rattle.sw_frame.specs.Feeds.{IsFront, IsLengthHeader};

use sw_base::decimal;

/// What is found where a length is expected.
#[derive(Clone, Copy)]
pub enum LengthHeader {
    /// Fewer than four bytes.
    Short,
    /// Four bytes that aren't all digits.
    Bad,
    /// Four digits, and the number of bytes that they spell.
    Length(u32),
}

/// The length at the front of bytes.
pub fn header_of(bytes: &[u8]) -> LengthHeader
    ensures { IsLengthHeader bytes.now result }
{
    if bytes.len() < 4 {
        return LengthHeader::Short;
    }
    let (digits, _) = bytes.split_at(4);
    match decimal(digits) {
        Some(length) => LengthHeader::Length(length),
        None => LengthHeader::Bad,
    }
}

fn byte_at(held: &[u8], piece: &[u8], index: usize) -> Option<u8>
    ensures { result ≡ slice_get (held.now ++ piece.now) index }
{
    if index < held.len() {
        Some(held[index])
    } else {
        piece.get(index - held.len()).copied()
    }
}

fn first_four(held: &[u8], piece: &[u8]) -> Option<[u8; 4]>
    ensures { IsFront (held.now ++ piece.now) result }
{
    let first = byte_at(held, piece, 0)?;
    let second = byte_at(held, piece, 1)?;
    let third = byte_at(held, piece, 2)?;
    let fourth = byte_at(held, piece, 3)?;
    Some([first, second, third, fourth])
}

/// The length at the front of held bytes and a piece after them.
pub fn joined_header(held: &[u8], piece: &[u8]) -> LengthHeader
    ensures { IsLengthHeader (held.now ++ piece.now) result }
{
    let Some(digits) = first_four(held, piece) else {
        return LengthHeader::Short;
    };
    match decimal(&digits) {
        Some(length) => LengthHeader::Length(length),
        None => LengthHeader::Bad,
    }
}

/// The four digits that spell a length.
pub fn digits_of(length: u16) -> [u8; 4]
    requires { length < 10000 }
    ensures { number_of result ≡ Some length }
{
    [
        b'0' + (length / 1000) as u8,
        b'0' + (length / 100 % 10) as u8,
        b'0' + (length / 10 % 10) as u8,
        b'0' + (length % 10) as u8,
    ]
}
