//! The numbers of the bits that are set in the bitmaps of another system.

ghost use Rattle.std.specs.Prelude.{◌≡◌, ◌<◌, ◌≤◌, ◌+◌, [], length, option_map, IfSome};
ghost use Rattle.iso_codec.specs.Digits.{bits_at, hex_value};
ghost use Rattle.iso_codec.specs.Reads.{Exactly, preceded_by, put_before, starts_with_1};
ghost use Rattle.iso_dialect.specs.Readings.{bitmap_as, bitmaps_as};

use crate::coding::Coding;
use crate::field::read_coded;
use crate::text::Text;
use iso_codec::{DecodeError, Numbers};

/// The value of a hexadecimal digit, in either case.
fn hex_digit(c: u8) -> Option<u8>
    ensures value { result ≡ hex_value c }
    ensures small { IfSome result (λ d. d < 16) }
{
    if b'0' <= c && c <= b'9' {
        return Some(c - b'0');
    }
    if b'A' <= c && c <= b'F' {
        return Some(c - b'A' + 10);
    }
    if b'a' <= c && c <= b'f' {
        return Some(c - b'a' + 10);
    }
    None
}

/// Adds the numbers of the set bits of hexadecimal digits, whose first bit has this number.
fn read_bits(text: &[u8], first: u8, numbers: &mut Numbers) -> Option<()>
    requires digits { length text.now ≡ 16 }
    requires first { first ≤ 65 }
    requires room { length numbers.old < first }
    ensures bits { option_map (λ _. numbers.new) result
        ≡ put_before numbers.old (bits_at first text.now) }
    ensures small { length numbers.new ≤ length numbers.old + 64 }
{
    let mut at = first;
    for c in text {
        let Some(digit) = hex_digit(*c) else {
            return None;
        };
        numbers.push_digit(at, digit);
        at += 4;
    }
    Some(())
}

#[tactic(auto, unfolding(crate::specs::Readings::bitmap_as))]
fn read_bitmap<'a>(
    coding: Coding,
    bytes: &'a [u8],
    first: u8,
    numbers: &mut Numbers,
) -> Result<&'a [u8], DecodeError>
    requires first { first ≤ 65 }
    requires room { length numbers.old < first }
    ensures map { Exactly (λ rest. (numbers.new, rest.now)) result
        (preceded_by numbers.old (bitmap_as coding first bytes.now)) }
    ensures small { length numbers.new ≤ length numbers.old + 64 }
{
    let mut text = Text::new();
    let rest = read_coded(&mut text, coding, 16, DecodeError::BadBitmap, bytes)?;
    match read_bits(text.as_slice(), first, numbers) {
        Some(()) => Ok(rest),
        None => Err(DecodeError::BadBitmap),
    }
}

fn is_first_1(numbers: &[u8]) -> bool
    ensures { result ≡ starts_with_1 numbers.now }
{
    match numbers {
        [] => false,
        [first, ..] => *first == 1,
    }
}

/// Collects the numbers of the set bits of one bitmap or two, and returns the bytes after them.
#[tactic(auto, unfolding(crate::specs::Readings::bitmaps_as))]
pub fn read_bitmaps<'a>(
    coding: Coding,
    bytes: &'a [u8],
    numbers: &mut Numbers,
) -> Result<&'a [u8], DecodeError>
    requires { numbers.old ≡ [] }
    ensures { Exactly (λ rest. (numbers.new, rest.now)) result (bitmaps_as coding bytes.now) }
{
    let rest = read_bitmap(coding, bytes, 1, numbers)?;
    if is_first_1(numbers.as_slice()) {
        return read_bitmap(coding, rest, 65, numbers);
    }
    Ok(rest)
}
