//! The numbers of the bits that are set in bitmaps.

ghost use Rattle.std.specs.Prelude.{◌≡◌, ◌<◌, ◌≤◌, ◌+◌, [], length, option_map};
ghost use Rattle.iso_codec.specs.Digits.{bits_at};
ghost use Rattle.iso_codec.specs.Reads.{Exactly, preceded_by, bitmap_at, bitmaps_at, field_numbers};
ghost use Rattle.iso_codec.specs.Reads.{known, put_before, starts_with_1};

use crate::error::DecodeError;
use crate::numbers::Numbers;
use crate::parts::{hex_digit, split};
use iso_msg::form_at;

/// Adds the numbers of the set bits of hexadecimal digits, whose first bit has this number.
fn read_bits(text: &[u8], first: u8, numbers: &mut Numbers) -> Option<()>
    requires digits { length text.now ≡ 16 }
    requires first { first ≤ 65 }
    requires room { length numbers.old < first }
    ensures bits { option_map (λ _. numbers.new) result
        ≡ put_before numbers.old (bits_at first text.now) }
    ensures small { length numbers.new ≤ length numbers.old + 64 }
{
    let mut at = first;
    for c in text {
        let Some(digit) = hex_digit(*c) else {
            return None;
        };
        numbers.push_digit(at, digit);
        at += 4;
    }
    Some(())
}

#[tactic(auto, unfolding(crate::specs::Reads::bitmap_at))]
fn read_bitmap<'a>(
    bytes: &'a [u8],
    first: u8,
    numbers: &mut Numbers,
) -> Result<&'a [u8], DecodeError>
    requires first { first ≤ 65 }
    requires room { length numbers.old < first }
    ensures map { Exactly (λ rest. (numbers.new, rest.now)) result
        (preceded_by numbers.old (bitmap_at first bytes.now)) }
    ensures small { length numbers.new ≤ length numbers.old + 64 }
{
    let (text, rest) = split(bytes, 16)?;
    match read_bits(text, first, numbers) {
        Some(()) => Ok(rest),
        None => Err(DecodeError::BadBitmap),
    }
}

fn is_first_1(numbers: &[u8]) -> bool
    ensures { result ≡ starts_with_1 numbers.now }
{
    match numbers {
        [] => false,
        [first, ..] => *first == 1,
    }
}

/// Collects the numbers of the set bits of one bitmap or two, and returns the bytes after them.
#[tactic(auto, unfolding(crate::specs::Reads::bitmaps_at))]
pub fn read_bitmaps<'a>(bytes: &'a [u8], numbers: &mut Numbers) -> Result<&'a [u8], DecodeError>
    requires { numbers.old ≡ [] }
    ensures { Exactly (λ rest. (numbers.new, rest.now)) result (bitmaps_at bytes.now) }
{
    let rest = read_bitmap(bytes, 1, numbers)?;
    if is_first_1(numbers.as_slice()) {
        return read_bitmap(rest, 65, numbers);
    }
    Ok(rest)
}

/// The numbers of fields: those of set bits without bit 1.
pub fn fields_of(numbers: &[u8]) -> &[u8]
    ensures { result.now ≡ field_numbers numbers.now }
{
    if is_first_1(numbers) {
        &numbers[1..]
    } else {
        numbers
    }
}

/// Refuses the first number that the profile does not have.
#[tactic(auto, unfolding(crate::specs::Reads::known))]
pub fn check_known(numbers: &[u8]) -> Result<(), DecodeError>
    ensures { Exactly (λ _. tt) result (known numbers.now) }
{
    for number in numbers {
        if form_at(*number).is_none() {
            return Err(DecodeError::FieldNotInProfile(*number));
        }
    }
    Ok(())
}
