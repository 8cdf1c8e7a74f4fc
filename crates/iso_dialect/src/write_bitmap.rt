//! The bitmaps of the fields that are written.

ghost use Rattle.std.specs.Prelude.{◌≡◌, ◌<◌, ◌≤◌, ◌+◌, ◌*◌, ◌%◌, ◌∷◌, ◌++◌, [], length, nat_lt, true, OnOk};
ghost use Rattle.std.specs.List.{list_all, list_any};
ghost use Rattle.iso_codec.specs.Reads.{field_numbers};
ghost use Rattle.iso_codec.specs.Spelling.{upper};
ghost use Rattle.iso_codec.specs.RisingBitmaps.{bit_of, bitmaps_of, bits_of, digit_of};
ghost use Rattle.iso_dialect.specs.Codings.{coded, is_upper_hex};
ghost use Rattle.iso_dialect.specs.Profiles.{takes_hex};

use crate::coding::Coding;
use crate::read::upper_digit;
use crate::text::Text;
use crate::write_text::push_coded;
use iso_codec::Numbers;
use std::alloc::AllocError;

/// Whether the first number is this one, as a bit, and the numbers after it.
fn take_bit(number: u8, numbers: &[u8]) -> (u8, &[u8])
    ensures bit { (result.0, result.1.now) ≡ bit_of number numbers.now }
    ensures small { result.0 ≤ 1 }
{
    match numbers {
        [first, rest @ ..] if *first == number => (1, rest),
        _ => (0, numbers),
    }
}

fn take_digit(number: u8, numbers: &[u8]) -> (u8, &[u8])
    requires { number < 253 }
    ensures digit { (result.0, result.1.now) ≡ digit_of number numbers.now }
    ensures small { result.0 < 16 }
{
    let (a, after) = take_bit(number, numbers);
    let (b, after) = take_bit(number + 1, after);
    let (c, after) = take_bit(number + 2, after);
    let (d, after) = take_bit(number + 3, after);
    (8 * a + 4 * b + 2 * c + d, after)
}

/// Adds this many digits of the bitmap of rising numbers, whose first bit has number 1.
fn push_bits(text: &mut Text, digits: u8, numbers: &[u8])
    requires empty { text.old ≡ [] }
    requires few { digits ≤ 32 }
    ensures bits { text.new ≡ bits_of 1 digits numbers.now }
    ensures len { length text.new ≡ digits }
    ensures hex { list_all is_upper_hex text.new ≡ true }
{
    let mut at = 1;
    let mut rest = numbers;
    for _ in 0..digits {
        let (digit, after) = take_digit(at, rest);
        text.push(upper_digit(digit));
        rest = after;
        at += 4;
    }
}

/// Whether a second bitmap is needed.
fn is_wide(numbers: &[u8]) -> bool
    ensures { result ≡ list_any (λ n. nat_lt 64 n) numbers.now }
{
    numbers.iter().any(|number| 64 < *number)
}

/// Adds the digits of the bitmaps of the rising numbers that are after 1 in this list.
fn push_digits(text: &mut Text, numbers: &Numbers)
    requires empty { text.old ≡ [] }
    requires first { numbers.now ≡ 1 ∷ field_numbers numbers.now }
    ensures bits { text.new ≡ bitmaps_of (field_numbers numbers.now) }
    ensures even { length text.new % 2 ≡ 0 }
    ensures few { length text.new ≤ 32 }
    ensures hex { list_all is_upper_hex text.new ≡ true }
{
    if is_wide(numbers.fields()) {
        push_bits(text, 32, numbers.as_slice());
    } else {
        push_bits(text, 16, numbers.fields());
    }
}

/// Writes the bitmaps of the rising numbers that are after 1 in this list.
pub fn push_bitmaps(out: &mut Vec<u8>, coding: Coding, numbers: &Numbers) -> Result<(), AllocError>
    requires hex { takes_hex coding ≡ true }
    requires first { numbers.now ≡ 1 ∷ field_numbers numbers.now }
    ensures { OnOk result (out.new.items
        ≡ out.old.items ++ coded coding (bitmaps_of (field_numbers numbers.now))) }
{
    let mut text = Text::new();
    push_digits(&mut text, numbers);
    push_coded(out, coding, text.as_slice())
}
