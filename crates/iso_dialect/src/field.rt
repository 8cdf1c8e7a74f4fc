//! A field of another system, read without memory.

ghost use Rattle.std.specs.Prelude.{◌≡◌, ◌<◌, ◌≤◌, ◌*◌, ◌^◌, [], length, true, IfOk};
ghost use Rattle.iso_codec.specs.Reads.{Exactly};
ghost use Rattle.iso_msg.specs.Table.{form_of};
ghost use Rattle.iso_dialect.specs.Codings.{byte_count};
ghost use Rattle.iso_dialect.specs.Fields.{byte_at, coded_at, counted_at, digits_at, field_text_at};
ghost use Rattle.iso_dialect.specs.Fields.{number_at, passed_at, size_at, two_bytes_at, value_in};
ghost use Rattle.iso_dialect.specs.Profiles.{has_text_length, is_count, scale};

use crate::coding::Coding;
use crate::read::read_text;
use crate::refuse::{fits_length, scale_of};
use crate::row::{Count, Row, Size};
use crate::text::Text;
use iso_codec::{DecodeError, read_binary, split};
use iso_msg::FieldForm;
use sw_base::decimal;

/// How many bytes a text of this length takes.
fn count_bytes(coding: Coding, count: usize) -> usize
    requires { count < 2 ^ 32 }
    ensures { result ≡ byte_count coding count }
{
    match coding {
        Coding::Ascii | Coding::Ebcdic(_) => count,
        Coding::Packed { .. } | Coding::Octets => (count + 1) / 2,
    }
}

/// Reads the text of this length at the front, and returns the bytes after it.
pub fn read_coded<'a>(
    text: &mut Text,
    coding: Coding,
    count: usize,
    fault: DecodeError,
    bytes: &'a [u8],
) -> Result<&'a [u8], DecodeError>
    requires empty { text.old ≡ [] }
    requires small { count ≤ 999 }
    ensures { Exactly (λ rest. (text.new, rest.now)) result
        (coded_at coding count fault bytes.now) }
{
    let (body, rest) = split(bytes, count_bytes(coding, count))?;
    match read_text(text, coding, count, body) {
        Some(()) => Ok(rest),
        None => Err(fault),
    }
}

#[tactic(auto, unfolding(crate::specs::Fields::byte_at))]
fn read_byte(bytes: &[u8]) -> Result<(usize, &[u8]), DecodeError>
    ensures { Exactly (λ x. (x.0, x.1.now)) result (byte_at bytes.now) }
{
    let (front, rest) = split(bytes, 1)?;
    Ok((front[0] as usize, rest))
}

#[tactic(auto, unfolding(crate::specs::Fields::two_bytes_at))]
fn read_two_bytes(bytes: &[u8]) -> Result<(usize, &[u8]), DecodeError>
    ensures { Exactly (λ x. (x.0, x.1.now)) result (two_bytes_at bytes.now) }
{
    let (front, rest) = split(bytes, 2)?;
    Ok((256 * front[0] as usize + front[1] as usize, rest))
}

#[tactic(auto, unfolding(crate::specs::Fields::digits_at))]
fn read_digits(
    coding: Coding,
    digits: u16,
    number: u8,
    bytes: &[u8],
) -> Result<(usize, &[u8]), DecodeError>
    requires { is_count (Size.Counted (Count.Digits coding digits) 0) ≡ true }
    ensures { Exactly (λ x. (x.0, x.1.now)) result (digits_at coding digits number bytes.now) }
{
    let mut text = Text::new();
    let fault = DecodeError::BadLength(number);
    let rest = read_coded(&mut text, coding, digits as usize, fault, bytes)?;
    match decimal(text.as_slice()) {
        Some(count) => Ok((count as usize, rest)),
        None => Err(DecodeError::BadLength(number)),
    }
}

fn read_number(count: Count, number: u8, bytes: &[u8]) -> Result<(usize, &[u8]), DecodeError>
    requires { is_count (Size.Counted count 0) ≡ true }
    ensures { Exactly (λ x. (x.0, x.1.now)) result (number_at count number bytes.now) }
{
    match count {
        Count::Digits { coding, digits } => read_digits(coding, digits, number, bytes),
        Count::Byte => read_byte(bytes),
        Count::TwoBytes => read_two_bytes(bytes),
    }
}

#[tactic(auto, unfolding(crate::specs::Fields::counted_at))]
fn read_counted(
    count: Count,
    most: u16,
    number: u8,
    bytes: &[u8],
) -> Result<(usize, &[u8]), DecodeError>
    requires { is_count (Size.Counted count 0) ≡ true }
    ensures counted { Exactly (λ x. (x.0, x.1.now)) result
        (counted_at count most number bytes.now) }
    ensures small { IfOk result (λ x. x.0 ≤ most) }
{
    let (counted, rest) = read_number(count, number, bytes)?;
    if counted > most as usize {
        return Err(DecodeError::BadLength(number));
    }
    Ok((counted, rest))
}

/// How many are counted, and the bytes after the number.
fn read_size(size: Size, number: u8, bytes: &[u8]) -> Result<(usize, &[u8]), DecodeError>
    requires { is_count size ≡ true }
    ensures size { Exactly (λ x. (x.0, x.1.now)) result (size_at size number bytes.now) }
    ensures small { IfOk result (λ x. x.0 < 65536) }
{
    match size {
        Size::Exact(exact) => Ok((exact as usize, bytes)),
        Size::Counted { count, most } => read_counted(count, most, number, bytes),
    }
}

/// Reads the text of a field that the switch has in this form, and returns the bytes after it.
#[tactic(auto, unfolding(crate::specs::Fields::field_text_at))]
pub fn read_field_text<'a>(
    text: &mut Text,
    row: Row,
    form: FieldForm,
    number: u8,
    bytes: &'a [u8],
) -> Result<&'a [u8], DecodeError>
    requires count { is_count row.size ≡ true }
    requires form { form_of number ≡ Some form }
    requires empty { text.old ≡ [] }
    ensures { Exactly (λ rest. (text.new, rest.now)) result
        (field_text_at row form number bytes.now) }
{
    let (count, rest) = read_size(row.size, number, bytes)?;
    let length = scale_of(row.coding) * count;
    if !fits_length(form, length) {
        return Err(DecodeError::BadLength(number));
    }
    read_coded(
        text,
        row.coding,
        length,
        DecodeError::BadContent(number),
        rest,
    )
}

/// Passes over a field that is not kept.
#[tactic(auto, unfolding(crate::specs::Fields::passed_at))]
pub fn pass_field(row: Row, number: u8, bytes: &[u8]) -> Result<&[u8], DecodeError>
    requires { is_count row.size ≡ true }
    ensures { Exactly (λ rest. rest.now) result (passed_at row number bytes.now) }
{
    let (count, rest) = read_size(row.size, number, bytes)?;
    let (_, rest) = split(rest, count_bytes(row.coding, scale_of(row.coding) * count))?;
    Ok(rest)
}

/// The eight bytes that sixteen digits stand for.
pub fn octets_of(number: u8, text: &[u8]) -> Result<[u8; 8], DecodeError>
    requires { length text.now ≡ 16 }
    ensures { Exactly (λ v. v) result (value_in FieldForm.Binary number text.now) }
{
    match read_binary(number, text) {
        Ok(read) => {
            let (value, _) = read;
            Ok(value)
        }
        Err(e) => Err(e),
    }
}
