//! The text of one message.

ghost use Rattle.std.specs.Prelude.{◌≡◌, ◌++◌, Some, codes, drop, take, OnOk, IfOk, Ok, Err};
ghost use Rattle.std.specs.Fmt.{decimal};
ghost use Rattle.iso_msg.specs.Table.{IsForm, form_of};
ghost use Rattle.iso_codec.specs.Reads.{GivesMessage};
ghost use Rattle.cli_decode.specs.Decoded.{fault_name as name_of, frame_text, headed_text, header_line};
ghost use Rattle.cli_decode.specs.Decoded.{is_refused, is_refused_in, line_by, line_of, refused_text, shown};
ghost use Rattle.cli_decode.specs.Decoded.{styled_text};
ghost use Rattle.cli_decode.specs.Printing.{opening_of, paragraph_of, with_field, with_fields};
ghost use Rattle.cli_decode.specs.Printing.{with_form, with_message, with_value};

use crate::mask::push_masked;
use crate::masking::is_sensitive;
use crate::style::FrameStyle;
use cli_forms::Masking;
use iso_codec::{
    DecodeError, Numbers, check_content, push_hex, read_binary, read_front, read_variable, split,
};
use iso_msg::{FieldForm, form_at};
use itoa::Buffer;
use std::alloc::AllocError;

/// Adds a number's decimal digits.
pub fn push_number(text: &mut Vec<u8>, number: u64) -> Result<(), AllocError>
    ensures { OnOk result (text.new.items ≡ text.old.items ++ decimal number) }
{
    let mut buffer = Buffer::new();
    text.extend_from_slice(buffer.format(number).as_bytes())
}

fn push_value(text: &mut Vec<u8>, form: FieldForm, value: &[u8]) -> Result<(), AllocError>
    ensures { OnOk result (text.new.items ≡ text.old.items ++ shown (Some form) value.now) }
{
    match form {
        FieldForm::Binary => push_hex(text, value),
        _ => text.extend_from_slice(value),
    }
}

fn push_plain(
    text: &mut Vec<u8>,
    form: FieldForm,
    number: u8,
    value: &[u8],
) -> Result<(), AllocError>
    ensures { OnOk result (text.new.items
        ≡ text.old.items ++ line_of (Some form) number value.now) }
{
    push_number(text, u64::from(number))?;
    text.extend_from_slice(b" ")?;
    push_value(text, form, value)?;
    text.extend_from_slice(b"\n")
}

// Adds a field's line, masked if that is asked for and the field is sensitive.
fn push_line(
    text: &mut Vec<u8>,
    masking: Masking,
    form: FieldForm,
    number: u8,
    value: &[u8],
) -> Result<(), AllocError>
    ensures { OnOk result (text.new.items
        ≡ text.old.items ++ line_by masking (Some form) number value.now) }
{
    match masking {
        Masking::On if is_sensitive(number) => push_masked(text, number, value),
        _ => push_plain(text, form, number, value),
    }
}

// Adds the line of a value that the field takes, and answers the bytes after it.
fn push_checked<'a>(
    text: &mut Vec<u8>,
    masking: Masking,
    form: FieldForm,
    number: u8,
    value: &[u8],
    rest: &'a [u8],
) -> Result<&'a [u8], DecodeError>
    ensures { GivesMessage (λ rest. (text.new.items, rest.now)) result
        (with_value masking form text.old.items number (value.now, rest.now)) }
{
    check_content(form, number, value)?;
    push_line(text, masking, form, number, value)?;
    Ok(rest)
}

// Adds the line of a field of this form, and answers the bytes after the field.
fn push_form<'a>(
    text: &mut Vec<u8>,
    masking: Masking,
    form: FieldForm,
    number: u8,
    bytes: &'a [u8],
) -> Result<&'a [u8], DecodeError>
    requires { IsForm form }
    ensures { GivesMessage (λ rest. (text.new.items, rest.now)) result
        (with_form masking form text.old.items number bytes.now) }
{
    match form {
        FieldForm::Fixed { length, .. } => {
            let (value, rest) = split(bytes, length as usize)?;
            push_checked(text, masking, form, number, value, rest)
        }
        FieldForm::Variable {
            length_digits,
            max_length,
            ..
        } => {
            let (value, rest) = read_variable(length_digits, max_length, number, bytes)?;
            push_checked(text, masking, form, number, value, rest)
        }
        FieldForm::Binary => {
            let (value, rest) = read_binary(number, bytes)?;
            push_checked(text, masking, form, number, &value, rest)
        }
    }
}

// The same for the field of this number.
fn push_field<'a>(
    text: &mut Vec<u8>,
    masking: Masking,
    number: u8,
    bytes: &'a [u8],
) -> Result<&'a [u8], DecodeError>
    ensures { GivesMessage (λ rest. (text.new.items, rest.now)) result
        (with_field masking (form_of number) text.old.items number bytes.now) }
{
    match form_at(number) {
        None => Err(DecodeError::FieldNotInProfile(number)),
        Some(form) => push_form(text, masking, form, number, bytes),
    }
}

#[tactic(auto, unfolding(crate::specs::Printing::with_fields))]
fn push_fields<'a>(
    text: &mut Vec<u8>,
    masking: Masking,
    numbers: &[u8],
    bytes: &'a [u8],
) -> Result<&'a [u8], DecodeError>
    ensures { GivesMessage (λ rest. (text.new.items, rest.now)) result
        (with_fields masking text.old.items numbers.now bytes.now) }
{
    let mut rest = bytes;
    for number in numbers {
        rest = push_field(text, masking, *number, rest)?;
    }
    Ok(rest)
}

// Adds the type and the fields of the message that the bytes spell.
#[tactic(auto, unfolding(crate::specs::Printing::with_message))]
fn push_message(text: &mut Vec<u8>, masking: Masking, bytes: &[u8]) -> Result<(), DecodeError>
    ensures { GivesMessage (λ _. text.new.items) result (with_message masking text.old.items bytes.now) }
{
    let mut numbers = Numbers::new();
    let (digits, rest) = read_front(bytes, &mut numbers)?;
    text.extend_from_slice(digits)?;
    text.extend_from_slice(b"\n")?;
    let rest = push_fields(text, masking, numbers.fields(), rest)?;
    if rest.is_empty() {
        Ok(())
    } else {
        Err(DecodeError::Trailing)
    }
}

fn fault_name(error: DecodeError) -> &'static str
    ensures { result.now ≡ name_of error }
{
    match error {
        DecodeError::Short => "Short",
        DecodeError::BadMti => "BadMti",
        DecodeError::BadBitmap => "BadBitmap",
        DecodeError::FieldNotInProfile(_) => "FieldNotInProfile",
        DecodeError::BadLength(_) => "BadLength",
        DecodeError::BadContent(_) => "BadContent",
        DecodeError::Trailing => "Trailing",
        DecodeError::OutOfMemory => "OutOfMemory",
    }
}

// Adds the line of a header, if it has bytes.
fn push_header(text: &mut Vec<u8>, header: &[u8]) -> Result<(), AllocError>
    ensures { OnOk result (text.new.items ≡ text.old.items ++ header_line header.now) }
{
    if header.is_empty() {
        return Ok(());
    }
    text.extend_from_slice(b"header ")?;
    push_hex(text, header)?;
    text.extend_from_slice(b"\n")
}

fn push_refusal(
    text: &mut Vec<u8>,
    number: u64,
    header: &[u8],
    error: DecodeError,
) -> Result<(), AllocError>
    ensures { OnOk result (text.new.items
        ≡ text.old.items ++ refused_text number header.now error) }
{
    text.extend_from_slice(b"message ")?;
    push_number(text, number)?;
    text.extend_from_slice(b" refused ")?;
    text.extend_from_slice(fault_name(error).as_bytes())?;
    text.extend_from_slice(b"\n")?;
    push_header(text, header)
}

// Adds the lines before a message's type.
fn push_opening(text: &mut Vec<u8>, number: u64, header: &[u8]) -> Result<(), AllocError>
    ensures { OnOk result (text.new.items ≡ text.old.items ++ opening_of number header.now) }
{
    text.extend_from_slice(b"message ")?;
    push_number(text, number)?;
    text.extend_from_slice(b"\n")?;
    push_header(text, header)
}

// Replaces the paragraph by the text of the message of this number, after its header.
fn write_paragraph(
    paragraph: &mut Vec<u8>,
    masking: Masking,
    number: u64,
    header: &[u8],
    bytes: &[u8],
) -> Result<(), DecodeError>
    ensures { GivesMessage (λ _. paragraph.new.items) result
        (paragraph_of masking number header.now bytes.now) }
{
    paragraph.clear();
    push_opening(paragraph, number, header)?;
    paragraph.extend_from_slice(b"mti ")?;
    push_message(paragraph, masking, bytes)
}

// Adds the text of the message of this number after its header, and answers whether it is refused.
#[tactic(auto, unfolding(crate::specs::Decoded::headed_text, crate::specs::Decoded::is_refused))]
fn push_headed(
    paragraph: &mut Vec<u8>,
    text: &mut Vec<u8>,
    masking: Masking,
    number: u64,
    header: &[u8],
    bytes: &[u8],
) -> Result<bool, AllocError>
    ensures text { OnOk result (text.new.items ≡ text.old.items
        ++ headed_text masking number header.now bytes.now) }
    ensures refused { IfOk result (λ b. b ≡ is_refused bytes.now) }
{
    match write_paragraph(paragraph, masking, number, header, bytes) {
        Ok(()) => {
            text.extend_from_slice(paragraph)?;
            Ok(false)
        }
        Err(DecodeError::OutOfMemory) => Err(AllocError),
        Err(error) => {
            push_refusal(text, number, header, error)?;
            Ok(true)
        }
    }
}

/// Adds the text of the message of this number, which has no header, and answers whether it is refused. The text of
/// a message is first written to `paragraph`, and what was there is lost.
pub fn push_frame(
    paragraph: &mut Vec<u8>,
    text: &mut Vec<u8>,
    masking: Masking,
    number: u64,
    bytes: &[u8],
) -> Result<bool, AllocError>
    ensures text { OnOk result (text.new.items ≡ text.old.items
        ++ frame_text masking number bytes.now) }
    ensures refused { IfOk result (λ b. b ≡ is_refused bytes.now) }
{
    push_headed(paragraph, text, masking, number, &[], bytes)
}

// The header of a frame, which has this many bytes, and what comes after it. A frame that is shorter is all header.
fn split_frame(frame: &[u8], header: usize) -> (&[u8], &[u8])
    ensures header { result.0.now ≡ take header frame.now }
    ensures message { result.1.now ≡ drop header frame.now }
{
    if header < frame.len() {
        frame.split_at(header)
    } else {
        frame.split_at(frame.len())
    }
}

/// Adds the text of the frame of this number, and answers whether its message is refused. The text of a message is
/// first written to `paragraph`, and what was there is lost.
pub fn push_styled(
    paragraph: &mut Vec<u8>,
    text: &mut Vec<u8>,
    style: FrameStyle,
    number: u64,
    frame: &[u8],
) -> Result<bool, AllocError>
    ensures text { OnOk result (text.new.items ≡ text.old.items
        ++ styled_text style number frame.now) }
    ensures refused { IfOk result (λ b. b ≡ is_refused_in style frame.now) }
{
    let (header, message) = split_frame(frame, style.header);
    push_headed(paragraph, text, style.masking, number, header, message)
}
