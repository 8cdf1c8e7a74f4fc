//! What is written for a message that is not recoded.

ghost use Rattle.std.specs.Prelude.{◌≡◌, IfOk, option_map, take};
ghost use Rattle.iso_codec.specs.Spelling.{spelling};
ghost use Rattle.dialect_frame.specs.Writings.{WrittenAs};
ghost use Rattle.cli_recode.specs.FormatErrors.{IsFormatErrorOf, format_error};
ghost use Rattle.cli_recode.specs.Recodings.{IsFramedOrNothing, IsInstead, own_form};
ghost use Rattle.cli_recode.specs.declared.message.Instead.TheVariants.{FormatError};

use crate::error::RecodeError;
use crate::message::{Instead, Recoding, after_header, own_form, recode_message};
use dialect_frame::{FrameError, frame_of};
use iso_codec::{DecodeError, decode, encode};
use iso_msg::Message;
use std::alloc::{AllocError, Global};
use sw_messages::{ResponseCode, copy_fields, put_field};

/// The fields by which who waits for a response finds its request.
const KEY: [u8; 3] = [7, 11, 41];

// The text of the response of format error in the place of another one.
fn format_error(alloc: Global, response: &Message) -> Result<Vec<u8>, AllocError>
    ensures { IfOk result (λ v. v.items ≡ spelling (format_error response.now)) }
{
    let mut answer = Message::new(alloc, response.mti());
    let code = ResponseCode::FormatError.digits();
    match copy_fields(alloc, &KEY, response, &mut answer) {
        Ok(()) => {}
        Err(_) => return Err(AllocError),
    }
    match put_field(alloc, &mut answer, 39, Some(code)) {
        Ok(()) => encode(alloc, &answer),
        Err(_) => Err(AllocError),
    }
}

// The same after the header of the other response; `None` of what is no message.
fn format_error_of(alloc: Global, header: u8, message: &[u8]) -> Result<Option<Vec<u8>>, AllocError>
    ensures { IfOk result (λ text. IsFormatErrorOf header message.now
        (option_map (λ v. v.items) text)) }
{
    if message.len() < usize::from(header) {
        return Ok(None);
    }
    let (header, body) = message.split_at(usize::from(header));
    match decode(alloc, body) {
        Ok(response) => {
            let text = format_error(alloc, &response)?;
            Ok(Some(after_header(alloc, header, text)?))
        }
        Err(DecodeError::OutOfMemory) => Err(AllocError),
        Err(_) => Ok(None),
    }
}

// The frame of a response, or nothing where that has a fault.
fn frame_or_nothing(alloc: Global, recoding: &Recoding, text: &[u8]) -> Result<Vec<u8>, AllocError>
    ensures { IfOk result (λ v. IsFramedOrNothing recoding.now text.now v.items) }
{
    match recode_message(alloc, recoding, text) {
        Ok(frame) => Ok(frame),
        Err(RecodeError::OutOfMemory) => Err(AllocError),
        Err(_) => Ok(Vec::new(alloc)),
    }
}

// The frame of the response of format error in the place of another one, or nothing.
fn format_error_frame(
    alloc: Global,
    recoding: &Recoding,
    message: &[u8],
) -> Result<Vec<u8>, AllocError>
    ensures { IfOk result (λ v. IsInstead FormatError recoding.now message.now v.items) }
{
    match format_error_of(alloc, recoding.header, message)? {
        Some(text) => frame_or_nothing(alloc, recoding, &text),
        None => Ok(Vec::new(alloc)),
    }
}

// The frame of the switch's own form that has the header of a message alone.
fn header_frame(alloc: Global, header: u8, message: &[u8]) -> Result<Vec<u8>, AllocError>
    ensures { IfOk result (λ v. WrittenAs own_form v.items (take header message.now)) }
{
    let count = message.len().min(usize::from(header));
    match frame_of(alloc, &own_form(alloc), &message[..count]) {
        Ok(frame) => Ok(frame),
        Err(FrameError::OutOfMemory) => Err(AllocError),
        Err(_) => unreachable!(),
    }
}

/// What is written for a message that is not recoded. The only refusal is out of memory.
pub(crate) fn instead_of(
    alloc: Global,
    recoding: &Recoding,
    message: &[u8],
) -> Result<Vec<u8>, AllocError>
    ensures { IfOk result (λ v.
        IsInstead recoding.now.instead recoding.now message.now v.items) }
{
    match recoding.instead {
        Instead::Nothing => Ok(Vec::new(alloc)),
        Instead::EmptyFrame => header_frame(alloc, recoding.header, message),
        Instead::FormatError => format_error_frame(alloc, recoding, message),
    }
}
