//! One message.

ghost use Rattle.std.specs.Prelude.{◌≡◌, ◌++◌, IfErr, IfOk};
ghost use Rattle.cli_recode.specs.Recodings.{IsRecoded, IsRecodedFrame, IsRefusal};
ghost use Rattle.cli_recode.specs.Recodings.{IsRespelled, IsSpelledRefusal, own_form};

use crate::error::RecodeError;
use dialect_frame::frame_of;
use dialect_toml::{Frame, FrameLength};
use iso_dialect::{Profile, from_ascii, to_ascii};
use std::alloc::{AllocError, Global};
use sw_participant::{Bytes, Text};

/// Which way messages are recoded.
#[derive(Clone, Copy)]
pub enum Way {
    /// From the other system's spelling to the switch's.
    FromOther,
    /// From the switch's spelling to the other system's.
    ToOther,
}

/// What is written for a message that is not recoded.
#[derive(Clone, Copy)]
pub enum Instead {
    /// Nothing: it is left out.
    Nothing,
    /// A frame with its header alone, so that the messages after it keep their numbers.
    EmptyFrame,
    /// The response of format error (39 = 30) to who waits for it; nothing if that cannot be written.
    FormatError,
}

/// How messages are recoded: which way, by the profile of the other system, and into frames of which form.
pub struct Recoding {
    pub way: Way,
    pub profile: Profile,
    pub form: Frame,
    /// How many bytes of a frame stand before its message. They are handed on as they are.
    pub header: u8,
    pub instead: Instead,
    /// What reports name before a message, as `host alpha: `.
    pub place: Text,
}

// Written out, so that no caller proves again how its parts are dropped.
impl Drop for Recoding {
    fn drop(self) {
        let Recoding {
            way: _,
            profile: _,
            form: _,
            header: _,
            instead: _,
            place: _,
        } = self;
    }
}

/// The form of the switch's own frames.
pub fn own_form(alloc: Global) -> Frame
    ensures { result ≡ own_form }
{
    Frame {
        length: FrameLength::Ascii4,
        counts_itself: false,
        header: Bytes::new(Vec::new(alloc)),
        most: 9_999,
    }
}

// What the bytes of a message are recoded to.
fn respell(
    alloc: Global,
    way: Way,
    profile: &Profile,
    message: &[u8],
) -> Result<Vec<u8>, RecodeError>
    ensures recoded { IfOk result (λ v. IsRecoded way profile.now message.now v.items) }
    ensures refused { IfErr result (IsSpelledRefusal way profile.now message.now) }
{
    match way {
        Way::FromOther => Ok(to_ascii(alloc, profile, message)?),
        Way::ToOther => Ok(from_ascii(alloc, profile, message)?),
    }
}

// A text after a header.
pub(crate) fn after_header(
    alloc: Global,
    header: &[u8],
    text: Vec<u8>,
) -> Result<Vec<u8>, AllocError>
    ensures { IfOk result (λ v. v.items ≡ header.now ++ text.items) }
{
    if header.is_empty() {
        return Ok(text);
    }
    let mut whole = Vec::with_capacity(alloc, header.len() + text.len())?;
    whole.extend_from_slice(header)?;
    whole.extend_from_slice(&text)?;
    Ok(whole)
}

// What the bytes after a header are recoded to. Where nothing follows a header, it is given back, and stays alone.
fn respell_body(alloc: Global, recoding: &Recoding, body: &[u8]) -> Result<Vec<u8>, RecodeError>
    ensures recoded { IfOk result (λ v. IsRespelled recoding.now body.now v.items) }
    ensures refused { IfErr result (IsSpelledRefusal recoding.now.way recoding.now.profile body.now) }
{
    if recoding.header > 0 && body.is_empty() {
        return Ok(Vec::new(alloc));
    }
    respell(alloc, recoding.way, &recoding.profile, body)
}

/// The frame of what a message is recoded to, after its header.
pub fn recode_message(
    alloc: Global,
    recoding: &Recoding,
    message: &[u8],
) -> Result<Vec<u8>, RecodeError>
    ensures recoded { IfOk result (λ v. IsRecodedFrame recoding.now message.now v.items) }
    ensures refused { IfErr result (IsRefusal recoding.now message.now) }
{
    let count = recoding.header;
    if message.len() < usize::from(count) {
        return Err(RecodeError::NoHeader(count));
    }
    let (header, body) = message.split_at(usize::from(count));
    let text = respell_body(alloc, recoding, body)?;
    let text = after_header(alloc, header, text)?;
    Ok(frame_of(alloc, &recoding.form, &text)?)
}
