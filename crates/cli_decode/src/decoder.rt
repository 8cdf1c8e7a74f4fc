//! Messages of a stream that comes in pieces, as text.

ghost use Rattle.std.specs.Prelude.{◌≡◌, ◌+◌, ◌^◌, ◌<◌, ◌||◌, ◌++◌, [], ℕ, List, length, OnOk, IfOk, false};
ghost use Rattle.std.specs.List.{list_any};
ghost use Rattle.sw_frame.specs.Stream.{blank};
ghost use Rattle.sw_frame.specs.Feeds.{messages as messages_of};
ghost use Rattle.cli_decode.specs.Decoded.{cut_text, end_text, frames_text, is_cut, is_refused_in};

use crate::style::FrameStyle;
use crate::text::{push_number, push_styled};
use std::alloc::{AllocError, Global};
use sw_frame::{FrameError, Framer};

/// A decoder of one stream: what it keeps between the pieces.
#[derive(Drop)]
pub struct Decoder {
    framer: Framer,
    /// How many messages came, refused ones included.
    count: u64,
    /// Whether a message was refused.
    refused: bool,
}

fn either(one: bool, other: bool) -> bool
    ensures { result ≡ (one || other) }
{
    one || other
}

// Adds the texts of messages, the first with number `first`, and answers whether one is refused.
fn push_frames(
    alloc: Global,
    text: &mut Vec<u8>,
    style: FrameStyle,
    first: u64,
    messages: &[Vec<u8>],
) -> Result<bool, AllocError>
    ensures text { OnOk result (first + length messages.now < 2 ^ 64
        → text.new.items
        ≡ text.old.items ++ frames_text style first (messages_of messages.now)) }
    ensures refused { IfOk result (λ b. b ≡ list_any (is_refused_in style) (messages_of messages.now)) }
{
    let mut refused = false;
    let mut number = first;
    let mut paragraph = Vec::new(alloc);
    for message in messages {
        if push_styled(&mut paragraph, text, style, number, message)? {
            refused = true;
        }
        number = number.saturating_add(1);
    }
    Ok(refused)
}

// Adds the line for a last frame that is not whole: only `pending` bytes of it came.
fn push_cut(text: &mut Vec<u8>, pending: u64) -> Result<(), AllocError>
    ensures { OnOk result (text.new.items ≡ text.old.items ++ cut_text pending) }
{
    text.extend_from_slice(b"frame refused Truncated ")?;
    push_number(text, pending)?;
    text.extend_from_slice(b"\n")?;
    Ok(())
}

impl Decoder {
    ghost use Rattle.std.specs.Prelude.{◌≡◌, ◌||◌, ◌++◌, OnOk, IfOk, false};
    ghost use Rattle.sw_frame.specs.Stream.{blank};
    ghost use Rattle.cli_decode.specs.Decoded.{end_text, is_cut};
    ghost use Rattle.cli_decode.specs.Steps.{DecodesPiece};

    /// A decoder of a stream of which nothing has come yet.
    pub fn new(alloc: Global) -> Decoder
        ensures framer { result.framer ≡ blank }
        ensures count { result.count ≡ 0 }
        ensures refused { result.refused ≡ false }
    {
        Decoder {
            framer: Framer::new(alloc),
            count: 0,
            refused: false,
        }
    }

    /// Whether a length was met that is not four digits: nothing more is decoded then.
    pub fn failed(&self) -> bool
        ensures { result ≡ self.now.framer.failed }
    {
        self.framer.failed()
    }

    /// Takes the next piece of the stream, and adds the texts of the messages that are whole now. The
    /// only refusal is out of memory, after which the rest of the stream cannot be decoded.
    pub fn piece(
        &mut self,
        alloc: Global,
        style: FrameStyle,
        piece: &[u8],
        text: &mut Vec<u8>,
    ) -> Result<(), AllocError>
        ensures { OnOk result (DecodesPiece style self.old piece.now self.new
            text.old.items text.new.items) }
    {
        match self.framer.feed(piece) {
            Ok(messages) => {
                let whole = messages.as_slice();
                let first = self.count.saturating_add(1);
                let refused = push_frames(alloc, text, style, first, whole)?;
                self.count = self.count.saturating_add(whole.len() as u64);
                self.refused = either(self.refused, refused);
                Ok(())
            }
            Err(FrameError::BadLength) => Ok(()),
            Err(FrameError::OutOfMemory) => Err(AllocError),
            Err(FrameError::TooLong) => unreachable!(),
        }
    }

    /// Adds the last line of the stream, if it has a bad length or ends within a frame, and answers
    /// whether anything in the stream was refused.
    pub fn finish(&self, text: &mut Vec<u8>) -> Result<bool, AllocError>
        ensures text { OnOk result (text.new.items ≡ text.old.items ++ end_text self.now.framer) }
        ensures refused { IfOk result (λ b. b ≡ (self.now.refused || is_cut self.now.framer)) }
    {
        let pending = self.framer.pending().len();
        if self.framer.failed() {
            text.extend_from_slice(b"frame refused BadLength\n")?;
            return Ok(true);
        }
        if pending == 0 {
            return Ok(self.refused);
        }
        push_cut(text, pending as u64)?;
        Ok(true)
    }
}
