//! The text of an input, and the frames on an output.

ghost use Rattle.std.specs.Prelude.{◌≡◌, IfErr, IfSome, OnOk};
ghost use Rattle.cli_io.specs.Inputs.{reads_made, unread};
ghost use Rattle.cli_encode.specs.Errors.{IsEncodeError, IsReadToSpent};
ghost use Rattle.cli_encode.specs.Texts.{IsEncoded};

use crate::error::EncodeError;
use crate::text::encoder_of;
use cli_io::{Input, read_input, write_out};
use std::alloc::Global;
use std::io::{Read, Write};

/// Writes the frames of the messages whose text an input gives, and flushes. The whole text is read first, and
/// then the frames are written; if a line is refused, only those of the messages that end before it.
///
/// Each message has a header of `header` bytes, which its text gives in hexadecimal, and comes after it in its frame. Of more than
/// 64 bytes no header is read.
///
/// Too many reads are reported only for an input that was read 1,048,576 times.
pub fn encode_stream<R: Read, W: Write>(
    alloc: Global,
    header: usize,
    input: &mut Input<R>,
    out: &mut W,
) -> Result<(), EncodeError>
    ensures encoded { OnOk result (IfSome (unread R.remaining input.old) (λ bytes.
        IsEncoded header bytes (W.contents out.old) (W.contents out.new))) }
    ensures refused { IfErr result (λ e. IfSome (unread R.remaining input.old) (λ bytes.
        IsEncodeError header bytes (W.contents out.old) (W.contents out.new) e)) }
    ensures too_many { IfErr result (IsReadToSpent (reads_made input.new)) }
{
    let text = read_input(alloc, input)?;
    let (encoder, refusal) = encoder_of(alloc, header, &text)?;
    write_out(out, &encoder.frames)?;
    match refusal {
        None => Ok(()),
        Some(error) => Err(EncodeError::from(error)),
    }
}
