//! A whole stream, read piece by piece.

ghost use Rattle.std.specs.Prelude.{◌≡◌, ◌<◌, ◌||◌, length, IfErr, IfOk, OnOk};
ghost use Rattle.std.specs.Io.KnownBytes.{Appends};
ghost use Rattle.cli_io.specs.Errors.{IsOfWriting};
ghost use Rattle.cli_io.specs.Inputs.{IsSpentAt, reads_made, unread};
ghost use Rattle.cli_decode.specs.Decoded.{IsDecodedStream, end_text, is_cut};
ghost use Rattle.cli_decode.specs.Steps.{DecodingGoesOn, PrintsPiece};

use crate::decoder::Decoder;
use crate::style::FrameStyle;
use cli_io::{Input, IoError, write_out};
use std::alloc::Global;
use std::io::{Read, Write};

/// How many bytes are read at once. Their text mostly takes less than one and a half times as many.
const PIECE: usize = 65_536;

fn write_text<W: Write>(out: &mut W, text: &[u8]) -> Result<(), IoError>
    ensures written { OnOk result (Appends (W.contents out.old) (W.contents out.new) text.now) }
    ensures writing { IfErr result IsOfWriting }
{
    out.write_all(text).map_err(IoError::from_write)
}

// Writes the texts of the messages that a piece completes.
fn print_piece<W: Write>(
    alloc: Global,
    style: FrameStyle,
    decoder: &mut Decoder,
    piece: &[u8],
    out: &mut W,
) -> Result<(), IoError>
    ensures printed { OnOk result (PrintsPiece style decoder.old piece.now decoder.new
        (W.contents out.old) (W.contents out.new)) }
    ensures writing { IfErr result IsOfWriting }
{
    let mut text = Vec::with_capacity(alloc, PIECE + PIECE / 2)?;
    decoder.piece(alloc, style, piece, &mut text)?;
    write_text(out, text.as_slice())?;
    Ok(())
}

// Reads a piece, and writes the texts of the messages that it completes. Answers whether more may
// come.
fn decode_piece<R: Read, W: Write>(
    alloc: Global,
    style: FrameStyle,
    input: &mut Input<R>,
    decoder: &mut Decoder,
    buf: &mut [u8],
    out: &mut W,
) -> Result<bool, IoError>
    requires { length buf.old ≡ 65536 }
    ensures goes_on { IfOk result (DecodingGoesOn style
        (record {
          unread = unread R.remaining input.old;
          written = W.contents out.old;
          reads = reads_made input.old;
          decoder = decoder.old;
        })
        (record {
          unread = unread R.remaining input.new;
          written = W.contents out.new;
          reads = reads_made input.new;
          decoder = decoder.new;
        })) }
    ensures counted { IfOk result (λ more. reads_made input.old < reads_made input.new) }
    ensures too_many { IfErr result (IsSpentAt (reads_made input.new)) }
{
    let count = input.read_piece(buf)?;
    if count == 0 {
        return Ok(false);
    }
    print_piece(alloc, style, decoder, &buf[..count], out)?;
    Ok(!decoder.failed())
}

fn finish<W: Write>(alloc: Global, decoder: &Decoder, out: &mut W) -> Result<bool, IoError>
    ensures text { OnOk result (Appends (W.contents out.old) (W.contents out.new)
        (end_text decoder.now.framer)) }
    ensures refused { IfOk result (λ b. b ≡ (decoder.now.refused || is_cut decoder.now.framer)) }
    ensures writing { IfErr result IsOfWriting }
{
    let mut text = Vec::new(alloc);
    let refused = decoder.finish(&mut text)?;
    write_out(out, text.as_slice())?;
    Ok(refused)
}

/// Writes the text of the stream that an input gives, flushes, and answers whether anything in it was
/// refused. It keeps no more than a piece of 65,536 bytes, its text and an unfinished frame.
///
/// Too many reads are reported only for an input that was read 1,048,576 times. What was written before an
/// error remains.
pub fn decode_stream<R: Read, W: Write>(
    alloc: Global,
    style: FrameStyle,
    input: &mut Input<R>,
    out: &mut W,
) -> Result<bool, IoError>
    ensures text { IfOk result (IsDecodedStream style (unread R.remaining input.old)
        (W.contents out.old) (W.contents out.new)) }
    ensures too_many { IfErr result (IsSpentAt (reads_made input.new)) }
{
    let mut decoder = Decoder::new(alloc);
    let mut buf = [0u8; PIECE];
    loop {
        let more = decode_piece(alloc, style, input, &mut decoder, &mut buf, out)?;
        if !more {
            let refused = finish(alloc, &decoder, out)?;
            return Ok(refused);
        }
    }
}
