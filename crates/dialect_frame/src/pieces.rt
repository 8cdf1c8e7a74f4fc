//! Whole streams.

ghost use Rattle.std.specs.Prelude.{IfOk};
ghost use Rattle.sw_frame.specs.Feeds.{messages, joined};
ghost use Rattle.dialect_frame.specs.Feeds.{ReadsStream};
ghost use Rattle.dialect_frame.specs.Stream.{HasOneReading, WrittenIsRead};

use crate::error::StreamError;
use crate::framer::Framer;
use dialect_toml::Frame;
use std::alloc::{AllocError, Global};

/// The messages of a stream, and the framer that read it: what is pending, and whether it met a fault.
#[derive(Drop)]
pub struct StreamReading {
    pub messages: Vec<Vec<u8>>,
    pub framer: Framer,
}

/// Reads a stream of frames of this form that comes in these pieces.
pub fn read_pieces(
    alloc: Global,
    form: Frame,
    pieces: &[Vec<u8>],
) -> Result<StreamReading, AllocError>
    // Up to what is pending, or to the fault, the stream is the frames of these messages and of no
    // others, so it doesn't matter how it was cut into pieces.
    ensures { IfOk result (λ r. ReadsStream form (joined pieces.now)
        (messages r.messages.items) r.framer) }
{
    let mut reading = StreamReading {
        messages: Vec::new(alloc),
        framer: Framer::new(alloc, form),
    };
    for piece in pieces {
        match reading.framer.feed(piece) {
            Ok(mut messages) => reading.messages.append(&mut messages)?,
            Err(StreamError::OutOfMemory) => return Err(AllocError),
            Err(StreamError::BadLength) => (),
        }
    }
    Ok(reading)
}

/// A stream is the frames of one list of messages only: a law, and the function does nothing.
pub fn one_stream()
    ensures { HasOneReading }
{}

/// The frames that are written of messages are read as these messages: a law, and the function does
/// nothing.
pub fn written_is_read()
    ensures { WrittenIsRead }
{}
