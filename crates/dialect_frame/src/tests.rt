use crate::{Framer, StreamError, frame_of, read_pieces};
use dialect_toml::{Frame, FrameLength};
use std::alloc::{AllocError, Global};
use std::test::Fail;
use sw_participant::Bytes;

// A header of three bytes, and messages of at most twelve.
fn form(alloc: Global, length: FrameLength, counts_itself: bool) -> Result<Frame, AllocError> {
    Ok(Frame {
        length,
        counts_itself,
        header: Bytes::new(Vec::from_slice(alloc, b"\x60\x00\x01")?),
        most: 12,
    })
}

fn is_written(
    alloc: Global,
    length: FrameLength,
    counts_itself: bool,
    wanted: &[u8],
) -> Result<bool, AllocError> {
    match frame_of(alloc, &form(alloc, length, counts_itself)?, b"080000000000") {
        Ok(frame) => Ok(frame.as_slice() == wanted),
        Err(_) => Ok(false),
    }
}

// By hand: three bytes of header and twelve of message are fifteen, and with the length's own bytes
// seventeen or nineteen.
#[test]
fn frames_are_written(rt: HostRuntime) -> Result<(), Fail> {
    let alloc = rt.alloc();
    let ascii = b"0015\x60\x00\x01080000000000";
    assert!(rt; is_written(alloc, FrameLength::Ascii4, false, ascii)?);
    let binary = b"\x00\x11\x60\x00\x01080000000000";
    assert!(rt; is_written(alloc, FrameLength::Binary2, true, binary)?);
    let long = b"\x00\x00\x00\x13\x60\x00\x01080000000000";
    assert!(rt; is_written(alloc, FrameLength::Binary4, true, long)?);
    let packed = b"\x00\x17\x60\x00\x01080000000000";
    assert!(rt; is_written(alloc, FrameLength::Packed2, true, packed)?);
    Ok(())
}

// Two messages, the second of which has no bytes, and three bytes of the next frame.
#[test]
fn pieces_are_read(rt: HostRuntime) -> Result<(), Fail> {
    let alloc = rt.alloc();
    let mut pieces = Vec::new(alloc);
    pieces.push(Vec::from_slice(alloc, b"\x00")?)?;
    pieces.push(Vec::from_slice(alloc, b"\x07\x61\x02")?)?;
    pieces.push(Vec::from_slice(alloc, b"\x030800\x00\x03\x60\x00\x01\x00\x0f\x60")?)?;
    let reading = read_pieces(alloc, form(alloc, FrameLength::Binary2, false)?, &pieces)?;
    let messages = reading.messages.as_slice();
    assert!(rt; messages.len() == 2);
    if let [first, second] = messages {
        assert!(rt; first.as_slice() == b"0800".as_slice());
        assert!(rt; second.is_empty());
    }
    assert!(rt; reading.framer.pending() == b"\x00\x0f\x60".as_slice());
    assert!(rt; !reading.framer.failed());
    Ok(())
}

// Sixteen bytes are more than a header and twelve.
#[test]
fn a_length_over_the_most_is_refused(rt: HostRuntime) -> Result<(), Fail> {
    let alloc = rt.alloc();
    let mut framer = Framer::new(alloc, form(alloc, FrameLength::Packed2, false)?);
    assert!(rt; framer.feed(b"\x00").is_ok());
    assert!(rt; framer.feed(b"\x16").err() == Some(StreamError::BadLength));
    assert!(rt; framer.feed(b"\x00").err() == Some(StreamError::BadLength));
    Ok(())
}
