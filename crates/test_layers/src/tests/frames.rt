//! A list of pieces, and the longest frame of a message, which is longer than any message of the switch. Other frames
//! are in `tests/decode` and `tests/encode`, also cut anywhere and with faults of lengths.

use std::alloc::{AllocError, Global};
use std::test::Fail;
use sw_frame::{FrameError, frame, read_pieces};

fn are(found: &[Vec<u8>], wanted: &[&[u8]]) -> bool {
    found.len() == wanted.len() && found.iter().zip(wanted).all(|(f, w)| f.as_slice() == *w)
}

fn pieces(alloc: Global) -> Result<Vec<Vec<u8>>, AllocError> {
    let mut pieces = Vec::new(alloc);
    pieces.push(Vec::from_slice(alloc, b"0003abc00000")?)?;
    pieces.push(Vec::from_slice(alloc, b"001a00x1")?)?;
    Ok(pieces)
}

fn are_read(alloc: Global, pieces: &[Vec<u8>], wanted: &[&[u8]]) -> bool {
    match read_pieces(alloc, pieces) {
        Ok(reading) => are(&reading.messages, wanted) && reading.framer.failed(),
        Err(_) => false,
    }
}

#[test]
fn a_list_of_pieces(rt: HostRuntime) -> Result<(), Fail> {
    let pieces = pieces(rt.alloc())?;
    assert!(rt; are_read(rt.alloc(), &pieces, &[b"abc", b"", b"a"]));
    Ok(())
}

fn begins(alloc: Global, message: &[u8], wanted: &[u8]) -> bool {
    match frame(alloc, message) {
        Ok(text) => text.starts_with(wanted),
        Err(_) => false,
    }
}

fn is_too_long(alloc: Global, message: &[u8]) -> bool {
    matches!(frame(alloc, message), Err(FrameError::TooLong))
}

fn sevens(alloc: Global, count: usize) -> Result<Vec<u8>, AllocError> {
    vec![in alloc; b'7'; count]
}

#[test]
fn the_longest_frame(rt: HostRuntime) -> Result<(), Fail> {
    assert!(rt; begins(rt.alloc(), &sevens(rt.alloc(), 9_999)?, b"99997"));
    assert!(rt; is_too_long(rt.alloc(), &sevens(rt.alloc(), 10_000)?));
    Ok(())
}
