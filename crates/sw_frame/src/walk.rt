//! The whole frames at the front of bytes.

ghost use Rattle.std.specs.Prelude.{◌≡◌, ◌<◌, ◌≤◌, ◌+◌, ℕ, List, [], ◌++◌, length, take, drop, IfOk, true, false};
ghost use Rattle.sw_frame.specs.Feeds.{AddsFrames, messages, IsRest};

use crate::digits::{LengthHeader, header_of};
use std::alloc::{AllocError, Global};

/// Messages, how many bytes their frames take, and whether bytes follow that are not a length.
#[derive(Drop)]
pub struct Walk {
    pub messages: Vec<Vec<u8>>,
    pub taken: usize,
    pub bad: bool,
}

/// Adds the messages of the frames at the front of bytes.
pub fn take_frames(alloc: Global, earlier: Vec<Vec<u8>>, bytes: &[u8]) -> Result<Walk, AllocError>
    ensures taken { IfOk result (λ w. w.taken ≤ length bytes.now) }
    ensures framed { IfOk result (λ w. AddsFrames (messages earlier.items)
        (take w.taken bytes.now) (messages w.messages.items)) }
    ensures rest { IfOk result (λ w. IsRest w.bad (drop w.taken bytes.now)) }
{
    let mut walk = Walk {
        messages: earlier,
        taken: 0,
        bad: false,
    };
    let mut rest = bytes;
    while rest.len() >= 4 {
        let LengthHeader::Length(length) = header_of(rest) else {
            walk.bad = true;
            return Ok(walk);
        };
        let (_, after) = rest.split_at(4);
        let length = length as usize;
        if after.len() < length {
            return Ok(walk);
        }
        let (message, more) = after.split_at(length);
        walk.messages.push(Vec::from_slice(alloc, message)?)?;
        walk.taken += 4 + length;
        rest = more;
    }
    Ok(walk)
}
