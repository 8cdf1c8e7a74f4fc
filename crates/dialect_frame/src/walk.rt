//! The whole frames at the front of bytes.

ghost use Rattle.std.specs.Prelude.{◌≤◌, length, take, drop, IfOk};
ghost use Rattle.sw_frame.specs.Feeds.{messages};
ghost use Rattle.dialect_frame.specs.Feeds.{AddsFrames, IsRest};

use crate::form::start;
use crate::lead::{Lead, lead_at};
use dialect_toml::Frame;
use std::alloc::{AllocError, Global};

/// Messages, how many bytes their frames take, and whether bytes follow that are not a length.
#[derive(Drop)]
pub struct Walk {
    pub messages: Vec<Vec<u8>>,
    pub taken: usize,
    pub bad: bool,
}

/// Adds the messages of the frames at the front of bytes.
pub fn take_frames(
    alloc: Global,
    form: &Frame,
    earlier: Vec<Vec<u8>>,
    bytes: &[u8],
) -> Result<Walk, AllocError>
    ensures taken { IfOk result (λ w. w.taken ≤ length bytes.now) }
    ensures framed { IfOk result (λ w. AddsFrames form.now (messages earlier.items)
        (take w.taken bytes.now) (messages w.messages.items)) }
    ensures rest { IfOk result (λ w. IsRest form.now w.bad (drop w.taken bytes.now)) }
{
    let start = start(form);
    let mut walk = Walk {
        messages: earlier,
        taken: 0,
        bad: false,
    };
    let mut rest = bytes;
    while !rest.is_empty() {
        match lead_at(form, &[], rest) {
            Lead::Short => return Ok(walk),
            Lead::Bad => {
                walk.bad = true;
                return Ok(walk);
            }
            Lead::Message(length) => {
                let whole = start + usize::from(length);
                if rest.len() < whole {
                    return Ok(walk);
                }
                let (frame, more) = rest.split_at(whole);
                let (_, message) = frame.split_at(start);
                walk.messages.push(Vec::from_slice(alloc, message)?)?;
                walk.taken += whole;
                rest = more;
            }
        }
    }
    Ok(walk)
}
