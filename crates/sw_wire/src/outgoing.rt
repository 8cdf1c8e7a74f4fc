//! What a message becomes when it is sent.

ghost use Rattle.std.specs.Prelude.{◌≡◌, option_map, IfOk};
ghost use Rattle.sw_wire.specs.Framing.{IsFrameOf};
ghost use Rattle.sw_wire.specs.Outgoings.{ExpectedFor, IsOutgoing};

use crate::expected::Expected;
use crate::moment::Moment;
use crate::received::read_message;
use crate::sent::Sent;
use iso_msg::Message;
use std::alloc::Global;
use sw_frame::{FrameError, frame};
use sw_mux::{Key, key_of};
use sw_participant::NoMemory;

/// The answer that is waited for.
#[derive(Clone, Copy)]
pub struct Awaited {
    /// The key of the message that was sent, which the answer has too.
    pub key: Key,
    /// The moment from which nobody waits for it.
    pub deadline: Moment,
    /// What had been seen of the host when the message was sent.
    pub sent: Sent,
}

/// The frame of a message, and the message as a request that waits for its answer, if it has a key.
pub struct Outgoing {
    /// The length in four digits, and the message.
    pub bytes: Vec<u8>,
    pub expected: Option<Expected>,
}

// Written out, so that no caller proves again how its parts are dropped.
impl Drop for Outgoing {
    fn drop(self) {
        let Outgoing {
            bytes: _,
            expected: _,
        } = self;
    }
}

impl Outgoing {
    /// The key of the message, if it has one.
    pub fn key(&self) -> Option<Key>
        ensures { result ≡ option_map (λ e. e.key) self.now.expected }
    {
        match &self.expected {
            Some(expected) => Some(expected.key),
            None => None,
        }
    }

    /// Its parts.
    pub fn into_parts(self) -> (Vec<u8>, Option<Expected>)
        ensures bytes { result.0 ≡ self.bytes }
        ensures expected { result.1 ≡ self.expected }
    {
        let Outgoing { bytes, expected } = self;
        (bytes, expected)
    }
}

// The frame of a message; `None` if it is too long for one.
fn frame_of(alloc: Global, message: &[u8]) -> Result<Option<Vec<u8>>, NoMemory>
    ensures { IfOk result (λ frame. IsFrameOf message.now frame) }
{
    match frame(alloc, message) {
        Ok(bytes) => Ok(Some(bytes)),
        Err(FrameError::OutOfMemory) => Err(NoMemory),
        Err(_) => Ok(None),
    }
}

// A message as a request that waits for its answer; `None` if it has no key.
fn expected_of(message: Message) -> Option<Expected>
    ensures { ExpectedFor message result }
{
    match key_of(&message) {
        Some(key) => Some(Expected::new(key, message)),
        None => None,
    }
}

/// What a message becomes when it is sent; `None` if it is too long for a frame.
pub fn outgoing_of(alloc: Global, message: &[u8]) -> Result<Option<Outgoing>, NoMemory>
    ensures { IfOk result (IsOutgoing message.now) }
{
    let expected = match read_message(alloc, message)? {
        Some(message) => expected_of(message),
        None => None,
    };
    match frame_of(alloc, message)? {
        Some(bytes) => Ok(Some(Outgoing { bytes, expected })),
        None => Ok(None),
    }
}
