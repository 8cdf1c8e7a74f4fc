//! What a host sent.

ghost use Rattle.std.specs.Prelude.{◌≡◌, IfOk, Some};
ghost use Rattle.sw_messages.specs.Requests.{message_of};
ghost use Rattle.sw_wire.specs.Keyed.{key_in};

use iso_codec::{DecodeError, decode};
use iso_msg::Message;
use std::alloc::Global;
use sw_mux::Key;
use sw_participant::NoMemory;

/// A message that has a key.
pub struct Received {
    /// Its key.
    pub key: Key,
    /// Its bytes, without the length that its frame had.
    pub bytes: Vec<u8>,
    ghost keyed: { key_in bytes.items ≡ Some key.bytes },
}

// Written out, so that no caller proves again how its parts are dropped.
impl Drop for Received {
    fn drop(self) {
        let Received { key: _, bytes: _ } = self;
    }
}

/// The message whose bytes these are; `None` if they are not a message.
pub fn read_message(alloc: Global, bytes: &[u8]) -> Result<Option<Message>, NoMemory>
    ensures { IfOk result (λ message. message ≡ message_of (Some bytes.now)) }
{
    match decode(alloc, bytes) {
        Ok(message) => Ok(Some(message)),
        Err(DecodeError::OutOfMemory) => Err(NoMemory),
        Err(_) => Ok(None),
    }
}

impl Received {
    /// The message of these bytes, which has this key.
    pub fn new(key: Key, bytes: Vec<u8>) -> Received
        requires { key_in bytes.items ≡ Some key.bytes }
        ensures key { result.key ≡ key }
        ensures bytes { result.bytes ≡ bytes }
    {
        Received { key, bytes }
    }

    /// Its bytes.
    pub fn into_bytes(self) -> Vec<u8>
        ensures bytes { result.items ≡ self.bytes.items }
        ensures keyed { key_in result.items ≡ Some self.key.bytes }
    {
        let Received { key: _, bytes } = self;
        bytes
    }
}
