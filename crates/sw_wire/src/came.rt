//! What comes from a host.

ghost use Rattle.std.specs.Prelude.{◌≡◌, IfOk, Some};
ghost use Rattle.sw_messages.specs.Requests.{message_of};
ghost use Rattle.sw_wire.specs.Comings.{IsCame, is_echo_answer};

use crate::received::{Received, read_message};
use iso_msg::Message;
use std::alloc::Global;
use sw_mux::key_of;
use sw_participant::NoMemory;

/// A message that came from a host.
#[derive(Drop)]
pub enum Came {
    /// The answer to an echo test.
    Echo,
    /// Another message that has a key, and it with its bytes.
    Keyed(Message, Received),
    /// Bytes that are not a message, or a message without a key.
    Unkeyed,
}

// Whether a message is a network management response.
fn is_echo_answer(message: &Message) -> bool
    ensures { result ≡ is_echo_answer message.now }
{
    let mti = message.mti();
    mti.digits() == b"0810".as_slice()
}

/// What these bytes are. They are kept only of a message that has a key. Refuses only if there is no memory to read
/// them, and then they are lost.
pub fn came_in(alloc: Global, bytes: Vec<u8>) -> Result<Came, NoMemory>
    ensures { IfOk result (IsCame bytes.items) }
{
    let Some(message) = read_message(alloc, &bytes)? else {
        return Ok(Came::Unkeyed);
    };
    if is_echo_answer(&message) {
        return Ok(Came::Echo);
    }
    match key_of(&message) {
        Some(key) => Ok(Came::Keyed(message, Received::new(key, bytes))),
        None => Ok(Came::Unkeyed),
    }
}
