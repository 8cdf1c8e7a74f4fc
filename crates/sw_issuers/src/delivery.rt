//! Sending an advice.

ghost use Rattle.std.specs.Prelude.{◌≡◌, IfOk, OnErr};
ghost use Rattle.sw_mux.specs.Keys.{key};
ghost use Rattle.sw_issuers.specs.Delivery.{is_accepted, Delivers};

use iso_msg::Message;
use std::alloc::Global;
use sw_messages::is_approved;
use sw_mux::{Mux, MuxError};
use sw_participant::NoMemory;
use sw_parts::{Link, Memory, hear};

fn is_accepted(response: &Option<Message>) -> bool
    ensures { result ≡ is_accepted response.now }
{
    let Some(message) = response else {
        return false;
    };
    is_approved(message.get(39))
}

/// Sends an advice, whose bytes these are, over a link, and returns whether a response with its key
/// and response code 00 came within eight receives. Out of memory before the message is sent is the
/// only refusal, and changes nothing; afterwards, out of memory counts as no response.
pub fn deliver<M: Memory, L: Link>(
    alloc: Global,
    memory: &M,
    link: &mut L,
    bytes: &[u8],
    advice: &Message,
) -> Result<bool, NoMemory>
    ensures delivered { IfOk result (λ accepted.
        Delivers L.sends L.receives L.starves M.refused bytes.now (key advice.now)
        (L.state link.old) accepted (L.state link.new)) }
    ensures kept { OnErr result (L.state link.new ≡ L.state link.old) }
{
    let mut mux = Mux::new(alloc);
    let key = match mux.request(advice, 0) {
        Ok(key) => key,
        Err(MuxError::OutOfMemory) => return Err(NoMemory),
        // Nothing waited, so the numbers began with this one.
        Err(MuxError::NumbersSpent) => unreachable!(),
        Err(_) => {
            link.send(bytes)?;
            return Ok(false);
        }
    };
    link.send(bytes)?;
    let heard = hear(memory, &mut mux, link, key, 0);
    Ok(is_accepted(&heard))
}
