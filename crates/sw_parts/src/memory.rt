//! Memory for what is done after a request was sent.

ghost use Rattle.std.specs.Prelude.{◌≡◌, Some, IfOk, OnOk, OnErr};
ghost use Rattle.sw_messages.specs.Requests.{message_of, noted};

use iso_codec::{DecodeError, decode};
use iso_msg::Message;
use std::alloc::Global;
use sw_context::Context;
use sw_messages::note;
use sw_participant::NoMemory;

/// Memory to read messages and to note what they say. Code that is generic in it can promise that
/// memory was refused only if one of these calls refused it.
pub trait Memory: Drop {
    /// Memory was refused.
    ghost refused: { Type 0 };

    /// The message of these bytes, if they are readable.
    fn read(&self, bytes: &[u8]) -> Result<Option<Message>, NoMemory>
        ensures read { IfOk result (λ m. m ≡ message_of (Some bytes.now)) }
        ensures refused { OnErr result refused };

    /// Notes a value; a context that does not take it stays as it is.
    fn note(&self, context: &mut Context, name: &str, value: &[u8]) -> Result<(), NoMemory>
        ensures noted { OnOk result (context.new ≡ noted context.old name.now value.now) }
        ensures refused { OnErr result refused };
}

/// The memory of the process, which may be refused at any time.
pub struct Heap {
    alloc: Global,
}

// Written out, so that no caller proves again how its parts are dropped.
impl Drop for Heap {
    fn drop(self) {
        let Heap { alloc: _ } = self;
    }
}

impl Heap {
    /// The memory of `alloc`, of which none is taken yet.
    pub fn new(alloc: Global) -> Heap {
        Heap { alloc }
    }
}

impl Memory for Heap {
    ghost refused = { Unit {0} };

    fn read(&self, bytes: &[u8]) -> Result<Option<Message>, NoMemory> {
        match decode(self.alloc, bytes) {
            Ok(message) => Ok(Some(message)),
            Err(DecodeError::OutOfMemory) => Err(NoMemory),
            Err(_) => Ok(None),
        }
    }

    fn note(&self, context: &mut Context, name: &str, value: &[u8]) -> Result<(), NoMemory> {
        note(context, name, value)
    }
}
