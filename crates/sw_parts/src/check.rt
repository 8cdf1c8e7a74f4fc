//! Whether a request is valid.

ghost use Rattle.std.specs.Prelude.{◌≡◌, []};
ghost use Rattle.sw_parts.specs.Checks.{ChecksFields};
ghost use Rattle.sw_parts.specs.Quiet.{PassesOver, SelectsNone};

use crate::answers::{PASSES, decide};
use std::alloc::Global;
use sw_context::Context;
use sw_messages::{fault_of, request_in};
use sw_participant::{NoMemory, Text, Unjoined};

/// Refuses a message that is not a valid request of the switch: it notes the response code of the
/// fault that [`sw_messages::fault_of`] gives, and the transaction aborts.
pub struct CheckFields {
    alloc: Global,
}

// Written out, so that no caller proves again how its parts are dropped.
impl Drop for CheckFields {
    fn drop(self) {
        let CheckFields { alloc: _ } = self;
    }
}

impl CheckFields {
    /// A participant that keeps nothing. It takes no memory: `alloc` is for the messages that it
    /// reads.
    pub fn new(alloc: Global) -> CheckFields
        ensures { ⟦<CheckFields as Unjoined>⟧.object result ≡ [] }
    {
        CheckFields { alloc }
    }
}

impl Unjoined for CheckFields {
    ghost object = { λ _. [] };

    ghost prepares = { λ id o x byte p y. (p ≡ o) × ChecksFields x byte y };

    ghost prepares_for_abort = { λ id o x byte p y. PassesOver o x byte p y };

    ghost selects = { λ id o x text p. SelectsNone o text p };

    fn prepare(&mut self, id: u64, context: &mut Context) -> Result<u8, NoMemory> {
        let request = request_in(self.alloc, context)?;
        decide(fault_of(&request), context)
    }

    fn prepare_for_abort(&mut self, id: u64, context: &mut Context) -> Result<u8, NoMemory> {
        Ok(PASSES)
    }

    fn select(&mut self, id: u64, context: &Context) -> Result<Text, NoMemory> {
        Ok(Text::from_str(self.alloc, "")?)
    }
}
