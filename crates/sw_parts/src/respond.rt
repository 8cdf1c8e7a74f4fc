//! The response to a request.

ghost use Rattle.std.specs.Prelude.{◌≡◌, [], OnOk, OnErr};
ghost use Rattle.sw_messages.specs.declared.response_code.ResponseCode.TheVariants as rc;
ghost use Rattle.sw_parts.specs.Quiet.{leaves_notes, refuses};
ghost use Rattle.sw_parts.specs.Quiet.{SelectsNone};
ghost use Rattle.sw_parts.specs.Responses.{responded};

use crate::answers::{LEAVES_NOTES, REFUSES};
use iso_codec::encode;
use std::alloc::Global;
use sw_context::Context;
use sw_messages::{RESPONSE, ResponseCode, note, request_in, response_to, response_type};
use sw_participant::{NoMemory, Text, Unjoined};

/// Writes the response to the request of a context. Field 39 is the code in `rc`, or without one 00
/// if the transaction prepares and 96 if it aborts; field 38 is the code in `auth`. A code that its
/// field does not take counts as absent. An unreadable message and one of a response's type get no
/// response.
pub struct Respond {
    alloc: Global,
}

// Written out, so that no caller proves again how its parts are dropped.
impl Drop for Respond {
    fn drop(self) {
        let Respond { alloc: _ } = self;
    }
}

/// Writes the response into the context. The message and its bytes are made first, and put last.
fn write_response(
    alloc: Global,
    context: &mut Context,
    default: ResponseCode,
) -> Result<(), NoMemory>
    ensures written { OnOk result (context.new ≡ responded default context.old) }
    ensures kept { OnErr result (context.new ≡ context.old) }
{
    let Some(request) = request_in(alloc, context)? else {
        return Ok(());
    };
    let Some(mti) = response_type(&request.mti()) else {
        return Ok(());
    };
    let response = response_to(alloc, &request, mti, default, context)?;
    let bytes = encode(alloc, &response)?;
    note(context, RESPONSE, &bytes)
}

impl Respond {
    /// A participant that keeps nothing. It takes no memory: `alloc` is for the messages that it
    /// writes.
    pub fn new(alloc: Global) -> Respond
        ensures { ⟦<Respond as Unjoined>⟧.object result ≡ [] }
    {
        Respond { alloc }
    }
}

impl Unjoined for Respond {
    ghost object = { λ _. [] };

    ghost prepares = { λ id o x byte p y.
        (p ≡ o) × (byte ≡ leaves_notes) × (y ≡ responded rc.Approved x) };

    ghost prepares_for_abort = { λ id o x byte p y.
        (p ≡ o) × (byte ≡ refuses) × (y ≡ responded rc.SystemMalfunction x) };

    ghost selects = { λ id o x text p. SelectsNone o text p };

    fn prepare(&mut self, id: u64, context: &mut Context) -> Result<u8, NoMemory> {
        write_response(self.alloc, context, ResponseCode::Approved)?;
        Ok(LEAVES_NOTES)
    }

    fn prepare_for_abort(&mut self, id: u64, context: &mut Context) -> Result<u8, NoMemory> {
        write_response(self.alloc, context, ResponseCode::SystemMalfunction)?;
        Ok(REFUSES)
    }

    fn select(&mut self, id: u64, context: &Context) -> Result<Text, NoMemory> {
        Ok(Text::from_str(self.alloc, "")?)
    }
}
