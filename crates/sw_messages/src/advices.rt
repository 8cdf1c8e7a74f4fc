//! What issuers are notified of later: what the switch decided without them.

ghost use Rattle.std.specs.Prelude.{◌≡◌, IfOk};
ghost use Rattle.iso_codec.specs.Spelling.{spelling};
ghost use Rattle.sw_messages.specs.Advices.{authorization_advice, reversal_advice};

use crate::build::{encode_as, put_field};
use crate::notes::{APPROVAL, CODE};
use iso_msg::Message;
use std::alloc::Global;
use sw_context::Context;
use sw_participant::{Bytes, NoMemory};

/// The bytes of the authorization advice (0120): all fields of the request, with the approval code
/// and the response code that the context has, if their fields take them.
pub fn authorization_advice(
    alloc: Global,
    request: &Message,
    context: &Context,
) -> Result<Bytes, NoMemory>
    ensures { IfOk result (λ bytes.
        bytes ≡ spelling (authorization_advice request.now context.now)) }
{
    let mut advice = request.copy(alloc)?;
    put_field(alloc, &mut advice, 38, context.get(APPROVAL))?;
    put_field(alloc, &mut advice, 39, context.get(CODE))?;
    Ok(Bytes::new(encode_as(alloc, b"0120", &advice)?))
}

/// The bytes of the reversal advice (0420): all fields of the request.
pub fn reversal_advice(alloc: Global, request: &Message) -> Result<Bytes, NoMemory>
    ensures { IfOk result (λ bytes. bytes ≡ spelling (reversal_advice request.now)) }
{
    Ok(Bytes::new(encode_as(alloc, b"0420", request)?))
}
