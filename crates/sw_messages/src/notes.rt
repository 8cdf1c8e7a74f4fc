//! What is read from a context and noted in it.

ghost use Rattle.std.specs.Prelude.{◌≡◌, IfOk, OnOk, OnErr};
ghost use Rattle.sw_messages.specs.Requests.{class_in, coded, is_stand_in, noted, request_in};

use crate::class::{Class, class_of};
use crate::response_code::ResponseCode;
use iso_codec::{DecodeError, decode, type_in};
use iso_msg::Message;
use std::alloc::Global;
use sw_context::{Context, ContextError};
use sw_participant::NoMemory;

/// The name of the entry with the request's bytes.
pub const REQUEST: &str = "request";

/// The name of the entry with the response code.
pub const CODE: &str = "rc";

/// The name of the entry with the approval code.
pub const APPROVAL: &str = "auth";

/// The name of the entry that says that the request went to an issuer.
pub const SENT: &str = "sent";

/// The name of the entry that says that the issuer's answer has not come.
pub const LATE: &str = "late";

/// The name of the entry that says that the switch approved in the issuer's place.
pub const STAND_IN: &str = "standin";

/// The name of the entry with the response's bytes.
pub const RESPONSE: &str = "response";

/// The request that a context carries, if it is readable.
pub fn request_in(alloc: Global, context: &Context) -> Result<Option<Message>, NoMemory>
    ensures { IfOk result (λ m. m ≡ request_in context.now) }
{
    let Some(bytes) = context.get(REQUEST) else {
        return Ok(None);
    };
    match decode(alloc, bytes) {
        Ok(message) => Ok(Some(message)),
        Err(DecodeError::OutOfMemory) => Err(NoMemory),
        Err(_) => Ok(None),
    }
}

/// Whether the switch approved the context's request in the issuer's place.
pub fn is_stand_in(context: &Context) -> bool
    ensures { result ≡ is_stand_in context.now }
{
    context.get(STAND_IN).is_some()
}

/// What the request that a context carries is for, if it is readable and the switch takes its type. It takes no
/// memory.
pub fn class_in(context: &Context) -> Option<Class>
    ensures { result ≡ class_in context.now }
{
    let Some(bytes) = context.get(REQUEST) else {
        return None;
    };
    match type_in(bytes) {
        Some(mti) => class_of(mti.digits()),
        None => None,
    }
}

/// Notes a value; a context that does not take it stays as it is.
pub fn note(context: &mut Context, name: &str, value: &[u8]) -> Result<(), NoMemory>
    ensures noted { OnOk result (context.new ≡ noted context.old name.now value.now) }
    ensures kept { OnErr result (context.new ≡ context.old) }
{
    match context.put(name, value) {
        Err(ContextError::OutOfMemory) => Err(NoMemory),
        _ => Ok(()),
    }
}

/// Notes a response code.
pub fn note_code(context: &mut Context, code: ResponseCode) -> Result<(), NoMemory>
    ensures noted { OnOk result (context.new ≡ coded code context.old) }
    ensures kept { OnErr result (context.new ≡ context.old) }
{
    note(context, CODE, code.digits())
}
