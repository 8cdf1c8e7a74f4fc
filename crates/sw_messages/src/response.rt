//! The response to a request.

ghost use Rattle.std.specs.Prelude.{◌≡◌, IfOk, IfSome, is_none};
ghost use Rattle.sw_messages.specs.Responses.{response_type, is_response, response_to};

use crate::build::{copy_fields, put_field};
use crate::notes::{APPROVAL, CODE};
use crate::response_code::ResponseCode;
use iso_msg::{Message, Mti};
use std::alloc::Global;
use sw_context::Context;
use sw_participant::NoMemory;

/// The fields that a response copies from its request.
const COPIED: [u8; 14] = [2, 3, 4, 7, 11, 12, 13, 32, 37, 41, 42, 49, 70, 90];

/// The response of this type to a request, by what the transaction left in its context. Field 39 is
/// the code in `rc`, or `default` if there is none that the field takes; field 38 is the code in
/// `auth`.
pub fn response_to(
    alloc: Global,
    request: &Message,
    mti: Mti,
    default: ResponseCode,
    context: &Context,
) -> Result<Message, NoMemory>
    requires { mti ≡ response_type request.now.mti }
    ensures { IfOk result (λ m. m ≡ response_to request.now default context.now) }
{
    let mut response = Message::new(alloc, mti);
    copy_fields(alloc, &COPIED, request, &mut response)?;
    put_field(alloc, &mut response, 38, context.get(APPROVAL))?;
    put_field(alloc, &mut response, 39, Some(default.digits()))?;
    put_field(alloc, &mut response, 39, context.get(CODE))?;
    Ok(response)
}

/// The type of the response to a message of this type; `None` for a response.
pub fn response_type(mti: &Mti) -> Option<Mti>
    ensures none { is_none result ≡ is_response mti.now }
    ensures some { IfSome result (λ t. t ≡ response_type mti.now) }
{
    let digits = mti.digits();
    if digits[2] % 2 == 1 {
        return None;
    }
    match Mti::new(&[digits[0], digits[1], digits[2] + 1, b'0']) {
        Ok(found) => Some(found),
        Err(_) => unreachable!(),
    }
}
