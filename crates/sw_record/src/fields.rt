//! The fields of a message that a record shows.

ghost use Rattle.std.specs.Prelude.{◌≡◌, IfOk, option_and_then, option_map};
ghost use Rattle.iso_mask.specs.Masks.{masked_number};
ghost use Rattle.iso_msg.specs.Messages.{value_at};
ghost use Rattle.sw_record.specs.Records.{amount_in, field_in, message_at};

use iso_codec::{DecodeError, decode};
use iso_mask::push_masked_number;
use iso_msg::Message;
use std::alloc::{AllocError, Global};
use sw_context::Context;
use sw_messages::amount_of;
use sw_participant::Bytes;

/// The message that a context carries under this name, if it can be read.
pub(crate) fn message_at(
    alloc: Global,
    context: &Context,
    name: &str,
) -> Result<Option<Message>, AllocError>
    ensures { IfOk result (λ message. message ≡ message_at name.now context.now) }
{
    let Some(bytes) = context.get(name) else {
        return Ok(None);
    };
    match decode(alloc, bytes) {
        Ok(message) => Ok(Some(message)),
        Err(DecodeError::OutOfMemory) => Err(AllocError),
        Err(_) => Ok(None),
    }
}

/// The value of a field, if there is a message, and it has one.
pub(crate) fn field_in(
    alloc: Global,
    message: &Option<Message>,
    number: u8,
) -> Result<Option<Bytes>, AllocError>
    ensures { IfOk result (λ value. value ≡ field_in number message.now) }
{
    let Some(message) = message else {
        return Ok(None);
    };
    match message.get(number) {
        Some(value) => Ok(Some(Bytes::new(Vec::from_slice(alloc, value)?))),
        None => Ok(None),
    }
}

/// The type, if there is a message.
pub(crate) fn type_in(alloc: Global, message: &Option<Message>) -> Result<Option<Bytes>, AllocError>
    ensures { IfOk result (λ mti. mti ≡ option_map (λ m. m.mti) message.now) }
{
    match message {
        Some(message) => {
            let mti = message.mti();
            Ok(Some(Bytes::new(Vec::from_slice(alloc, mti.digits())?)))
        }
        None => Ok(None),
    }
}

/// The account number with its middle digits masked, if there is one.
pub(crate) fn card_in(alloc: Global, message: &Option<Message>) -> Result<Option<Bytes>, AllocError>
    ensures { IfOk result (λ card. card
        ≡ option_map masked_number (field_in 2 message.now)) }
{
    let Some(message) = message else {
        return Ok(None);
    };
    let Some(number) = message.get(2) else {
        return Ok(None);
    };
    let mut card = Vec::new(alloc);
    push_masked_number(&mut card, number)?;
    Ok(Some(Bytes::new(card)))
}

/// The amount of field 4, in minor units, if there is one.
pub(crate) fn amount_in(message: &Option<Message>) -> Option<u64>
    ensures { result ≡ amount_in message.now }
{
    let Some(message) = message else {
        return None;
    };
    match message.get(4) {
        Some(digits) => amount_of(digits),
        None => None,
    }
}
