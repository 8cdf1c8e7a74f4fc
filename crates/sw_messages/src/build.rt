//! Messages built from what another one has.

ghost use Rattle.std.specs.Prelude.{◌≡◌, ◌+◌, ◌≤◌, length, IfOk, OnOk, option_map};
ghost use Rattle.iso_codec.specs.Spelling.{spelling};
ghost use Rattle.sw_messages.specs.Placing.{with_field, copied, put_at};

use iso_codec::encode;
use iso_msg::{Message, MessageError};
use std::alloc::{AllocError, Global};
use sw_participant::NoMemory;

/// Puts a value, if there is one and its field takes it.
pub fn put_field(
    alloc: Global,
    message: &mut Message,
    number: u8,
    value: Option<&[u8]>,
) -> Result<(), NoMemory>
    ensures { OnOk result (message.new ≡ record {
      mti = message.old.mti;
      fields = with_field number (option_map (λ v. v.now) value.entry) message.old.fields;
    }) }
{
    let Some(value) = value else {
        return Ok(());
    };
    match message.set(alloc, number, value) {
        Err(MessageError::OutOfMemory) => Err(NoMemory),
        _ => Ok(()),
    }
}

/// Copies those of the numbered fields that are there.
pub fn copy_fields(
    alloc: Global,
    numbers: &[u8],
    from: &Message,
    to: &mut Message,
) -> Result<(), NoMemory>
    ensures { OnOk result (to.new ≡ record {
      mti = to.old.mti;
      fields = copied numbers.now from.now.fields to.old.fields;
    }) }
{
    for number in numbers {
        put_field(alloc, to, *number, from.get(*number))?;
    }
    Ok(())
}

/// Overwrites as many bytes as the part has, from `at` on, with the part.
pub fn put_part(bytes: &mut [u8], at: usize, part: &[u8])
    requires { at + length part.now ≤ length bytes.old }
    ensures { bytes.new ≡ put_at at part.now bytes.old }
{
    bytes[at..at + part.len()].copy_from_slice(part);
}

/// The bytes of a message under another type, which is the first four of them.
pub fn encode_as(alloc: Global, mti: &[u8; 4], message: &Message) -> Result<Vec<u8>, AllocError>
    ensures { IfOk result (λ v. v.items
        ≡ spelling (record { mti = mti.now; fields = message.now.fields })) }
{
    message.is_message();
    let mut bytes = encode(alloc, message)?;
    put_part(&mut bytes, 0, mti);
    Ok(bytes)
}
