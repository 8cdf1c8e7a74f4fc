//! The reversal of a request.

ghost use Rattle.std.specs.Prelude.{◌≡◌, ◌++◌, ◌≤◌, replicate, IfOk, OnOk, option_map};
ghost use Rattle.sw_messages.specs.Reversals.{zeros_before, original_data, reversal_of};

use crate::build::{copy_fields, put_field};
use iso_msg::{Message, Mti};
use std::alloc::{AllocError, Global};
use sw_participant::NoMemory;

/// The fields that a reversal copies from its request.
const COPIED: [u8; 12] = [2, 3, 4, 7, 11, 12, 13, 32, 37, 41, 42, 49];

fn push_padded(out: &mut Vec<u8>, width: usize, value: Option<&[u8]>) -> Result<(), AllocError>
    requires { width ≤ 11 }
    ensures { OnOk result (out.new.items
        ≡ out.old.items ++ zeros_before width (option_map (λ v. v.now) value.entry)) }
{
    let Some(value) = value else {
        return push_zeros(out, width);
    };
    push_zeros(out, width.saturating_sub(value.len()))?;
    out.extend_from_slice(value)?;
    Ok(())
}

fn push_zeros(out: &mut Vec<u8>, count: usize) -> Result<(), AllocError>
    requires { count ≤ 11 }
    ensures { OnOk result (out.new.items ≡ out.old.items ++ replicate count 48) }
{
    out.extend_from_slice(&[b'0'; 11][..count])?;
    Ok(())
}

fn original_data(alloc: Global, request: &Message) -> Result<Vec<u8>, AllocError>
    ensures { IfOk result (λ v. v.items ≡ original_data request.now) }
{
    let mti = request.mti();
    let mut data = Vec::from_slice(alloc, mti.digits())?;
    push_padded(&mut data, 6, request.get(11))?;
    push_padded(&mut data, 10, request.get(7))?;
    push_padded(&mut data, 11, request.get(32))?;
    push_padded(&mut data, 11, request.get(33))?;
    Ok(data)
}

/// The reversal advice (0420) of a request, with the original data elements in field 90: its
/// message type, STAN, transmission date and time, acquiring and forwarding institution.
pub fn reversal_of(alloc: Global, request: &Message) -> Result<Message, NoMemory>
    ensures { IfOk result (λ m. m ≡ reversal_of request.now) }
{
    let Ok(mti) = Mti::new(b"0420") else {
        unreachable!()
    };
    let mut reversal = Message::new(alloc, mti);
    copy_fields(alloc, &COPIED, request, &mut reversal)?;
    let original = original_data(alloc, request)?;
    put_field(alloc, &mut reversal, 90, Some(&original))?;
    Ok(reversal)
}
