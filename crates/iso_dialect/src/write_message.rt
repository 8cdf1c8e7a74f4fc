//! The bytes that a message is written as.

ghost use Rattle.std.specs.Prelude.{◌≡◌, ◌∷◌, ◌++◌, None, IfOk, OnOk};
ghost use Rattle.std.specs.List.{flat_map};
ghost use Rattle.iso_msg.specs.Messages.{numbers_of};
ghost use Rattle.iso_dialect.specs.Writings.{field_bytes_in, is_left_out, kept_in, spelling_as, unwritable_in};

use crate::profile::Profile;
use crate::row::Row;
use crate::write_bitmap::push_bitmaps;
use crate::write_field::{push_field, takes_field};
use crate::write_text::push_coded;
use iso_codec::Numbers;
use iso_msg::Message;
use std::alloc::{AllocError, Global};

fn leaves_out(row: Option<Row>) -> bool
    ensures { result ≡ is_left_out row }
{
    match row {
        Some(row) => !row.is_kept,
        None => false,
    }
}

/// The first field that cannot be written.
pub fn first_unwritable(profile: &Profile, message: &Message) -> Option<u8>
    ensures { result ≡ unwritable_in profile.now.rows message.now.fields }
{
    for i in 0..message.field_count() {
        let (number, value) = message.field_at(i);
        if !takes_field(profile.row(number), number, value) {
            return Some(number);
        }
    }
    None
}

/// The numbers of the fields that are written, after 1.
fn numbers_in(profile: &Profile, message: &Message) -> Numbers
    ensures { result ≡ 1 ∷ numbers_of (kept_in profile.now.rows message.now.fields) }
{
    let mut numbers = Numbers::new();
    numbers.push(1);
    for i in 0..message.field_count() {
        let (number, _) = message.field_at(i);
        if !leaves_out(profile.row(number)) {
            numbers.push(number);
        }
    }
    numbers
}

fn push_fields(out: &mut Vec<u8>, profile: &Profile, message: &Message) -> Result<(), AllocError>
    requires { unwritable_in profile.now.rows message.now.fields ≡ None }
    ensures { OnOk result (out.new.items
        ≡ out.old.items ++ flat_map (field_bytes_in profile.now.rows) message.now.fields) }
{
    for i in 0..message.field_count() {
        let (number, value) = message.field_at(i);
        push_field(out, profile.row(number), number, value)?;
    }
    Ok(())
}

/// Writes a message whose fields can all be written or are left out.
pub fn write_message(
    alloc: Global,
    profile: &Profile,
    message: &Message,
) -> Result<Vec<u8>, AllocError>
    requires { unwritable_in profile.now.rows message.now.fields ≡ None }
    ensures { IfOk result (λ v. v.items ≡ spelling_as profile.now message.now) }
{
    let mut out = Vec::with_capacity(alloc, 256)?;
    profile.is_checked();
    message.is_message();
    push_coded(&mut out, profile.mti(), message.mti().digits())?;
    push_bitmaps(&mut out, profile.bitmap(), &numbers_in(profile, message))?;
    push_fields(&mut out, profile, message)?;
    Ok(out)
}
