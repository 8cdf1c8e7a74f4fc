//! The line of JSON of an entry of a context.

ghost use Rattle.std.specs.Prelude.{◌≡◌, ◌++◌, OnOk};
ghost use Rattle.cli_journal.specs.Json as spec;

use crate::entries::{is_masked, is_message, is_text, message_text};
use crate::owner::Owner;
use cli_forms::Masking;
use iso_codec::push_hex;
use std::alloc::{AllocError, Global};
use sw_json::{push_number_member, push_opening, push_text_member};

fn push_value(alloc: Global, text: &mut Vec<u8>, value: &[u8]) -> Result<(), AllocError>
    ensures { OnOk result (text.new.items ≡ text.old.items ++ spec.value_members value.now) }
{
    if is_text(value) {
        return push_text_member(text, "text", value);
    }
    let mut digits = Vec::new(alloc);
    push_hex(&mut digits, value)?;
    push_text_member(text, "hex", digits.as_slice())
}

fn push_note(
    alloc: Global,
    text: &mut Vec<u8>,
    masked: bool,
    value: &[u8],
) -> Result<(), AllocError>
    ensures { OnOk result (text.new.items ≡ text.old.items ++ spec.note_members masked value.now) }
{
    if masked {
        push_number_member(text, "bytes", value.len() as u64)
    } else {
        push_value(alloc, text, value)
    }
}

fn push_owner(text: &mut Vec<u8>, owner: Owner) -> Result<(), AllocError>
    ensures { OnOk result (text.new.items ≡ text.old.items ++ spec.owner_opening owner) }
{
    push_opening(text, owner.word(), owner.id())
}

/// Adds the line of an entry.
pub fn push_entry(
    alloc: Global,
    text: &mut Vec<u8>,
    masking: Masking,
    owner: Owner,
    name: &str,
    value: &[u8],
) -> Result<(), AllocError>
    ensures { OnOk result (text.new.items
        ≡ text.old.items ++ spec.entry_json masking owner (name.now, value.now)) }
{
    push_owner(text, owner)?;
    push_text_member(text, "entry", name.as_bytes())?;
    if is_message(name) {
        let message = message_text(alloc, masking, owner.id(), value)?;
        push_number_member(text, "bytes", value.len() as u64)?;
        push_text_member(text, "message", message.as_slice())?;
    } else {
        push_note(alloc, text, is_masked(masking, name), value)?;
    }
    text.extend_from_slice(b"}\n")
}

/// Adds the line of a context that is refused.
pub fn push_refused(text: &mut Vec<u8>, owner: Owner) -> Result<(), AllocError>
    ensures { OnOk result (text.new.items ≡ text.old.items ++ spec.refused_json owner) }
{
    push_owner(text, owner)?;
    text.extend_from_slice(b",\"context\":\"refused\"}\n")
}
