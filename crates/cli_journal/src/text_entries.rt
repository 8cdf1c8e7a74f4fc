//! The lines of an entry of a context.

ghost use Rattle.std.specs.Prelude.{◌≡◌, ◌++◌, OnOk};
ghost use Rattle.cli_journal.specs.Text as spec;

use crate::entries::{is_masked, is_message, is_text, message_text};
use cli_decode::push_number;
use cli_forms::Masking;
use iso_codec::push_hex;
use std::alloc::{AllocError, Global};

// Adds text between quotation marks, and any other value as hexadecimal digits.
fn push_value(text: &mut Vec<u8>, value: &[u8]) -> Result<(), AllocError>
    ensures { OnOk result (text.new.items ≡ text.old.items ++ spec.value_text value.now) }
{
    if is_text(value) {
        text.extend_from_slice(b"\"")?;
        text.extend_from_slice(value)?;
        text.extend_from_slice(b"\"")
    } else {
        text.extend_from_slice(b"x'")?;
        push_hex(text, value)?;
        text.extend_from_slice(b"'")
    }
}

fn push_size(text: &mut Vec<u8>, value: &[u8]) -> Result<(), AllocError>
    ensures { OnOk result (text.new.items ≡ text.old.items ++ spec.size_text value.now) }
{
    push_number(text, value.len() as u64)?;
    text.extend_from_slice(b" bytes\n")
}

// Adds what comes after the name of an entry that is not a message.
fn push_note(text: &mut Vec<u8>, masked: bool, value: &[u8]) -> Result<(), AllocError>
    ensures { OnOk result (text.new.items ≡ text.old.items ++ spec.note_rest masked value.now) }
{
    if masked {
        text.extend_from_slice(b"* ")?;
        push_size(text, value)
    } else {
        text.extend_from_slice(b" ")?;
        push_value(text, value)?;
        text.extend_from_slice(b"\n")
    }
}

/// Adds the lines of an entry of a context. Its transaction, or its item of the shelf, has this id.
pub fn push_entry(
    alloc: Global,
    text: &mut Vec<u8>,
    masking: Masking,
    id: u64,
    name: &str,
    value: &[u8],
) -> Result<(), AllocError>
    ensures { OnOk result (text.new.items
        ≡ text.old.items ++ spec.entry_text masking id (name.now, value.now)) }
{
    text.extend_from_slice(b"entry ")?;
    text.extend_from_slice(name.as_bytes())?;
    if is_message(name) {
        text.extend_from_slice(b" ")?;
        push_size(text, value)?;
        let message = message_text(alloc, masking, id, value)?;
        text.extend_from_slice(message.as_slice())
    } else {
        push_note(text, is_masked(masking, name), value)
    }
}

/// Adds the line of a context that is refused.
pub fn push_refused(text: &mut Vec<u8>) -> Result<(), AllocError>
    ensures { OnOk result (text.new.items ≡ text.old.items ++ spec.refused_text) }
{
    text.extend_from_slice(b"context refused\n")
}
