//! What both forms show of the entries of a context.

ghost use Rattle.std.specs.Prelude.{◌≡◌, IfOk};
ghost use Rattle.std.specs.List.{list_all};
ghost use Rattle.cli_decode.specs.Decoded.{frame_text};
ghost use Rattle.sw_json.specs.Json as json;
ghost use Rattle.cli_journal.specs.Entries as spec;

use cli_decode::push_frame;
use cli_forms::Masking;
use std::alloc::{AllocError, Global};
use sw_json::is_printable;

/// Whether an entry has the bytes of a message.
pub fn is_message(name: &str) -> bool
    ensures { result ≡ spec.is_message name.now }
{
    name == "request" || name == "response"
}

// Whether an entry is a note of the switch, which holds no card data.
fn is_note(name: &str) -> bool
    ensures { result ≡ spec.is_note name.now }
{
    name == "rc" || name == "auth" || name == "sent" || name == "late" || name == "standin"
}

/// Whether the value of an entry that is not a message is masked.
pub fn is_masked(masking: Masking, name: &str) -> bool
    ensures { result ≡ spec.is_masked masking name.now }
{
    match masking {
        Masking::Off => false,
        Masking::On => !is_note(name),
    }
}

/// Whether all bytes are printable ASCII.
pub fn is_text(value: &[u8]) -> bool
    ensures { result ≡ list_all json.is_printable value.now }
{
    value.iter().all(|byte| is_printable(*byte))
}

/// The lines of a message as `decode` prints them.
pub fn message_text(
    alloc: Global,
    masking: Masking,
    id: u64,
    bytes: &[u8],
) -> Result<Vec<u8>, AllocError>
    ensures { IfOk result (λ text. text.items ≡ frame_text masking id bytes.now) }
{
    let mut paragraph = Vec::new(alloc);
    let mut text = Vec::new(alloc);
    push_frame(&mut paragraph, &mut text, masking, id, bytes)?;
    Ok(text)
}
