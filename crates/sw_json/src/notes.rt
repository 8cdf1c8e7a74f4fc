//! The notes of a context.

ghost use Rattle.std.specs.Prelude.{◌≡◌, IfOk, option_map};
ghost use Rattle.sw_context.specs.Pairs.{find};
ghost use Rattle.sw_json.specs.Contexts.{noted};

use std::alloc::{AllocError, Global};
use sw_context::{Context, ContextError};

// A copy of the value under a name.
fn value_in(alloc: Global, context: &Context, name: &str) -> Result<Option<Vec<u8>>, AllocError>
    ensures { IfOk result (λ value. option_map (λ v. v.items) value ≡ find name.now context.now) }
{
    match context.get(name) {
        Some(value) => Ok(Some(Vec::from_slice(alloc, value)?)),
        None => Ok(None),
    }
}

/// The value under a name in the context that bytes spell; `None` if they spell none, or if it has no such
/// entry. The only refusal is out of memory.
pub fn note_in(alloc: Global, bytes: &[u8], name: &str) -> Result<Option<Vec<u8>>, AllocError>
    ensures { IfOk result (λ value. option_map (λ v. v.items) value ≡ noted name.now bytes.now) }
{
    match Context::from_bytes(alloc, bytes) {
        Ok(context) => value_in(alloc, &context, name),
        Err(ContextError::BadBytes) => Ok(None),
        Err(ContextError::OutOfMemory) => Err(AllocError),
        Err(_) => unreachable!(),
    }
}
