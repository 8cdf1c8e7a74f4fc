//! The context that an answer left.

ghost use Rattle.std.specs.Prelude.{◌≡◌, IfOk};
ghost use Rattle.sw_record.specs.Courses.{pairs_in};

use std::alloc::{AllocError, Global};
use sw_context::{Context, ContextError};

/// The context that bytes spell; one without entries if they spell none. The only refusal is out of memory.
pub(crate) fn context_in(alloc: Global, bytes: &[u8]) -> Result<Context, AllocError>
    ensures { IfOk result (λ context. context ≡ pairs_in bytes.now) }
{
    match Context::from_bytes(alloc, bytes) {
        Ok(context) => Ok(context),
        Err(ContextError::BadBytes) => Ok(Context::new(alloc)),
        Err(ContextError::OutOfMemory) => Err(AllocError),
        Err(_) => unreachable!(),
    }
}
