//! Contexts as bytes, and offers that are prepared before they are made.

ghost use Rattle.std.specs.Prelude.{◌≡◌, IfOk};
ghost use Rattle.sw_context.specs.Spelling.{bytes_of, IsSpelled};

use std::alloc::{AllocError, Global};
use std::marker::Model;
use sw_context::{Context, ContextError};
use sw_participant::Bytes;

/// The context's bytes. That they are those of a context is known from its length.
pub(crate) fn spelled(context: &Context) -> Result<Bytes, AllocError>
    ensures bytes { IfOk result (λ b. b ≡ bytes_of context.now) }
    ensures spelled { IsSpelled (bytes_of context.now) }
{
    let _names = context.len();
    Ok(Bytes::new(context.to_bytes()?))
}

/// The context whose bytes these are. The only refusal is out of memory.
pub fn context_of(alloc: Global, bytes: &[u8]) -> Result<Context, AllocError>
    requires { IsSpelled bytes.now }
    ensures { IfOk result (λ context. bytes.now ≡ bytes_of context) }
{
    match Context::from_bytes(alloc, bytes) {
        Ok(context) => Ok(context),
        Err(ContextError::OutOfMemory) => Err(AllocError),
        Err(_) => unreachable!(),
    }
}

/// A context to be offered, already in the memory in which the history and the queue keep it, so that
/// offering it takes none. Contracts see the context's bytes.
pub struct Offer {
    pub(crate) event: Bytes,
    pub(crate) waiting: Bytes,
}

// Written out, so that no caller proves again how its parts are dropped.
impl Drop for Offer {
    fn drop(self) {
        let Offer {
            event: _,
            waiting: _,
        } = self;
    }
}

impl Model for Offer {
    ghost use Rattle.std.specs.Prelude.{◌≡◌, ℕ, List};
    ghost use Rattle.sw_context.specs.Spelling.{IsSpelled};

    ghost Value = { List ℕ };

    ghost view = { λ o. o.event };

    ghost invariant = { λ o. (o.waiting ≡ o.event) × IsSpelled o.event };
}

impl Offer {
    /// An offer of this context. The only refusal is out of memory.
    pub fn new(context: &Context) -> Result<Offer, AllocError>
        ensures { IfOk result (λ offer. offer ≡ bytes_of context.now) }
    {
        Ok(Offer {
            event: spelled(context)?,
            waiting: spelled(context)?,
        })
    }

    // The two copies, which are the bytes of a context.
    pub(crate) fn into_parts(self) -> (Bytes, Bytes)
        ensures event { result.0 ≡ self }
        ensures waiting { result.1 ≡ self }
        ensures spelled { IsSpelled self }
    {
        let Offer { event, waiting } = self;
        (event, waiting)
    }
}
