ghost use Rattle.std.specs.Prelude.{◌≡◌};
ghost use Rattle.sw_context.specs.declared.error.ContextError.TheVariants.{OutOfMemory};

use std::alloc::{AllocError, AllocFailed};
use thiserror::Error;

/// Why a context refused a call. A refused call changes nothing.
#[derive(Clone, Copy, Debug, PartialEq, Eq, Error)]
pub enum ContextError {
    /// Memory was refused. Everything else about the call was right.
    #[error("out of memory")]
    OutOfMemory = 0,
    /// The name is new, and there are 64 entries.
    #[error("the context is full: it has 64 entries, none with this name")]
    Full = 1,
    /// The name is empty or too long, or has a byte that is not allowed.
    #[error("not a name: expected 1 to 32 bytes of a-z A-Z 0-9 _ - .")]
    BadName = 2,
    /// The bytes are those of no context.
    #[error("not the bytes of a context")]
    BadBytes = 3,
    /// The value has more than 65,535 bytes.
    #[error("the value is too long: expected at most 65535 bytes")]
    ValueTooLong = 4,
}

impl From<AllocError> for ContextError {
    ghost from_gives = { λ _ e. e ≡ OutOfMemory };

    fn from(_error: AllocError) -> ContextError {
        ContextError::OutOfMemory
    }
}

impl<T: Drop> From<AllocFailed<T>> for ContextError {
    ghost from_gives = { λ _ e. e ≡ OutOfMemory };

    fn from(_error: AllocFailed<T>) -> ContextError {
        ContextError::OutOfMemory
    }
}
