//! Why responses are not given.

ghost use Rattle.std.specs.Prelude.{◌≡◌};
ghost use Rattle.run_responses.specs.declared.error.ResponseError.TheVariants.{OutOfMemory};

use cli_io::IoError;
use std::alloc::{AllocError, AllocFailed};
use sw_participant::NoMemory;

/// Why a response is not given, or only a beginning of it.
#[derive(Drop)]
pub enum ResponseError {
    /// The response of this transaction, with its header, is longer than the 9,999 bytes that a frame may have.
    Long(u64),
    /// The output could not be written.
    Io(IoError),
    OutOfMemory,
}

impl From<IoError> for ResponseError {
    fn from(error: IoError) -> ResponseError {
        match error {
            IoError::OutOfMemory => ResponseError::OutOfMemory,
            other => ResponseError::Io(other),
        }
    }
}

impl From<AllocError> for ResponseError {
    ghost from_gives = { λ _ e. e ≡ OutOfMemory };

    fn from(_error: AllocError) -> ResponseError {
        ResponseError::OutOfMemory
    }
}

impl<T: Drop> From<AllocFailed<T>> for ResponseError {
    ghost from_gives = { λ _ e. e ≡ OutOfMemory };

    fn from(_error: AllocFailed<T>) -> ResponseError {
        ResponseError::OutOfMemory
    }
}

impl From<NoMemory> for ResponseError {
    ghost from_gives = { λ _ e. e ≡ OutOfMemory };

    fn from(_error: NoMemory) -> ResponseError {
        ResponseError::OutOfMemory
    }
}
