ghost use Rattle.std.specs.Prelude.{◌≡◌};
ghost use Rattle.sw_frame.specs.declared.error.FrameError.TheVariants.{OutOfMemory};

use std::alloc::{AllocError, AllocFailed};
use thiserror::Error;

/// Why a message has no frame, or why a piece of a stream is refused.
#[derive(Clone, Copy, Debug, PartialEq, Eq, Error)]
pub enum FrameError {
    /// Memory was refused. Nothing has changed.
    #[error("out of memory")]
    OutOfMemory = 0,
    /// The message has more bytes than four digits can count.
    #[error("the message is too long for a frame: expected at most 9999 bytes")]
    TooLong = 1,
    /// Four bytes where a length is expected aren't all digits.
    #[error("no frame begins here: expected four digits of length")]
    BadLength = 2,
}

impl From<AllocError> for FrameError {
    ghost from_gives = { λ _ e. e ≡ OutOfMemory };

    fn from(_error: AllocError) -> FrameError {
        FrameError::OutOfMemory
    }
}

impl<T: Drop> From<AllocFailed<T>> for FrameError {
    ghost from_gives = { λ _ e. e ≡ OutOfMemory };

    fn from(_error: AllocFailed<T>) -> FrameError {
        FrameError::OutOfMemory
    }
}
