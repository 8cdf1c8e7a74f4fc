ghost use Rattle.std.specs.Prelude.{◌≡◌};
ghost use Rattle.dialect_frame.specs.declared.error.FrameError.TheVariants as frame;
ghost use Rattle.dialect_frame.specs.declared.error.StreamError.TheVariants as stream;

use std::alloc::{AllocError, AllocFailed};
use thiserror::Error;

/// Why a message has no frame.
#[derive(Clone, Copy, Debug, PartialEq, Eq, Drop, Error)]
pub enum FrameError {
    /// The message has more bytes than one may have, which is this many.
    #[error("the message is too long; expected at most {0} bytes")]
    OverMost(u16),
    /// With the header, it has more bytes than the length can count.
    #[error("the message is too long; expected no more bytes than the length of a frame can count")]
    OverLength,
    /// Memory was refused. The message has a frame.
    #[error("out of memory")]
    OutOfMemory,
}

impl From<AllocError> for FrameError {
    ghost from_gives = { λ _ e. e ≡ frame.OutOfMemory };

    fn from(_error: AllocError) -> FrameError {
        FrameError::OutOfMemory
    }
}

/// Why a piece of a stream is refused.
#[derive(Clone, Copy, Debug, PartialEq, Eq, Drop, Error)]
pub enum StreamError {
    /// The bytes in a length's place are the length of no message that may come.
    #[error("no frame begins here; expected the length of a message that is not too long")]
    BadLength,
    /// Memory was refused. Nothing has changed.
    #[error("out of memory")]
    OutOfMemory,
}

impl From<AllocError> for StreamError {
    ghost from_gives = { λ _ e. e ≡ stream.OutOfMemory };

    fn from(_error: AllocError) -> StreamError {
        StreamError::OutOfMemory
    }
}
