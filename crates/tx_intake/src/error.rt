//! Why there is no intake.

ghost use Rattle.std.specs.Prelude.{◌≡◌};
ghost use Rattle.tx_intake.specs.declared.error.IntakeError.TheVariants.{OutOfMemory};

use std::alloc::AllocError;
use thiserror::Error;

/// Why no intake is made. The numbers of the refusals are those that the pool has for them: 6
/// `OutOfMemory`, 7 `BadCapacity`.
#[derive(Clone, Copy, Debug, PartialEq, Eq, Error)]
pub enum IntakeError {
    #[error("bad capacity of an intake: expected 1 to 4096")]
    BadCapacity,
    #[error("out of memory")]
    OutOfMemory,
}

impl From<AllocError> for IntakeError {
    ghost from_gives = { λ _ e. e ≡ OutOfMemory };

    fn from(_error: AllocError) -> IntakeError {
        IntakeError::OutOfMemory
    }
}
