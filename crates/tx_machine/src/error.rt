//! Why a machine refuses.

ghost use Rattle.std.specs.Prelude.{◌≡◌};
ghost use Rattle.tx_machine.specs.declared.error.MachineError.TheVariants.{OutOfMemory};

use std::alloc::{AllocError, AllocFailed};
use thiserror::Error;

/// Why a machine refuses an item. The machine is then as it was. The numbers of the refusals are: 0
/// `OutOfMemory`, 1 `NotDue`.
#[derive(Clone, Copy, Debug, Error)]
pub enum MachineError {
    #[error("out of memory")]
    OutOfMemory,
    /// A call of another kind is due, or none.
    #[error("no call of this kind is due")]
    NotDue,
}

impl From<AllocError> for MachineError {
    ghost from_gives = { λ _ e. e ≡ OutOfMemory };

    fn from(_error: AllocError) -> MachineError {
        MachineError::OutOfMemory
    }
}

impl<T: Drop> From<AllocFailed<T>> for MachineError {
    ghost from_gives = { λ _ e. e ≡ OutOfMemory };

    fn from(_error: AllocFailed<T>) -> MachineError {
        MachineError::OutOfMemory
    }
}
