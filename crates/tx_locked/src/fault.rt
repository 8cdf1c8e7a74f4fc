//! Why a run is given up.

use journal_store::JournalError;
use tx_engine::EngineError;

/// Why a run is given up.
#[derive(Debug, Drop)]
pub enum Fault {
    /// The journal refused a write.
    Journal(JournalError),
    /// A receipt, a station's call, an offer, a written copy or a session contradicts the history, or
    /// the source or the sessions did not come back. The number is the one after the last entry, or 1
    /// if the keeper found nothing to write.
    ReceiptMismatch(usize),
    /// The engine refused an event, for example because the ids are spent.
    Engine(EngineError),
    /// Memory was refused, or a thread could not be started.
    OutOfMemory,
}

impl Fault {
    /// The fault as which a refusal of the engine is reported.
    pub fn of_engine(error: EngineError) -> Fault {
        match error {
            EngineError::OutOfMemory => Fault::OutOfMemory,
            error => Fault::Engine(error),
        }
    }
}
