//! Why an engine refuses a call.

ghost use Rattle.std.specs.Prelude.{◌≡◌};
ghost use Rattle.tx_engine.specs.declared.error.EngineError.TheVariants.{OutOfMemory};
ghost use Rattle.tx_engine.specs.Texts.{text_of};

use std::alloc::{AllocError, AllocFailed};
use std::error::Error;
use std::fmt;
use sw_participant::Text;

/// Why a call is refused. A refused call has changed nothing. The numbers of the refusals are: 1
/// `UnknownParticipant`, 2 `BadSessions`, 3 `Busy`, 4 `Empty`, 5 `Recovering`, 6 `IdsSpent`, 7
/// `NotDue`, 8 `NoAdvice`, 9 `NoParticipant`, 10 `NotHeld`, 11 `BadMark`, 12 `NoSession`, 13
/// `HistoryFull`, 14 `OutOfMemory`, 15 `InUse`, 16 `NotWritten`.
#[derive(Debug, Drop)]
pub enum EngineError {
    /// The row of this transaction names a participant that the flow does not have.
    UnknownParticipant { id: u64, name: Text },
    BadSessions,
    /// The session holds a transaction that is not finished.
    Busy,
    Empty,
    /// A transaction of the journal is not finished.
    Recovering,
    /// The next id is 2^63 - 1.
    IdsSpent,
    /// The session is idle, its due call is of another kind, or the entry that made the call due is
    /// not written.
    NotDue,
    NoAdvice,
    NoParticipant,
    NotHeld,
    /// The mark is below the current one, or above the number of entries.
    BadMark,
    NoSession,
    /// The history has 1,048,576 entries.
    HistoryFull,
    OutOfMemory,
    /// A session holds a transaction that is not finished; a recovered one counts too.
    InUse,
    /// The mark is below the number of entries.
    NotWritten,
}

impl EngineError {
    // The text of a refusal, without a name that it may have.
    fn text(&self) -> &'static str
        ensures { result.now ≡ text_of self.now }
    {
        match self {
            EngineError::UnknownParticipant { .. } => "the flow lacks a participant of the journal",
            EngineError::BadSessions => "bad number of sessions: expected 1 to 16",
            EngineError::Busy => "the session holds a transaction",
            EngineError::Empty => "the queue is empty",
            EngineError::Recovering => "transactions of the journal are being recovered",
            EngineError::IdsSpent => {
                "all transaction ids are used: the next id would be 9223372036854775807; expected a lower one"
            },
            EngineError::NotDue => "no call of this kind is due",
            EngineError::NoAdvice => "no advice is stored at this place",
            EngineError::NoParticipant => "the flow has no participant of this name",
            EngineError::NotHeld => "no call of the session is held",
            EngineError::BadMark => "bad mark: expected the old mark to the number of entries",
            EngineError::NoSession => "no session has this number",
            EngineError::HistoryFull => "the history is full",
            EngineError::OutOfMemory => "out of memory",
            EngineError::InUse => "a session holds a transaction",
            EngineError::NotWritten => "entries of the history are not written",
        }
    }
}

// By hand: the texts are constants, and a derived `fmt` of so many variants is slow to prove.
impl fmt::Display for EngineError {
    fn fmt<W: fmt::Write>(&self, f: &mut fmt::Formatter<W>) -> fmt::Result {
        match self {
            EngineError::UnknownParticipant { id, name } => write!(
                f,
                "transaction {id}: the journal names participant {}, which the flow does not have; expected \
the flow that the journal was written with",
                name.as_str()
            ),
            other => f.write_str(other.text()),
        }
    }
}

impl Error for EngineError {}

impl From<AllocError> for EngineError {
    ghost from_gives = { λ _ e. e ≡ OutOfMemory };

    fn from(_error: AllocError) -> EngineError {
        EngineError::OutOfMemory
    }
}

impl<T: Drop> From<AllocFailed<T>> for EngineError {
    ghost from_gives = { λ _ e. e ≡ OutOfMemory };

    fn from(_error: AllocFailed<T>) -> EngineError {
        EngineError::OutOfMemory
    }
}
