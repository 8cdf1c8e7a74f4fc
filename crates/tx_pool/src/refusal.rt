//! Why a pool did not begin a run, or gave it up.

use journal_store::Journal;
use sqlite::Alter;
use sw_participant::Station;
use thiserror::Error;
use tx_locked::Fault;
use tx_plant::Plant;

/// Why a run did not begin.
#[derive(Clone, Copy, Debug, PartialEq, Eq, Error)]
pub enum Early {
    /// A participant has a breakpoint.
    #[error("a breakpoint is set; a pool runs without any")]
    BreakSet = 3,
    /// A session holds a transaction.
    #[error("a session holds a transaction; a pool begins with idle sessions")]
    InUse = 4,
    /// Memory was refused. Everything else was right.
    #[error("out of memory")]
    OutOfMemory = 6,
    /// The intake's capacity is not one of 1 to 4,096.
    #[error("bad capacity: expected 1 to 4096")]
    BadCapacity = 7,
}

/// What is left of a run that was given up. A new plant may be made of the journal and the stations,
/// on what the journal holds.
#[derive(Drop)]
pub struct Late<S: Alter> {
    pub cause: Fault,
    pub journal: Journal<S>,
    pub stations: Vec<Station>,
}

/// Why a pool did not run a plant to the end of its source.
#[derive(Drop)]
pub enum PoolError<S: Alter> {
    /// The run did not begin, and the plant is as it was.
    Early(Plant<S>, Early),
    /// The run was given up. The source is dropped.
    Late(Late<S>),
}
