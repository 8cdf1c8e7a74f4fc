//! What the threads of a pool have under their locks, as values: the engine with its ledger of receipts, the stations
//! with the calls that they made, and what is compared once all threads have ended. Nothing here starts a thread or
//! takes a lock.
//!
//! # What is proved
//!
//! What is under the engine's lock is what a list of steps left since the run began (`Locked`,
//! `Since`). What was got from the intake was offered, in order. The ledger counts the entries of
//! sessions, and the calls are those whose replies were recorded. A station's log is a chain of its own
//! calls (`StationLog`). Of a station whose participant several sessions call at once (`OpenStation`) the
//! participant is under no lock. Each of its calls leaves the object that it had at the start, and its
//! notes (`Notes`) are a chain from that object to the same.
//! What has ended is copied with the context that it ended with (`Locked::finished`).
//! `are_calls`, `are_same`, `are_all_own` and `are_kept` answer true only where the calls,
//! the entries, the receipts and the contexts agree. No contract says that they do so always: a body that answers
//! false gives up each run, which tests see.
#![tactic(auto)]

mod comparing;
mod copies;
mod fault;
mod finished;
mod locked;
mod open;
mod run;
mod session;
mod station;

pub use comparing::{
    are_all_own, are_calls, are_same, both, count_finished, count_on_shelf, is_settled,
};
pub use fault::Fault;
pub use finished::{Finished, are_kept, finished_in};
pub use locked::{Left, Locked, RunIntake};
pub use open::{BesideCall, Notes, OpenStation, StationBack};
pub use run::Run;
pub use session::{Plan, Session};
pub use station::{MadeCall, StationLog, StationParts};
