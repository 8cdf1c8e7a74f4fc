//! A pool: the sessions of a plant as threads (jPOS: the sessions of a `TransactionManager`).
//!
//! # What is proved
//!
//! `Pool::run` runs all sessions of a plant, each in a thread of its own, over the contexts that a
//! source gives, until the source has ended and nothing is left to do. A thread of its own reads the
//! source, and the calling thread writes the journal, all unwritten entries in one transaction. A run
//! that ends well is a list of turns of the plant, all of them done (`drove`), so everything that is
//! proved of `drive` holds of it, the outcome law among it (`outcome_run::runs_are_drives`). The
//! stations' calls are chains of their own relations, from the objects that were handed in; names stay,
//! and the calls are counted. The history is the one before with more lawful entries (`grown`). What
//! was offered is what the source gave, in order, each once; the source has ended, with a list that it
//! may end with (`offered`, `whole`). Nothing waits at the end, every session is idle, and all is
//! written (`settled`, `written`). The receipts of each session are the numbers of exactly its own
//! entries of the run, and `finished` and `shelved` count the transactions that ended (`reports`).
//! `Early` refusals are exact, but for out of memory, and hand the plant back as it was (`allowed`,
//! `refused`). `Late` gives up a run, and has a journal and stations.
//!
//! `Pool::run_into` hands the transactions that ended by `done` to a sink as well. In a run that ends
//! well it took all those that the entries written in the run ended, each once, in the order of their
//! ends, and with the contexts that they ended with (`took`). In a run that was given up it took a
//! beginning of those that entries which were written ended, each with the context that it had ended with
//! at a moment of the run, and a stop leaves these entries in the journal (`some`).
//!
//! No contract says when a run is `Late`, that its journal and stations are those that were handed in,
//! what else that journal holds, or that a run ends where a participant, the source or the sink does not
//! return. Nor does one say that threads run at once, that the engine's lock is free during a call, that
//! the source is read as room becomes free, when the sink is handed what has ended, or who is next:
//! `test_threads` tests these.
//!
//! # Decisions
//!
//! - **The thread that writes the journal hands over what has ended**, right after the write that has its
//!   last entry. A sink that is not ready holds that thread, and with it the sessions, so that nothing
//!   piles up. It gets a copy: the plant keeps the context until it is taken from there, and at the end
//!   both are compared.
//! - **An offer's entry does not wake the keeper**, since no session waits for it. It is written with
//!   the entries that follow.
//! - **All memory that handing back needs is taken before the threads start**, so journal and stations
//!   can always be handed back.
//! - **Where no thread can be started the run is `Late`, out of memory**, since the threads that
//!   started must end first.
#![tactic(auto)]

mod attending;
mod ending;
mod feeding;
mod gate;
mod keeper;
mod moving;
mod pool;
mod refusal;
mod report;
mod running;
mod seat;
mod shared;
mod sink;
mod threads;

pub use gate::{Gate, Open};
pub use pool::{Pool, Streams};
pub use refusal::{Early, Late, PoolError};
pub use report::Report;
pub use sink::{Nowhere, Sink};
pub use tx_locked::Fault;
