//! The responses of the transactions that ended: their frames, and the sink that gives them as a leg goes on.
//!
//! # What is proved
//!
//! `text_above` is the frames of the responses of the transactions that ended above an id, ids rising. Of the
//! transactions that it takes, a sink ([`Responses`]) gives responses that are framed, each of a transaction
//! that it took with the context that it ended with. In the order of ends (`ByEnd`) it gives those of all,
//! in the order in which they are taken (`by_end`). In the order of ids (`ById`) it holds some back, and
//! `flush` gives these. Where `are_given` answers true, the responses that were given are those of
//! all transactions that ended above an id, ids rising. After a fault a beginning of the text is written,
//! and nothing more (`Gives`, `TakesOne`).
//!
//! No contract says when a response that is held back is given: that no earlier transaction is under way then
//! is tested.
//!
//! # Decisions
//!
//! - **A fault does not give the leg up**: the sink takes no more notice, and tells the watch that the leg is over.
//!   What is under way ends, and its outcome is in the journal.
//! - **Refused memory is a fault too**: the sink answers no `NoMemory`, for which a run is given up.
//! - **Which transactions are under way is read off the entries that were written**, so that one that is put on the
//!   shelf holds nothing back.
#![tactic(auto)]

mod error;
mod given;
mod open;
mod sink;

pub use error::ResponseError;
pub use given::text_above;
pub use sink::{Progress, ResponseOrder, Responses, are_given};
