//! Participants of a transaction: what a participant is, what it is handed, what it answers, and the
//! stations that call it.
//!
//! # What is proved
//!
//! `Station::call` makes the one call that a `Call` names, by the relation that the participant states
//! for it. The reply is of that call's kind, and the call is counted. A call that is refused memory
//! leaves object, context, name and count as they were. `Station::new` answers `BadName` for exactly
//! the invalid names. `call_station` says the same of one of a list of stations, and that the others
//! stay. A call beside others (`call_beside`, `make_beside`) is one by the same relation, and the object
//! after it is the one before it; a `Bystander` makes it of the part's. Laws of every
//! chain of calls: objects and contexts join, and a transaction begins only where
//! it has no context (`chains_append`, `chains_widen`, `rules_widen`, `types_decide`, `others_stay`,
//! `calls_are_counted`). `shown` shows no two values alike (`shown_apart`). `read_answer` gives the
//! bits of an answer byte by one rule: a byte with an unknown bit is bad and has no bits, and there is
//! no RETRY beside PREPARED. `Text`, `Bytes` and `Sequence` hold what they were made of, and a `copy`
//! is equal.
//!
//! # Decisions
//!
//! - **`Participant: Drop`**, so that a `Box<dyn Participant + Send + Sync>` can be dropped.
//! - **A participant is called beside other calls by a shared borrow** (`call_beside`): such a call cannot
//!   change the object that contracts see, so a chain of calls says of it what it says of any other, and
//!   several sessions may be in one participant at once. The default body refuses, which meets every
//!   relation. Alternative: several boxes of one participant, whose objects contracts would have to tell
//!   apart.
//! - **`select` answers a `Text`, `commit` and `abort` an optional `Bytes`** (`AdviceResult`), the
//!   small types that contracts see as lists. Alternative: `String` and `Vec`, wrapped by the station.
//! - **A refused `Station::new` drops the participant.** Alternative: it hands the box back.
//! - **A chain keeps contexts by transaction, not by session.** A transaction begins only where it has
//!   no context, and its context stays in the chain when it has ended, until a stop. The end of a chain
//!   is exact; a law lets it go on from fewer contexts.
#![tactic(auto)]

mod answer;
mod call;
mod caller;
mod kind;
mod laws;
mod participant;
mod station;
mod unjoined;
mod values;

pub use answer::{Answer, NO_JOIN, PREPARED, READONLY, RETRY, Reading, read_answer};
pub use call::{Act, Call, Reply, is_same_advice};
pub use caller::Caller;
pub use kind::Kind;
pub use laws::{
    Rules, calls_are_counted, chains_append, chains_widen, others_stay, rules_widen, shown_apart,
    types_decide,
};
pub use participant::{AdviceResult, NoMemory, Participant};
pub use station::{Station, StationError, call_station};
pub use unjoined::{Bystander, Unjoined};
pub use values::{Bytes, Sequence, Text};
