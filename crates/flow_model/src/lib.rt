//! Flows: named groups of entries, what a checked flow is, and the places of its entries.
//!
//! # What is proved
//!
//! `Flow::check` accepts exactly the flows without a fault. Otherwise it answers the first fault in one
//! order (`first_fault`): size, retries, names, doubled groups, no `main`, clashing kinds.
//! `check_by_map` answers the same through a map. A checked flow has at most 16,384 participants, and
//! each placed entry's is one of them (`participants_are_few`, `entries_have_participants`).
//! `number_of` finds a participant's number in a list.
//!
//! # Decisions
//!
//! - **`check` takes no memory**, so its comparison of kinds takes n × n steps. `check_by_map` answers
//!   the same in n × log n steps and takes memory; flow files, images and scripts are checked by it.
//! - **A name is looked for among a flow's groups from the first on.** In a checked flow names are
//!   distinct, so this settles only what the definitions say of other flows.
#![tactic(auto)]

mod bounds;
mod check;
mod error;
mod flow;
mod kinds;
mod numbering;

pub use bounds::{entries_have_participants, participants_are_few};
pub use error::FlowError;
pub use flow::{Entry, Flow, Group, PlacedEntry};
pub use numbering::{Part, number_of};
