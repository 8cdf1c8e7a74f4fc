//! Who approves a request: a law of the calls that prepare it, and one of the ways through a checked set-up. The functions do
//! nothing.
//!
//! # What is proved
//!
//! Two laws that together say who approves. `approvals_are_said` is about the calls that prepare one
//! authorization, each participant by what it states (`participants_prepare_so`), with the calls of an
//! aborting transaction. If the response has 00 in field 39, one of these calls approved: a query that
//! was answered 00, or a stand-in that decided (`Approves`). Its premises are that nobody had decided
//! at the start, that the contexts have room for notes, and that the way is sound (`IsSoundWay`).
//! `checked_ways_are_sound` says that each way through the flow of a checked set-up is sound, where
//! `no-check`, `no-stand-in`, `no-query` and `unknown-group` are not allowed to be broken. That a
//! transaction's due calls are those of such a way is read off the specified table, and no contract
//! says it.
#![tactic(auto)]

mod laws;
mod parts;

pub use laws::{approvals_are_said, checked_ways_are_sound};
pub use parts::participants_prepare_so;
