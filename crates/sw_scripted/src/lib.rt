//! Participants that follow a script: each replies from queues of its own.
//!
//! Promised here: a [`Scripted`] participant takes each reply from the front of its queue, and an empty
//! queue gives PREPARED, no group, no advice and nothing to restore (`specs/Scripted.antt`); entries are
//! put into a context in their order, and one that finds it full is passed over ([`put_all`]).
//!
//! # What is proved
//!
//! A `Scripted` participant takes each reply from the front of its queue, and likewise the entries that
//! an answer or a `recover` puts into the context. An empty queue gives PREPARED, no group, no advice
//! and nothing to restore.
#![tactic(auto)]

mod participant;
mod puts;

pub use participant::{QueuedAnswer, QueuedReplies, Scripted};
pub use puts::{Put, is_crowded, put_all};
