//! The outcome law of the plant: what holds of all its calls together, through every stop and cut.
//!
//! There is no code here, but laws of what `tx_plant::Plant` promises of itself:
//! - a turn is a list of small steps of the plant that the outcome law speaks of (`outcome_calls`),
//!   which represents the real one: its entries by session, its written entries, its kept replies
//!   ([`turns_are_moves`]);
//! - so the outcome law holds of all calls ever made, and of the journal that the written entries
//!   make, after every list of turns ([`plants_keep_the_law`]);
//! - and it holds life after life, through stops within a write, an opening or a recovery
//!   ([`stops_keep_the_law`]): a recovery is a drive like any other
//!   (`tx_seats::recoveries_are_drives`);
//! - after a restart a transaction that was committing is committed, and every other one is aborted
//!   ([`restarts_decide`]).
//!
//! # What is proved
//!
//! Laws that the real plant is a plant of the outcome law. Each turn of `tx_plant`, done or not, is a
//! list of small steps of the abstract plant, and they add exactly the calls and stops that happened
//! (`turns_are_moves`). So the law holds of all calls ever made, after any calls of `drive` and
//! `recover` (`plants_keep_the_law`). It holds of the journal of the written entries, and of every
//! longer one up to all entries, since a write that failed may have come that far. It holds of the
//! first plant on a blank journal (`blank`) and of the next plant made on the journal of the last
//! (`again`). Each call of a transaction that the opening view had is one of its outcome by its row, or
//! the `recover` call before that (`restarts_decide`). Premise: the disk has returned what was written
//! (`IsClean` at the end).
//!
//! A plant that is made on whatever a stop left keeps the law. So it holds of plants that follow one
//! another from a blank journal on, with stops within writes, openings and recoveries
//! (`stops_keep_the_law`). That a store keeps what its statement says of a stop is left to `sqlite`
//! ([PROMISES](PROMISES.md), "What it rests on").
#![tactic(auto)]

mod laws;

pub use laws::{plants_keep_the_law, restarts_decide, stops_keep_the_law, turns_are_moves};
