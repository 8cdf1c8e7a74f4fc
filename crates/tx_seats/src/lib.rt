//! What is done with a plant, and the seats of its sessions while that goes on.
//!
//! There is no code here, but laws of what `tx_plant::Plant` promises of itself, which pools and runs
//! of the switch cite:
//! - each session that holds a transaction has its context, so that the engine refuses a step only for
//!   an unknown session or a full history ([`seats_are_held`]);
//! - a recovery is one call of `drive` ([`recoveries_are_drives`]), which the engine refuses only for a
//!   full history ([`recoveries_refuse_full_histories`]);
//! - after a stop an engine is opened on what is written ([`stops_are_not_refused`]).
//!
//! # What is proved
//!
//! Laws of what is done with a plant. Each session that holds a transaction has the seat of that
//! transaction. A kept reply is one that its due call asks for. The context of each unfinished
//! transaction of the journal waits, unless session 0 holds it (`seats_are_held`). So the engine
//! refuses a step only for an unknown session or a full history, and a recovery only for a full history
//! (`recoveries_refuse_full_histories`). A recovery is a drive like any other
//! (`recoveries_are_drives`). A stop of a plant whose written entries the tables hold is never refused
//! by the engine (`stops_are_not_refused`).
#![tactic(auto)]

mod laws;

pub use laws::{
    recoveries_are_drives, recoveries_refuse_full_histories, seats_are_held, stops_are_not_refused,
};
