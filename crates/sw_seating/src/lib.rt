//! Stations for the participants of a flow: each participant calls for one station of its name, and a
//! plant keeps the station of participant k at index k.
//!
//! # What is proved
//!
//! `seat` puts the same stations in the order of a flow's participants. It refuses, with nothing moved,
//! the least participant without a station, then the first station that repeats a name (`refused`,
//! `same`, `seated`). No two participants of a flow have one name (`participants_are_numbered`).
//!
//! # Decisions
//!
//! - **Stations are put in order by looking for each participant's station from its place on**: a plant
//!   is made once, and most lists are in order. Alternative: a map from names to places, whose moves
//!   would have to be followed.
#![tactic(auto)]

mod laws;
mod seating;

pub use laws::participants_are_numbered;
pub use seating::{SeatingError, seat};
