//! The switch's own participants over simulated issuers, one for each name: those of `step --switch`.
//!
//! Promised here: a name gives the participant of that name, and a name that the switch does not have gives none
//! (`specs/Named.antt`). What each of them does is promised where it is defined (`sw_parts`, `sw_issuers`), and not of
//! a [`Simulated`], which may be any of them.
//!
//! # What is proved
//!
//! `SimulatedSetup::participant` gives the participant of the switch that has a name, and none where it
//! has none of that name (`part_named`). What each does is promised where it is defined. Of a
//! `Simulated`, which may be any of them, no contract says what it does, nor with which limit, stand-in
//! amount and routes it is made (`tests/step/switch.cases`).
#![tactic(auto)]

mod participant;
mod setup;

pub use participant::Simulated;
pub use setup::SimulatedSetup;
