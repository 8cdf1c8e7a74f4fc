//! What several crates of the switch share: refusals in order (`specs/Refusals.antt`), and numbers
//! in decimal digits (`decimal` for a fixed field, `read_number` for a word).
//!
//! # What is proved
//!
//! `decimal` gives the number that up to nine digits spell, `read_number` the number below 2^64 that a
//! word spells.
#![tactic(auto)]

mod digits;
mod numbers;

pub use digits::{decimal, two_digits};
pub use numbers::read_number;
