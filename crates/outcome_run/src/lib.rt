//! The outcome law of runs: what holds of all calls that runs of the switch make.
//!
//! There is no code here, and no program stands on this crate. It joins the law of plants
//! (`outcome_plant`) with what runs promise of themselves:
//! - every run keeps the outcome law, and is a life of a plant ([`runs_keep_the_law`]);
//! - what the threads of a pool did is one call of `drive` ([`runs_are_drives`]).
//!
//! # What is proved
//!
//! Laws of runs, which no program stands on. Each run that ends without an error is a life of a plant
//! as `outcome_plant` speaks of them, so the outcome law holds of all its calls and of the journal that
//! it leaves (`runs_keep_the_law`), over links of any type. What the threads of a pool did is one call
//! of `drive` (`runs_are_drives`).
#![tactic(auto)]

mod laws;

pub use laws::{runs_are_drives, runs_keep_the_law};
