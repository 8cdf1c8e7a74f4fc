//! The check of a set-up: whether a flow and a configuration are what the switch answers requests rightly with.
//!
//! - [`set_up_of`] is what the rules of `sw_rules` read of a configuration.
//! - [`check_set_up`] takes a flow and a configuration, or refuses them with each mistake that is found, its file and its
//!   place.
#![tactic(auto)]

mod checking;
mod error;
mod set_up;

pub use checking::check_set_up;
pub use error::{CheckError, Mistakes, UnknownRule};
pub use set_up::set_up_of;
