//! What a run reports of itself and of its hosts, in words: that it is ready, what it recovered, and what becomes of
//! each host that is reached by streams.
//!
//! # What is proved
//!
//! `Ready::lines` is the line that a run is ready, and the line of what it recovered, if that is
//! anything (`ready_lines`). `Hosts::news` gives a line for each host whose state is not the one that
//! was reported last. From then on that state is the last one (`Reports`). Of the whole text contracts
//! say that each line is of a host, in their order, with some state (`AreNews`). `Hosts::counts` has a
//! line for each host with some counts (`AreHostLines`).
#![tactic(auto)]

mod hosts;
mod ready;

pub use hosts::Hosts;
pub use ready::{Ready, Recovered};

/// What a run reports in words.
#[derive(Drop)]
pub struct Words {
    /// What it is ready with.
    pub ready: Ready,
    /// The hosts that are reached by streams.
    pub hosts: Hosts,
}
