//! Tests of the pool: that its threads run at once, that they end, and what a run leaves. What they
//! compare must not depend on the schedule.
#![tactic(auto)]

#[cfg(test)]
mod tests;
