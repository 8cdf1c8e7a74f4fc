//! The rules of a set-up: a flow of the switch's own participants, with the hosts and the routes of a configuration.
//!
//! Each rule is one without which a request could be answered wrongly, or not at all: [`Rule`] says what follows where it
//! is broken. A configuration may allow the breach of a rule.
//!
//! Promised here: [`breaches`] gives every breach that is not allowed, each with its place, and none exactly if the set-up
//! is checked (`specs/Checked.antt`). [`findings`] puts the names of the flow to them, for a person.
//!
//! # What is proved
//!
//! What a checked set-up is stands in one record, a field for each rule (`IsSetUpChecked`). `breaches`
//! gives each rule that is broken and not allowed, with its place, in the order of the flow and then of
//! the routes, and none exactly if the set-up is checked (`found`, `checked`, `refused`). `findings`
//! gives the same with the names of the flow. `unknown_rule` gives the first name that no rule has. Of
//! the nearest name no contract says more than that it is one of those given.
#![tactic(auto)]

mod all;
mod breach;
mod finding;
mod flows;
mod names;
mod rule;
mod set_up;
mod tests_of;

pub use all::breaches;
pub use breach::{At, Breach};
pub use finding::{Finding, findings};
pub use names::nearest;
pub use rule::{Rule, unknown_rule};
pub use set_up::{SetUp, SetUpHost, SetUpRoute};
