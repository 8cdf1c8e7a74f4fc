//! Flows as numbered steps: what a transaction machine runs and an image writes down.
//!
//! # What is proved
//!
//! A `Code` is always the assembly of a checked flow, and contracts see it as that flow. `assemble`
//! gives the code of its flow and `list` the flow of a code, so listing what was assembled gives the
//! flow back. `steps`, `groups`, `participants` and `retries` are the flow's. `look` gives what is at a
//! step, `find_group` the group of a name, `place` the place of the entry that a step calls or picks,
//! `step_at` the step that calls an entry; the last two agree. `copy` gives the same code.
//!
//! # Decisions
//!
//! - **The call of an entry is defined by counting the steps before it**, not by looking for a step at
//!   its place.
//! - **`assemble` numbers participants through a map**, with the meaning of `flow_model`'s scans.
//! - **`place` finds the group by its first step, then walks that group's steps**: at most 256 groups
//!   and 513 steps. Alternative: a walk from step 0.
#![tactic(auto)]

mod assembly;
mod code;
mod listing;
mod numbering;
mod places;
mod view;

pub use assembly::assemble;
pub use code::{Code, GroupStart, Step};
pub use listing::{add_entry, list};
pub use places::{place, step_at};
pub use view::StepView;
