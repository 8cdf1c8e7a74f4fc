//! Flow files: a flow written as TOML.
//!
//! ```toml
//! retries = 1
//!
//! [[group]]
//! name = "main"
//!
//! [[group.entry]]
//! participant = "check"
//! selector = true
//! ```
//!
//! The top table has `group` (an array of tables, required) and `retries` (an integer, 0 if it is
//! absent). A group has `name` (a string, required) and `entry` (an array of tables, empty if it is
//! absent). An entry has `participant` (a string, required) and the marks `abort_aware`, `recovers`
//! and `selector` (false if they are absent).
//!
//! Nothing is promised of [`value_at`], which finds what a message quotes; tests cover it.
//!
//! # What is proved
//!
//! `read_flow` answers a flow exactly where the text is a flow file of it (`IsFlowFile`): the document
//! that `toml` parses from the text has no fault and states this checked flow. Every refusal but out of
//! memory is the first fault in the specified order, with its key and its table (`Refuses`).
//! `print_flow` of a checked flow writes a flow file of it, so `read_flow(print_flow(f))` is `f` where
//! both answer.
//!
//! # Decisions
//!
//! - **A refusal carries the key and the table it stands in** (the top, group G, entry I of group G).
//!   The keys that a flow file has are an enum, so that such a refusal takes no memory; an unknown key
//!   is carried as text.
//! - **Group 0, then its entries, group 1, ..**: tables are tested in that order, and in each the least
//!   unknown key, then the least missing, then the least of the wrong kind.
//! - **An integer out of range for `retries` is kept as 101 until the check**, so BadRetries comes in
//!   the order of `check`. An integer of more than 64 bits is not TOML; a float is of the wrong kind.
//! - **`group = []` is a flow without groups**, hence NoMain; an array with a member that is not a
//!   table is of the wrong kind.
//! - **Every key is always printed.**
//! - **Of several unknown keys the least by its bytes is reported**, as a search over all members; that
//!   a document's keys rise is used in the proof alone.
//! - **Out of memory in `read_flow` says nothing of the text**: the TOML library takes memory before it
//!   reports a fault.
//! - **A refusal quotes an image's line, and a flow file's unknown key or the value that is refused.**
//!   The value is found by a second parse of a text that is refused (`flow_toml::value_at`). The flow
//!   that was read keeps none of the text. Where that parse is refused memory, the refusal is reported
//!   without the value.
//! - **The library takes line ends and a last comma in inline tables, and refuses floats out of
//!   range.** Random flow files keep to what it and Python's `tomllib` take alike.
#![tactic(auto)]

mod error;
mod find;
mod keys;
mod print;
mod read;

pub use error::FlowTomlError;
pub use find::value_at;
pub use keys::{Key, TablePath};
pub use print::print_flow;
pub use read::read_flow;
