//! Flow files and images at the edge of the program: the subcommands `asm` and `list`, and the flow
//! of a flow file.
//!
//! # What is proved
//!
//! Where `asm` is done, the bytes that it read are a flow file, and what it wrote is the image of that
//! flow (`IsAssembled`). Where `list` is done, the bytes are the image of a flow, and what it wrote is
//! a flow file of it (`IsListed`). Where either refuses its bytes they have the fault that is reported,
//! and nothing is written. `open_flow` gives a checked flow; no contract says what a file holds.
#![tactic(auto)]

mod error;
mod file;
mod found;
mod image;

pub use error::FlowsError;
pub use file::{open_flow, read_flow_bytes, read_flow_from};
pub use image::{asm, list};
