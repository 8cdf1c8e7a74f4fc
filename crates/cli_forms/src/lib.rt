//! The forms in which the program shows things: a command line names them, and the crates that show take them.
#![tactic(auto)]

mod graph;
mod journal;
mod masking;

pub use graph::GraphForm;
pub use journal::{JournalForm, Style};
pub use masking::Masking;
