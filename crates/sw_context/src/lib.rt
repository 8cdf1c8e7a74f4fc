//! The context of a transaction: what its participants hand to one another, as named values in order.
//!
//! - A `Context` is a list of at most 64 entries of different names, each with a value of at most 65,535 bytes.
//!   `put`, `get` and `take` are those of a list of pairs, and a refused `put` changes nothing.
//! - A context has one spelling in bytes. `from_bytes` accepts exactly the bytes that `to_bytes` gives, and gives
//!   the context that they came from (`spellings_read_back`); `is_bytes` says which bytes those are.
//! - `is_name` is the rule for all names: of a context's entries, of participants and of groups.
//!
//! # What is proved
//!
//! `put`, `get` and `take` are those of a list of pairs of at most 64 entries. The refusals are exact:
//! BadName, ValueTooLong, Full, and out of memory last. `to_bytes` gives the one spelling. `from_bytes`
//! answers the context exactly where the bytes are its spelling, and `is_bytes` says whether they are
//! one. `copy` equals its source, and reading what was spelled gives the context
//! (`spellings_read_back`).
//!
//! # Decisions
//!
//! - **`from_bytes` first tests without memory, then reads.** Alternative: one pass, and looking over
//!   again where memory is refused.
#![tactic(auto)]

mod context;
mod error;
mod laws;
mod name;

pub use context::Context;
pub use error::ContextError;
pub use laws::spellings_read_back;
pub use name::{is_name, is_name_bytes};
