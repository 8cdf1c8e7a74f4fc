//! What the layers over `sqlite` share: reading a store again, and what statements make of a table.
//!
//! # What is proved
//!
//! `reread` reads the schema of the last commit again, so that what the store says of its trees is known
//! of the connection; where that is refused, the store is handed back as it was. The rest is lemmas, of
//! any schema: what CREATE TABLE, INSERT, UPDATE and DELETE of one table make of a transaction, and what
//! a SELECT over one table shows.
//!
//! # Decisions
//!
//! - **The lemmas are of any schema**, so that each layer states its own tables and texts, and the
//!   meaning of its texts is computed there.
#![tactic(auto)]

mod again;
mod cells;
mod layout;

pub use again::reread;
pub use cells::{first_int, int_at, last_int};
pub use layout::{is_empty, is_keyed, is_needed, is_unique_index};
