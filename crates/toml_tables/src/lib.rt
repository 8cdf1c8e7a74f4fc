//! What the readers of TOML files share: what stands at a key of a table, and the first key that a table may not have.
//!
//! A key is a value of any type that lends its spelling. Promised here, of the tables that `toml` parses:
//! - [`value_at`], [`text_at`], [`flag_at`] and [`table_at`] give what stands at a key;
//! - [`tables_in`] gives the tables of an array in their order;
//! - [`unknown_key`] gives the least key of a table, by its bytes, that is none of the given ones, and none exactly where
//!   there is none.
#![tactic(auto)]

mod look;
mod unknown;

pub use look::{are_tables, flag_at, table_at, tables_in, text_at, value_at};
pub use unknown::unknown_key;
