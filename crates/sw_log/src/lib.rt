//! The line of the log for a transaction: its record as an object of JSON, with its times.
//!
//! - [`record_line`] is the line, by the record and by what the caller knows of time ([`Times`]).
//! - [`record_object`] is the line without its line feed, and [`taken_object`] what is known of a transaction when it
//!   is taken.
//! - [`moment_text`] is a moment as the line shows it.
//!
//! `specs/Line.antt` says which bytes the line has.
//!
//! # What is proved
//!
//! `record_line` is the line of a record, byte for byte, with the times that are given
//! (`specs/Line.antt`). `record_object` is the same without the line feed, and `taken_object` the
//! request and the retries alone. `moment_text` is a moment in UTC, by the calendar of `jiff_core`
//! (`IsMoment`). No contract says what time it is.
#![tactic(auto)]

mod line;
mod moment;

pub use line::{Times, record_line, record_object, taken_object};
pub use moment::moment_text;
