//! The numbers of a run: how its requests were answered, counted from the contexts that their transactions ended
//! with, and the line that shows them.
//!
//! - [`Counts`] counts contexts: the response of each, by its response code (field 39 of ISO 8583:1987), stand-ins
//!   and reversals. No count wraps: one that is full stays as it is.
//! - [`Counts::line`] is the line, of the counts and of what the caller knows besides ([`Beside`]).
//!
//! `specs/` has both as functions: `tallied` of the contexts, `stats_line` of the numbers.
//!
//! # What is proved
//!
//! `Counts::count` counts a context as `with_context` says: one request more, approved or declined by
//! field 39 of its response, a stand-in by the entry `standin`, a reversal by its request's type. Out
//! of memory is its only error, and changes nothing. No count wraps. `Counts::line` is the line of the
//! numbers, `stats_line`, byte for byte.
#![tactic(auto)]

mod counts;
mod line;

pub use counts::Counts;
pub use line::Beside;
