//! The record of a transaction: what became of one request.
//!
//! - [`Course`] is what the entries of a history say of one transaction: who decided it, which issuer was asked,
//!   which group was selected, and the context that it was left with.
//! - [`Record`] has the fields of a record. [`record_after`] makes it of the entry with which a transaction ends,
//!   and of the entries before that; [`record_taken`] has what is known of it when it is taken.
//!
//! `specs/` has both as functions of the entries. A record has no times: these are not in a history.
//!
//! # What is proved
//!
//! `record_after` gives the record of the transaction that ends with an entry, by the entries before
//! that, exactly where one ends that was taken among these entries and does not go to the shelf
//! (`ended_id`, `recorded`). Fields of messages are those of the request and of the response in the
//! context that the last answer left, the card number masked (`record_of`). Who decided, who was asked
//! and what was selected is what the answers and selections of that transaction say (`course`).
//! `record_taken` gives the record of the transaction that an entry takes, by the context of its row
//! (`course_of_row`). Out of memory is the only error of both.
#![tactic(auto)]

mod context;
mod course;
mod fields;
mod record;

pub use course::Course;
pub use record::{Record, record_after, record_taken};
