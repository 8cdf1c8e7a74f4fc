//! What the cards have spent on each day, and what is held for open transactions.
//!
//! A [`DayBook`] is a limit that holds for each card on each day, and a list of items in rising order
//! of their ids: an amount of a card for a request, on a day. An item is open (held for a transaction
//! that may commit), used, or reversed: nothing is held or spent, and the request stays known. Cards and
//! requests are 32 bytes each, salted SHA-256, so that a book's file can have them too.
//!
//! - `DayBook::reserve` opens an item, or reports the first of its refusals and changes nothing.
//! - `DayBook::settle` turns an open item into a used one, `DayBook::release` takes an open one out, and
//!   `DayBook::reverse` turns a used one into a reversed one; each returns whether there was one.
//! - `DayBook::restore` puts a used or a reversed item that was made before: one of a file, or of a
//!   recovered transaction. The limit is not asked.
//! - `DayBook::forget` takes the first item out, if its day is past and it is not open. A few calls for
//!   each reservation keep the book small, and no call has to forget many.
//!
//! The sums of a card on a day are kept and not computed anew, so no call walks through the items.
//!
//! # What is proved
//!
//! `DayBook::reserve` accepts exactly where none of its refusals holds (`refusal`, in their order): the
//! limit is asked of the items of the item's own day, and a request is a duplicate if an item of that day
//! or of the day before has it. So acceptance does not depend on how far forgetting has come, as long as
//! only items of days before these are forgotten. `DayBook::restore` accepts exactly where
//! `restoring_refusal` holds nothing. Each other call changes the one item that it names, and answers
//! whether it did. The sums are kept, and the record `IsDayBook` ties them to the list: the sums of a
//! card without items are not kept either, so what is forgotten leaves memory.
//!
//! After a reservation, what the card has used and what is held for it on the day are together within the
//! limit (clause `within`). `settle`, `release`, `reverse` and `forget` raise no such sum. So the sum of a
//! card on a day is at most the greater of the limit and what was restored: a limit may have been
//! lowered since.
//!
//! # Decisions
//!
//! - A duplicate is asked for on the day and on the day before, so that a repeat just after midnight is not
//!   approved twice. Items that are older count for nothing, whether they were forgotten or not.
//! - Several items of a day may have one request. Recovery makes the request of an aborted transaction
//!   known by a reversed item, and a repeat of the request may have been committed before the stop.
//!   What is refused is a second item beside an open one. Of such items the one with the greatest id is
//!   found (`DayBook::newest`), as in a book's file.
//! - Sums of 0 are not kept, so a card's sums leave with its last item, without a count of its items.
#![tactic(auto)]

mod book;
mod error;
mod item;
mod parts;

pub use book::{DayBook, MAX_AMOUNT, MAX_LIMIT, MAX_SUM};
pub use error::DayBookError;
pub use item::{CardDay, DayItem, RequestDay, State, Totals};
