//! What the cards have spent, and what is held for open transactions.
//!
//! A [`Book`] is a limit that holds for each card, and a list of items in rising order of their
//! ids: an amount of a card under a key, which is open (held for a transaction that may commit),
//! used, or reversed (spent and given back). Contracts see just that. Whatever calls were made,
//! what a card has used and what is held for it together are never over the limit, and no key
//! occurs twice, that of a reversed item included.
//!
//! - `Book::reserve` opens an item, or reports the first of its refusals and changes nothing.
//! - `Book::settle` turns an open item into a used one, `Book::release` takes an open one out, and
//!   `Book::reverse` turns a used one into a reversed one; each returns whether there was one.
//!
//! The sums of a card are kept and not computed anew, so no call walks through the items.
//!
//! # What is proved
//!
//! A `Book` is one limit for each card, and items in rising order of their ids: an amount of a card
//! under a key, open, used or reversed. `Book::reserve` accepts exactly where none of its refusals
//! holds (`refusal`, in their order). `settle`, `release` and `reverse` change the one item that they
//! name and answer whether they did. Whatever calls were made, what a card has used and what is held
//! for it together are never over the limit (clause `within` of `used` and `reserved`). The sums are
//! kept, and the record `IsBook` ties them to the list.
//!
//! # Decisions
//!
//! - The book's items are listed in rising order of their ids (not in order of reservation): nothing
//!   that is promised depends on the order, and no removal moves what comes after.
#![tactic(auto)]

mod book;
mod error;
mod item;

pub use book::{Book, MAX_AMOUNT, MAX_LIMIT};
pub use error::BookError;
pub use item::{BookKey, Card, Item, State, Totals};
