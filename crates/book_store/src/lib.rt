//! The file of a limits book: what the cards have spent, in a database of `sqlite` that lasts.
//!
//! A book has a salt, made once, and items by id: an authorization that was settled, with its
//! transaction's id, its card and its request (each as the SHA-256 of the salt and of its bytes), its
//! amount, its day and whether it was reversed. Cards and requests never stand there in the clear. What a
//! card has used in a day is the sum of the amounts of its items of that day that were not reversed.
//!
//! # What is proved
//!
//! Of any store of `sqlite`, if the disk returns what was written. `BookFile::open` takes the tables of a
//! book as they are, and makes new ones, with the salt that is handed in, in an empty database
//! (`opened`, `salted`). It refuses any other database, and leaves it as it was (`names`, `left`). What a
//! stop left of a book is opened as one of the tables that the stop may leave (`found`), and what a
//! refused opening leaves is opened as it would have been (`again`). No contract says that a book is
//! taken: an `open` that refuses every database meets it.
//!
//! `put`, `mark`, `reverse` and `forget` make their change or none, through every stop (`wrote`, `kept`,
//! `stop`). An item whose id is there is not put again. `mark` marks the item under an id as reversed.
//! `reverse` marks the item of the request that has the highest id, unless it was reversed before, and
//! tells whether there was one (`told`). `forget` takes the
//! first items of the oldest day from 0 on, at most so many, if that day is before the given one. `next`
//! shows the next items after an id, of days from one on; `has` tells whether an item has an id; `used` and `used_in` are the sums of a day, and
//! `first_day` the first day from one on. These change nothing (`same`, `left`). Each refusal of the store
//! makes the file fail, and then each call answers `Failed` and does nothing (`refused`, `err`, `failed`).
//! `item_in` reads a row of `next` as an item, or names it; `hash` gives the hash of a card or a request.
//! What the changes make of the sums is said by `sums_are_kept`.
//!
//! # Decisions
//!
//! - **A row is read as an item only by `item_in`**: an opening reads no item, so its time is the store's
//!   own. A row that no book writes is named when it is shown. Alternative: all rows read at the opening.
//! - **Items are found by request and by day through what is UNIQUE with the id**, which SQLite keeps as
//!   indexes. Cards have none: what a card has used is asked for a day, and a further index would cost
//!   each put a page at a random place.
//! - **The refusals of the store are passed on as they are**, for their texts.
//! - **A sum that no 64-bit number holds is a refusal of the store** (`IntegerOverflow`). Alternative: rows
//!   summed by the program in 128 bits, which are copied for it.
#![tactic(auto)]

mod book;
mod changes;
mod error;
mod hash;
mod item;
mod laws;
mod layout;
mod looks;
mod reading;
mod rows;
mod statements;

pub use book::{BookFile, Left};
pub use error::BookFileError;
pub use hash::hashed;
pub use item::{Hashed, Item};
pub use laws::sums_are_kept;
pub use rows::item_in;
