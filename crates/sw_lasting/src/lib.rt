//! The limits of cards over a book that lasts: the participant that holds, spends and gives back their
//! amounts, by day, and still has after a restart what was spent.
//!
//! A [`LastingLimits`] keeps a `LastingBook`, and a day that it takes for today. Today is that of its
//! clock, but never goes back. An authorization is held on the day of its preparation, and that day is
//! noted in its context under [`LIMITS`], for recovery.
//!
//! # What is proved
//!
//! The participant states for each of its calls a relation (`specs/Holding.antt`) over what it keeps
//! (`Keeping`: the items in memory, the first day in reach, today, the salt). Of its file it shows nothing:
//! that memory and file agree is the invariant of `LastingBook`, which each call keeps.
//!
//! - `prepare` holds the amount of an authorization if the book does not refuse it, and notes its day
//!   (`Holds`). A context that does not take the note is refused with 96, and holds nothing.
//! - `commit` spends what is held, or gives back the newest item of the request that a reversal names, of
//!   today or of the day before (`committed`).
//! - `abort` frees what is held (`aborted`).
//! - After a restart the book does not have what was held. `commit` then takes the item of an unknown id
//!   from its context, as spent. `abort` makes the request known, unless its day knows it, so that it is
//!   refused if it is repeated. A call that is made again finds the id, and changes nothing.
//!
//! # What no contract says
//!
//! What the clock shows, which item is put into the file when, what a [`BookFault`] has, and when
//! items are forgotten in the file.
//!
//! # Decisions
//!
//! - **A reservation answers PREPARED without READONLY**, so that its context is saved with its day.
//!   Alternative: to count a recovered transaction on the day of its recovery. It could then be in the
//!   limit of another day than the one in which it was approved.
//! - **A file that refuses is told as `NoMemory`**, the only refusal of a participant. The program gets the
//!   cause from the [`BookFault`] that it hands in.
//! - **The file forgets once in 32 ids**, at most 64 items, since each time is a write that is synced. Memory
//!   forgets at most two items at each reservation. A file that fails there is noted, and refuses the next
//!   commit.
#![tactic(auto)]

mod fault;
mod hold;
mod limits;
mod noting;

pub use fault::BookFault;
pub use limits::LastingLimits;
pub use noting::LIMITS;
