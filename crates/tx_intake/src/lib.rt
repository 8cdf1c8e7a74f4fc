//! The way that offers take from the thread that reads them to the engine's lock.
//!
//! - A [`Source`] gives contexts one after the other; [`Listed`] is one that gives a list in order.
//! - An [`Intake`] is a bounded queue between two threads: one holds its [`Putter`], the other its
//!   [`Getter`]. Its one rule: what was put is what was got, followed by what the queue holds, and it
//!   keeps a [`Law`]. An [`OfferIntake`] is one of offers, with no law.
//!
//! # What is proved
//!
//! An intake is a bounded queue between two threads. It has one rule: what was put is what was got, and
//! then what it holds. Each step keeps the rule, whatever the other thread does meanwhile.
//! A put adds its item at the end of the queue (`put`), or hands it back; then at least as many items
//! as the capacity had been put (`full`). A get takes the oldest item (`got`). Whoever puts owes that
//! all that was put keeps the law (`may`), and whoever gets learns that it does, of something that
//! begins with what was got (`lawful`). At the end, what was got is the beginning of what was put
//! (`order`), and `settle` answers true exactly where it is all of it (`all`, `left`).
//! `Intake::new` refuses exactly a capacity that is not 1 to 4,096. A `Source`
//! gives contexts; `Listed` gives those of its list, in order, and then none (`gives`). Put and get may
//! wait for the other thread's step. No contract says that they return, that an item came back from a
//! full intake, or that a get of none found it empty: neither end knows what passed the other. A `put`
//! that takes only the first items, as many as the capacity, meets the contract, and the crate's tests
//! refuse it.
//!
//! # Decisions
//!
//! - **The intake is a crate of its own, `tx_intake`**, so that its rule, which speaks of nothing but
//!   what passes, is proved once.
//! - **The law of an intake carries a fact to the thread that gets**, at each get, so that the other one
//!   need not be joined for it.
//! - **A run's intake carries offers, not contexts**: an offer has its memory, so the thread that got one
//!   hands it to the engine without taking any. Alternative: contexts, copied where the engine is
//!   locked.
//! - **Each end is a value that one thread has**, and an intake has one putter and one getter: so it is
//!   known in which order offers were got, and not only how often each was. Alternative: ends for each
//!   thread, and no order between them.
//! - **A put that is refused hands its offer back, and does not wait**: the putter decides what to do
//!   then.
//! - **`settle` takes the intake and both ends**, so that nothing passes afterwards. It compares the
//!   counts that the ends keep: the queue's own test promises nothing where it answers that something
//!   is left. Alternative: the queue's `len`, which may wait.
//! - **A list keeps its contexts and hands out copies**, so that contracts see the whole list
//!   afterwards. Alternative: contexts that are moved out, and a list that only proofs know.
//! - **A source says which lists it may end with**, so that a run that takes a source and gives it back
//!   need not know what kind it is. Alternative: a run that promises only that what was offered is what
//!   the source gave.
#![tactic(auto)]

mod error;
mod intake;
mod listed;
mod rule;
mod source;
#[cfg(test)]
mod tests;

pub use error::IntakeError;
pub use intake::{Getter, Intake, OfferGetter, OfferIntake, OfferPutter, Putter};
pub use listed::Listed;
pub use rule::{Law, NoLaw};
pub use source::Source;
