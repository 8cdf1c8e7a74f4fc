//! Participants whose replies are drawn at random.
//!
//! A [`Chance`] promises nothing of its replies. What its calls put into a context says which
//! calls the context came through; for tests.
#![tactic(auto)]

mod chance;

pub use chance::Chance;
