//! Which request a response answers (jPOS: `QMUX`).
//!
//! A [`Mux`] holds the requests that wait for a response, each under the [`Key`] of its message
//! and with a deadline. Contracts see it as the list of keys with deadlines, in order of request:
//!
//! - `Mux::request` puts a key last, or refuses a message that has no key or whose key waits
//!   already.
//! - `Mux::response` returns `Matched` exactly if the key of the message waits, and takes it out.
//! - `Mux::expire` takes out exactly the keys whose deadline has come, `Mux::withdraw` the one
//!   named.
//!
//! How long a call takes is not promised. By the code, a request and its response take a few
//! look-ups in maps, and `Mux::expire` looks only at what is due; no contract says so.
//!
//! # What is proved
//!
//! A `Mux` holds the requests that wait, each under the key of its message and with a deadline. The key
//! is the message type, with a response read as its request, the terminal and the STAN. Contracts see
//! the list of keys with deadlines in order of request. `Mux::request` puts a key last, or says why
//! not: a message without a key, a key that waits, all numbers used, out of memory. All numbers are
//! never used where nothing waits (`unspent`). `Mux::response` answers `Matched` exactly where the
//! message's key waits, and takes it out, so a second response is `Unhandled` (`Answers`).
//! `Mux::expire` takes out exactly the keys that are due, in order of request; `withdraw` the one
//! named. No contract says what a call costs.
//!
//! # Decisions
//!
//! - **The numbers of a `Mux` begin again where nothing waits.** Where something always waits, it
//!   answers `NumbersSpent` after 2^64 - 1 requests. The participants' multiplexers are empty before
//!   each request, so their code has no such case (`unspent`).
#![tactic(auto)]

mod error;
mod key;
mod mux;

pub use error::MuxError;
pub use key::{Key, key_of};
pub use mux::{Mux, Response};
