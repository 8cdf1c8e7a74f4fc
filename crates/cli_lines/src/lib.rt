//! The lines of an input, one after the other.
//!
//! # What is proved
//!
//! `Lines::next` gives the bytes of an input line by line, where these are known, each with its line
//! feed, which the last one may lack, and none exactly at their end (`IsNextLine`). A line that is read
//! already is given without a read (`at_once`). That it reads nothing past the piece in which a line
//! ends is only tested (`tests/prompt.py`).
//!
//! # Decisions
//!
//! - **Lines have a crate of their own, `cli_lines`**, above `cli_io`, so that the other readers of
//!   `cli_io` stay as they are.
#![tactic(auto)]

mod feeds;
mod lines;
mod piece;

pub use feeds::line_end;
pub use lines::Lines;
