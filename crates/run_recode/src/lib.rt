//! Readers and writers at the edge of a run, towards an acquirer or a host that writes messages otherwise.
//!
//! [`RecodedReader`] reads the frames of the other system from a reader, and gives those of the switch.
//! [`RecodedWriter`] takes the frames of the switch, and writes those of the other system to a writer. Without
//! a profile either one is the reader or the writer inside it: bytes pass as they are.
//!
//! # What is proved
//!
//! Without a profile the bytes that a reader has still to give, and those that a writer holds, are those of
//! the reader or the writer inside. With one nothing is known of them at a bound of `Read` or `Write`, but
//! `read`, `write` and `flush` say more.
//!
//! - `read`: at each moment, what the reader has given since it was made, with what it still holds, is
//!   exactly what `cli_recode` writes for the messages that the bytes taken from the reader inside are frames
//!   of (`IsReadSo`). Each stands there once and in order, whatever pieces the bytes came and went in.
//!   Nothing is answered only at the end inside or after a bad length (`IsOver`).
//! - `write` and `flush`: what was written inside, with what is held, is exactly what is written for the
//!   messages of all bytes that were taken (`IsWrittenSo`). After a flush nothing is held. A message with a
//!   fault is never an error, and the errors of the writer inside lose nothing.
//! - Where no message was refused, nothing is reported.
//!
//! What a message is recoded to, and what stands instead of one that has a fault, is said by `cli_recode`
//! (`IsRecodedFrame`, `IsInstead`). The text of the reports is only tested.
//!
//! # Decisions
//!
//! - **A message that cannot be read becomes a frame with its header alone** towards the switch, which a run
//!   passes over, so that the messages after it keep their numbers there.
//! - **A bad length becomes bytes that are no length of the switch either**, `----`, and a stream that ends
//!   within a frame ends so too, after the digit `0`. So a run reports both as it does without a profile,
//!   with its own status. What was found is reported before.
//! - **What is recoded is held until it is taken or flushed.** So an error of the writer inside comes before
//!   bytes are taken, and the next call goes on where it stopped.
//! - **Out of memory ends a stream**: messages would be missing. Each later call fails.
//! - **A report is one line in one write**, so that lines of several threads do not mix.
#![tactic(auto)]

mod flow;
mod passage;
mod queue;
mod reader;
mod writer;

pub use passage::{Edges, Passage, Passages, passages_at, reader_over, writer_over};
pub use reader::RecodedReader;
pub use writer::RecodedWriter;

#[cfg(test)]
mod tests;
