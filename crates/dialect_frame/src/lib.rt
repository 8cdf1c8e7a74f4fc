//! Frames as another system writes them: a length, a header and a message.
//!
//! A profile file says what form they have (`dialect_toml::Frame`): the length is four digits, two or
//! four bytes with the high one first, or four packed digits. It counts the header and the message, and
//! its own bytes where the form says so.
//!
//! - `frame_of` gives the one frame of a message, with the header of the form.
//! - A `Framer` is fed a stream in pieces, and returns the messages of the frames that are whole.
//!
//! # What is proved
//!
//! `Framer::feed`: the messages that were answered so far are those of the frames at the front of all
//! pieces joined, however the stream was cut (`so_far`, a law for every history). `BadLength` comes
//! exactly where the bytes in a length's place are the length of no message that may come, and no frame
//! comes before them in that piece, and at every later feed. So a length that counts less than the
//! header, or a message over `most`, is refused before a byte of the frame is held. `read_pieces` says it
//! of a whole list of pieces, and `one_stream` that a stream has these messages and no others.
//!
//! `frame_of` gives the frame with the header of the form and a length that counts what the form says,
//! and is refused exactly where the message is over `most`, or where the length cannot count it. Frames
//! that are written are read as the messages that they are of, with nothing left (`written_is_read`).
//!
//! # Decisions
//!
//! - **What a header says is not read.** Of what comes, as many bytes as the form's header has are
//!   passed over: headers have addresses and counts that differ from message to message. What is written
//!   has the header of the form.
//! - **A message may be empty**, as in `sw_frame`. Whether it is a message is not decided here.
//! - **A framer uses the allocator that it was made with.**
#![tactic(auto)]

mod error;
mod form;
mod framer;
mod lead;
mod pieces;
mod walk;
mod write;

pub use error::{FrameError, StreamError};
pub use framer::Framer;
pub use pieces::{StreamReading, one_stream, read_pieces, written_is_read};
pub use write::frame_of;

#[cfg(test)]
mod tests;
