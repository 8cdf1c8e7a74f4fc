//! Frames of a stream of bytes: four ASCII digits of length, and that many bytes, which are a message.
//!
//! - `frame` gives the one frame of a message of at most 9,999 bytes.
//! - A `Framer` is fed a stream in pieces, and returns the messages of the frames that are whole. However the
//!   stream is cut, up to what is pending it is the frames of the messages returned so far, and no others
//!   (`feed`'s clause `so_far`, and `read_pieces` for a whole list of pieces). A length that isn't four digits
//!   fails the framer for good.
//!
//! # What is proved
//!
//! `Framer::feed`: the messages answered so far are those of the frames at the front of all pieces
//! joined, however the stream was cut (`so_far`, a law for every history). BadLength comes exactly
//! where four bytes in a length's place are not digits and no frame comes before them in that piece,
//! and at every later feed. `read_pieces` says it of a whole list of pieces, `one_stream` that a stream
//! has these frames and no others. `frame` gives the frame of a message of at most 9,999 bytes, and
//! TooLong exactly over that.
//!
//! # Decisions
//!
//! - **Contexts and framers use the allocator that they were made with.** A message takes one with each
//!   call that copies bytes.
#![tactic(auto)]

mod digits;
mod error;
mod framer;
mod pieces;
mod walk;
mod write;

pub use error::FrameError;
pub use framer::Framer;
pub use pieces::{StreamReading, one_stream, read_pieces};
pub use write::frame;
