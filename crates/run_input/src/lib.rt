//! The input of a run: its frames are read, and handed over by a thread of their own.
//!
//! - [`Frames`] reads a stream of frames piece by piece, and says how it ended ([`StreamEnd`]).
//! - [`Arrivals`] has a thread that reads, which nobody joins, and gives what came ([`Arrival`]): requests, messages
//!   that are passed over, and at last how the input ended.
//! - A [`LegSource`] gives the requests to a leg of the pool for as long as more come or something is under way.
//!
//! # What is proved
//!
//! The bytes that are taken from an input are the text of the frames that were read (`ReadsOn`), and the
//! end is the one that is reported (`EndsAs`). What is got of arrivals is what came of the input, in
//! order: the requests of its first frames, and the number of its messages that are passed over. At each
//! get it is known that the input begins with such frames (`Heard`), and after the end that it was read
//! to it (`HeardTo`), without a join of the thread that reads. A leg's source gives exactly the requests
//! that it got, and has the messages passed over since it began.
//!
//! No contract says when a message is got, that the thread goes on to read, or when a leg ends.
#![tactic(auto)]

mod arrival;
mod arrivals;
mod frames;
mod leg_source;
mod queue;
mod reader;

pub use arrival::{Arrival, PassedOver, ReadError, arrival_of};
pub use arrivals::Arrivals;
pub use frames::{Frames, PIECE, Piece, StreamEnd};
pub use leg_source::{Heard, Leg, LegLimits, LegSource};
pub use queue::Input;
