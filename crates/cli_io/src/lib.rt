//! Reading with a bounded number of reads, writing, and bytes as a message shows them.
//!
//! # What is proved
//!
//! An input counts every read of its reader; a piece is the next bytes of the reader, empty only at its
//! end. `read_input` gives all bytes of its reader, where these are known, and TooManyReads only where
//! 1,048,576 reads were made (`too_many`). `write_whole` and `write_out` add their bytes whole, and
//! after an error a beginning of them. What reads answers no error of a write, and what writes none of a
//! read (`reading`, `writing`). What `Quoted` prints of an input is printable ASCII, and shows at most
//! 40 bytes of it.
#![tactic(auto)]

mod error;
mod input;
mod quoted;
mod read;
mod write;

pub use error::{IoError, StreamErrorText};
pub use input::{Input, MAX_READS};
pub use quoted::{Quoted, quotations_are_short};
pub use read::read_input;
pub use write::{write_out, write_whole};
