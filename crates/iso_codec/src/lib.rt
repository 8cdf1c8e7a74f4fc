//! Messages of ISO 8583:1987 as bytes, in the ASCII profile.
//!
//! On the wire a message is its type, a primary bitmap of 64 bits, a secondary one where bit 1 is
//! set, and then the fields with set bits in rising order. The grammar (`Spells` in
//! `specs/Grammar.antt`) relates bytes and messages, independently of both directions.
//!
//! - `decode` returns a message exactly if the grammar relates it to the bytes, and otherwise the
//!   first fault from the left, which `read` of `specs/Reads.antt` names. It reads the bytes once
//!   and copies only the values. Out of memory is reported only of bytes that spell a message.
//! - `type_in` returns only the type of the message, and takes no memory.
//! - `encode` returns the one spelling with upper case digits and without an empty secondary
//!   bitmap (`spelling` of `specs/Spelling.antt`), and what `decode` reads from it is the message. It
//!   has at most 9,999 bytes.
//! - `read_front`, `split`, `read_variable`, `read_binary` and `check_content` are the steps of the same
//!   reading, for a caller that keeps no message: what each of them returns is that step of `read`.
//!
//! # What is proved
//!
//! `decode` answers a message exactly where the grammar relates it to the bytes (`found`, `only`), and
//! otherwise the first fault from the left in the order of reading (`first_fault`); OutOfMemory only of
//! bytes that are a message (`memory_last`). `type_in` answers the type of the message that `decode`
//! would answer, without memory. `encode` answers the one spelling with upper case digits and without
//! an empty secondary bitmap (`spelled`), of at most 9,999 bytes, so that it fits a frame. What
//! `decode` reads of it is the message (`read_back`).
//!
//! # Decisions
//!
//! - **Bit 65 is a number outside the table**, so a third bitmap is FieldNotInProfile.
//! - **Fields are looked at after both bitmaps**: where bit 1 is set and the second bitmap is cut off,
//!   the message is Short, whatever the first one has. BadLength comes before a Short content.
#![tactic(auto)]

mod bitmap;
mod check;
mod error;
mod in_place;
mod numbers;
mod parts;
mod read;
mod write;

pub use check::type_in;
pub use error::DecodeError;
pub use in_place::{check_content, read_front};
pub use numbers::Numbers;
pub use parts::{read_binary, read_variable, split};
pub use read::decode;
pub use write::{encode, push_hex};
