//! Messages as other systems write them.
//!
//! A host or an acquirer may write the parts of a message otherwise than the switch does: digits
//! packed two a byte, characters in EBCDIC, bitmaps of eight bytes, lengths in binary. A `Profile`
//! says how it writes the type, the bitmaps and each field (`Row`). `to_ascii` gives the bytes of the
//! ASCII profile (`iso_codec`) for its bytes, and `from_ascii` its bytes for those of the ASCII profile.
//! `cli_recode` turns whole streams of them.
//!
//! - `Profile::check` makes a profile of a `Draft`, or refuses it with the first of its faults.
//! - `to_ascii` gives the one spelling, in the ASCII profile, of the message that the bytes spell.
//!   What spells a message is said by a relation (`SpellsAs` of `specs/Messages.antt`), which is no
//!   way of reading.
//! - `from_ascii` gives the one spelling that is written of the message that a text spells in the
//!   ASCII profile, without the fields that are not kept (`spelling_as` of `specs/Writings.antt`).
//! - `codings_are_exact`, `fields_are_written`, `cut_messages_are_short` and `ascii_is_the_grammar` are
//!   laws of the definitions.
//!
//! # What is proved
//!
//! `to_ascii` answers a text exactly where the bytes spell a message (`found`, `only`), and the text
//! is that message's spelling. What `iso_codec::decode` reads of it is what was read (`same`).
//! Otherwise it answers the first fault from the left in the order of reading (`first_fault`), and
//! out of memory only of bytes that are a message (`memory_last`). The text fits a frame (`short`).
//!
//! What `from_ascii` writes spells, in the other profile, the message of the text without the fields
//! that are not kept, and that message is read from it again (`found`). It fits a frame (`short`). If
//! any bytes at all spell that message, it is written, or memory is refused (`only`). Otherwise a text
//! that is no message is refused with its first fault, and a message with the lowest of the fields that
//! cannot be written. Out of memory is reported only of a message that can be written (`first_fault`).
//! The fields that can be written (`can_write`) are those that some bytes are (`fields_are_written`).
//!
//! `Profile::check` accepts exactly the drafts in which there is nothing to refuse, and otherwise
//! names the first refusal. In each coding a text that has bytes is read back from them, and bytes
//! stand for one text of a length (`codings_are_exact`). The profile of ASCII is the grammar of
//! `iso_codec`, with the same first fault of any bytes (`ascii_is_the_grammar`). A message without its
//! end is Short, wherever it is cut (`cut_messages_are_short`).
//!
//! # Decisions
//!
//! - **A transcoder, and no codec with parameters**: everything above keeps working on today's bytes,
//!   and the journal has these alone.
//! - **The pad of an odd number of digits is looked at**: another half in its place is BadContent. So
//!   is a half above 9, but for 13, which is the separator `=` of a track.
//! - **A field that is not kept is passed over** in reading, whatever its bytes are, and left out in
//!   writing. A row is needed for it: in reading, nobody knows otherwise where the next field begins;
//!   in writing, a field without a row is NotWritable, so that nothing is left out unless the profile
//!   says so.
//! - **One spelling is written** where many bytes spell a message: hexadecimal digits in upper case, a
//!   second bitmap only if a field above 64 is written, and the pad of the profile. Odd or lower case
//!   digits in the text of octets are NotWritable, since they would not be read as they were.
//! - **A length counts characters, or bytes where the value is of octets.** So there is no length in
//!   bytes of packed digits, which would not tell whether there is a pad.
//! - **BadLength comes before a value is read**: of a length that is over the row's or that the field
//!   does not take. The text of octets has two characters a byte, so that field 55 takes at most 499
//!   bytes.
//! - **Out of memory is last**: where memory is refused, the bytes are looked over without memory, in
//!   writing also for a field that cannot be written.
#![tactic(auto)]

mod ascii;
mod bitmap;
mod check;
mod coding;
mod decode;
mod error;
mod field;
mod front;
mod laws;
mod look;
mod packed;
mod page;
mod profile;
mod read;
mod recode;
mod refuse;
mod row;
mod text;
mod write_bitmap;
mod write_field;
mod write_message;
mod write_text;

pub use ascii::to_ascii;
pub use coding::{Coding, Page};
pub use error::{ProfileError, WriteError};
pub use laws::{
    ascii_is_the_grammar, codings_are_exact, cut_messages_are_short, fields_are_written,
};
pub use profile::{Draft, Peer, Profile};
pub use recode::from_ascii;
pub use row::{Count, Row, Size};

#[cfg(test)]
mod tests;
#[cfg(test)]
mod write_tests;
