//! Messages of ISO 8583:1987 in the ASCII profile.
//!
//! A `Message` is a message type of four digits (`Mti`) and a finite map from field numbers to
//! values. Contracts see it as that: the digits, and the list of the numbers with their values, in
//! which the numbers rise. Every value in it fits its field, whatever calls were made:
//!
//! - `Mti::new` accepts exactly four digits, and `Message::set` exactly the values of the table of
//!   fields (`definition_at`). Each refusal names the field and what was expected, and leaves the
//!   message as it was.
//! - `set`, `get`, `remove`, `fields` and `copy` are those of a map (`fields_are_a_map` says which
//!   laws make the list a map).
//!
//! How a message is spelled on the wire is the business of `iso_codec`.
//!
//! # What is proved
//!
//! `Mti::new` accepts exactly four digits. `Message::set` takes a value exactly where the table of
//! fields does, and otherwise refuses for the first reason of FieldNotInProfile, BadLength, BadContent,
//! out of memory last, changing nothing. `get`, `remove`, `fields` and `copy` are those of a map from
//! numbers to values (`fields_are_a_map`), and every value that is there fits its field. The table's 53
//! rows (name and form) are proved equal to the specified table as a whole.
//!
//! # Decisions
//!
//! - **Field names are an enum**, since a clause cannot name a static that holds references. Fields 60
//!   to 63 share a name, and 64 and 128 do. Alternative: texts in the table, unproved.
//! - **A message is a rising list of numbers with values**, with the laws of a map proved of it,
//!   because grammar and bitmaps need the list. Alternative: std's finite map.
//! - **A field whose number is above the others goes after them without a search**, which is what
//!   decoding does of each. Alternative: a binary search and an insertion for each field.
#![tactic(auto)]

mod error;
mod field;
mod laws;
mod message;
mod mti;
mod name;
mod storage;
mod table;
mod value;

pub use error::{ExpectedValue, FIELD_NUMBERS, FieldLabel, MessageError};
pub use field::FieldNumbers;
pub use laws::fields_are_a_map;
pub use message::Message;
pub use mti::Mti;
pub use name::FieldName;
pub use table::{Content, Definition, FieldForm, definition_at, form_at};
pub use value::fits_content;
