//! What lines of JSON are made of, and what they say about a context.
//!
//! # What is proved
//!
//! A string and the members of an object are the bytes that `specs/Json.antt` specifies. `note_in` is
//! the value under a name in the context that bytes spell. Bytes that spell no context have no such
//! value (`specs/Contexts.antt`).
#![tactic(auto)]

mod members;
mod notes;
mod strings;

pub use members::{
    push_flag_member, push_number_member, push_opening, push_text_member, push_texts_member,
};
pub use notes::note_in;
pub use strings::{is_printable, push_next_string, push_string};
