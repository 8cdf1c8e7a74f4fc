//! `journal`: what a journal holds, as lines of text or of JSON.
//!
//! Promised here: [`show`] writes the lines that `specs/Shown.antt` specifies for a view of a
//! journal, in the form that is asked for. As text, each line has one fact: the layout, the next
//! id, each transaction that is not finished, with what a recovery will do, the shelf, and the
//! advices. As JSON, there is an object for each item, and one for each entry of its context. If a
//! journal has rows at fault, the rows that are left out are named after the next id. Messages are
//! shown as `decode` prints them.
//!
//! With [`Masking::On`](cli_forms::Masking) sensitive fields of messages are masked, and an entry of
//! a context that is neither a message nor a note of the switch shows only its length.
//!
//! # What is proved
//!
//! `show` writes exactly the lines that `specs/Shown.antt` defines of a journal's view, of text
//! (`specs/Text.antt`) or of JSON (`specs/Json.antt`); after a failed write a beginning of them is
//! written. A message in it is shown as `decode` prints it. Whom a recovery notifies is as the
//! definition of histories has it (`to_tell`), from the number notified on. That a line of JSON keeps
//! the grammar of JSON is only tested.
//!
//! # Decisions
//!
//! - **The JSON of `journal` is written by `cli_journal` itself.** Its lines are made of names, numbers
//!   and a few strings of bytes, and the definition of their text fits a page. Alternative: the
//!   library's `serde_json`, whose values would be built of each message first.
#![tactic(auto)]

mod context;
mod entries;
mod items;
mod journal;
mod json;
mod json_entries;
mod json_items;
mod left_out;
mod owner;
mod text_entries;
mod text_items;
mod words;

pub use journal::show;
