//! What a list of accepted events means: the history of an engine with its sessions, queue, shelf,
//! breakpoints and journal (jPOS: `TransactionManager` over its queue, with a journal beside it).
//!
//! The definitions (`specs/History.antt`, `specs/Journal.antt`, `specs/Views.antt`) are functions of
//! the whole history and know no running state.
//!
//! # What is proved
//!
//! Laws of every lawful history over 1 to 16 sessions, with recovery and closing entries. Each entry's
//! change leads from the journal before it to the journal after it (`changes_lead_on`). A transaction's
//! own items are those that sessions gave while they held it, and no two sessions serve one
//! (`items_are_of_their_holders`). Journalled transactions are recovered one after the other
//! (`recovered_in_turn`). The journal is always one that may be opened again, after a stop and after a
//! cut (`journals_are_sound`, `rows_are_bounded`, `checked_flows_fit`). `JournalView::ok` says exactly
//! which those are; `blank` is one; copies equal their sources.
//!
//! # Decisions
//!
//! - **The row of a journalled transaction stays the view's until a member was notified**, also after
//!   its context was restored.
//! - **An advice replaces the one at its place; a told without advice leaves it.**
//! - **`ok` takes no memory**, so ids in both lists are found by a search of the shelf for each of at
//!   most 16 rows.
//! - **Copies of entries take an allocator**, since a list of names has none of its own.
#![tactic(auto)]

mod checks;
mod comparing;
mod copy;
mod event;
mod journal;
mod laws;

pub use event::{Change, Entry, Event};
pub use journal::{JournalView, Row, WaitingContext};
pub use laws::{
    changes_lead_on, checked_flows_fit, items_are_of_their_holders, journals_are_sound,
    recovered_in_turn, rows_are_bounded,
};
