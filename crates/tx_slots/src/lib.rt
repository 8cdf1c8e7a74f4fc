//! What an engine keeps: for each session a slot with the machine of its transaction; the call that is
//! due to it; what a reply adds; the slots that rows of the journal become again; the entries and the
//! queue; the shelf and the advices.
//!
//! # What is proved
//!
//! The parts of an engine: a session's slot with the machine of its transaction (`slot_for`), and the
//! call that is due to it with the `recover` call before an outcome (`next_at`, `at_slot`,
//! `restored_by`). The entry that a reply becomes, with the row, shelf item and advice that it changes
//! (`make_ready`). A copy of the machine after a reply that is due (`after_answer`, `after_choice`,
//! `after_told`). The machine of a journalled row and the first row with members still to be notified
//! (`reopened`, `next_slot`). The entries and the queue with memory reserved for offers (`Lists`);
//! shelf and advices are put both or neither (`put_both`).
#![tactic(auto)]

mod maps;
mod next;
mod recovery;
mod reply;
mod reserved;
mod rows;
mod slot;

pub use maps::put_both;
pub use next::{At, Next, ReplyKind, is_asked, restored_by};
pub use recovery::{is_over, next_slot, open_after, reopened};
pub use reply::{Given, Ready, after_answer, after_choice, after_told, goes_on, make_ready};
pub use reserved::Lists;
pub use rows::{no_change, row_of};
pub use slot::{Hold, Slot, at_slot, is_held_by, is_holding, let_slot_go, next_at, slot_for};
