//! The transaction engine: several sessions over one queue (jPOS: `TransactionManager`), with a
//! shelf, breakpoints and what a journal is to hold, as operations over the history of
//! `tx_history`.
//!
//! # What is proved
//!
//! What contracts see of an `Engine` is its flow, its number of sessions, what its history began from,
//! the accepted events, the written mark, and how many offers have memory reserved. Its invariant: each
//! running part (sessions, queue, shelf, advices, breakpoints, next id) is a function of these. `open`
//! gives an engine on any sound view, with a closing entry for each row with nobody left to notify. It
//! refuses a number of sessions outside 1 to 16 and the first participant that the flow does not have;
//! out of memory is reported only for a valid number of sessions (`counted`). The text of each refusal
//! is the specified one (`text_of`).
//!
//! `offer`, `take`, `release`, `answered`, `chose`, `told`, `recovered`, `set_break`, `clear_break`,
//! `let_go` and `acked` are accepted exactly where none of their refusals holds, in the specified
//! order, out of memory last. Then the event is the history's newest entry; otherwise nothing has
//! changed. `next` answers as defined (Idle, Unwritten, Held, Due), `written` moves the mark, and the
//! queries are those of the history, which is always lawful. `cut`, where no session holds a
//! transaction and all is written, begins the history anew from the journal, the queue and the
//! breakpoints (`cut`, `finished`). `reserve_offer` reserves memory for one more offer, `spare` says
//! how many can be made, and `offer_reserved`, where `spare` is above 0, cannot be refused. No contract
//! says what an operation costs.
//!
//! # Decisions
//!
//! - **What an engine keeps is a crate of its own, `tx_slots`**: a session's slot with the machine in
//!   it, the entries and the queue, shelf and advices. It says what each is by itself; only `tx_engine`
//!   says what they are of a history. So each crate has under a hundred functions, and an edit of a
//!   slot is tried without the engine's proofs.
//! - **`open` takes the code and the view by reference and copies them**, so a refused opening leaves
//!   both with its caller. The name in `UnknownParticipant` is a copy too: it is the one refusal that
//!   out of memory may come before.
//! - **Breakpoints are a flag for each participant**, made at the opening, so that setting one takes no
//!   memory beside its entry.
//! - **A reply to a held call is accepted**: a breakpoint holds the hand-out of a call and says nothing
//!   of its reply.
//! - **A reply that is not due, and saved bytes that are not a context's, have no refusal.** The
//!   machine after a reply is made on condition that the reply is due (`after_answer`), and saved bytes
//!   are read on condition that they are a context's (`context_of`). A lawful history from a sound view
//!   gives both, so the only refusal is out of memory. Alternative: to report such a state as out of
//!   memory.
//! - **`told` puts the shelved context first and takes it out again where the advice is refused
//!   memory**, since a map has no reserve; so a refusal changes nothing.
//! - **An `Offer` owns both copies of its context's bytes**, the history's and the queue's, so that
//!   offering it in reserved memory takes none. What is reserved is a number beside the history: no
//!   entry says it. Alternative: a context that is copied while it is offered, and could be refused.
//! - **A cut copies queue, shelf and advices**, since what a history began from is kept and shown; its
//!   breakpoints are listed numbers rising. It answers nothing: the next id is in `opened`. `InUse`
//!   covers a transaction that is being recovered.
//! - **`at` gives the due call whether it is written, held or neither**; `next` says which.
//! - **An error's number stands in its documentation**, since the enum carries data in one variant.
#![tactic(auto)]

mod engine;
mod error;
mod offer;

pub use engine::{Engine, TakenTx};
pub use error::EngineError;
pub use offer::{Offer, context_of};
pub use tx_slots::{At, Next, reopened, restored_by};
