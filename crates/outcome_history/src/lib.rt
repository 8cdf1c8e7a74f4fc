//! The outcome law joined with histories: what its own words (`outcome_calls`) are in the words of
//! histories and journals (`tx_history`).
//!
//! There is no code here, but laws of the definitions: sound journals are what the outcome law
//! begins from ([`views_fit`]), sessions serve the same transactions ([`sessions_agree`]), these
//! have the same states ([`states_agree`]), and the same calls are due to them ([`calls_agree`]). An
//! advice that is put into a journal changes only what is under its place ([`advices_by_place`]), and
//! the journal that a history leaves is the outcome law's ([`journals_agree`]).
//!
//! # What is proved
//!
//! Laws that join the outcome law with histories. A sound journal is a view from which the law may
//! begin, and an opening closes exactly the journalled transactions with nobody left to notify
//! (`views_fit`). Sessions serve the same transactions, which are in the same states, and the same call
//! is due to them (`sessions_agree`, `states_agree`, `calls_agree`). The journal that a history leaves
//! is that of the outcome law, rows and advices (`journals_agree`).
//!
//! # Decisions
//!
//! - **Histories have one mark that a context was restored, the outcome law one for each transaction**:
//!   they agree for the transaction that is recovered, and no other has it.
#![tactic(auto)]

mod laws;

pub use laws::{
    advices_by_place, calls_agree, journals_agree, sessions_agree, states_agree, views_fit,
};
