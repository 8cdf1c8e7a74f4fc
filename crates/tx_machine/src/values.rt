//! What a machine returns and is given.

use sw_participant::{Bytes, Text};

/// How far a transaction has come.
#[derive(Clone, Copy)]
pub enum Phase {
    /// Participants are prepared.
    Preparing,
    /// A participant was not prepared: only abort-aware participants are called.
    Aborting,
    /// The members are notified of the commit.
    Committing,
    /// The members are notified of the abort.
    Undoing,
}

/// The entry whose call is due.
#[derive(Clone, Copy, PartialEq, Eq)]
pub struct Spot {
    /// The number of the due step: of a preparation the `Call`, of a selection the `Pick`.
    pub step: usize,
    /// The group's number in the flow, from 0.
    pub group: usize,
    /// The entry's number in its group, from 0.
    pub index: usize,
    /// The participant's number, by first appearance in the flow.
    pub participant: usize,
}

/// The call that is due, or how the transaction ends.
#[derive(Clone, Copy, PartialEq, Eq)]
pub enum Due {
    Prepare(Spot),
    PrepareForAbort(Spot),
    /// A selector selects groups (jPOS: `GroupSelector.select`).
    Select(Spot),
    /// The participant of this number, a member, is notified of the commit.
    Commit(usize),
    /// The participant of this number, a member, is notified of the abort.
    Abort(usize),
    /// The transaction is aborted and goes on the shelf, to be tried again.
    Shelve,
    /// The transaction is over.
    Done,
}

/// A transaction as the journal has it.
pub struct Reopened {
    /// Whether its members are notified of the commit, and otherwise of the abort.
    pub committing: bool,
    /// The numbers of its members.
    pub joined: Vec<usize>,
    /// How many of them were notified.
    pub told: usize,
    /// How many tries are left after this one.
    pub tries: u8,
    /// The context that it began with, as bytes.
    pub saved: Vec<u8>,
}

/// The reply to a due call.
pub enum Item {
    /// The answer byte of a preparation, and the context as the participant left it.
    Answer(u8, Bytes),
    /// The text of a selection: names of groups, separated by spaces and commas.
    Choice(Text),
    /// A member was notified of the outcome; it may have given an advice to be forwarded.
    Told(Option<Bytes>),
}

// Written out, so that no caller proves again how its parts are dropped.
impl Drop for Item {
    fn drop(self) {
        match self {
            Item::Answer(_a, _b) => {}
            Item::Choice(_value) => {}
            Item::Told(_value) => {}
        }
    }
}
