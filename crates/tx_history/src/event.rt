//! Accepted events, the entries of a history, and what an entry changes in the journal.

use crate::journal::{Row, WaitingContext};
use sw_participant::{Bytes, Text};

/// An accepted event. Sessions and participants are numbered from 0, transactions from 1; a context
/// is its bytes.
pub enum Event {
    /// A context was put at the end of the queue, with the flow's retries as tries left.
    Offered {
        context: Bytes,
    },
    /// The session took the queue's first context as a transaction, under the next id.
    Taken {
        session: usize,
    },
    /// The participant of the session's due preparation answered this byte, and left this context.
    Answered {
        session: usize,
        byte: u8,
        context: Bytes,
    },
    /// The selector that was due selected the groups that this text names.
    Chose {
        session: usize,
        text: Text,
    },
    /// The member that was due was notified of the outcome, and may have given an advice.
    Told {
        session: usize,
        advice: Option<Bytes>,
    },
    /// The member that is due restored the context of a recovered transaction
    /// (jPOS: `ContextRecovery`).
    Recovered {
        session: usize,
        context: Bytes,
    },
    /// The whole shelf went to the end of the queue, ids rising.
    Released,
    /// The advice of this member was forwarded and is no longer stored.
    Acked {
        id: u64,
        place: usize,
    },
    /// A breakpoint was set on the participant: its calls are held.
    Broke {
        participant: usize,
    },
    /// The participant's breakpoint was cleared.
    Cleared {
        participant: usize,
    },
    /// The held call of the session was let go.
    LetGo {
        session: usize,
    },
    /// A journalled transaction had nobody to notify.
    Closed {
        id: u64,
    },
}

// Written out, so that no caller proves again how its parts are dropped.
impl Drop for Event {
    fn drop(self) {
        match self {
            Event::Offered { context: _context } => {}
            Event::Taken { session: _session } => {}
            Event::Answered {
                session: _session,
                byte: _byte,
                context: _context,
            } => {}
            Event::Chose {
                session: _session,
                text: _text,
            } => {}
            Event::Told {
                session: _session,
                advice: _advice,
            } => {}
            Event::Recovered {
                session: _session,
                context: _context,
            } => {}
            Event::Released => {}
            Event::Acked {
                id: _id,
                place: _place,
            } => {}
            Event::Broke {
                participant: _participant,
            } => {}
            Event::Cleared {
                participant: _participant,
            } => {}
            Event::LetGo { session: _session } => {}
            Event::Closed { id: _id } => {}
        }
    }
}

/// What an entry changes in the journal: each part that is given replaces what the journal has.
pub struct Change {
    pub next_id: Option<u64>,
    /// The row under an id, or that there is none.
    pub row: Option<(u64, Option<Row>)>,
    /// The context that is put on the shelf, under the transaction's id.
    pub shelved: Option<(u64, WaitingContext)>,
    /// The shelf is emptied first.
    pub emptied: bool,
    /// The advice under a member's place (id, place), or that there is none.
    pub advice: Option<((u64, usize), Option<Bytes>)>,
}

// Written out, so that no caller proves again how its parts are dropped.
impl Drop for Change {
    fn drop(self) {
        let Change {
            next_id: _,
            row: _,
            shelved: _,
            emptied: _,
            advice: _,
        } = self;
    }
}

/// An entry of the history, numbered from 1 at each opening and each cut.
pub struct Entry {
    pub number: usize,
    pub event: Event,
    pub change: Change,
}

// Written out, so that no caller proves again how its parts are dropped.
impl Drop for Entry {
    fn drop(self) {
        let Entry {
            number: _,
            event: _,
            change: _,
        } = self;
    }
}
