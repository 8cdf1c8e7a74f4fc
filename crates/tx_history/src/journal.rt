//! What a journal holds.

ghost use Rattle.std.specs.Prelude.{◌≡◌, []};
ghost use Rattle.tx_history.specs.Views.{IsOk};

use std::alloc::Global;
use sw_participant::{Bytes, Sequence, Text};
use tx_machine::Phase;

/// A context that waits in the queue or on the shelf.
pub struct WaitingContext {
    /// How often it may be tried again after its next try; at most 100.
    pub tries: u8,
    /// The context, as bytes.
    pub context: Bytes,
}

// Written out, so that no caller proves again how its parts are dropped.
impl Drop for WaitingContext {
    fn drop(self) {
        let WaitingContext {
            tries: _,
            context: _,
        } = self;
    }
}

/// The journal's row of an unfinished transaction; it has participants by name.
pub struct Row {
    pub phase: Phase,
    /// The members, in the order of joining and once per joining; at most 1,001.
    pub joined: Sequence<Text>,
    /// How many of them were notified of the outcome.
    pub told: usize,
    /// The participant of a preparation that was due: it may have been called.
    pub doing: Option<Text>,
    /// How many tries are left after this one; at most 100.
    pub tries: u8,
    /// The saved context, as bytes.
    pub context: Bytes,
}

// Written out, so that no caller proves again how its parts are dropped.
impl Drop for Row {
    fn drop(self) {
        let Row {
            phase: _,
            joined: _,
            told: _,
            doing: _,
            tries: _,
            context: _,
        } = self;
    }
}

/// What a journal holds.
pub struct JournalView {
    /// The id of the next take, from 1; 2^63 - 1 if all ids are spent.
    pub next_id: u64,
    /// The unfinished transactions under their ids, which rise.
    pub rows: Sequence<(u64, Row)>,
    /// The contexts of aborted transactions that wait to be tried again, under ids that rise.
    pub shelf: Sequence<(u64, WaitingContext)>,
    /// The advices that were not acknowledged, each under a transaction's id and the number of the
    /// member that gave it, from 0. These places rise.
    pub advices: Sequence<((u64, usize), Bytes)>,
}

// Written out, so that no caller proves again how its parts are dropped.
impl Drop for JournalView {
    fn drop(self) {
        let JournalView {
            next_id: _,
            rows: _,
            shelf: _,
            advices: _,
        } = self;
    }
}

impl JournalView {
    /// An empty journal, whose next id is 1. It takes no memory.
    pub fn blank(alloc: Global) -> JournalView
        ensures is { result ≡ record { next_id = 1; rows = []; shelf = []; advices = [] } }
        ensures ok { IsOk result }
    {
        JournalView {
            next_id: 1,
            rows: Sequence::new(Vec::new(alloc)),
            shelf: Sequence::new(Vec::new(alloc)),
            advices: Sequence::new(Vec::new(alloc)),
        }
    }
}
