//! The engine, and what contracts see of it.

mod acks;
mod breaks;
mod cuts;
mod opening;
mod queries;
mod queue;
mod replies;
mod restores;

use crate::error::EngineError;
use flow_asm::Code;
pub use queue::TakenTx;
use std::collections::BTreeMap;
use std::marker::Model;
use sw_participant::{Bytes, Sequence};
use tx_history::{JournalView, WaitingContext};
use tx_slots::{Lists, Slot};

/// A transaction engine: sessions that take transactions from one queue. Contracts see its flow,
/// its number of sessions, what its history began from, the history, the written mark, and for how
/// many offers memory is reserved; all that it keeps besides is a function of these.
pub struct Engine {
    code: Code,
    // What the history began from.
    first: JournalView,
    first_queue: Sequence<WaitingContext>,
    first_breaks: Sequence<usize>,
    lists: Lists,
    mark: usize,
    slots: Vec<Slot>,
    shelf: BTreeMap<u64, WaitingContext>,
    advices: BTreeMap<(u64, usize), Bytes>,
    // Whether the participant of the number has a breakpoint.
    breaks: Vec<bool>,
    next_id: u64,
    // Whether the context was restored since the last outcome.
    restored: bool,
    // Whether a transaction of the journal is not finished.
    recovering: bool,
}

// Written out, so that no caller proves again how its parts are dropped.
impl Drop for Engine {
    fn drop(self) {
        let _code = self.into_code();
    }
}

impl Model for Engine {
    ghost use Rattle.std.specs.Prelude.{length};
    ghost use Rattle.tx_engine.specs.World.{World};

    ghost Value = { World };

    ghost use Rattle.tx_engine.specs.Kept.{Kept, world};

    ghost view = { λ e. world e.code (length e.slots.items)
        (record { view = e.first; queue = e.first_queue; breaks = e.first_breaks })
        e.lists.entries.items e.mark e.lists.reserved };

    ghost invariant = { λ e. Kept
        (world e.code (length e.slots.items)
        (record { view = e.first; queue = e.first_queue; breaks = e.first_breaks })
        e.lists.entries.items e.mark e.lists.reserved)
        e.lists.entries.items
        (record {
          slots = e.slots.items;
          queue = e.lists.queue.items;
          shelf = e.shelf.entries;
          advices = e.advices.entries;
          breaks = e.breaks.items;
          next_id = e.next_id;
          restored = e.restored;
          recovering = e.recovering;
        }) };
}

/// The greatest number of entries of a history.
const MOST_ENTRIES: usize = 1_048_576;

/// The next id with which all ids are spent: 2^63 - 1. No transaction has it.
const LAST_ID: u64 = 9_223_372_036_854_775_807;
