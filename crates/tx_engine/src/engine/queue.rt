//! The queue and the shelf: offers, takes and releases.

ghost use Rattle.std.specs.Prelude.{◌≡◌, ◌+◌, ◌-◌, ◌≤◌, true, false, ◌<◌, Some, None, MatchResult};
ghost use Rattle.sw_base.specs.Refusals.{Accepts};
ghost use Rattle.sw_context.specs.Spelling.{bytes_of};
ghost use Rattle.tx_engine.specs.World.{Recorded};
ghost use Rattle.tx_engine.specs.Calls.{IsFirst, Takes, is_full, offer_refusal, reserve_refusal};
ghost use Rattle.tx_engine.specs.Calls.{spare_of, take_refusal, with_reserved};

use super::{Engine, LAST_ID, MOST_ENTRIES};
use crate::error::EngineError;
use crate::offer::{Offer, context_of};
use std::alloc::Global;
use sw_context::Context;
use tx_history::{Change, Entry, Event, Row, WaitingContext};
use tx_machine::Machine;
use tx_slots::{is_holding, no_change, row_of, slot_for};

/// A transaction as it is taken: contracts see its context's entries.
#[derive(Drop)]
pub struct TakenTx {
    /// The number of the entry.
    pub number: usize,
    /// The transaction's id.
    pub id: u64,
    pub context: Context,
}

impl Engine {
    // Refuses if the history is full.
    pub(super) fn allow_entry(&self) -> Result<(), EngineError>
        ensures { MatchResult result
            (λ _. offer_refusal self.now ≡ None)
            (λ e. offer_refusal self.now ≡ Some e) }
    {
        if self.lists.entries.len() < MOST_ENTRIES {
            Ok(())
        } else {
            Err(EngineError::HistoryFull)
        }
    }

    /// Puts a context at the end of the queue, with the flow's retries as tries left, and answers
    /// the entry's number. Refuses `HistoryFull`.
    pub fn offer(&mut self, context: &Context) -> Result<usize, EngineError>
        ensures { Accepts EngineError.OutOfMemory (offer_refusal self.old) result
            (λ n. Recorded self.old (Event.Offered (bytes_of context.now)) n self.new)
            (self.new ≡ self.old) }
    {
        self.allow_entry()?;
        let offer = Offer::new(context)?;
        self.lists.reserve_offer()?;
        Ok(self.offer_reserved(offer))
    }

    // Refuses if memory is reserved for as many offers as the history has entries left.
    fn allow_reserve(&self) -> Result<(), EngineError>
        ensures { MatchResult result
            (λ _. reserve_refusal self.now ≡ None)
            (λ e. reserve_refusal self.now ≡ Some e) }
    {
        if self.lists.entries.len() + self.lists.reserved < MOST_ENTRIES {
            Ok(())
        } else {
            Err(EngineError::HistoryFull)
        }
    }

    /// Reserves memory for one more offer, to be made by `offer_reserved`. The history does not
    /// change. Refuses `HistoryFull` if memory is already reserved for as many offers as the history
    /// has entries left.
    pub fn reserve_offer(&mut self) -> Result<(), EngineError>
        ensures { Accepts EngineError.OutOfMemory (reserve_refusal self.old) result
            (λ _. self.new ≡ with_reserved self.old (self.old.reserved + 1))
            (self.new ≡ self.old) }
    {
        self.allow_reserve()?;
        self.lists.reserve_offer()?;
        Ok(())
    }

    /// Cancels the reservation of memory for one offer. The history does not change.
    pub fn unreserve_offer(&mut self)
        requires { 1 ≤ self.old.reserved }
        ensures { self.new ≡ with_reserved self.old (self.old.reserved - 1) }
    {
        self.lists.unreserve_offer();
    }

    /// How many offers can be made by `offer_reserved`. Other calls leave the memory reserved, but
    /// each entry that they add is one fewer that the history has left.
    pub fn spare(&self) -> usize
        ensures { result ≡ spare_of self.now }
    {
        self.lists
            .reserved
            .min(MOST_ENTRIES.saturating_sub(self.lists.entries.len()))
    }

    /// Puts a context at the end of the queue, as `offer` does, but in reserved memory, so that it
    /// cannot be refused. Answers the entry's number.
    pub fn offer_reserved(&mut self, offer: Offer) -> usize
        requires { 1 ≤ spare_of self.old }
        ensures { Recorded (with_reserved self.old (self.old.reserved - 1)) (Event.Offered offer)
            result self.new }
    {
        let number = self.lists.entries.len() + 1;
        let (event, waiting) = offer.into_parts();
        let entry = Entry {
            number,
            event: Event::Offered { context: event },
            change: no_change(),
        };
        let waiting = WaitingContext {
            tries: self.code.retries(),
            context: waiting,
        };
        self.lists.push_offer(entry, waiting);
        number
    }
}

impl Engine {
    /// Whether the history is full: it has 1,048,576 entries.
    pub fn is_full(&self) -> bool
        ensures { result ≡ is_full self.now }
    {
        self.lists.entries.len() >= MOST_ENTRIES
    }

    // The queue's first context, if the session may take it.
    fn allow_take(&self, s: usize) -> Result<&WaitingContext, EngineError>
        ensures { MatchResult result
            (λ w. IsFirst self.now s w.now)
            (λ e. take_refusal self.now s ≡ Some e) }
    {
        if s >= self.slots.len() {
            return Err(EngineError::NoSession);
        }
        if self.recovering {
            return Err(EngineError::Recovering);
        }
        if is_holding(&self.slots[s]) {
            return Err(EngineError::Busy);
        }
        let Some(first) = self.lists.queue.front() else {
            return Err(EngineError::Empty);
        };
        if self.next_id == LAST_ID {
            return Err(EngineError::IdsSpent);
        }
        if self.is_full() {
            return Err(EngineError::HistoryFull);
        }
        Ok(first)
    }

    /// The session takes the queue's first context as a transaction, under the next id. Refuses, in
    /// this order, `NoSession`, `Recovering`, `Busy`, `Empty`, `IdsSpent` and `HistoryFull`.
    pub fn take(&mut self, alloc: Global, s: usize) -> Result<TakenTx, EngineError>
        ensures { Accepts EngineError.OutOfMemory (take_refusal self.old s) result
            (λ t. Takes self.old s t self.new)
            (self.new ≡ self.old) }
    {
        let first = self.allow_take(s)?;
        let tries = first.tries;
        let context = context_of(alloc, first.context.as_slice())?;
        let saved = first.context.copy()?;
        let machine = Machine::start(alloc, &self.code, tries, saved.into_vec());
        let id = self.next_id;
        let number = self.lists.entries.len() + 1;
        let row = row_of(alloc, &self.code, &machine)?;
        self.lists.push(Entry {
            number,
            event: Event::Taken { session: s },
            change: taken_change(id, row),
        })?;
        self.lists.pop_first();
        self.next_id = id + 1;
        self.slots[s] = slot_for(&self.code, id, machine, number);
        Ok(TakenTx {
            number,
            id,
            context,
        })
    }

    /// Moves the whole shelf to the end of the queue, ids rising, and answers the entry's number.
    /// An empty shelf is released too. Refuses `HistoryFull`.
    pub fn release(&mut self) -> Result<usize, EngineError>
        ensures { Accepts EngineError.OutOfMemory (offer_refusal self.old) result
            (λ n. Recorded self.old Event.Released n self.new)
            (self.new ≡ self.old) }
    {
        self.allow_entry()?;
        let number = self.lists.entries.len() + 1;
        let entry = Entry {
            number,
            event: Event::Released,
            change: emptied_shelf(),
        };
        self.lists.release(&mut self.shelf, entry)?;
        Ok(number)
    }
}

// The change of a take under this id.
fn taken_change(id: u64, row: Option<Row>) -> Change
    requires { id < 9223372036854775807 }
    ensures { result ≡ record {
      next_id = Some (id + 1);
      row = Some (id, row);
      shelved = None;
      emptied = false;
      advice = None;
    } }
{
    Change {
        next_id: Some(id + 1),
        row: Some((id, row)),
        shelved: None,
        emptied: false,
        advice: None,
    }
}

// The change of a release.
fn emptied_shelf() -> Change
    ensures { result ≡ record {
      next_id = None;
      row = None;
      shelved = None;
      emptied = true;
      advice = None;
    } }
{
    Change {
        next_id: None,
        row: None,
        shelved: None,
        emptied: true,
        advice: None,
    }
}
