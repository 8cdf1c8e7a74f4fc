//! Cuts: a history begins anew from what is written, without a stop.

ghost use Rattle.std.specs.Prelude.{◌≡◌, [], IfOk, MatchResult, None, OnOk, Some, filter, length};
ghost use Rattle.std.specs.List.{list_any, range_with_len};
ghost use Rattle.sw_base.specs.Refusals.{Accepts};
ghost use Rattle.tx_engine.specs.Cuts.{cut_refusal, cut_world, is_in_use};
ghost use Rattle.tx_slots.specs.Slots.{flag, is_holding};

use super::Engine;
use crate::error::EngineError;
use std::alloc::{AllocError, Global};
use std::collections::{BTreeMap, VecDeque};
use sw_participant::{Bytes, Sequence};
use tx_history::{JournalView, WaitingContext};
use tx_slots::{Slot, is_holding};

impl Engine {
    /// Whether a session holds a transaction; a recovered one counts too.
    pub fn is_in_use(&self) -> bool
        ensures { result ≡ is_in_use self.now }
    {
        any_holding(self.slots.as_slice())
    }

    // Whether the history may be cut.
    fn allow_cut(&self) -> Result<(), EngineError>
        ensures { MatchResult result
            (λ _. cut_refusal self.now ≡ None)
            (λ e. cut_refusal self.now ≡ Some e) }
    {
        if self.is_in_use() {
            return Err(EngineError::InUse);
        }
        if self.mark < self.lists.entries.len() {
            return Err(EngineError::NotWritten);
        }
        Ok(())
    }

    /// Begins the history anew, without entries, from the journal as it is now: that is what `opened`
    /// gives from then on, and it has no unfinished transaction. Queue, shelf, advices, breakpoints
    /// and next id stay; no offer has reserved memory any more. Refuses, in this order, `InUse` while
    /// a session holds a transaction, and `NotWritten` while an entry is above the mark.
    pub fn cut(&mut self, alloc: Global) -> Result<(), EngineError>
        ensures cut { Accepts EngineError.OutOfMemory (cut_refusal self.old) result
            (λ _. self.new ≡ cut_world self.old)
            (self.new ≡ self.old) }
        ensures finished { OnOk result (self.new.start.view.rows ≡ []) }
    {
        self.allow_cut()?;
        let view = view_of(alloc, self.next_id, &self.shelf, &self.advices)?;
        let queue = queue_items(alloc, &self.lists.queue)?;
        let breaks = set_numbers(alloc, self.breaks.as_slice())?;
        self.first = view;
        self.first_queue = Sequence::new(queue);
        self.first_breaks = Sequence::new(breaks);
        self.lists.clear_entries(alloc);
        self.mark = 0;
        self.restored = false;
        self.recovering = false;
        Ok(())
    }
}

// Whether a session holds a transaction, by its slot.
fn any_holding(slots: &[Slot]) -> bool
    ensures { result ≡ list_any is_holding slots.now }
{
    slots.iter().any(|slot| is_holding(slot))
}

// A view without rows, of this shelf and these advices.
fn view_of(
    alloc: Global,
    next_id: u64,
    shelf: &BTreeMap<u64, WaitingContext>,
    advices: &BTreeMap<(u64, usize), Bytes>,
) -> Result<JournalView, AllocError>
    ensures { IfOk result (λ view. view ≡ record {
      next_id = next_id;
      rows = [];
      shelf = shelf.now.entries;
      advices = advices.now.entries;
    }) }
{
    Ok(JournalView {
        next_id,
        rows: Sequence::new(Vec::new(alloc)),
        shelf: Sequence::new(shelf_items(alloc, shelf)?),
        advices: Sequence::new(advice_items(alloc, advices)?),
    })
}

// A copy of the contexts on the shelf, under their ids.
fn shelf_items(
    alloc: Global,
    shelf: &BTreeMap<u64, WaitingContext>,
) -> Result<Vec<(u64, WaitingContext)>, AllocError>
    ensures { IfOk result (λ items. items.items ≡ shelf.now.entries) }
{
    let mut items = Vec::new(alloc);
    for (id, waiting) in shelf {
        items.push((*id, waiting.copy()?))?;
    }
    Ok(items)
}

// A copy of the advices, under their places.
fn advice_items(
    alloc: Global,
    advices: &BTreeMap<(u64, usize), Bytes>,
) -> Result<Vec<((u64, usize), Bytes)>, AllocError>
    ensures { IfOk result (λ items. items.items ≡ advices.now.entries) }
{
    let mut items = Vec::new(alloc);
    for (place, advice) in advices {
        items.push((*place, advice.copy()?))?;
    }
    Ok(items)
}

// A copy of the contexts that wait.
fn queue_items(
    alloc: Global,
    queue: &VecDeque<WaitingContext>,
) -> Result<Vec<WaitingContext>, AllocError>
    ensures { IfOk result (λ items. items.items ≡ queue.now.items) }
{
    let mut items = Vec::new(alloc);
    for waiting in queue {
        items.push(waiting.copy()?)?;
    }
    Ok(items)
}

// The numbers whose flag is set, rising.
fn set_numbers(alloc: Global, flags: &[bool]) -> Result<Vec<usize>, AllocError>
    ensures { IfOk result (λ numbers. numbers.items
        ≡ filter (flag flags.now) (range_with_len 0 (length flags.now))) }
{
    let mut numbers = Vec::new(alloc);
    for (number, set) in flags.iter().enumerate() {
        if *set {
            numbers.push(number)?;
        }
    }
    Ok(numbers)
}
