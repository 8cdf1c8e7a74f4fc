//! The history's entries and the queue, with memory reserved for offers that are made later.

ghost use Rattle.std.specs.Prelude.{◌≡◌, ◌+◌, ◌-◌, ◌++◌, ◌∷◌, [], ◌≤◌, ◌<◌, ℕ, IfOk, OnErr, OnOk};
ghost use Rattle.std.specs.Prelude.{drop, map, vec_len, vec_capacity};
ghost use Rattle.std.specs.VecDeque.{deque_len, deque_capacity};
ghost use Rattle.std.specs.BTreeMap.{btree_map_len};
ghost use Rattle.tx_history.specs.declared.journal.WaitingContext.{WaitingContext as Waits};

use std::alloc::{AllocError, Global};
use std::collections::{BTreeMap, VecDeque};
use tx_history::{Entry, WaitingContext};

/// The entries and the queue. An offer adds to both.
pub struct Lists {
    /// Oldest first.
    pub entries: Vec<Entry>,
    /// First in, first out.
    pub queue: VecDeque<WaitingContext>,
    /// For how many offers both have memory.
    pub reserved: usize,
    ghost entries_fit: { vec_len entries + reserved ≤ vec_capacity entries },
    ghost queue_fits: { deque_len queue + reserved ≤ deque_capacity queue },
}

// Written out, so that no caller proves again how its parts are dropped.
impl Drop for Lists {
    fn drop(self) {
        let Lists {
            entries: _,
            queue: _,
            reserved: _,
        } = self;
    }
}

// Room for `reserved` offers and for `more`.
fn beside(reserved: usize, more: usize) -> Result<usize, AllocError>
    ensures { IfOk result (λ places. places ≡ reserved + more) }
{
    match reserved.checked_add(more) {
        Some(places) => Ok(places),
        None => Err(AllocError),
    }
}

impl Lists {
    /// These entries, and an empty queue.
    pub fn new(alloc: Global, entries: Vec<Entry>) -> Lists
        ensures entries { result.entries.items ≡ entries.items }
        ensures queue { result.queue.items ≡ [] }
        ensures reserved { result.reserved ≡ 0 }
    {
        Lists {
            entries,
            queue: VecDeque::new(alloc),
            reserved: 0,
        }
    }

    /// Reserves memory for one more offer.
    pub fn reserve_offer(&mut self) -> Result<(), AllocError>
        ensures entries { self.new.entries.items ≡ self.old.entries.items }
        ensures queue { self.new.queue.items ≡ self.old.queue.items }
        ensures reserved { OnOk result (self.new.reserved ≡ self.old.reserved + 1) }
        ensures kept { OnErr result (self.new.reserved ≡ self.old.reserved) }
    {
        let places = beside(self.reserved, 1)?;
        self.entries.try_reserve(places)?;
        self.queue.try_reserve(places)?;
        self.reserved = places;
        Ok(())
    }

    /// Makes the memory reserved for one offer free for other entries again.
    pub fn unreserve_offer(&mut self)
        requires { 1 ≤ self.old.reserved }
        ensures entries { self.new.entries.items ≡ self.old.entries.items }
        ensures queue { self.new.queue.items ≡ self.old.queue.items }
        ensures reserved { self.new.reserved ≡ self.old.reserved - 1 }
    {
        self.reserved -= 1;
    }

    /// Adds an offer, in reserved memory.
    pub fn push_offer(&mut self, entry: Entry, waiting: WaitingContext)
        requires { 1 ≤ self.old.reserved }
        ensures entries { self.new.entries.items ≡ self.old.entries.items ++ entry ∷ [] }
        ensures queue { self.new.queue.items ≡ self.old.queue.items ++ waiting ∷ [] }
        ensures reserved { self.new.reserved ≡ self.old.reserved - 1 }
    {
        self.reserved -= 1;
        self.entries.push_reserved(entry);
        self.queue.push_back_reserved(waiting);
    }

    /// Makes sure that there is memory for an entry that is not an offer.
    pub fn reserve_entry(&mut self) -> Result<(), AllocError>
        ensures entries { self.new.entries.items ≡ self.old.entries.items }
        ensures queue { self.new.queue.items ≡ self.old.queue.items }
        ensures reserved { self.new.reserved ≡ self.old.reserved }
        ensures fits { OnOk result (vec_len self.new.entries + self.new.reserved
            < vec_capacity self.new.entries) }
    {
        let places = beside(self.reserved, 1)?;
        self.entries.try_reserve(places)
    }

    /// Adds an entry for which there is memory.
    pub fn push_reserved(&mut self, entry: Entry)
        requires { vec_len self.old.entries + self.old.reserved < vec_capacity self.old.entries }
        ensures entries { self.new.entries.items ≡ self.old.entries.items ++ entry ∷ [] }
        ensures queue { self.new.queue.items ≡ self.old.queue.items }
        ensures reserved { self.new.reserved ≡ self.old.reserved }
    {
        self.entries.push_reserved(entry);
    }

    /// Adds an entry that is not an offer.
    pub fn push(&mut self, entry: Entry) -> Result<(), AllocError>
        ensures entries { OnOk result (self.new.entries.items
            ≡ self.old.entries.items ++ entry ∷ []) }
        ensures kept { OnErr result (self.new.entries.items ≡ self.old.entries.items) }
        ensures queue { self.new.queue.items ≡ self.old.queue.items }
        ensures reserved { self.new.reserved ≡ self.old.reserved }
    {
        self.reserve_entry()?;
        self.push_reserved(entry);
        Ok(())
    }

    /// Takes the first context out of the queue.
    pub fn pop_first(&mut self)
        ensures entries { self.new.entries.items ≡ self.old.entries.items }
        ensures queue { self.new.queue.items ≡ drop 1 self.old.queue.items }
        ensures reserved { self.new.reserved ≡ self.old.reserved }
    {
        self.queue.pop_front();
    }

    /// Adds the entry of a release, and moves all of the shelf to the end of the queue.
    pub fn release(
        &mut self,
        shelf: &mut BTreeMap<u64, WaitingContext>,
        entry: Entry,
    ) -> Result<(), AllocError>
        ensures entries { OnOk result (self.new.entries.items
            ≡ self.old.entries.items ++ entry ∷ []) }
        ensures queue { OnOk result (self.new.queue.items
            ≡ self.old.queue.items ++ map (λ (item : ℕ × Waits). item.1) shelf.old.entries) }
        ensures shelf { OnOk result (shelf.new.entries ≡ []) }
        ensures entries_kept { OnErr result (self.new.entries.items ≡ self.old.entries.items) }
        ensures queue_kept { OnErr result (self.new.queue.items ≡ self.old.queue.items) }
        ensures shelf_kept { OnErr result (shelf.new.entries ≡ shelf.old.entries) }
        ensures reserved { self.new.reserved ≡ self.old.reserved }
    {
        let places = beside(self.reserved, shelf.len())?;
        self.reserve_entry()?;
        self.queue.try_reserve(places)?;
        self.entries.push_reserved(entry);
        move_all(shelf, &mut self.queue);
        Ok(())
    }

    /// Removes all entries, and keeps no memory reserved. The queue stays.
    pub fn clear_entries(&mut self, alloc: Global)
        ensures entries { self.new.entries.items ≡ [] }
        ensures queue { self.new.queue.items ≡ self.old.queue.items }
        ensures reserved { self.new.reserved ≡ 0 }
    {
        self.reserved = 0;
        self.entries = Vec::new(alloc);
    }
}

// Moves all of a shelf to the end of a queue that has room.
fn move_all(shelf: &mut BTreeMap<u64, WaitingContext>, queue: &mut VecDeque<WaitingContext>)
    requires { deque_len queue.old + btree_map_len shelf.old ≤ deque_capacity queue.old }
    ensures queue { queue.new.items
        ≡ queue.old.items ++ map (λ (item : ℕ × Waits). item.1) shelf.old.entries }
    ensures shelf { shelf.new.entries ≡ [] }
    ensures len { deque_len queue.new ≤ deque_len queue.old + btree_map_len shelf.old }
    ensures capacity { deque_capacity queue.new ≡ deque_capacity queue.old }
{
    while let Some((_, waiting)) = shelf.pop_first() {
        queue.push_back_reserved(waiting);
    }
}
