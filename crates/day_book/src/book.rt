//! The items of all cards, by day.

ghost use Rattle.std.specs.Prelude.{◌≡◌, ◌+◌, ◌<◌, ◌≤◌, None, Some, [], false, length};
ghost use Rattle.std.specs.List.Sorted.{IsStrictlySortedBy};
ghost use Rattle.std.specs.Map.{keys_of};
ghost use Rattle.std.specs.Ordering.{nat_cmp};
ghost use Rattle.std.specs.Prelude.{IfOk, OnOk, OnErr, IfErr, IsOk};
ghost use Rattle.day_book.specs.declared.error.DayBookError.TheVariants.{BadLimit, OutOfMemory};
ghost use Rattle.day_book.specs.declared.item.State.TheVariants.{Open};
ghost use Rattle.day_book.specs.Most.{max_limit};
ghost use Rattle.day_book.specs.Items.{used, reserved, card_day, is_open, is_open_in, is_used_in};
ghost use Rattle.day_book.specs.Items.{item_at, newest, with_items};
ghost use Rattle.day_book.specs.Changes.{with_item, in_its_place, in_state};
ghost use Rattle.day_book.specs.Changes.{settled, released, reversed, forgotten, is_first_past};
ghost use Rattle.day_book.specs.Taking.{refusal, restoring_refusal, IsRefusal, is_repeat, is_held};
ghost use Rattle.day_book.specs.Kept.{Changes, IsTotals, Takes};

use crate::error::DayBookError;
use crate::item::{CardDay, DayItem, RequestDay, State, Totals};
use crate::parts::{
    add, drop_newest, held_of, is_open, replace_item, set_totals, spent_of, totals_of,
};
use std::alloc::Global;
use std::collections::{BTreeMap, HashMap};
use std::marker::Model;

/// The greatest limit: 15 digits.
pub const MAX_LIMIT: u64 = 999_999_999_999_999;

/// The greatest amount: the 12 digits of field 4.
pub const MAX_AMOUNT: u64 = 999_999_999_999;

/// The greatest sum of a card's amounts on a day: 2^63 - 1.
pub const MAX_SUM: u64 = 9_223_372_036_854_775_807;

/// The items of all cards, under one limit that holds for each card on each day. Contracts see the
/// limit, and the items under their ids, which rise.
pub struct DayBook {
    limit: u64,
    items: BTreeMap<u64, DayItem>,
    newest: HashMap<RequestDay, u64>,
    totals: HashMap<CardDay, Totals>,
}

// Written out, so that no caller proves again how its parts are dropped.
impl Drop for DayBook {
    fn drop(self) {
        let DayBook {
            limit: _,
            items: _,
            newest: _,
            totals: _,
        } = self;
    }
}

impl Model for DayBook {
    ghost use Rattle.std.specs.HashMap.{get};
    ghost use Rattle.day_book.specs.Items.{PlainDays, request_eq, card_eq};
    ghost use Rattle.day_book.specs.Kept.{IsDayBook};

    ghost Value = { PlainDays };

    ghost view = { λ b. record { limit = b.limit; items = b.items.entries } };

    ghost invariant = { λ b.
        IsDayBook b.limit b.items.entries (get request_eq b.newest) (get card_eq b.totals) };
}

impl DayBook {
    /// A book without items. It takes no memory: `alloc` is where items will go. The only refusal
    /// is `BadLimit`, of a limit over 999,999,999,999,999.
    pub fn new(alloc: Global, limit: u64) -> Result<DayBook, DayBookError>
        ensures book { IfOk result (λ b. b ≡ record { limit = limit; items = [] }) }
        ensures accepted { limit ≤ max_limit → IsOk result }
        ensures refused { IfErr result (λ e. (e ≡ BadLimit) × (max_limit < limit)) }
    {
        if limit > MAX_LIMIT {
            return Err(DayBookError::BadLimit);
        }
        Ok(DayBook {
            limit,
            items: BTreeMap::new(alloc),
            newest: HashMap::new(alloc),
            totals: HashMap::new(alloc),
        })
    }

    /// How many items there are. Their ids rise.
    pub fn len(&self) -> usize
        ensures len { result ≡ length self.now.items }
        ensures rising { IsStrictlySortedBy nat_cmp (keys_of self.now.items) }
    {
        self.items.len()
    }

    /// What the card has spent on the day.
    pub fn used(&self, card: &CardDay) -> u64
        ensures value { result ≡ used card.now self.now.items }
    {
        totals_of(&self.totals, card).used
    }

    /// What is held for the card on the day.
    pub fn reserved(&self, card: &CardDay) -> u64
        ensures value { result ≡ reserved card.now self.now.items }
    {
        totals_of(&self.totals, card).reserved
    }

    /// The item under an id.
    pub fn item(&self, id: u64) -> Option<DayItem>
        ensures { result ≡ item_at id self.now.items }
    {
        match self.items.get(&id) {
            Some(found) => Some(*found),
            None => None,
        }
    }

    /// Of the items of a request on a day, the id of the one with the greatest id.
    pub fn newest(&self, request: &RequestDay) -> Option<u64>
        ensures { result ≡ newest request.now self.now.items }
    {
        match self.newest.get(request) {
            Some(found) => Some(*found),
            None => None,
        }
    }

    // Whether the book has the item's request, on its day or on the day before.
    fn is_repeat(&self, item: &DayItem) -> bool
        ensures { result ≡ is_repeat item.now self.now.items }
    {
        let before = RequestDay {
            request: item.request,
            day: item.day.saturating_sub(1),
        };
        self.newest(&item.request_day()).is_some() || self.newest(&before).is_some()
    }

    // Whether an open item has the item's request, on its day.
    fn is_held(&self, item: &DayItem) -> bool
        ensures { result ≡ is_held item.now self.now.items }
    {
        let Some(id) = self.newest(&item.request_day()) else {
            return false;
        };
        match self.item(id) {
            Some(found) => is_open(&found),
            None => false,
        }
    }

    /// Holds an amount of a card for a transaction, under the transaction's id. The refusals, in
    /// this order: `AmountTooLarge` over 999,999,999,999; `Duplicate`, if the book has the id, or the
    /// request on the item's day or on the day before; `OverLimit`; `OutOfMemory`. Items of other days
    /// count neither for the limit nor, but for the day before, as duplicates.
    pub fn reserve(&mut self, id: u64, item: DayItem) -> Result<(), DayBookError>
        requires open { item.state ≡ Open }
        ensures held { OnOk result (self.new
            ≡ with_items self.old (with_item id item self.old.items)) }
        ensures taken { OnOk result (refusal self.old id item ≡ None) }
        ensures within { OnOk result (used (card_day item) self.new.items
            + reserved (card_day item) self.new.items ≤ self.new.limit) }
        ensures refused { IfErr result (λ e. IsRefusal e (refusal self.old id item)) }
        ensures kept { OnErr result (self.new ≡ self.old) }
    {
        if item.amount > MAX_AMOUNT {
            return Err(DayBookError::AmountTooLarge);
        }
        if self.items.contains_key(&id) || self.is_repeat(&item) {
            return Err(DayBookError::Duplicate);
        }
        let totals = totals_of(&self.totals, &item.card_day());
        if totals.used + totals.reserved + item.amount > self.limit {
            return Err(DayBookError::OverLimit);
        }
        self.take(id, item, totals)
    }

    /// Takes in a used or a reversed item that was made before: one of a file, or of a recovered
    /// transaction. The limit is not asked, so the card may be over it. The refusals, in this order:
    /// `AmountTooLarge` over 999,999,999,999; `Duplicate`, if the book has the id, or an open item has
    /// the request on the item's day; `SumTooLarge`, if the card's sum of the day would be over 2^63 - 1;
    /// `OutOfMemory`.
    pub fn restore(&mut self, id: u64, item: DayItem) -> Result<(), DayBookError>
        requires closed { is_open item.state ≡ false }
        ensures put { OnOk result (self.new
            ≡ with_items self.old (with_item id item self.old.items)) }
        ensures taken { OnOk result (restoring_refusal self.old id item ≡ None) }
        ensures refused { IfErr result (λ e. IsRefusal e (restoring_refusal self.old id item)) }
        ensures kept { OnErr result (self.new ≡ self.old) }
    {
        if item.amount > MAX_AMOUNT {
            return Err(DayBookError::AmountTooLarge);
        }
        if self.items.contains_key(&id) || self.is_held(&item) {
            return Err(DayBookError::Duplicate);
        }
        let totals = totals_of(&self.totals, &item.card_day());
        if totals.used + totals.reserved + spent_of(&item) > MAX_SUM {
            return Err(DayBookError::SumTooLarge);
        }
        self.take(id, item, totals)
    }

    // Puts an item under an id that is free, where these are the sums of its card.
    fn take(&mut self, id: u64, item: DayItem, totals: Totals) -> Result<(), DayBookError>
        requires sums { IsTotals totals (card_day item) self.old.items }
        requires takes { Takes id item self.old.items }
        ensures put { OnOk result (self.new
            ≡ with_items self.old (with_item id item self.old.items)) }
        ensures refused { IfErr result (λ e. e ≡ OutOfMemory) }
        ensures kept { OnErr result (self.new ≡ self.old) }
    {
        let sums = Totals {
            used: totals.used + spent_of(&item),
            reserved: totals.reserved + held_of(&item),
        };
        let added = add(
            &mut self.items,
            &mut self.newest,
            &mut self.totals,
            id,
            item,
            sums,
        );
        let Ok(()) = added else {
            return Err(DayBookError::OutOfMemory);
        };
        Ok(())
    }

    /// Spends what is held under the id. Returns whether anything was held; it takes no memory.
    pub fn settle(&mut self, id: u64) -> bool
        ensures changed { result ≡ is_open_in id self.old.items }
        ensures settled { self.new ≡ with_items self.old (settled id self.old.items) }
    {
        let Some(item) = self.item(id) else {
            return false;
        };
        let State::Open = item.state else {
            return false;
        };
        self.change(id, item, State::Used);
        true
    }

    // Puts the item under an id into a state, which is not open, and adds no more to the sums.
    fn change(&mut self, id: u64, item: DayItem, state: State)
        requires there { item_at id self.old.items ≡ Some item }
        requires changes { Changes item (in_state state item) }
        ensures { self.new ≡ with_items self.old
            (in_its_place id (in_state state item) self.old.items) }
    {
        let card = item.card_day();
        let totals = totals_of(&self.totals, &card);
        let changed = DayItem { state, ..item };
        let sums = Totals {
            used: totals.used - spent_of(&item) + spent_of(&changed),
            reserved: totals.reserved - held_of(&item),
        };
        replace_item(&mut self.items, id, changed);
        set_totals(&mut self.totals, card, sums);
    }

    /// Frees what is held under the id: the item leaves, and its request is unknown again. Returns
    /// whether anything was held; it takes no memory.
    pub fn release(&mut self, id: u64) -> bool
        ensures changed { result ≡ is_open_in id self.old.items }
        ensures released { self.new ≡ with_items self.old (released id self.old.items) }
    {
        let Some(item) = self.item(id) else {
            return false;
        };
        let State::Open = item.state else {
            return false;
        };
        let card = item.card_day();
        let totals = totals_of(&self.totals, &card);
        let sums = Totals {
            used: totals.used,
            reserved: totals.reserved - held_of(&item),
        };
        let _ = self.items.remove(&id);
        let _ = self.newest.remove(&item.request_day());
        set_totals(&mut self.totals, card, sums);
        true
    }

    /// Gives back what was spent under the id; the request stays known. Returns whether anything
    /// was spent, so the same reversal returns `false` the second time; it takes no memory.
    pub fn reverse(&mut self, id: u64) -> bool
        ensures changed { result ≡ is_used_in id self.old.items }
        ensures reversed { self.new ≡ with_items self.old (reversed id self.old.items) }
    {
        let Some(item) = self.item(id) else {
            return false;
        };
        let State::Used = item.state else {
            return false;
        };
        self.change(id, item, State::Reversed);
        true
    }

    /// Forgets the item with the least id, if its day is before the given one and it is not open.
    /// Returns whether it did; it takes no memory.
    pub fn forget(&mut self, before: u32) -> bool
        ensures changed { result ≡ is_first_past before self.old.items }
        ensures forgotten { self.new
            ≡ with_items self.old (forgotten before self.old.items) }
    {
        let Some((_, first)) = self.items.first_key_value() else {
            return false;
        };
        if first.day >= before || is_open(first) {
            return false;
        }
        let Some((id, item)) = self.items.pop_first() else {
            unreachable!()
        };
        let card = item.card_day();
        let totals = totals_of(&self.totals, &card);
        let sums = Totals {
            used: totals.used - spent_of(&item),
            reserved: totals.reserved,
        };
        drop_newest(&mut self.newest, &item.request_day(), id);
        set_totals(&mut self.totals, card, sums);
        true
    }
}
