//! The items of all cards.

ghost use Rattle.std.specs.Prelude.{◌≡◌, ◌+◌, ◌<◌, ◌≤◌, None, [], nat_eq, if◌then◌else◌};
ghost use Rattle.std.specs.Prelude.{IfOk, OnOk, OnErr, IfErr, IsOk, IsSome};
ghost use Rattle.std.specs.Map.{set_value};
ghost use Rattle.std.specs.HashMap.{get, spare};
ghost use Rattle.sw_book.specs.declared.item.BookKey.{BookKey};
ghost use Rattle.sw_book.specs.declared.item.Card.{Card};
ghost use Rattle.sw_book.specs.declared.item.State.TheVariants.{Open};
ghost use Rattle.sw_book.specs.declared.error.BookError.TheVariants.{BadLimit};
ghost use Rattle.sw_book.specs.Most.{max_limit};
ghost use Rattle.sw_book.specs.Items.{used, reserved, key_eq, card_eq, is_open_in, is_used_in};
ghost use Rattle.sw_book.specs.Items.{item_at, with_item, with_items, in_its_place};
ghost use Rattle.sw_book.specs.Items.{settled, released, reversed};
ghost use Rattle.sw_book.specs.Items.{refusal, IsRefusal, totals_in, IsWithinLimit};

use crate::error::BookError;
use crate::item::{BookKey, Card, Item, State, Totals};
use std::alloc::{AllocError, Global};
use std::collections::{BTreeMap, HashMap};
use std::marker::Model;

/// The greatest limit: 15 digits.
pub const MAX_LIMIT: u64 = 999_999_999_999_999;

/// The greatest amount: the 12 digits of field 4.
pub const MAX_AMOUNT: u64 = 999_999_999_999;

/// The items of all cards, under one limit that holds for each card. Contracts see the limit, and
/// the items under their ids, which rise.
pub struct Book {
    limit: u64,
    items: BTreeMap<u64, Item>,
    ids: HashMap<BookKey, u64>,
    totals: HashMap<Card, Totals>,
}

// Written out, so that no caller proves again how its parts are dropped.
impl Drop for Book {
    fn drop(self) {
        let Book {
            limit: _,
            items: _,
            ids: _,
            totals: _,
        } = self;
    }
}

impl Model for Book {
    ghost use Rattle.std.specs.HashMap.{get};
    ghost use Rattle.sw_book.specs.Items.{PlainBook, key_eq, card_eq};
    ghost use Rattle.sw_book.specs.Kept.{IsBook};

    ghost Value = { PlainBook };

    ghost view = { λ b. record { limit = b.limit; items = b.items.entries } };

    ghost invariant = { λ b.
        IsBook b.limit b.items.entries (get key_eq b.ids) (get card_eq b.totals) };
}

impl Book {
    /// A book without items. It takes no memory: `alloc` is where items will go. The only refusal
    /// is `BadLimit`, of a limit over 999,999,999,999,999.
    pub fn new(alloc: Global, limit: u64) -> Result<Book, BookError>
        ensures book { IfOk result (λ b. b ≡ record { limit = limit; items = [] }) }
        ensures accepted { limit ≤ max_limit → IsOk result }
        ensures refused { IfErr result (λ e. (e ≡ BadLimit) × (max_limit < limit)) }
    {
        if limit > MAX_LIMIT {
            return Err(BookError::BadLimit);
        }
        Ok(Book {
            limit,
            items: BTreeMap::new(alloc),
            ids: HashMap::new(alloc),
            totals: HashMap::new(alloc),
        })
    }

    /// What the card has spent. Whatever calls were made, no card is over the limit.
    pub fn used(&self, card: &Card) -> u64
        ensures value { result ≡ used card.now self.now.items }
        ensures within { IsWithinLimit self.now }
    {
        totals_of(&self.totals, card).used
    }

    /// What is held for the card.
    pub fn reserved(&self, card: &Card) -> u64
        ensures value { result ≡ reserved card.now self.now.items }
        ensures within { IsWithinLimit self.now }
    {
        totals_of(&self.totals, card).reserved
    }

    /// Holds an amount of a card for a transaction, under the transaction's id and the request's
    /// key. The refusals, in this order: `AmountTooLarge` over 999,999,999,999, `Duplicate`,
    /// `OverLimit`, `OutOfMemory`.
    pub fn reserve(
        &mut self,
        id: u64,
        card: Card,
        key: BookKey,
        amount: u64,
    ) -> Result<(), BookError>
        ensures held { OnOk result (self.new ≡ with_items self.old (with_item id
            (record { card = card; key = key; amount = amount; state = Open }) self.old.items)) }
        ensures taken { OnOk result (refusal self.old id card key amount ≡ None) }
        ensures refused { IfErr result (λ e. IsRefusal e (refusal self.old id card key amount)) }
        ensures kept { OnErr result (self.new ≡ self.old) }
    {
        if amount > MAX_AMOUNT {
            return Err(BookError::AmountTooLarge);
        }
        if self.items.contains_key(&id) || self.ids.contains_key(&key) {
            return Err(BookError::Duplicate);
        }
        let totals = totals_of(&self.totals, &card);
        if totals.used + totals.reserved + amount > self.limit {
            return Err(BookError::OverLimit);
        }
        if room(&mut self.ids, &mut self.totals).is_err() {
            return Err(BookError::OutOfMemory);
        }
        let item = Item {
            card,
            key,
            amount,
            state: State::Open,
        };
        let held = Totals {
            used: totals.used,
            reserved: totals.reserved + amount,
        };
        let Ok(_) = self.items.insert(id, item) else {
            return Err(BookError::OutOfMemory);
        };
        let Ok(_) = self.ids.insert(key, id) else {
            unreachable!()
        };
        let Ok(_) = self.totals.insert(card, held) else {
            unreachable!()
        };
        Ok(())
    }

    /// Spends what is held under the id. Returns whether anything was held; it takes no memory.
    pub fn settle(&mut self, id: u64) -> bool
        ensures changed { result ≡ is_open_in id self.old.items }
        ensures settled { self.new ≡ with_items self.old (settled id self.old.items) }
    {
        let Some(found) = self.items.get(&id) else {
            return false;
        };
        let item = *found;
        let State::Open = item.state else {
            return false;
        };
        let totals = totals_of(&self.totals, &item.card);
        let spent = Totals {
            used: totals.used + item.amount,
            reserved: totals.reserved - item.amount,
        };
        let used = Item {
            state: State::Used,
            ..item
        };
        replace_item(&mut self.items, id, used);
        replace_totals(&mut self.totals, item.card, spent);
        true
    }

    /// Frees what is held under the id. Returns whether anything was held; it takes no memory.
    pub fn release(&mut self, id: u64) -> bool
        ensures changed { result ≡ is_open_in id self.old.items }
        ensures released { self.new ≡ with_items self.old (released id self.old.items) }
    {
        let Some(found) = self.items.get(&id) else {
            return false;
        };
        let Item {
            card,
            key,
            amount,
            state,
        } = *found;
        let State::Open = state else {
            return false;
        };
        let totals = totals_of(&self.totals, &card);
        let freed = Totals {
            used: totals.used,
            reserved: totals.reserved - amount,
        };
        let _ = self.items.remove(&id);
        let _ = self.ids.remove(&key);
        replace_totals(&mut self.totals, card, freed);
        true
    }

    /// Gives back what was spent under the key, which stays taken. Returns whether anything was
    /// spent, so the same reversal returns `false` the second time; it takes no memory.
    pub fn reverse(&mut self, key: &BookKey) -> bool
        ensures changed { result ≡ is_used_in key.now self.old.items }
        ensures reversed { self.new ≡ with_items self.old (reversed key.now self.old.items) }
    {
        let Some(id) = self.ids.get(key) else {
            return false;
        };
        let id = *id;
        let Some(found) = self.items.get(&id) else {
            return false;
        };
        let item = *found;
        let State::Used = item.state else {
            return false;
        };
        let totals = totals_of(&self.totals, &item.card);
        let given_back = Totals {
            used: totals.used - item.amount,
            reserved: totals.reserved,
        };
        let reversed = Item {
            state: State::Reversed,
            ..item
        };
        replace_item(&mut self.items, id, reversed);
        replace_totals(&mut self.totals, item.card, given_back);
        true
    }
}

fn totals_of(totals: &HashMap<Card, Totals>, card: &Card) -> Totals
    ensures { result ≡ totals_in (get card_eq totals.now card.now) }
{
    match totals.get(card) {
        Some(found) => *found,
        None => Totals {
            used: 0,
            reserved: 0,
        },
    }
}

// Room for one more key and card, so that putting them cannot be refused.
fn room(
    ids: &mut HashMap<BookKey, u64>,
    totals: &mut HashMap<Card, Totals>,
) -> Result<(), AllocError>
    ensures ids { (k : BookKey) → get key_eq ids.new k ≡ get key_eq ids.old k }
    ensures totals { (k : Card) → get card_eq totals.new k ≡ get card_eq totals.old k }
    ensures id_room { OnOk result (0 < spare ids.new) }
    ensures total_room { OnOk result (0 < spare totals.new) }
{
    ids.reserve(1)?;
    totals.reserve(1)?;
    Ok(())
}

fn replace_item(items: &mut BTreeMap<u64, Item>, id: u64, item: Item)
    requires { IsSome (item_at id items.old.entries) }
    ensures { items.new.entries ≡ in_its_place id item items.old.entries }
{
    match items.get_mut(&id) {
        Some(found) => *found = item,
        None => unreachable!(),
    }
}

fn replace_totals(totals: &mut HashMap<Card, Totals>, card: Card, sums: Totals)
    requires { IsSome (get card_eq totals.old card) }
    ensures { (k : Card) → get card_eq totals.new k
        ≡ (if card_eq card k then Some sums else get card_eq totals.old k) }
{
    let Ok(_) = totals.insert(card, sums) else {
        unreachable!()
    };
}
