//! The parts of a book: its items, the newest id of each request, the sums of each card.

ghost use Rattle.std.specs.Prelude.{◌≡◌, ◌+◌, ◌<◌, None, Some, ℕ, IsSome, OnOk, OnErr, if◌then◌else◌};
ghost use Rattle.std.specs.Option.{option_eq};
ghost use Rattle.std.specs.HashMap.{get, spare};
ghost use Rattle.day_book.specs.declared.item.CardDay as declared_card;
ghost use Rattle.day_book.specs.declared.item.RequestDay as declared;
ghost use Rattle.day_book.specs.Items.{card_day, card_eq, request_day, request_eq};
ghost use Rattle.day_book.specs.Items.{item_at, held_of, is_open, later, spent_of};
ghost use Rattle.day_book.specs.Changes.{with_item, in_its_place};
ghost use Rattle.day_book.specs.Kept.{kept_totals, totals_in, newest_left};

use crate::item::{CardDay, DayItem, RequestDay, State, Totals};
use std::alloc::AllocError;
use std::collections::{BTreeMap, HashMap};

/// What is kept of a card's sums: those of a card without any are 0.
pub fn totals_of(totals: &HashMap<CardDay, Totals>, card: &CardDay) -> Totals
    ensures { result ≡ totals_in (get card_eq totals.now card.now) }
{
    match totals.get(card) {
        Some(found) => *found,
        None => Totals {
            used: 0,
            reserved: 0,
        },
    }
}

/// What an item adds to what its card has spent.
pub fn spent_of(item: &DayItem) -> u64
    ensures { result ≡ spent_of item.now }
{
    match item.state {
        State::Used => item.amount,
        _ => 0,
    }
}

/// Whether an item is open.
pub fn is_open(item: &DayItem) -> bool
    ensures { result ≡ is_open item.now.state }
{
    matches!(item.state, State::Open)
}

/// What an item adds to what is held for its card.
pub fn held_of(item: &DayItem) -> u64
    ensures { result ≡ held_of item.now }
{
    match item.state {
        State::Open => item.amount,
        _ => 0,
    }
}

// Room for one more request and card, so that putting them cannot be refused.
fn room(
    newest: &mut HashMap<RequestDay, u64>,
    totals: &mut HashMap<CardDay, Totals>,
) -> Result<(), AllocError>
    ensures newest { (q : declared.RequestDay)
        → get request_eq newest.new q ≡ get request_eq newest.old q }
    ensures totals { (c : declared_card.CardDay)
        → get card_eq totals.new c ≡ get card_eq totals.old c }
    ensures id_room { OnOk result (0 < spare newest.new) }
    ensures total_room { OnOk result (0 < spare totals.new) }
{
    newest.reserve(1)?;
    totals.reserve(1)?;
    Ok(())
}

/// Puts an item under an id that is free, the id as the newest of its request unless a greater one is,
/// and its card's sums. A refusal changes nothing.
pub fn add(
    items: &mut BTreeMap<u64, DayItem>,
    newest: &mut HashMap<RequestDay, u64>,
    totals: &mut HashMap<CardDay, Totals>,
    id: u64,
    item: DayItem,
    sums: Totals,
) -> Result<(), AllocError>
    requires free { item_at id items.old.entries ≡ None }
    ensures items { OnOk result (items.new.entries ≡ with_item id item items.old.entries) }
    ensures items_kept { OnErr result (items.new.entries ≡ items.old.entries) }
    ensures newest { OnOk result ((q : declared.RequestDay) → get request_eq newest.new q
        ≡ (if request_eq (request_day item) q
        then Some (later id (get request_eq newest.old (request_day item)))
        else get request_eq newest.old q)) }
    ensures newest_kept { OnErr result ((q : declared.RequestDay)
        → get request_eq newest.new q ≡ get request_eq newest.old q) }
    ensures totals { OnOk result ((c : declared_card.CardDay) → get card_eq totals.new c
        ≡ (if card_eq (card_day item) c then Some sums else get card_eq totals.old c)) }
    ensures totals_kept { OnErr result ((c : declared_card.CardDay)
        → get card_eq totals.new c ≡ get card_eq totals.old c) }
{
    room(newest, totals)?;
    let request = item.request_day();
    let latest = match newest.get(&request) {
        Some(found) => id.max(*found),
        None => id,
    };
    let Ok(_) = items.insert(id, item) else {
        return Err(AllocError);
    };
    let Ok(_) = newest.insert(request, latest) else {
        unreachable!()
    };
    let Ok(_) = totals.insert(item.card_day(), sums) else {
        unreachable!()
    };
    Ok(())
}

/// Puts another item in the place of the one under an id.
pub fn replace_item(items: &mut BTreeMap<u64, DayItem>, id: u64, item: DayItem)
    requires { IsSome (item_at id items.old.entries) }
    ensures { items.new.entries ≡ in_its_place id item items.old.entries }
{
    match items.get_mut(&id) {
        Some(found) => *found = item,
        None => unreachable!(),
    }
}

/// Sets a card's sums. Sums of 0 are not kept, and a card that has none kept may be given no others.
pub fn set_totals(totals: &mut HashMap<CardDay, Totals>, card: CardDay, sums: Totals)
    requires { get card_eq totals.old card ≡ None → kept_totals sums ≡ None }
    ensures { (c : declared_card.CardDay) → get card_eq totals.new c
        ≡ (if card_eq card c then kept_totals sums else get card_eq totals.old c) }
{
    if sums.used == 0 && sums.reserved == 0 {
        let _ = totals.remove(&card);
        return;
    }
    let Ok(_) = totals.insert(card, sums) else {
        unreachable!()
    };
}

/// Drops what is kept of a request, if this id is its newest.
pub fn drop_newest(newest: &mut HashMap<RequestDay, u64>, request: &RequestDay, id: u64)
    ensures { (q : declared.RequestDay) → get request_eq newest.new q
        ≡ (if request_eq request.now q
        then newest_left id (get request_eq newest.old request.now)
        else get request_eq newest.old q) }
{
    let Some(found) = newest.get(request) else {
        return;
    };
    if *found == id {
        let _ = newest.remove(request);
    }
}
