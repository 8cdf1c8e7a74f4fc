//! Whether two entries are the same. It takes no memory.

ghost use Rattle.std.specs.Prelude.{◌≡◌, ◌↔◌, IsTrue};

use crate::event::{Change, Entry, Event};
use crate::journal::{Row, WaitingContext};
use sw_participant::{Bytes, Text, is_same_advice};
use tx_machine::Phase;

fn is_same_text(one: &Text, other: &Text) -> bool
    ensures { IsTrue result ↔ (one.now ≡ other.now) }
{
    one.as_str().as_bytes() == other.as_str().as_bytes()
}

fn is_same_name(one: &Option<Text>, other: &Option<Text>) -> bool
    ensures { IsTrue result ↔ (one.now ≡ other.now) }
{
    match (one, other) {
        (Some(one), Some(other)) => is_same_text(one, other),
        (None, None) => true,
        _ => false,
    }
}

fn are_same_names(some: &[Text], others: &[Text]) -> bool
    ensures { IsTrue result ↔ (some.now ≡ others.now) }
{
    if some.len() != others.len() {
        return false;
    }
    for i in 0..some.len() {
        if !is_same_text(&some[i], &others[i]) {
            return false;
        }
    }
    true
}

fn is_same_phase(one: Phase, other: Phase) -> bool
    ensures { IsTrue result ↔ (one ≡ other) }
{
    match (one, other) {
        (Phase::Preparing, Phase::Preparing) => true,
        (Phase::Aborting, Phase::Aborting) => true,
        (Phase::Committing, Phase::Committing) => true,
        (Phase::Undoing, Phase::Undoing) => true,
        _ => false,
    }
}

impl WaitingContext {
    fn is_same(&self, other: &WaitingContext) -> bool
        ensures { IsTrue result ↔ (self.now ≡ other.now) }
    {
        self.tries == other.tries && self.context.as_slice() == other.context.as_slice()
    }
}

impl Row {
    fn is_same(&self, other: &Row) -> bool
        ensures { IsTrue result ↔ (self.now ≡ other.now) }
    {
        is_same_phase(self.phase, other.phase)
            && self.told == other.told
            && self.tries == other.tries
            && are_same_names(self.joined.as_slice(), other.joined.as_slice())
            && is_same_name(&self.doing, &other.doing)
            && self.context.as_slice() == other.context.as_slice()
    }
}

impl Event {
    fn is_same(&self, other: &Event) -> bool
        ensures { IsTrue result ↔ (self.now ≡ other.now) }
    {
        match (self, other) {
            (Event::Offered { context: a }, Event::Offered { context: b }) => {
                a.as_slice() == b.as_slice()
            }
            (Event::Taken { session: a }, Event::Taken { session: b }) => a == b,
            (
                Event::Answered {
                    session: a,
                    byte: x,
                    context: c,
                },
                Event::Answered {
                    session: b,
                    byte: y,
                    context: d,
                },
            ) => { a == b && x == y && c.as_slice() == d.as_slice() }
            (
                Event::Chose {
                    session: a,
                    text: x,
                },
                Event::Chose {
                    session: b,
                    text: y,
                },
            ) => { a == b && is_same_text(x, y) }
            (
                Event::Told {
                    session: a,
                    advice: x,
                },
                Event::Told {
                    session: b,
                    advice: y,
                },
            ) => { a == b && is_same_advice(x, y) }
            (
                Event::Recovered {
                    session: a,
                    context: c,
                },
                Event::Recovered {
                    session: b,
                    context: d,
                },
            ) => { a == b && c.as_slice() == d.as_slice() }
            (Event::Released, Event::Released) => true,
            (Event::Acked { id: a, place: x }, Event::Acked { id: b, place: y }) => {
                a == b && x == y
            }
            (Event::Broke { participant: a }, Event::Broke { participant: b }) => a == b,
            (Event::Cleared { participant: a }, Event::Cleared { participant: b }) => a == b,
            (Event::LetGo { session: a }, Event::LetGo { session: b }) => a == b,
            (Event::Closed { id: a }, Event::Closed { id: b }) => a == b,
            _ => false,
        }
    }
}

fn is_same_row(one: &Option<(u64, Option<Row>)>, other: &Option<(u64, Option<Row>)>) -> bool
    ensures { IsTrue result ↔ (one.now ≡ other.now) }
{
    match (one, other) {
        (Some((id, Some(row))), Some((other_id, Some(other)))) => {
            id == other_id && row.is_same(other)
        }
        (Some((id, None)), Some((other_id, None))) => id == other_id,
        (None, None) => true,
        _ => false,
    }
}

fn is_same_waiting(
    one: &Option<(u64, WaitingContext)>,
    other: &Option<(u64, WaitingContext)>,
) -> bool
    ensures { IsTrue result ↔ (one.now ≡ other.now) }
{
    match (one, other) {
        (Some((id, waiting)), Some((other_id, other))) => {
            id == other_id && waiting.is_same(other)
        }
        (None, None) => true,
        _ => false,
    }
}

fn is_same_advice_at(
    one: &Option<((u64, usize), Option<Bytes>)>,
    other: &Option<((u64, usize), Option<Bytes>)>,
) -> bool
    ensures { IsTrue result ↔ (one.now ≡ other.now) }
{
    match (one, other) {
        (Some((place, advice)), Some((other_place, other))) => {
            place.0 == other_place.0 && place.1 == other_place.1 && is_same_advice(advice, other)
        }
        (None, None) => true,
        _ => false,
    }
}

impl Change {
    fn is_same(&self, other: &Change) -> bool
        ensures { IsTrue result ↔ (self.now ≡ other.now) }
    {
        self.next_id == other.next_id
            && self.emptied == other.emptied
            && is_same_row(&self.row, &other.row)
            && is_same_waiting(&self.shelved, &other.shelved)
            && is_same_advice_at(&self.advice, &other.advice)
    }
}

impl Entry {
    /// Whether the entries have the same number, event and change.
    pub fn is_same(&self, other: &Entry) -> bool
        ensures { IsTrue result ↔ (self.now ≡ other.now) }
    {
        self.number == other.number
            && self.event.is_same(&other.event)
            && self.change.is_same(&other.change)
    }
}
