//! What is compared once all threads have ended.

ghost use Rattle.std.specs.Prelude.{◌≡◌, true, map};
ghost use Rattle.tx_locked.specs.AllStations.{AllThere, AreCalls, calls_at};
ghost use Rattle.tx_locked.specs.Receipts.{AllOwn, count_done, count_shelved, is_own_event};
ghost use Rattle.tx_locked.specs.Receipts.{ends_done, ends_shelved, own_numbers};
ghost use Rattle.tx_locked.specs.Settled.{IsSettled};

use crate::station::MadeCall;
use tx_engine::Engine;
use tx_history::{Entry, Event};

/// Whether these are the calls of the station.
fn are_calls_at(made: &[MadeCall], station: usize, log: &[MadeCall]) -> bool
    ensures { result ≡ true → calls_at station made.now ≡ log.now }
{
    let mut next = 0;
    for call in made {
        if usize::from(call.call.participant) == station {
            if next >= log.len() {
                return false;
            }
            if !call.is_same(&log[next]) {
                return false;
            }
            next += 1;
        }
    }
    next == log.len()
}

// Whether each call is one of a station.
fn are_there(made: &[MadeCall], stations: usize) -> bool
    ensures { result ≡ true → AllThere stations made.now }
{
    for call in made {
        if usize::from(call.call.participant) >= stations {
            return false;
        }
    }
    true
}

/// Whether these are the calls of all stations.
pub fn are_calls(made: &[MadeCall], logs: &[Vec<MadeCall>]) -> bool
    ensures { result ≡ true → AreCalls (λ v. v.items) made.now logs.now }
{
    if !are_there(made, logs.len()) {
        return false;
    }
    for k in 0..logs.len() {
        if !are_calls_at(made, k, logs[k].as_slice()) {
            return false;
        }
    }
    true
}

/// Whether the lists of entries are the same.
pub fn are_same(entries: &[Entry], others: &[Entry]) -> bool
    ensures { result ≡ true → entries.now ≡ others.now }
{
    if entries.len() != others.len() {
        return false;
    }
    for i in 0..entries.len() {
        if !entries[i].is_same(&others[i]) {
            return false;
        }
    }
    true
}

// Whether the session made the event.
fn is_own(session: usize, event: &Event) -> bool
    ensures { result ≡ is_own_event session event.now }
{
    match event {
        Event::Taken { session: its } => *its == session,
        Event::Answered { session: its, .. } => *its == session,
        Event::Chose { session: its, .. } => *its == session,
        Event::Told { session: its, .. } => *its == session,
        Event::Recovered { session: its, .. } => *its == session,
        _ => false,
    }
}

/// Whether these are the numbers of the session's entries.
fn are_own(entries: &[Entry], session: usize, receipts: &[usize]) -> bool
    ensures { result ≡ true → receipts.now ≡ own_numbers session entries.now }
{
    let mut next = 0;
    for entry in entries {
        if is_own(session, &entry.event) {
            if next >= receipts.len() {
                return false;
            }
            if receipts[next] != entry.number {
                return false;
            }
            next += 1;
        }
    }
    next == receipts.len()
}

/// Whether each session's receipts are the numbers of its entries.
pub fn are_all_own(entries: &[Entry], receipts: &[Vec<usize>]) -> bool
    ensures { result ≡ true → AllOwn (λ v. v.items) entries.now receipts.now }
{
    for session in 0..receipts.len() {
        if !are_own(entries, session, receipts[session].as_slice()) {
            return false;
        }
    }
    true
}

// Whether the transaction of the entry ended by `done`.
fn is_done(entry: &Entry) -> bool
    ensures { result ≡ ends_done entry.now }
{
    matches!(&entry.change.row, Some((_, None))) && entry.change.shelved.is_none()
}

// Whether it ended on the shelf.
fn is_shelved(entry: &Entry) -> bool
    ensures { result ≡ ends_shelved entry.now }
{
    matches!(&entry.change.row, Some((_, None))) && entry.change.shelved.is_some()
}

/// How many transactions the entries ended by `done`.
pub fn count_finished(entries: &[Entry]) -> usize
    ensures { result ≡ count_done entries.now }
{
    let mut count = 0;
    for entry in entries {
        if is_done(entry) {
            count += 1;
        }
    }
    count
}

/// How many they put on the shelf.
pub fn count_on_shelf(entries: &[Entry]) -> usize
    ensures { result ≡ count_shelved entries.now }
{
    let mut count = 0;
    for entry in entries {
        if is_shelved(entry) {
            count += 1;
        }
    }
    count
}

/// Whether nothing waits, no session holds a transaction, and all is written.
pub fn is_settled(engine: &Engine) -> bool
    ensures { result ≡ true → IsSettled engine.now }
{
    if engine.queued() != 0 {
        return false;
    }
    if engine.is_in_use() {
        return false;
    }
    engine.mark() == engine.history().len()
}

/// Whether both are true. (A function, so that what follows from each is known if both are.)
pub fn both(one: bool, other: bool) -> bool
    ensures one { result ≡ true → one ≡ true }
    ensures other { result ≡ true → other ≡ true }
{
    one && other
}
