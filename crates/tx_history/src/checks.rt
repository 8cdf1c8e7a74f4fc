//! Which journals an engine may be opened on, tested without memory.

ghost use Rattle.std.specs.Prelude.{◌≡◌, ◌↔◌, IsTrue, None, is_some};
ghost use Rattle.std.specs.List.{All};
ghost use Rattle.tx_history.specs.Checks.{are_apart, counts_fit, follows, numbers_fit, place_fits, places_rise, rises};
ghost use Rattle.tx_history.specs.Keys.{look};
ghost use Rattle.tx_history.specs.Views.{AllUnder, IsDoing, IsNamed, IsOk, RowFits, WaitingFits};

use crate::journal::{JournalView, Row, WaitingContext};
use sw_context::{Context, is_name};
use sw_participant::{Bytes, Text};
use tx_machine::Phase;

/// The id after which none is left: 2^63 - 1.
const LAST_ID: u64 = 9_223_372_036_854_775_807;

/// An engine has at most 16 sessions, each with one transaction.
const MOST_ROWS: usize = 16;

const MOST_MEMBERS: usize = 1_001;

/// While preparing or aborting, there may be one more participant in `doing`.
const MOST_OPEN_MEMBERS: usize = 1_000;

const MOST_TRIES: u8 = 100;

const LAST_PLACE: usize = 1_000;

// Whether the ids rise from 1 and are below the next one.
fn rise<T>(entries: &[(u64, T)], next_id: u64) -> bool
    ensures { result ≡ rises 1 next_id entries.now }
{
    let mut least = 1;
    for entry in entries {
        if entry.0 < least || next_id <= entry.0 {
            return false;
        }
        least = entry.0 + 1;
    }
    least <= next_id
}

fn has_id(shelf: &[(u64, WaitingContext)], id: u64) -> bool
    ensures { result ≡ is_some (look id shelf.now) }
{
    for waiting in shelf {
        if waiting.0 == id {
            return true;
        }
    }
    false
}

// Whether no id is in both lists.
fn are_apart(rows: &[(u64, Row)], shelf: &[(u64, WaitingContext)]) -> bool
    ensures { result ≡ are_apart rows.now shelf.now }
{
    for row in rows {
        if has_id(shelf, row.0) {
            return false;
        }
    }
    true
}

fn are_names(names: &[Text]) -> bool
    ensures { IsTrue result ↔ All IsNamed names.now }
{
    names.iter().all(|name| is_name(name.as_str()))
}

fn is_doing(doing: &Option<Text>) -> bool
    ensures { IsTrue result ↔ IsDoing doing.now }
{
    match doing {
        Some(name) => is_name(name.as_str()),
        None => true,
    }
}

impl Row {
    // Whether the numbers of members that were notified and that joined fit the phase.
    fn counts_fit(&self) -> bool
        ensures { result ≡ counts_fit self.now }
    {
        let members = self.joined.as_slice().len();
        match self.phase {
            Phase::Preparing | Phase::Aborting => self.told == 0 && members <= MOST_OPEN_MEMBERS,
            Phase::Committing | Phase::Undoing => {
                self.doing.is_none() && self.told < members && members <= MOST_MEMBERS
            }
        }
    }

    fn fits(&self) -> bool
        ensures { IsTrue result ↔ RowFits self.now }
    {
        self.counts_fit()
            && self.tries <= MOST_TRIES
            && are_names(self.joined.as_slice())
            && is_doing(&self.doing)
            && Context::is_bytes(self.context.as_slice())
    }
}

impl WaitingContext {
    fn fits(&self) -> bool
        ensures { IsTrue result ↔ WaitingFits self.now }
    {
        self.tries <= MOST_TRIES && Context::is_bytes(self.context.as_slice())
    }
}

fn rows_fit(rows: &[(u64, Row)]) -> bool
    ensures { IsTrue result ↔ AllUnder RowFits rows.now }
{
    for row in rows {
        if !row.1.fits() {
            return false;
        }
    }
    true
}

fn shelf_fits(shelf: &[(u64, WaitingContext)]) -> bool
    ensures { IsTrue result ↔ AllUnder WaitingFits shelf.now }
{
    for waiting in shelf {
        if !waiting.1.fits() {
            return false;
        }
    }
    true
}

// Whether a place is above the one before it.
fn follows(before: Option<(u64, usize)>, place: (u64, usize)) -> bool
    ensures { result ≡ follows before place }
{
    match before {
        Some(before) => before.0 < place.0 || before.0 == place.0 && before.1 < place.1,
        None => true,
    }
}

fn place_fits(place: (u64, usize), next_id: u64) -> bool
    ensures { result ≡ place_fits next_id place }
{
    1 <= place.0 && place.0 < next_id && place.1 <= LAST_PLACE
}

fn advices_fit(advices: &[((u64, usize), Bytes)], next_id: u64) -> bool
    ensures { result ≡ places_rise None next_id advices.now }
{
    let mut before = None;
    for advice in advices {
        let place = advice.0;
        if !follows(before, place) || !place_fits(place, next_id) {
            return false;
        }
        before = Some(place);
    }
    true
}

impl JournalView {
    // Everything that is asked, except what is asked of each row and of each waiting context.
    fn numbers_fit(&self) -> bool
        ensures { result ≡ numbers_fit self.now }
    {
        let rows = self.rows.as_slice();
        let shelf = self.shelf.as_slice();
        self.next_id <= LAST_ID
            && rows.len() <= MOST_ROWS
            && rise(rows, self.next_id)
            && rise(shelf, self.next_id)
            && are_apart(rows, shelf)
            && advices_fit(self.advices.as_slice(), self.next_id)
    }

    /// Whether an engine may be opened on this view: the next id is 1 to 2^63 - 1; ids rise from 1 and
    /// are below it, none with a row is on the shelf; there are at most 16 rows; members
    /// and the participant of a due call have names; while preparing or aborting, nobody was notified
    /// and there are at most 1,000 members; while committing or undoing, `doing` is empty, there are at
    /// most 1,001 members, and not all of them were notified; tries are at most 100; contexts are bytes of
    /// contexts; advices stand under rising places, with members from 0 to 1,000. It takes no memory.
    #[tactic(auto, using(crate::proofs::ViewTests::ok_numbers, crate::proofs::ViewTests::ok_rows))]
    pub fn ok(&self) -> bool
        ensures { IsTrue result ↔ IsOk self.now }
    {
        if !self.numbers_fit() {
            return false;
        }
        if !rows_fit(self.rows.as_slice()) {
            return false;
        }
        shelf_fits(self.shelf.as_slice())
    }
}
