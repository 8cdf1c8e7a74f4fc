//! Opening an engine on a journal's view: the closing entries of the transactions with nobody to notify,
//! and the first one that is to be recovered.

ghost use Rattle.std.specs.Prelude.{◌≡◌, ◌≤◌, ◌∷◌, [], IfErr, IfOk, None, OnOk, false, replicate, slice_set};
ghost use Rattle.flow_model.specs.declared.flow.Flow.{Flow};
ghost use Rattle.tx_history.specs.Keys.{Rising};
ghost use Rattle.tx_history.specs.History.{Start, to_tell};
ghost use Rattle.tx_history.specs.Journal.{entries, to_close};
ghost use Rattle.tx_history.specs.Lives.{closes_of};
ghost use Rattle.tx_history.specs.Views.{IsOk, PlacesRise};
ghost use Rattle.tx_engine.specs.Opening.{IsAfterSessions, IsOpenRefusal, RefusesOpen, closing_entry};
ghost use Rattle.tx_engine.specs.Opening.{open_refusal};
ghost use Rattle.tx_engine.specs.Opening.{opened_world, unknown_in, unknown_of};
ghost use Rattle.tx_slots.specs.declared.slot.Slot.TheVariants.{Free};

use super::Engine;
use crate::error::EngineError;
use flow_asm::Code;
use flow_model::number_of;
use std::alloc::{AllocError, Global};
use std::collections::BTreeMap;
use sw_participant::{Bytes, Sequence, Text};
use tx_history::{Change, Entry, Event, JournalView, Row, WaitingContext};
use tx_slots::{Lists, Slot, is_holding, is_over, next_slot};

/// The greatest number of sessions.
const MOST_SESSIONS: usize = 16;

impl Engine {
    /// Opens an engine on a journal's view, with this many sessions. Its history has a closing entry
    /// for each row with nobody to notify; session 0 recovers the first of the other rows, and the
    /// other sessions hold nothing. The queue is empty, and no breakpoint is set. Refuses, in this
    /// order, `BadSessions` unless there are 1 to 16, and `UnknownParticipant` of the least id, its
    /// members in order and then the participant of `doing`; `OutOfMemory` only if the number of
    /// sessions is good.
    pub fn open(
        alloc: Global,
        code: &Code,
        view: &JournalView,
        sessions: usize,
    ) -> Result<Engine, EngineError>
        requires { IsOk view.now }
        ensures opened { IfOk result (λ e. e ≡ opened_world code.now view.now sessions) }
        ensures accepted { OnOk result (open_refusal code.now view.now sessions ≡ None) }
        ensures refused { IfErr result (IsOpenRefusal (open_refusal code.now view.now sessions)) }
        ensures counted { IfErr result (IsAfterSessions sessions) }
    {
        if sessions < 1 || MOST_SESSIONS < sessions {
            return Err(EngineError::BadSessions);
        }
        let rows = view.rows.as_slice();
        check_rows(code, rows)?;
        let first_slot = next_slot(alloc, code, rows, 0)?;
        let recovering = is_holding(&first_slot);
        let slots = seated(alloc, first_slot, sessions)?;
        code.is_checked();
        let lists = Lists::new(alloc, closings(alloc, rows)?);
        let shelf = shelf_of(alloc, view.shelf.as_slice(), view.next_id)?;
        let advices = advices_of(alloc, view.advices.as_slice(), view.next_id)?;
        let breaks = no_breaks(alloc, code.participants().len())?;
        let code = code.copy(alloc)?;
        let first = view.copy(alloc)?;
        Ok(Engine {
            code,
            first,
            first_queue: Sequence::new(Vec::new(alloc)),
            first_breaks: Sequence::new(Vec::new(alloc)),
            lists,
            mark: 0,
            slots,
            shelf,
            advices,
            breaks,
            next_id: view.next_id,
            restored: false,
            recovering,
        })
    }
}

// The shelf of a view, as a map.
pub(super) fn shelf_of(
    alloc: Global,
    items: &[(u64, WaitingContext)],
    next_id: u64,
) -> Result<BTreeMap<u64, WaitingContext>, AllocError>
    requires { Rising 1 next_id items.now }
    ensures { IfOk result (λ shelf. shelf.entries ≡ items.now) }
{
    let mut shelf = BTreeMap::new(alloc);
    for (id, waiting) in items {
        let Ok(_) = shelf.insert(*id, waiting.copy()?) else {
            return Err(AllocError);
        };
    }
    Ok(shelf)
}

// The advices of a view, as a map.
pub(super) fn advices_of(
    alloc: Global,
    items: &[((u64, usize), Bytes)],
    next_id: u64,
) -> Result<BTreeMap<(u64, usize), Bytes>, AllocError>
    requires { PlacesRise next_id items.now }
    ensures { IfOk result (λ advices. advices.entries ≡ items.now) }
{
    let mut advices = BTreeMap::new(alloc);
    for (place, advice) in items {
        let Ok(_) = advices.insert(*place, advice.copy()?) else {
            return Err(AllocError);
        };
    }
    Ok(advices)
}

// Sessions that hold nothing.
pub(super) fn free_slots(alloc: Global, sessions: usize) -> Result<Vec<Slot>, AllocError>
    ensures { IfOk result (λ slots. slots.items ≡ replicate sessions Free) }
{
    let mut slots = Vec::new(alloc);
    for _ in 0..sessions {
        slots.push(Slot::Free)?;
    }
    Ok(slots)
}

// The slots of this many sessions: this one for session 0, and free ones for the others.
fn seated(alloc: Global, first: Slot, sessions: usize) -> Result<Vec<Slot>, AllocError>
    requires { 1 ≤ sessions }
    ensures { IfOk result (λ slots. slots.items ≡ slice_set (replicate sessions Free) 0 first) }
{
    let mut slots = free_slots(alloc, sessions)?;
    slots[0] = first;
    Ok(slots)
}

// The flags of participants without a breakpoint.
fn no_breaks(alloc: Global, participants: usize) -> Result<Vec<bool>, AllocError>
    ensures { IfOk result (λ breaks. breaks.items ≡ replicate participants false) }
{
    let mut breaks = Vec::new(alloc);
    for _ in 0..participants {
        breaks.push(false)?;
    }
    Ok(breaks)
}

// Refuses a name that no participant of the flow has.
fn check_name(code: &Code, id: u64, name: &Text) -> Result<(), EngineError>
    ensures { RefusesOpen (unknown_in code.now id (name.now ∷ [])) result }
{
    let parts = code.participants();
    if number_of(parts, name.as_str()) < parts.len() {
        return Ok(());
    }
    Err(EngineError::UnknownParticipant {
        id,
        name: name.copy()?,
    })
}

fn check_names(code: &Code, id: u64, names: &[Text]) -> Result<(), EngineError>
    ensures { RefusesOpen (unknown_in code.now id names.now) result }
{
    for name in names {
        check_name(code, id, name)?;
    }
    Ok(())
}

// Refuses a row that names a participant to be notified that the flow does not have.
fn check_row(code: &Code, id: u64, row: &Row) -> Result<(), EngineError>
    ensures { RefusesOpen (unknown_in code.now id (to_tell row.now row.now.doing)) result }
{
    check_names(code, id, row.joined.as_slice())?;
    match &row.doing {
        Some(name) => check_name(code, id, name),
        None => Ok(()),
    }
}

fn check_rows(code: &Code, rows: &[(u64, Row)]) -> Result<(), EngineError>
    ensures { RefusesOpen (unknown_of code.now rows.now) result }
{
    for (id, row) in rows {
        check_row(code, *id, row)?;
    }
    Ok(())
}

fn closing(number: usize, id: u64) -> Entry
    ensures { result ≡ closing_entry number id }
{
    Entry {
        number,
        event: Event::Closed { id },
        change: Change {
            next_id: None,
            row: Some((id, None)),
            shelved: None,
            emptied: false,
            advice: None,
        },
    }
}

// The closing entries of an opening.
pub(super) fn closings(alloc: Global, rows: &[(u64, Row)]) -> Result<Vec<Entry>, AllocError>
    ensures { IfOk result (λ made. (f : Flow) (v : Start)
        → made.items ≡ entries f v (closes_of (to_close f rows.now) [])) }
{
    let mut made = Vec::new(alloc);
    for (id, row) in rows {
        if is_over(row) {
            made.push(closing(made.len() + 1, *id))?;
        }
    }
    Ok(made)
}
