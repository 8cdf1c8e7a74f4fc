//! Transactions of the journal.

ghost use Rattle.std.specs.Prelude.{◌≡◌, ◌<◌, ◌≤◌, ◌++◌, ◌&&◌, IfOk, OnOk};
ghost use Rattle.std.specs.Prelude.{length, map, nat_lt, not};
ghost use Rattle.std.specs.List.{All};
ghost use Rattle.flow_model.specs.declared.flow.Flow.{Flow};
ghost use Rattle.flow_model.specs.Places.{parts_of};
ghost use Rattle.tx_machine.specs.Contract.{IsSound, tx_state};
ghost use Rattle.tx_history.specs.History.{is_committing, is_ended, number_of, reopened, to_tell};
ghost use Rattle.tx_slots.specs.Rows.{AreKnown, IsNextSlot, IsSlotAfter, later_rows};

use crate::slot::{Slot, is_holding, slot_for};
use flow_asm::Code;
use flow_model::number_of;
use std::alloc::{AllocError, Global};
use sw_participant::Text;
use tx_history::Row;
use tx_machine::{Machine, Phase, Reopened};

// Adds the numbers of these participants.
fn add_numbers(numbers: &mut Vec<usize>, code: &Code, names: &[Text]) -> Result<(), AllocError>
    ensures { OnOk result (numbers.new.items
        ≡ numbers.old.items ++ map (number_of code.now) names.now) }
{
    for name in names {
        numbers.push(number_of(code.participants(), name.as_str()))?;
    }
    Ok(())
}

// The numbers of the participants to notify: all that may have been prepared.
fn members_of(alloc: Global, code: &Code, row: &Row) -> Result<Vec<usize>, AllocError>
    ensures { IfOk result (λ members. members.items
        ≡ map (number_of code.now) (to_tell row.now row.now.doing)) }
{
    let mut members = Vec::new(alloc);
    add_numbers(&mut members, code, row.joined.as_slice())?;
    match &row.doing {
        Some(name) => {
            members.push(number_of(code.participants(), name.as_str()))?;
            Ok(members)
        }
        None => Ok(members),
    }
}

fn is_committing(phase: Phase) -> bool
    ensures { result ≡ is_committing phase }
{
    matches!(phase, Phase::Committing)
}

/// Whether nobody is left to notify in a transaction of the journal, whatever the flow is.
pub fn is_over(row: &Row) -> bool
    ensures { (f : Flow) → result ≡ is_ended f (reopened f row.now) }
{
    let joined = row.joined.as_slice().len();
    match row.doing {
        Some(_) => row.told > joined,
        None => row.told >= joined,
    }
}

// Whether the transaction of this id and row is after another one and has somebody to notify.
fn is_open_after(id: u64, next: u64, row: &Row) -> bool
    ensures { (f : Flow) → result ≡ (nat_lt id next && not (is_ended f (reopened f row.now))) }
{
    id < next && !is_over(row)
}

/// How many of these transactions after an id have somebody to notify. There are at most 16 rows.
pub fn open_after(rows: &[(u64, Row)], id: u64) -> usize
    ensures counted { (f : Flow) → result ≡ length (later_rows f rows.now id) }
    ensures few { result ≤ length rows.now }
{
    let mut count = 0;
    for (next, row) in rows {
        if is_open_after(id, *next, row) {
            count += 1;
        }
    }
    count
}

/// The machine of a transaction of the journal as it is recovered: its members from `told` on are
/// notified of the commit if it was committing, and otherwise of the abort. The only refusal is out of
/// memory.
pub fn reopened(alloc: Global, code: &Code, row: &Row) -> Result<Machine, AllocError>
    requires { All (λ n. number_of code.now n < length (parts_of code.now))
        (to_tell row.now row.now.doing) }
    ensures sound { IfOk result (λ m. IsSound code.now m) }
    ensures state { IfOk result (λ m. tx_state code.now m ≡ reopened code.now row.now) }
{
    let members = members_of(alloc, code, row)?;
    let saved = row.context.copy()?;
    Ok(Machine::reopened(
        alloc,
        code,
        Reopened {
            committing: is_committing(row.phase),
            joined: members,
            told: row.told,
            tries: row.tries,
            saved: saved.into_vec(),
        },
    ))
}

/// The slot of session 0 when the transactions up to this id are over: it holds the first later one
/// with somebody to notify. There are at most 16 rows.
pub fn next_slot(
    alloc: Global,
    code: &Code,
    rows: &[(u64, Row)],
    id: u64,
) -> Result<Slot, AllocError>
    requires { AreKnown code.now rows.now }
    ensures { IfOk result (λ x. IsNextSlot code.now rows.now id x) }
{
    for (next, row) in rows {
        if id < *next {
            let slot = slot_for(code, *next, reopened(alloc, code, row)?, 0);
            if is_holding(&slot) {
                return Ok(slot);
            }
        }
    }
    Ok(Slot::Free)
}

/// The slot of the session after an entry of its transaction.
pub(crate) fn slot_after(
    alloc: Global,
    code: &Code,
    rows: &[(u64, Row)],
    recovering: bool,
    progress: Progress,
) -> Result<Slot, AllocError>
    requires sound { IsSound code.now progress.machine }
    requires known { AreKnown code.now rows.now }
    ensures { IfOk result (λ x.
        IsSlotAfter recovering code.now rows.now progress.id progress.machine progress.number x) }
{
    let id = progress.id;
    let slot = slot_for(code, id, progress.machine, progress.number);
    if !recovering || is_holding(&slot) {
        return Ok(slot);
    }
    next_slot(alloc, code, rows, id)
}

/// Where an entry leads its transaction.
#[derive(Drop)]
pub(crate) struct Progress {
    pub(crate) id: u64,
    pub(crate) machine: Machine,
    /// The entry's number.
    pub(crate) number: usize,
}
