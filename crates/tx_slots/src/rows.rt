//! What an entry changes in the journal, by the machine after it.

ghost use Rattle.std.specs.Prelude.{◌≡◌, IfOk, map, Some, None, false, true};
ghost use Rattle.tx_machine.specs.Contract.{IsSound, tx_state};
ghost use Rattle.tx_history.specs.History.{name_of, shelved};
ghost use Rattle.tx_history.specs.Journal.{row};
ghost use Rattle.tx_slots.specs.Rows.{item_change};

use flow_asm::Code;
use std::alloc::{AllocError, Global};
use sw_participant::{Bytes, Sequence, Text};
use tx_history::{Change, Row, WaitingContext};
use tx_machine::{Due, Machine};

/// The change that leaves the journal as it is.
pub fn no_change() -> Change
    ensures { result ≡ Rattle.tx_history.specs.Journal.no_change }
{
    Change {
        next_id: None,
        row: None,
        shelved: None,
        emptied: false,
        advice: None,
    }
}

// The name of the participant of this number.
fn name_at(alloc: Global, code: &Code, p: usize) -> Result<Text, AllocError>
    ensures { IfOk result (λ t. t ≡ name_of code.now p) }
{
    match code.participants().get(p) {
        Some(part) => part.name.copy(),
        None => Text::from_str(alloc, ""),
    }
}

fn names_of(alloc: Global, code: &Code, members: &[usize]) -> Result<Vec<Text>, AllocError>
    ensures { IfOk result (λ ts. ts.items ≡ map (name_of code.now) members.now) }
{
    let mut names = Vec::new(alloc);
    for member in members {
        names.push(name_at(alloc, code, *member)?)?;
    }
    Ok(names)
}

/// The journal's row of a transaction; none if it has ended.
pub fn row_of(alloc: Global, code: &Code, machine: &Machine) -> Result<Option<Row>, AllocError>
    requires { IsSound code.now machine.now }
    ensures { IfOk result (λ r. r ≡ row code.now (tx_state code.now machine.now)) }
{
    let doing = match machine.due(code) {
        Due::Shelve | Due::Done => return Ok(None),
        Due::Prepare(spot) | Due::PrepareForAbort(spot) => Some(name_at(
            alloc,
            code,
            spot.participant,
        )?),
        Due::Select(_) | Due::Commit(_) | Due::Abort(_) => None,
    };
    let joined = names_of(alloc, code, machine.joined())?;
    let context = Vec::from_slice(alloc, machine.saved())?;
    Ok(Some(Row {
        phase: machine.phase(),
        joined: Sequence::new(joined),
        told: machine.told_count(),
        doing,
        tries: machine.tries(),
        context: Bytes::new(context),
    }))
}

// What the shelf keeps of a transaction, if it ends there: its saved context, with one try fewer.
fn shelved_of(
    alloc: Global,
    code: &Code,
    machine: &Machine,
) -> Result<Option<WaitingContext>, AllocError>
    requires { IsSound code.now machine.now }
    ensures { IfOk result (λ r. r ≡ shelved code.now (tx_state code.now machine.now) true) }
{
    match machine.due(code) {
        Due::Shelve => Ok(Some(WaitingContext {
            tries: machine.tries().saturating_sub(1),
            context: Bytes::new(Vec::from_slice(alloc, machine.saved())?),
        })),
        _ => Ok(None),
    }
}

/// The change that an item makes, by the machine after it.
pub(crate) fn change_of(
    alloc: Global,
    code: &Code,
    id: u64,
    machine: &Machine,
    advice: Option<((u64, usize), Option<Bytes>)>,
) -> Result<Change, AllocError>
    requires { IsSound code.now machine.now }
    ensures { IfOk result (λ c. c ≡ item_change code.now id machine.now advice) }
{
    let row = row_of(alloc, code, machine)?;
    let shelved = match shelved_of(alloc, code, machine)? {
        Some(waiting) => Some((id, waiting)),
        None => None,
    };
    Ok(Change {
        next_id: None,
        row: Some((id, row)),
        shelved,
        emptied: false,
        advice,
    })
}
