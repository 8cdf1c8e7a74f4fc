//! What a reply to a due call adds.

ghost use Rattle.std.specs.Prelude.{◌≡◌, ◌&&◌, None, Some, IfOk};
ghost use Rattle.std.specs.Prelude.{true};
ghost use Rattle.tx_machine.specs.Contract.{IsSound, tx_state};
ghost use Rattle.tx_machine.specs.Table.{is_due, next};
ghost use Rattle.tx_machine.specs.declared.values.Item.TheVariants.{Answer, Choice};
ghost use Rattle.tx_machine.specs.declared.values.Item.TheVariants.{Told as ToldOne};
ghost use Rattle.tx_history.specs.History.{shelved};
ghost use Rattle.tx_history.specs.Journal.{shelved_change};
ghost use Rattle.tx_slots.specs.Rows.{item_change};
ghost use Rattle.tx_slots.specs.Rows.{AreKnown, IsSlotAfter};
ghost use Rattle.tx_slots.specs.Slots.{is_holding};

use crate::recovery::{Progress, slot_after};
use crate::rows::change_of;
use crate::slot::{Slot, is_holding};
use flow_asm::Code;
use std::alloc::{AllocError, Global};
use sw_participant::Bytes;
use tx_history::{Change, Entry, Event, Row, WaitingContext};
use tx_machine::{Machine, MachineError};

/// A reply as it is recorded. The machine is as the reply leaves it.
#[derive(Drop)]
pub struct Given {
    pub session: usize,
    pub id: u64,
    pub machine: Machine,
    pub event: Event,
    pub advice: Option<((u64, usize), Option<Bytes>)>,
    /// Whether the context counts as restored afterwards.
    pub restored: bool,
}

// A copy of what goes on the shelf.
fn shelved_by(change: &Change) -> Result<Option<(u64, WaitingContext)>, AllocError>
    ensures { IfOk result (λ copy. copy ≡ change.now.shelved) }
{
    match &change.shelved {
        Some((id, waiting)) => Ok(Some((*id, waiting.copy()?))),
        None => Ok(None),
    }
}

fn copy_advice(advice: &Option<Bytes>) -> Result<Option<Bytes>, AllocError>
    ensures { IfOk result (λ copy. copy ≡ advice.now) }
{
    match advice {
        Some(advice) => Ok(Some(advice.copy()?)),
        None => Ok(None),
    }
}

// A copy of the change of the advices.
fn advice_by(change: &Change) -> Result<Option<((u64, usize), Option<Bytes>)>, AllocError>
    ensures { IfOk result (λ copy. copy ≡ change.now.advice) }
{
    match &change.advice {
        Some((place, advice)) => Ok(Some((*place, copy_advice(advice)?))),
        None => Ok(None),
    }
}

/// Whether a transaction of the journal is still being recovered, by the slot of the session after a
/// reply.
pub fn goes_on(recovering: bool, slot: &Slot) -> bool
    ensures { result ≡ (recovering && is_holding slot.now) }
{
    recovering && is_holding(slot)
}

/// All that a reply adds to the engine.
#[derive(Drop)]
pub struct Ready {
    pub entry: Entry,
    pub shelved: Option<(u64, WaitingContext)>,
    pub advice: Option<((u64, usize), Option<Bytes>)>,
    pub slot: Slot,
}

/// What the session's reply adds, as the entry of this number. The only refusal is out of memory.
pub fn make_ready(
    alloc: Global,
    code: &Code,
    rows: &[(u64, Row)],
    recovering: bool,
    number: usize,
    given: Given,
) -> Result<Ready, AllocError>
    requires sound { IsSound code.now given.machine }
    requires known { AreKnown code.now rows.now }
    ensures number { IfOk result (λ r. r.entry.number ≡ number) }
    ensures event { IfOk result (λ r. r.entry.event ≡ given.event) }
    ensures change { IfOk result (λ r. r.entry.change
        ≡ item_change code.now given.id given.machine given.advice) }
    ensures shelved { IfOk result (λ r. r.shelved
        ≡ shelved_change given.id (shelved code.now (tx_state code.now given.machine) true)) }
    ensures advice { IfOk result (λ r. r.advice ≡ given.advice) }
    ensures slot { IfOk result (λ r.
        IsSlotAfter recovering code.now rows.now given.id given.machine number r.slot) }
{
    let Given {
        id,
        machine,
        event,
        advice,
        ..
    } = given;
    let entry = Entry {
        number,
        event,
        change: change_of(alloc, code, id, &machine, advice)?,
    };
    let progress = Progress {
        id,
        machine,
        number,
    };
    let slot = slot_after(alloc, code, rows, recovering, progress)?;
    let shelved = shelved_by(&entry.change)?;
    let advice = advice_by(&entry.change)?;
    Ok(Ready {
        entry,
        shelved,
        advice,
        slot,
    })
}

/// A copy of the machine after its due preparation was answered. The only refusal is out of memory.
pub fn after_answer(
    code: &Code,
    machine: &Machine,
    byte: u8,
    context: Bytes,
) -> Result<Machine, AllocError>
    requires sound { IsSound code.now machine.now }
    requires due { is_due (tx_state code.now machine.now) (Answer byte context) ≡ true }
    ensures sound { IfOk result (IsSound code.now) }
    ensures after { IfOk result (λ m. tx_state code.now m
        ≡ next code.now (tx_state code.now machine.now) (Answer byte context)) }
{
    let mut copy = machine.copy()?;
    match copy.answered(code, byte, context.into_vec()) {
        Ok(()) => Ok(copy),
        Err(MachineError::OutOfMemory) => Err(AllocError),
        Err(MachineError::NotDue) => unreachable!(),
    }
}

/// A copy of the machine after its due selection. The only refusal is out of memory.
pub fn after_choice(
    alloc: Global,
    code: &Code,
    machine: &Machine,
    text: &str,
) -> Result<Machine, AllocError>
    requires sound { IsSound code.now machine.now }
    requires due { is_due (tx_state code.now machine.now) (Choice text.now) ≡ true }
    ensures sound { IfOk result (IsSound code.now) }
    ensures after { IfOk result (λ m. tx_state code.now m
        ≡ next code.now (tx_state code.now machine.now) (Choice text.now)) }
{
    let mut copy = machine.copy()?;
    match copy.chose(alloc, code, text) {
        Ok(()) => Ok(copy),
        Err(MachineError::OutOfMemory) => Err(AllocError),
        Err(MachineError::NotDue) => unreachable!(),
    }
}

/// A copy of the machine after its due member was notified. The only refusal is out of memory.
pub fn after_told(code: &Code, machine: &Machine) -> Result<Machine, AllocError>
    requires sound { IsSound code.now machine.now }
    requires due { is_due (tx_state code.now machine.now) (ToldOne None) ≡ true }
    ensures sound { IfOk result (IsSound code.now) }
    ensures after { IfOk result (λ m. tx_state code.now m
        ≡ next code.now (tx_state code.now machine.now) (ToldOne None)) }
{
    let mut copy = machine.copy()?;
    match copy.told(code) {
        Ok(()) => Ok(copy),
        Err(_) => unreachable!(),
    }
}
