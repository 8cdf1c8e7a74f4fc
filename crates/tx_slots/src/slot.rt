//! What sessions hold.

ghost use Rattle.std.specs.Prelude.{◌≡◌};
ghost use Rattle.tx_machine.specs.Contract.{IsSound};
ghost use Rattle.tx_machine.specs.Due.{participant_of};
ghost use Rattle.tx_slots.specs.Slots.{flag, flag_of, hold_call, is_holding, slot_at, slot_held};
ghost use Rattle.tx_slots.specs.Slots.{slot_let_go, slot_next, slot_of};
ghost use Rattle.tx_slots.specs.Slots.{IsSoundSlot};

use crate::next::{At, Next, call_of, restored_by, spot_of};
use flow_asm::Code;
use sw_participant::Call;
use tx_machine::{Due, Machine};

/// What a session holds.
pub enum Slot {
    /// No transaction.
    Free,
    /// This transaction.
    Holding(Hold),
}

// Written out, so that no caller proves again how its parts are dropped.
impl Drop for Slot {
    fn drop(self) {
        match self {
            Slot::Free => {}
            Slot::Holding(_value) => {}
        }
    }
}

/// The transaction that a session holds.
pub struct Hold {
    pub id: u64,
    pub machine: Machine,
    /// The number of its last entry, or 0.
    pub last: usize,
    /// Whether the session was let go since the call became due.
    pub let_go: bool,
}

// Written out, so that no caller proves again how its parts are dropped.
impl Drop for Hold {
    fn drop(self) {
        let Hold {
            id: _,
            machine: _,
            last: _,
            let_go: _,
        } = self;
    }
}

/// The slot of a transaction after its entry of this number.
pub fn slot_for(code: &Code, id: u64, machine: Machine, last: usize) -> Slot
    requires { IsSound code.now machine }
    ensures { result ≡ slot_of code.now machine id last }
{
    match machine.due(code) {
        Due::Shelve | Due::Done => Slot::Free,
        _ => Slot::Holding(Hold {
            id,
            machine,
            last,
            let_go: false,
        }),
    }
}

/// Whether the flag of this number is there and set.
pub(crate) fn is_set(flags: &[bool], p: usize) -> bool
    ensures { result ≡ flag flags.now p }
{
    match flags.get(p) {
        Some(set) => *set,
        None => false,
    }
}

// Whether a breakpoint holds the call.
fn is_stopped(breaks: &[bool], due: Due) -> bool
    ensures { result ≡ flag_of breaks.now (participant_of due) }
{
    match due {
        Due::Prepare(spot) | Due::PrepareForAbort(spot) | Due::Select(spot) => is_set(
            breaks,
            spot.participant,
        ),
        Due::Commit(p) | Due::Abort(p) => is_set(breaks, p),
        Due::Shelve | Due::Done => false,
    }
}

/// Whether a breakpoint holds the call that is due to a session with this slot.
pub fn is_held_by(code: &Code, breaks: &[bool], slot: &Slot) -> bool
    requires { IsSoundSlot code.now slot.now }
    ensures { result ≡ slot_held code.now breaks.now slot.now }
{
    match slot {
        Slot::Free => false,
        Slot::Holding(hold) => is_stopped(breaks, hold.machine.due(code)) && !hold.let_go,
    }
}

/// Lets the slot's due call go, whatever breakpoint holds it.
pub fn let_slot_go(slot: &mut Slot)
    ensures { slot.new ≡ slot_let_go slot.old }
{
    if let Slot::Holding(hold) = slot {
        hold.let_go = true;
    }
}

// The call that is due to a session that holds this.
fn hold_call(code: &Code, first: u64, restored: bool, hold: &Hold) -> Option<Call>
    requires { IsSound code.now hold.now.machine }
    ensures { result ≡ hold_call code.now first restored hold.now }
{
    let due = hold.machine.due(code);
    let recovering = hold.id < first;
    let restores = if recovering && !restored {
        restored_by(code, due)
    } else {
        None
    };
    call_of(hold.id, recovering, due, restores)
}

/// Where the transaction of this slot stands. Ids below `first` are those of transactions of the
/// journal; `restored` says whether the context was restored since the last outcome.
pub fn at_slot(code: &Code, first: u64, restored: bool, slot: &Slot) -> Option<At>
    requires { IsSoundSlot code.now slot.now }
    ensures { result ≡ slot_at code.now first restored slot.now }
{
    let Slot::Holding(hold) = slot else {
        return None;
    };
    let call = hold_call(code, first, restored, hold)?;
    Some(At {
        id: hold.id,
        phase: hold.machine.phase(),
        call,
        spot: spot_of(hold.machine.due(code)),
    })
}

/// What a session with this slot is to do. Ids below `first` are those of transactions of the
/// journal; `restored` says whether the context was restored since the last outcome.
pub fn next_at(
    code: &Code,
    first: u64,
    restored: bool,
    breaks: &[bool],
    mark: usize,
    slot: &Slot,
) -> Next
    requires { IsSoundSlot code.now slot.now }
    ensures { result ≡ slot_next code.now first restored breaks.now mark slot.now }
{
    let Slot::Holding(hold) = slot else {
        return Next::Idle;
    };
    match hold_call(code, first, restored, hold) {
        None => Next::Idle,
        Some(_) if mark < hold.last => Next::Unwritten,
        Some(call) if is_stopped(breaks, hold.machine.due(code)) && !hold.let_go => {
            Next::Held(call)
        }
        Some(call) => Next::Due(call),
    }
}

/// Whether the session holds a transaction.
pub fn is_holding(slot: &Slot) -> bool
    ensures { result ≡ is_holding slot.now }
{
    matches!(slot, Slot::Holding(_))
}
