//! The record of a call that was made elsewhere.

ghost use Rattle.std.specs.Prelude.{◌≡◌, ◌<◌, ℕ, List, length, get_or, slice_set, IfErr, IfOk, OnErr, OnOk};
ghost use Rattle.std.specs.Prelude.{None, Some, true};
ghost use Rattle.sw_context.specs.Pairs.{Pairs};
ghost use Rattle.sw_base.specs.Refusals.{Accepts, or_else};
ghost use Rattle.tx_slots.specs.DueCalls.{asks_for};
ghost use Rattle.tx_slots.specs.declared.next.Next.TheVariants.{Due};
ghost use Rattle.tx_engine.specs.World.{Recorded};
ghost use Rattle.tx_engine.specs.Calls.{answers, next_of, next_refusal, reply_refusal};
ghost use Rattle.tx_engine.specs.declared.error.EngineError.TheVariants.{OutOfMemory};
ghost use Rattle.tx_engine.specs.Replies.{kind_of};
ghost use Rattle.tx_plant.specs.Steps.{event_of};
ghost use Rattle.tx_plant.specs.Core.{ended_by, left_by, newest_fate};
ghost use Rattle.tx_plant.specs.Entered.{Entered, enter_refusal, is_due as is_due_of, is_free_for};
ghost use Rattle.tx_plant.specs.Entered.{same_call, seat_with};
ghost use Rattle.tx_plant.specs.Wholes.{core_in};

use crate::running::Running;
use crate::seat::{Seat, Seats, newest_fate};
use crate::serve::record;
use crate::step::{leave_seat, reserve, unreserve};
use std::alloc::Global;
use std::collections::BTreeMap;
use std::mem;
use sw_context::Context;
use sw_participant::{Act, Call, Reply};
use tx_engine::{Engine, EngineError, Next};

// Whether the reply is of the call's kind.
fn suits(reply: &Reply, act: Act) -> bool
    ensures { result ≡ asks_for (kind_of reply.now) act }
{
    match reply {
        Reply::Answer(_) => matches!(act, Act::Prepare | Act::PrepareForAbort),
        Reply::Chosen(_) => matches!(act, Act::Select),
        Reply::Told(_) => matches!(act, Act::Commit { .. } | Act::Abort { .. }),
        Reply::Recovered => matches!(act, Act::Recover { .. }),
    }
}

fn is_same(one: Call, other: Call) -> bool
    ensures same { result ≡ same_call one other }
    ensures equal { result ≡ true → one ≡ other }
{
    one == other
}

// Whether this call is due to the session.
fn is_due(engine: &Engine, s: usize, call: &Call) -> bool
    ensures due { result
        ≡ is_due_of (answers (next_refusal engine.now s) (next_of engine.now s)) call.now }
    ensures call { result ≡ true → next_of engine.now s ≡ Due call.now }
{
    match engine.next(s) {
        Ok(Next::Due(due)) => is_same(due, *call),
        _ => false,
    }
}

// Whether the session holds this transaction, and keeps no reply.
fn is_seated(seats: &Seats, s: usize, id: u64) -> bool
    ensures free { result ≡ is_free_for id (get_or seats.now.by_session.items s None) }
    ensures there { result ≡ true → s < length seats.now.by_session.items }
    ensures seated { result ≡ true
        → (x : Pairs) × (get_or seats.now.by_session.items s None ≡ Some (seat_with id x)) }
{
    if s >= seats.by_session.len() {
        return false;
    }
    match &seats.by_session[s] {
        Some(seat) => seat.id == id && seat.kept.is_none(),
        None => false,
    }
}

// Replaces the session's seat; hands back the context that was there.
fn put_seat(seats: &mut Seats, s: usize, left: Option<Seat>) -> Context
    requires there { s < length seats.old.by_session.items }
    requires held { (id : ℕ) × (x : Pairs)
        × (get_or seats.old.by_session.items s None ≡ Some (seat_with id x)) }
    ensures before { (id : ℕ) (x : Pairs) → get_or seats.old.by_session.items s None
        ≡ Some (seat_with id x) → result ≡ x }
    ensures seats { seats.new.by_session.items ≡ slice_set seats.old.by_session.items s left }
    ensures waiting { seats.new.waiting ≡ seats.old.waiting }
    ensures ended { seats.new.ended ≡ seats.old.ended }
    ensures next { seats.new.next_id ≡ seats.old.next_id }
{
    let Some(seat) = mem::replace(&mut seats.by_session[s], left) else {
        unreachable!()
    };
    seat.context
}

// The transaction in this seat, which has its new context, goes on or ends.
fn enter_seated(
    alloc: Global,
    engine: &mut Engine,
    ended: &mut BTreeMap<u64, Context>,
    s: usize,
    reply: &Reply,
    seat: Seat,
) -> Result<(usize, Option<Seat>), EngineError>
    requires { reply_refusal (kind_of reply.now) engine.old s ≡ None }
    ensures recorded { IfOk result (λ r.
        Recorded engine.old (event_of s reply.now seat.context) r.0 engine.new) }
    ensures left { IfOk result (λ r. r.1 ≡ left_by (newest_fate engine.new) seat) }
    ensures ended_by { OnOk result (ended.new.entries
        ≡ ended_by (newest_fate engine.new) seat ended.old.entries) }
    ensures engine { OnErr result (engine.new ≡ engine.old) }
    ensures ended { OnErr result (ended.new.entries ≡ ended.old.entries) }
    ensures memory { IfErr result (λ e. e ≡ OutOfMemory) }
{
    let id = seat.id;
    let Ok(put) = reserve(alloc, ended, id) else {
        return Err(EngineError::OutOfMemory);
    };
    match record(alloc, engine, s, reply, &seat.context) {
        Ok(number) => Ok((number, leave_seat(ended, seat, newest_fate(engine), put))),
        Err(error) => {
            unreserve(ended, id, put);
            Err(error)
        }
    }
}

impl Running {
    /// Records the reply to a call that was due to the session and was made elsewhere, with the
    /// context that it left; hands back the entry's number and the context before the call.
    /// Refuses `NotDue` if the reply is not of the call's kind, if the call is not due to the
    /// session, and if the session's seat is not of that transaction or keeps a reply; then
    /// `HistoryFull`, and `OutOfMemory` last.
    pub fn enter(
        &mut self,
        alloc: Global,
        s: usize,
        call: &Call,
        reply: &Reply,
        after: Context,
    ) -> Result<(usize, Context), EngineError>
        ensures entered { IfOk result (λ r. Entered (core_in self.old) s
            call.now reply.now r.1 after r.0 (core_in self.new)) }
        ensures kept { OnErr result (core_in self.new ≡ core_in self.old) }
        ensures allowed { OnOk result
            (enter_refusal (core_in self.old) s call.now reply.now ≡ None) }
        ensures refused { IfErr result (λ e. Some e
            ≡ or_else (enter_refusal (core_in self.old) s call.now reply.now)
            (Some OutOfMemory)) }
    {
        if !suits(reply, call.act) {
            return Err(EngineError::NotDue);
        }
        if !is_due(&self.engine, s, call) {
            return Err(EngineError::NotDue);
        }
        if !is_seated(&self.seats, s, call.id) {
            return Err(EngineError::NotDue);
        }
        if self.engine.is_full() {
            return Err(EngineError::HistoryFull);
        }
        let seat = Seat {
            id: call.id,
            context: after,
            kept: None,
        };
        let (number, left) = enter_seated(
            alloc,
            &mut self.engine,
            &mut self.seats.ended,
            s,
            reply,
            seat,
        )?;
        let gone = left.is_none();
        let before = put_seat(&mut self.seats, s, left);
        if gone {
            self.seats.reseat(&self.engine);
            return Ok((number, before));
        }
        Ok((number, before))
    }
}
