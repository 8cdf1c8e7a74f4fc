//! The advices that the journal stores.

ghost use Rattle.std.specs.Prelude.{◌≡◌, map, option_map, take, IfOk, OnOk};
ghost use Rattle.sw_issuers.specs.Sending.{SendsAdvice};
ghost use Rattle.tx_engine.specs.Calls.{waits};
ghost use Rattle.tx_history.specs.Journal.{advices};
ghost use Rattle.tx_plant.specs.Wholes.{engine_of};
ghost use Rattle.run_switch.specs.Advices.{Sends, SendsAll, SendsBetween, StaysAtRest};
ghost use Rattle.run_switch.specs.Advices.{begun_advisor, due_between, going_on, is_repeat};
ghost use Rattle.run_switch.specs.Advices.{is_up_to, last_with, later, stored_at};
ghost use Rattle.run_switch.specs.Points.{IsAtRest, IsReady, point_of, world_at};
ghost use Rattle.run_switch.specs.Rounds.{IsEmptied};
ghost use Rattle.run_switch.specs.Stored.{stored_id, plain};
ghost use Rattle.run_switch.specs.Traces.{log_of};

use crate::edge::Edge;
use crate::error::ServeError;
use crate::switch::Switch;
use sqlite::Alter;
use std::alloc::{AllocError, Global};
use std::collections::BTreeMap;
use std::io::Write;
use std::marker::Model;
use std::ops::Bound;
use std::time::Clock;
use sw_issuers::Sender;
use sw_participant::{Bytes, NoMemory};
use sw_parts::Link;
use tx_engine::Engine;
use tx_plant::Turn;

/// A stored advice: the member at this place of the transaction gave it.
#[derive(Drop)]
pub(crate) struct Stored {
    id: u64,
    place: usize,
    advice: Bytes,
}

// Where an advice is stored, and the advice.
fn advice_at(id: u64, place: usize, advice: &Bytes) -> Result<Stored, AllocError>
    ensures { IfOk result (λ stored. plain stored ≡ ((id, place), advice.now)) }
{
    Ok(Stored {
        id,
        place,
        advice: advice.copy()?,
    })
}

fn advices_of(alloc: Global, engine: &Engine) -> Result<Vec<Stored>, AllocError>
    ensures { IfOk result (λ list. map plain list.items
        ≡ advices engine.now.flow engine.now.start engine.now.past) }
{
    let mut list = Vec::new(alloc);
    for ((id, place), advice) in engine.advices() {
        list.push(advice_at(*id, *place, advice)?)?;
    }
    Ok(list)
}

/// The place of an advice that was sent.
#[derive(Clone, Copy)]
struct Sent {
    id: u64,
    place: usize,
}

// The oldest advices, at most `most` of them. The others are not looked at.
fn oldest_advices(
    alloc: Global,
    advices: &BTreeMap<(u64, usize), Bytes>,
    most: usize,
) -> Result<Vec<Stored>, AllocError>
    ensures { IfOk result (λ list. map plain list.items ≡ take most advices.now.entries) }
{
    let mut list = Vec::new(alloc);
    for ((id, place), advice) in advices {
        if list.len() >= most {
            return Ok(list);
        }
        list.push(advice_at(*id, *place, advice)?)?;
    }
    Ok(list)
}

// The oldest advices that come after this one, at most `most` of them. The others are not looked at.
fn later_advices(
    alloc: Global,
    advices: &BTreeMap<(u64, usize), Bytes>,
    reached: Sent,
    most: usize,
) -> Result<Vec<Stored>, AllocError>
    ensures { IfOk result (λ list. map plain list.items
        ≡ take most (later (reached.id, reached.place) advices.now.entries)) }
{
    let mut list = Vec::new(alloc);
    let after = Bound::Excluded((reached.id, reached.place));
    for ((id, place), advice) in advices.range((after, Bound::Unbounded)) {
        if list.len() >= most {
            return Ok(list);
        }
        list.push(advice_at(*id, *place, advice)?)?;
    }
    Ok(list)
}

// The advices that are sent next, at most `most` of them: those after the one that was sent last, or the oldest if
// none comes after it. So the advices of a host that accepts none do not hold back those of another one.
fn next_advices(
    alloc: Global,
    advices: &BTreeMap<(u64, usize), Bytes>,
    reached: Option<Sent>,
    most: usize,
) -> Result<Vec<Stored>, AllocError>
    ensures { IfOk result (λ list. map plain list.items ≡ take most
        (going_on (option_map (λ l. (l.id, l.place)) reached) advices.now.entries)) }
{
    if let Some(last) = reached {
        let list = later_advices(alloc, advices, last, most)?;
        if !list.is_empty() {
            return Ok(list);
        }
    }
    oldest_advices(alloc, advices, most)
}

/// What sends the stored advices of a run, and knows which were sent before.
pub(crate) struct Advisor<L: Link> {
    sender: Sender<L>,
    most: usize,
    first: u64,
    last: Option<Sent>,
    reached: Option<Sent>,
}

// Written out, so that no caller proves again how its parts are dropped.
impl<L: Link + Drop> Drop for Advisor<L> {
    fn drop(self) {
        let Advisor {
            sender: _,
            most: _,
            first: _,
            last: _,
            reached: _,
        } = self;
    }
}

impl<L: Link> Model for Advisor<L> {
    ghost use Rattle.std.specs.Prelude.{option_map};
    ghost use Rattle.run_switch.specs.Advices.{PlainAdvisor};

    ghost Value = { PlainAdvisor };

    ghost view = { λ a. record {
      sender = a.sender;
      most = a.most;
      first = a.first;
      last = option_map (λ l. (l.id, l.place)) a.last;
      reached = option_map (λ l. (l.id, l.place)) a.reached;
    } };
}

// Whether the advice comes no later than `last`, in the order of ids and then places.
fn is_up_to(stored: &Stored, last: Option<Sent>) -> bool
    ensures { result ≡ is_up_to (stored_id stored.now) (option_map (λ l. (l.id, l.place)) last) }
{
    match last {
        None => false,
        Some(last) => { stored.id < last.id || stored.id == last.id && stored.place <= last.place }
    }
}

impl<L: Link> Advisor<L> {
    /// For a run whose first own transaction has the id `first`, and that sends at most `most` advices between two
    /// reads.
    pub(crate) fn new(sender: Sender<L>, most: usize, first: u64) -> Advisor<L>
        ensures { result ≡ begun_advisor sender most first }
    {
        Advisor {
            sender,
            most,
            first,
            last: None,
            reached: None,
        }
    }

    // The most advices that it sends between two reads.
    pub(crate) fn most(&self) -> usize
        ensures { result ≡ self.now.most }
    {
        self.most
    }

    // Whether an advice may have been sent before.
    fn is_repeat(&self, stored: &Stored) -> bool
        ensures { result ≡ is_repeat self.now (stored_id stored.now) }
    {
        stored.id < self.first || is_up_to(stored, self.last)
    }

    // Which advice was sent last.
    fn reached(&self) -> Option<Sent>
        ensures { option_map (λ l. (l.id, l.place)) result ≡ self.now.reached }
    {
        self.reached
    }

    // Notes that an advice was sent.
    fn note(&mut self, stored: &Stored)
        ensures { self.new ≡ record self.old {
          last = last_with self.old (stored_id stored.now);
          reached = Some (stored_id stored.now);
        } }
    {
        let sent = Sent {
            id: stored.id,
            place: stored.place,
        };
        if !self.is_repeat(stored) {
            self.last = Some(sent);
        }
        self.reached = Some(sent);
    }

    // Hands an advice to the sender.
    fn hand_over(&mut self, stored: &Stored, is_repeat: bool) -> Result<bool, NoMemory>
        ensures sent { IfOk result (λ accepted.
            SendsAdvice L.sends L.receives L.starves (Unit {0})
            (plain stored.now).1 is_repeat self.old.sender accepted self.new.sender) }
        ensures kept { self.new ≡ record self.old { sender = self.new.sender } }
    {
        self.sender.send(stored.advice.as_slice(), is_repeat)
    }

    // Sends an advice, as a repeat if it may have been sent before. Returns whether it was accepted.
    fn send(&mut self, stored: &Stored) -> Result<bool, NoMemory>
        ensures sent { IfOk result (λ accepted.
            SendsAdvice L.sends L.receives L.starves (Unit {0})
            (plain stored.now).1 (is_repeat self.old (stored_id stored.now)) self.old.sender
            accepted self.new.sender) }
        ensures noted { OnOk result (self.new ≡ record self.old {
          sender = self.new.sender;
          last = last_with self.old (stored_id stored.now);
          reached = Some (stored_id stored.now);
        }) }
    {
        let is_repeat = self.is_repeat(stored);
        let accepted = self.hand_over(stored, is_repeat)?;
        self.note(stored);
        Ok(accepted)
    }
}

// Sends an advice, and drops and counts it if its issuer accepts it.
fn send_advice<S: Alter, L: Link>(
    alloc: Global,
    switch: &mut Switch<S>,
    advisor: &mut Advisor<L>,
    stored: &Stored,
) -> Result<(), ServeError>
    requires rest { IsAtRest (point_of S.Store switch.old) }
    ensures sends { OnOk result (Sends (SendsAdvice L.sends L.receives L.starves (Unit {0}))
        (plain stored.now) advisor.old (point_of S.Store switch.old)
        advisor.new (point_of S.Store switch.new)) }
    ensures rests { OnOk result (StaysAtRest
        (point_of S.Store switch.old) (point_of S.Store switch.new)) }
    ensures queue { OnOk result (waits (engine_of switch.new.plant)
        ≡ waits (engine_of switch.old.plant)) }
{
    let accepted = advisor.send(stored)?;
    if !accepted {
        return Ok(());
    }
    switch.act(alloc, Turn::Ack(stored.id, stored.place))?;
    switch.answered.counts.deliver();
    Ok(())
}

// Sends each of these advices, and drops and counts those that their issuers accept.
fn send_each<S: Alter, L: Link>(
    alloc: Global,
    switch: &mut Switch<S>,
    advisor: &mut Advisor<L>,
    list: &[Stored],
) -> Result<(), ServeError>
    requires rest { IsAtRest (point_of S.Store switch.old) }
    ensures sends { OnOk result (SendsAll (SendsAdvice L.sends L.receives L.starves (Unit {0}))
        (map plain list.now) advisor.old (point_of S.Store switch.old)
        advisor.new (point_of S.Store switch.new)) }
    ensures rests { OnOk result (StaysAtRest
        (point_of S.Store switch.old) (point_of S.Store switch.new)) }
    ensures queue { OnOk result (waits (engine_of switch.new.plant)
        ≡ waits (engine_of switch.old.plant)) }
{
    for stored in list {
        send_advice(alloc, switch, advisor, stored)?;
    }
    Ok(())
}

/// Sends each stored advice once, in the order of ids and places, and drops those that their issuers accept.
pub(crate) fn send_advices<S: Alter, L: Link>(
    alloc: Global,
    switch: &mut Switch<S>,
    advisor: &mut Advisor<L>,
) -> Result<(), ServeError>
    requires rest { IsAtRest (point_of S.Store switch.old) }
    ensures sends { OnOk result (SendsAll (SendsAdvice L.sends L.receives L.starves (Unit {0}))
        (stored_at (point_of S.Store switch.old)) advisor.old (point_of S.Store switch.old)
        advisor.new (point_of S.Store switch.new)) }
    ensures rest { OnOk result (IsAtRest (point_of S.Store switch.new)) }
    ensures emptied { OnOk result (IsEmptied (world_at (point_of S.Store switch.old))
        → IsEmptied (world_at (point_of S.Store switch.new))) }
{
    let list = advices_of(alloc, switch.engine())?;
    send_each(alloc, switch, advisor, &list)
}

// The advices that are sent before the next read.
fn due_advices<S: Alter, L: Link>(
    alloc: Global,
    switch: &Switch<S>,
    advisor: &Advisor<L>,
) -> Result<Vec<Stored>, AllocError>
    ensures { IfOk result (λ list. map plain list.items
        ≡ due_between advisor.now (point_of S.Store switch.now)) }
{
    let advices = switch.engine().advices();
    next_advices(alloc, advices, advisor.reached(), advisor.most())
}

/// Sends the next stored advices between two reads, at most as many as the advisor may; those that are accepted
/// are dropped. It begins after the one that was sent last, and with the oldest if none comes after it. Then the
/// history is cut, if it is long or its lines are wanted.
pub(crate) fn send_between<S: Alter, T: Clock, L: Link, E: Write>(
    edge: &mut Edge<'_, T, E>,
    switch: &mut Switch<S>,
    advisor: &mut Advisor<L>,
) -> Result<(), ServeError>
    requires ready { IsReady (point_of S.Store switch.old) }
    ensures sends { OnOk result (SendsBetween
        (SendsAdvice L.sends L.receives L.starves (Unit {0}))
        advisor.old (point_of S.Store switch.old) (log_of E.contents edge.old.stderr)
        advisor.new (point_of S.Store switch.new) (log_of E.contents edge.new.stderr)) }
    ensures ready { OnOk result (IsReady (point_of S.Store switch.new)) }
{
    let list = due_advices(edge.alloc, switch, advisor)?;
    if list.is_empty() {
        return Ok(());
    }
    send_each(edge.alloc, switch, advisor, &list)?;
    switch.cut_traced(edge)
}
