//! Stations in a run: each remembers the calls that it made.

ghost use Rattle.std.specs.Prelude.{◌≡◌, [], ◌∷◌, ◌++◌, IfOk, get_or, true};
ghost use Rattle.sw_participant.specs.Callers.{Within};
ghost use Rattle.tx_locked.specs.Linked.{IsStation, made, station_seen};

use crate::run::Run;
use std::alloc::{AllocError, Global};
use std::marker::{Model, PhantomData};
use sw_context::Context;
use sw_participant::{Call, Caller, NoMemory, Reply, Text};

/// A call that was made, with the context before it and after it.
pub struct MadeCall {
    pub call: Call,
    pub reply: Reply,
    pub before: Context,
    pub after: Context,
}

// Written out, so that no caller proves again how its parts are dropped.
impl Drop for MadeCall {
    fn drop(self) {
        let MadeCall {
            call: _,
            reply: _,
            before: _,
            after: _,
        } = self;
    }
}

impl MadeCall {
    /// Whether the calls are the same, with reply and contexts.
    pub fn is_same(&self, other: &MadeCall) -> bool
        ensures { result ≡ true → self.now ≡ other.now }
    {
        self.call == other.call
            && self.reply.is_same(&other.reply)
            && self.before.is_same(&other.before)
            && self.after.is_same(&other.after)
    }
}

/// What a station consists of, outside of a run.
#[derive(Drop)]
pub struct StationParts<C: Caller> {
    pub name: Text,
    pub participant: C,
    /// How many calls it has made.
    pub calls: u64,
}

/// A station in a run. Contracts see which one it is, its name, and its calls in the run.
#[derive(Drop)]
pub struct StationLog<K: Run, C: Caller> {
    index: usize,
    name: Text,
    participant: C,
    calls: u64,
    log: Vec<MadeCall>,
    of: PhantomData<K>,
}

impl<K: Run, C: Caller> Model for StationLog<K, C> {
    ghost use Rattle.std.specs.Prelude.{[], get_or, ◌≡◌};
    ghost use Rattle.tx_locked.specs.Linked.{IsStation, StationSeen, station_seen};

    ghost Value = { StationSeen };

    ghost view = { λ s. station_seen s.index s.name s.log.items };

    ghost invariant = { λ s. IsStation (K.rule s.index) (get_or K.objects s.index [])
        (get_or K.counts s.index 0) (C.rule s.participant) (C.object s.participant)
        s.calls s.log.items
        × (s.name ≡ get_or K.names s.index []) };
}

fn copy_reply(reply: &Reply) -> Result<Reply, AllocError>
    ensures { IfOk result (λ copy. copy ≡ reply.now) }
{
    match reply {
        Reply::Answer(byte) => Ok(Reply::Answer(*byte)),
        Reply::Chosen(text) => Ok(Reply::Chosen(text.copy()?)),
        Reply::Told(Some(advice)) => Ok(Reply::Told(Some(advice.copy()?))),
        Reply::Told(None) => Ok(Reply::Told(None)),
        Reply::Recovered => Ok(Reply::Recovered),
    }
}

/// Copies of what a call left.
pub(crate) fn copy_left(reply: &Reply, context: &Context) -> Result<(Reply, Context), NoMemory>
    ensures { IfOk result (λ r. (r.0 ≡ reply.now) × (r.1 ≡ context.now)) }
{
    Ok((copy_reply(reply)?, context.copy()?))
}

impl<K: Run, C: Caller> StationLog<K, C> {
    /// A station as it is when the run begins.
    pub fn new(alloc: Global, index: usize, parts: StationParts<C>) -> StationLog<K, C>
        requires rule { Within (C.rule parts.participant) (K.rule index) }
        requires object { C.object parts.participant ≡ get_or K.objects index [] }
        requires count { parts.calls ≡ get_or K.counts index 0 }
        requires name { parts.name ≡ get_or K.names index [] }
        ensures { result ≡ station_seen index parts.name [] }
    {
        let StationParts {
            name,
            participant,
            calls,
        } = parts;
        StationLog {
            index,
            name,
            participant,
            calls,
            log: Vec::new(alloc),
            of: PhantomData,
        }
    }

    /// Makes the call with this context, and returns the reply and the context that it left. After
    /// `NoMemory` the run has to end: the call may have been made.
    pub fn call(&mut self, call: &Call, context: Context) -> Result<(Reply, Context), NoMemory>
        ensures made { IfOk result (λ r.
            self.new.log ≡ self.old.log ++ made call.now r.0 context r.1 ∷ []) }
    {
        self.log.reserve(1)?;
        let before = context.copy()?;
        let mut after = context;
        let reply = self.participant.make(call, &mut after)?;
        let left = copy_left(&reply, &after);
        self.calls = self.calls.saturating_add(1);
        self.log.push_reserved(MadeCall {
            call: *call,
            reply,
            before,
            after,
        });
        left
    }

    /// Which station it was, its parts, and its calls in the run.
    pub fn into_parts(self) -> (usize, StationParts<C>, Vec<MadeCall>)
        ensures station { IsStation (K.rule result.0) (get_or K.objects result.0 [])
            (get_or K.counts result.0 0) (C.rule result.1.participant)
            (C.object result.1.participant) result.1.calls result.2.items }
        ensures name { result.1.name ≡ get_or K.names result.0 [] }
    {
        let StationLog {
            index,
            name,
            participant,
            calls,
            log,
            of: _,
        } = self;
        let parts = StationParts {
            name,
            participant,
            calls,
        };
        (index, parts, log)
    }
}
