//! One of the switch's participants.

use std::alloc::Global;
use sw_context::Context;
use sw_issuers::Issuer;
use sw_participant::{AdviceResult, Bystander, NoMemory, Participant, Text};
use sw_parts::{CheckFields, Forward, Heap, Limits, QueryIssuer, Respond, Reverse, Route, StandIn};

/// One of the switch's participants. A query asks a simulated issuer.
pub enum Simulated {
    Check(Bystander<CheckFields>),
    Limits(Limits),
    Route(Bystander<Route>),
    Reverse(Reverse),
    Query(Bystander<QueryIssuer<Issuer, Heap>>),
    StandIn(Bystander<StandIn>),
    Forward(Forward),
    Respond(Bystander<Respond>),
}

// Written out, so that no caller proves again how its parts are dropped.
impl Drop for Simulated {
    fn drop(self) {
        match self {
            Simulated::Check(_) => {}
            Simulated::Limits(_) => {}
            Simulated::Route(_) => {}
            Simulated::Reverse(_) => {}
            Simulated::Query(_) => {}
            Simulated::StandIn(_) => {}
            Simulated::Forward(_) => {}
            Simulated::Respond(_) => {}
        }
    }
}

// Contracts see nothing of what it keeps, and allow it every reply: each of the switch's participants promises by itself
// what it does.
impl Participant for Simulated {
    ghost use Rattle.std.specs.Prelude.{[]};

    ghost object = { λ _. [] };

    ghost prepares = { λ id o x byte p y. Unit {0} };

    ghost prepares_for_abort = { λ id o x byte p y. Unit {0} };

    ghost selects = { λ id o x text p. Unit {0} };

    ghost commits = { λ id recovering o x advice p y. Unit {0} };

    ghost aborts = { λ id recovering o x advice p y. Unit {0} };

    ghost recovers = { λ id commit o x p y. Unit {0} };

    fn prepare(&mut self, id: u64, context: &mut Context) -> Result<u8, NoMemory> {
        match self {
            Simulated::Check(part) => part.prepare(id, context),
            Simulated::Limits(part) => part.prepare(id, context),
            Simulated::Route(part) => part.prepare(id, context),
            Simulated::Reverse(part) => part.prepare(id, context),
            Simulated::Query(part) => part.prepare(id, context),
            Simulated::StandIn(part) => part.prepare(id, context),
            Simulated::Forward(part) => part.prepare(id, context),
            Simulated::Respond(part) => part.prepare(id, context),
        }
    }

    fn prepare_for_abort(&mut self, id: u64, context: &mut Context) -> Result<u8, NoMemory> {
        match self {
            Simulated::Check(part) => part.prepare_for_abort(id, context),
            Simulated::Limits(part) => part.prepare_for_abort(id, context),
            Simulated::Route(part) => part.prepare_for_abort(id, context),
            Simulated::Reverse(part) => part.prepare_for_abort(id, context),
            Simulated::Query(part) => part.prepare_for_abort(id, context),
            Simulated::StandIn(part) => part.prepare_for_abort(id, context),
            Simulated::Forward(part) => part.prepare_for_abort(id, context),
            Simulated::Respond(part) => part.prepare_for_abort(id, context),
        }
    }

    fn select(&mut self, id: u64, context: &Context) -> Result<Text, NoMemory> {
        match self {
            Simulated::Check(part) => part.select(id, context),
            Simulated::Limits(part) => part.select(id, context),
            Simulated::Route(part) => part.select(id, context),
            Simulated::Reverse(part) => part.select(id, context),
            Simulated::Query(part) => part.select(id, context),
            Simulated::StandIn(part) => part.select(id, context),
            Simulated::Forward(part) => part.select(id, context),
            Simulated::Respond(part) => part.select(id, context),
        }
    }

    fn commit(&mut self, id: u64, context: &mut Context, recovering: bool) -> AdviceResult {
        match self {
            Simulated::Check(part) => part.commit(id, context, recovering),
            Simulated::Limits(part) => part.commit(id, context, recovering),
            Simulated::Route(part) => part.commit(id, context, recovering),
            Simulated::Reverse(part) => part.commit(id, context, recovering),
            Simulated::Query(part) => part.commit(id, context, recovering),
            Simulated::StandIn(part) => part.commit(id, context, recovering),
            Simulated::Forward(part) => part.commit(id, context, recovering),
            Simulated::Respond(part) => part.commit(id, context, recovering),
        }
    }

    fn abort(&mut self, id: u64, context: &mut Context, recovering: bool) -> AdviceResult {
        match self {
            Simulated::Check(part) => part.abort(id, context, recovering),
            Simulated::Limits(part) => part.abort(id, context, recovering),
            Simulated::Route(part) => part.abort(id, context, recovering),
            Simulated::Reverse(part) => part.abort(id, context, recovering),
            Simulated::Query(part) => part.abort(id, context, recovering),
            Simulated::StandIn(part) => part.abort(id, context, recovering),
            Simulated::Forward(part) => part.abort(id, context, recovering),
            Simulated::Respond(part) => part.abort(id, context, recovering),
        }
    }

    fn recover(&mut self, id: u64, context: &mut Context, commit: bool) -> Result<(), NoMemory> {
        match self {
            Simulated::Check(part) => part.recover(id, context, commit),
            Simulated::Limits(part) => part.recover(id, context, commit),
            Simulated::Route(part) => part.recover(id, context, commit),
            Simulated::Reverse(part) => part.recover(id, context, commit),
            Simulated::Query(part) => part.recover(id, context, commit),
            Simulated::StandIn(part) => part.recover(id, context, commit),
            Simulated::Forward(part) => part.recover(id, context, commit),
            Simulated::Respond(part) => part.recover(id, context, commit),
        }
    }
}
