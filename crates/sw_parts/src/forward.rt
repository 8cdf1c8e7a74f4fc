//! What is stored to be forwarded.

ghost use Rattle.std.specs.Prelude.{◌≡◌, [], IfOk};
ghost use Rattle.sw_messages.specs.Requests.{class_in};
ghost use Rattle.sw_parts.specs.Forwards.{approval, forward_answer, forwarded, reversal};
ghost use Rattle.sw_participant.specs.Outcomes.{StaysQuiet, RestoresNothing};
ghost use Rattle.sw_parts.specs.Quiet.{PassesOver, SelectsNone};

use crate::answers::{JOINS, PASSES};
use std::alloc::Global;
use sw_context::Context;
use sw_messages::{Class, STAND_IN, authorization_advice, class_in, request_in, reversal_advice};
use sw_participant::{AdviceResult, Bytes, NoMemory, Participant, Text};

/// Gives what issuers are notified of later, to be stored: at commit an authorization advice (0120)
/// of what the switch approved by itself, with the approval code and the response code, and
/// otherwise a reversal advice (0420) of each reversal.
pub struct Forward {
    alloc: Global,
}

// Written out, so that no caller proves again how its parts are dropped.
impl Drop for Forward {
    fn drop(self) {
        let Forward { alloc: _ } = self;
    }
}

fn answer(class: Option<Class>) -> u8
    ensures { result ≡ forward_answer class }
{
    match class {
        Some(Class::Authorization) => JOINS,
        Some(Class::Reversal) => JOINS,
        _ => PASSES,
    }
}

// The advice of what the switch approved by itself.
fn approval(alloc: Global, context: &Context) -> Result<Option<Bytes>, NoMemory>
    ensures { IfOk result (λ advice. advice ≡ approval context.now) }
{
    let Some(request) = request_in(alloc, context)? else {
        return Ok(None);
    };
    Ok(Some(authorization_advice(alloc, &request, context)?))
}

// The advice of a reversal; a request for anything else is not decoded.
fn reversal(alloc: Global, context: &Context) -> Result<Option<Bytes>, NoMemory>
    ensures { IfOk result (λ advice. advice ≡ reversal context.now) }
{
    let Some(Class::Reversal) = class_in(context) else {
        return Ok(None);
    };
    let Some(request) = request_in(alloc, context)? else {
        return Ok(None);
    };
    Ok(Some(reversal_advice(alloc, &request)?))
}

fn forwarded(alloc: Global, context: &Context) -> Result<Option<Bytes>, NoMemory>
    ensures { IfOk result (λ advice. advice ≡ forwarded context.now) }
{
    if context.get(STAND_IN).is_some() {
        approval(alloc, context)
    } else {
        reversal(alloc, context)
    }
}

impl Forward {
    /// A participant that keeps nothing. It takes no memory: `alloc` is for the messages that it
    /// reads and writes.
    pub fn new(alloc: Global) -> Forward
        ensures { ⟦<Forward as Participant>⟧.object result ≡ [] }
    {
        Forward { alloc }
    }
}

impl Participant for Forward {
    ghost object = { λ _. [] };

    ghost prepares = { λ id o x byte p y.
        (p ≡ o) × (byte ≡ forward_answer (class_in x)) × (y ≡ x) };

    ghost prepares_for_abort = { λ id o x byte p y. PassesOver o x byte p y };

    ghost selects = { λ id o x text p. SelectsNone o text p };

    ghost commits = { λ id recovering o x advice p y.
        (p ≡ o) × (advice ≡ forwarded x) × (y ≡ x) };

    ghost aborts = { λ id recovering o x advice p y. StaysQuiet o x advice p y };

    ghost recovers = { λ id commit o x p y. RestoresNothing o x p y };

    fn prepare(&mut self, id: u64, context: &mut Context) -> Result<u8, NoMemory> {
        Ok(answer(class_in(context)))
    }

    fn prepare_for_abort(&mut self, id: u64, context: &mut Context) -> Result<u8, NoMemory> {
        Ok(PASSES)
    }

    fn select(&mut self, id: u64, context: &Context) -> Result<Text, NoMemory> {
        Ok(Text::from_str(self.alloc, "")?)
    }

    fn commit(&mut self, id: u64, context: &mut Context, recovering: bool) -> AdviceResult {
        forwarded(self.alloc, context)
    }

    fn abort(&mut self, id: u64, context: &mut Context, recovering: bool) -> AdviceResult {
        Ok(None)
    }

    fn recover(&mut self, id: u64, context: &mut Context, commit: bool) -> Result<(), NoMemory> {
        Ok(())
    }
}
