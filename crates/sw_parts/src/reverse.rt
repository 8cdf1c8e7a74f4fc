//! The reversal of what was sent to an issuer.

ghost use Rattle.std.specs.Prelude.{◌≡◌, [], IfOk};
ghost use Rattle.sw_messages.specs.Requests.{class_in, request_in};
ghost use Rattle.sw_participant.specs.Outcomes.{RestoresNothing};
ghost use Rattle.sw_parts.specs.Quiet.{PassesOver, SelectsNone};
ghost use Rattle.sw_parts.specs.Reversals.{is_due, advice_of, committed_advice, aborted_advice};
ghost use Rattle.sw_parts.specs.Reversals.{reverse_answer};

use crate::answers::{JOINS, PASSES};
use iso_codec::encode;
use std::alloc::Global;
use sw_context::Context;
use sw_messages::{CODE, Class, LATE, SENT, class_in, is_approved, request_in, reversal_of};
use sw_participant::{AdviceResult, Bytes, NoMemory, Participant, Text};

/// Gives the reversal (0420) of an authorization that an issuer may have approved, if the
/// transaction did not end with that approval: at commit if the issuer's answer is late, at abort
/// if the request was sent and its answer is late or was an approval, and at any abort after a
/// restart, since the context may then lack the notes.
pub struct Reverse {
    alloc: Global,
}

// Written out, so that no caller proves again how its parts are dropped.
impl Drop for Reverse {
    fn drop(self) {
        let Reverse { alloc: _ } = self;
    }
}

fn is_due(recovering: bool, context: &Context) -> bool
    ensures { result ≡ is_due recovering context.now }
{
    recovering
        || (context.get(SENT).is_some()
            && (context.get(LATE).is_some() || is_approved(context.get(CODE))))
}

fn advice_of(alloc: Global, due: bool, context: &Context) -> Result<Option<Bytes>, NoMemory>
    ensures { IfOk result (λ advice. advice ≡ advice_of due (request_in context.now)) }
{
    if !due {
        return Ok(None);
    }
    let Some(Class::Authorization) = class_in(context) else {
        return Ok(None);
    };
    let Some(request) = request_in(alloc, context)? else {
        return Ok(None);
    };
    let reversal = reversal_of(alloc, &request)?;
    Ok(Some(Bytes::new(encode(alloc, &reversal)?)))
}

fn answer(class: Option<Class>) -> u8
    ensures { result ≡ reverse_answer class }
{
    match class {
        Some(Class::Authorization) => JOINS,
        _ => PASSES,
    }
}

impl Reverse {
    /// A participant that keeps nothing. It takes no memory: `alloc` is for the messages that it
    /// reads and writes.
    pub fn new(alloc: Global) -> Reverse
        ensures { ⟦<Reverse as Participant>⟧.object result ≡ [] }
    {
        Reverse { alloc }
    }
}

impl Participant for Reverse {
    ghost object = { λ _. [] };

    ghost prepares = { λ id o x byte p y.
        (p ≡ o) × (byte ≡ reverse_answer (class_in x)) × (y ≡ x) };

    ghost prepares_for_abort = { λ id o x byte p y. PassesOver o x byte p y };

    ghost selects = { λ id o x text p. SelectsNone o text p };

    ghost commits = { λ id recovering o x advice p y.
        (p ≡ o) × (advice ≡ committed_advice x) × (y ≡ x) };

    ghost aborts = { λ id recovering o x advice p y.
        (p ≡ o) × (advice ≡ aborted_advice recovering x) × (y ≡ x) };

    ghost recovers = { λ id commit o x p y. RestoresNothing o x p y };

    fn prepare(&mut self, id: u64, context: &mut Context) -> Result<u8, NoMemory> {
        Ok(answer(class_in(context)))
    }

    fn commit(&mut self, id: u64, context: &mut Context, recovering: bool) -> AdviceResult {
        advice_of(self.alloc, context.get(LATE).is_some(), context)
    }

    fn abort(&mut self, id: u64, context: &mut Context, recovering: bool) -> AdviceResult {
        advice_of(self.alloc, is_due(recovering, context), context)
    }

    fn prepare_for_abort(&mut self, id: u64, context: &mut Context) -> Result<u8, NoMemory> {
        Ok(PASSES)
    }

    fn select(&mut self, id: u64, context: &Context) -> Result<Text, NoMemory> {
        Ok(Text::from_str(self.alloc, "")?)
    }

    fn recover(&mut self, id: u64, context: &mut Context, commit: bool) -> Result<(), NoMemory> {
        Ok(())
    }
}
