//! What the switch decides if the issuer's answer is late.

ghost use Rattle.std.specs.Prelude.{◌≡◌, ◌≤◌, ◌∷◌, ℕ, [], length, IfOk, OnOk, OnErr};
ghost use Rattle.sw_base.specs.Digits.{number_of};
ghost use Rattle.sw_parts.specs.Quiet.{PassesOver, SelectsNone};
ghost use Rattle.sw_parts.specs.StandIns.{is_open, is_small, stand_in_code, stood_in};
ghost use Rattle.sw_parts.specs.StandIns.{Judged, StandsInBy, StandsIn};

use crate::answers::{LEAVES_NOTES, PASSES, REFUSES};
use iso_msg::Message;
use std::alloc::Global;
use sw_context::Context;
use sw_messages::{
    APPROVAL, CODE, LATE, ResponseCode, STAND_IN, amount_of, note, note_code, put_part, request_in,
};
use sw_participant::{NoMemory, Text, Unjoined};

/// Decides in place of an issuer whose answer is late: an amount up to the greatest one is
/// approved, with an approval code of `SI` and the last four digits of the STAN, and any other is
/// refused with 91, issuer inoperative.
pub struct StandIn {
    alloc: Global,
    /// The greatest amount that it approves, in minor units.
    most: u64,
}

// Written out, so that no caller proves again how its parts are dropped.
impl Drop for StandIn {
    fn drop(self) {
        let StandIn { alloc: _, most: _ } = self;
    }
}

fn is_open(context: &Context) -> bool
    ensures { result ≡ is_open context.now }
{
    context.get(LATE).is_some() && context.get(CODE).is_none()
}

fn is_small(most: u64, amount: &[u8]) -> bool
    requires { length amount.now ≤ 12 }
    ensures { result ≡ is_small most (number_of amount.now) }
{
    match amount_of(amount) {
        Some(amount) => amount <= most,
        None => false,
    }
}

fn stand_in_code(stan: &[u8]) -> [u8; 6]
    requires { length stan.now ≡ 6 }
    ensures { result ≡ stand_in_code stan.now }
{
    let mut code = *b"SI0000";
    put_part(&mut code, 2, &stan[2..]);
    code
}

fn approve(stan: &[u8], context: &mut Context) -> Result<(), NoMemory>
    requires { length stan.now ≡ 6 }
    ensures approved { OnOk result (context.new ≡ stood_in stan.now context.old) }
    ensures kept { OnErr result (context.new ≡ context.old) }
{
    let mut next = context.copy()?;
    note_code(&mut next, ResponseCode::Approved)?;
    let code = stand_in_code(stan);
    note(&mut next, APPROVAL, &code)?;
    note(&mut next, STAND_IN, b"1")?;
    *context = next;
    Ok(())
}

fn decide(most: u64, amount: &[u8], stan: &[u8], context: &mut Context) -> Result<u8, NoMemory>
    requires amount { length amount.now ≤ 12 }
    requires stan { length stan.now ≡ 6 }
    ensures decided { IfOk result (λ byte.
        Judged (is_small most (number_of amount.now)) stan.now context.old byte context.new) }
    ensures kept { OnErr result (context.new ≡ context.old) }
{
    if is_small(most, amount) {
        approve(stan, context)?;
        return Ok(LEAVES_NOTES);
    }
    note_code(context, ResponseCode::IssuerInoperative)?;
    Ok(REFUSES)
}

fn stand_in(most: u64, request: &Option<Message>, context: &mut Context) -> Result<u8, NoMemory>
    ensures stood_in { IfOk result (λ byte.
        StandsInBy most request.now context.old byte context.new) }
    ensures kept { OnErr result (context.new ≡ context.old) }
{
    let Some(message) = request else {
        return Ok(PASSES);
    };
    let Some(amount) = message.get(4) else {
        return Ok(PASSES);
    };
    let Some(stan) = message.get(11) else {
        return Ok(PASSES);
    };
    decide(most, amount, stan, context)
}

impl StandIn {
    /// A participant that approves amounts up to this one, in minor units. It takes no memory:
    /// `alloc` is for the messages that it reads.
    pub fn new(alloc: Global, most: u64) -> StandIn
        ensures { ⟦<StandIn as Unjoined>⟧.object result ≡ most ∷ [] }
    {
        StandIn { alloc, most }
    }
}

impl Unjoined for StandIn {
    ghost object = { λ standin. standin.most ∷ [] };

    ghost prepares = { λ id o x byte p y. (most : ℕ)
        × (o ≡ most ∷ []) × (p ≡ o) × StandsIn most x byte y };

    ghost prepares_for_abort = { λ id o x byte p y. PassesOver o x byte p y };

    ghost selects = { λ id o x text p. SelectsNone o text p };

    fn prepare(&mut self, id: u64, context: &mut Context) -> Result<u8, NoMemory> {
        if !is_open(context) {
            return Ok(PASSES);
        }
        let request = request_in(self.alloc, context)?;
        stand_in(self.most, &request, context)
    }

    fn prepare_for_abort(&mut self, id: u64, context: &mut Context) -> Result<u8, NoMemory> {
        Ok(PASSES)
    }

    fn select(&mut self, id: u64, context: &Context) -> Result<Text, NoMemory> {
        Ok(Text::from_str(self.alloc, "")?)
    }
}
