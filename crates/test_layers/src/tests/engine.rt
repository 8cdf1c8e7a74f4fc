//! Calls of an engine that no subcommand makes: memory reserved for offers, up to a full history, a mark beyond the
//! last entry, and an answer of a call that is held. The other calls on a full history are in
//! `tests/step/stops.cases`, the last id in `tests/run/recover.cases`.

use crate::tests::flows::opened;
use std::alloc::Global;
use std::test::Fail;
use sw_context::Context;
use tx_engine::{Engine, EngineError, Next, Offer};

/// The entries that a history has at most, as `docs/use/LIMITS.md` says.
const MOST: usize = 1_048_576;

fn is_full(answer: Result<(), EngineError>) -> bool {
    matches!(answer, Err(EngineError::HistoryFull))
}

pub fn offer(alloc: Global, engine: &mut Engine) -> Result<usize, EngineError> {
    engine.offer(&Context::new(alloc))
}

fn offer_reserved(alloc: Global, engine: &mut Engine) -> Result<usize, EngineError> {
    let offer = Offer::new(&Context::new(alloc))?;
    if engine.spare() == 0 {
        return Err(EngineError::OutOfMemory);
    }
    Ok(engine.offer_reserved(offer))
}

// Memory is reserved for two offers, and one of them is made.
fn are_reserved(alloc: Global, engine: &mut Engine) -> Result<bool, EngineError> {
    engine.reserve_offer()?;
    engine.reserve_offer()?;
    let were_two = engine.spare() == 2;
    Ok(were_two && offer_reserved(alloc, engine)? == 1 && engine.spare() == 1)
}

fn set_breaks(engine: &mut Engine, count: usize) -> Result<(), EngineError> {
    for _ in 0..count {
        engine.set_break("p")?;
    }
    Ok(())
}

// The history takes one more entry: no further offer is reserved, and one without reserved memory takes it.
fn takes_the_last(alloc: Global, engine: &mut Engine) -> Result<bool, EngineError> {
    let had_one = engine.spare() == 1 && is_full(engine.reserve_offer());
    Ok(had_one && offer(alloc, engine)? == MOST && engine.spare() == 0)
}

fn is_cut(alloc: Global, engine: &mut Engine) -> Result<bool, EngineError> {
    let refused = engine.written(MOST + 1);
    engine.written(MOST)?;
    engine.cut(alloc)?;
    let is_empty = engine.history().is_empty() && engine.queued() == 2;
    Ok(is_empty && matches!(refused, Err(EngineError::BadMark)))
}

#[test]
fn a_full_history_of_reserved_offers(rt: HostRuntime) -> Result<(), Fail> {
    let mut engine = opened(rt.alloc())?;
    assert!(rt; are_reserved(rt.alloc(), &mut engine)?);
    set_breaks(&mut engine, MOST - 2)?;
    assert!(rt; takes_the_last(rt.alloc(), &mut engine)?);
    assert!(rt; is_cut(rt.alloc(), &mut engine)?);
    Ok(())
}

/// Makes an offer, breaks at p and takes the offer: entries 1 to 3, which are written.
pub fn hold(alloc: Global, engine: &mut Engine) -> Result<(), EngineError> {
    offer(alloc, engine)?;
    engine.set_break("p")?;
    engine.take(alloc, 0)?;
    engine.written(3)
}

fn is_held(engine: &Engine) -> bool {
    matches!(engine.next(0), Ok(Next::Held(_)))
}

fn answer(alloc: Global, engine: &mut Engine) -> Result<usize, EngineError> {
    engine.answered(alloc, 0, 0x41, &Context::new(alloc))
}

#[test]
fn a_call_that_is_held_may_be_answered(rt: HostRuntime) -> Result<(), Fail> {
    let mut engine = opened(rt.alloc())?;
    hold(rt.alloc(), &mut engine)?;
    assert!(rt; is_held(&engine) && answer(rt.alloc(), &mut engine)? == 4);
    Ok(())
}
