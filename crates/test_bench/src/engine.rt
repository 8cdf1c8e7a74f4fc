//! Transactions of an engine.

use crate::MEMORY;
use flow_asm::{Code, assemble};
use flow_model::{Flow, Group};
use std::alloc::Global;
use sw_context::Context;
use sw_participant::{Kind, Sequence};
use tx_engine::{Engine, EngineError};
use tx_history::JournalView;

/// The answer byte PREPARED.
const PREPARED: u8 = 1;

fn code_of_two(alloc: Global) -> Result<Code, &'static str> {
    let entries = [("check", Kind::PLAIN), ("send", Kind::PLAIN)];
    let mut groups = Vec::new(alloc);
    let Ok(group) = Group::of(alloc, "main", &entries) else {
        return Err(MEMORY);
    };
    let Ok(()) = groups.push(group) else {
        return Err(MEMORY);
    };
    let flow = Flow {
        retries: 0,
        groups: Sequence::new(groups),
    };
    let Ok(()) = flow.check() else {
        return Err("the flow was refused");
    };
    assemble(alloc, &flow).map_err(|_| MEMORY)
}

// A context with one entry of 64 bytes.
fn request(alloc: Global) -> Result<Context, &'static str> {
    let mut context = Context::new(alloc);
    match context.put("request", &[48; 64]) {
        Ok(()) => Ok(context),
        Err(_) => Err(MEMORY),
    }
}

fn write_all(engine: &mut Engine) -> Result<(), EngineError> {
    let entries = engine.history().len();
    engine.written(entries)
}

fn run_one(alloc: Global, engine: &mut Engine, context: &Context) -> Result<(), EngineError> {
    engine.offer(context)?;
    let _taken = engine.take(alloc, 0)?;
    write_all(engine)?;
    for _ in 0..2 {
        engine.answered(alloc, 0, PREPARED, context)?;
        write_all(engine)?;
    }
    for _ in 0..2 {
        engine.told(alloc, 0, None)?;
        write_all(engine)?;
    }
    Ok(())
}

fn opened(alloc: Global, code: &Code) -> Result<Engine, &'static str> {
    match Engine::open(alloc, code, &JournalView::blank(alloc), 1) {
        Ok(engine) => Ok(engine),
        Err(_) => Err("the engine was not opened"),
    }
}

fn run_all(
    alloc: Global,
    engine: &mut Engine,
    context: &Context,
    count: u64,
) -> Result<(), &'static str> {
    for _ in 0..count {
        if run_one(alloc, engine, context).is_err() {
            return Err("the engine refused a call");
        }
    }
    Ok(())
}

/// Runs `count` transactions, one after the other.
pub fn run(alloc: Global, count: u64) -> Result<(), &'static str> {
    let code = code_of_two(alloc)?;
    let context = request(alloc)?;
    let mut engine = opened(alloc, &code)?;
    run_all(alloc, &mut engine, &context, count)
}
