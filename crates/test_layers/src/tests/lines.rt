//! Lines of JSON that `run`, which alone writes JSON, does not have: breakpoints, a call that is let go, a retry, a bad
//! answer, and a response code that is escaped. The other lines are in `tests/run/trace.cases`, and those of text in
//! `tests/step`.

use crate::tests::engine::{hold, offer};
use crate::tests::flows::opened;
use std::alloc::{AllocError, Global};
use std::test::Fail;
use sw_context::Context;
use tx_engine::{Engine, EngineError};
use tx_trace::Tracer;

/// How many entries come before a line, and how the line ends, as `docs/use/TRACE.md` says it: the whole lines of
/// breakpoints, of the call that is let go and of the retry's abort.
const ENDS: [(usize, &str); 6] = [
    (1, r#"{"event":"break","participant":"p"}"#),
    (3, r#"{"event":"go","session":0}"#),
    (4, r#"{"event":"clear","participant":"p"}"#),
    (
        5,
        r#""answer":["RETRY"],"bad":false,"joined":true,"saved":true,"bound":false,"recovering":false,"next":{"call":"abort","participant":"p"}}"#,
    ),
    (
        6,
        r#"{"event":"outcome","id":1,"phase":"U","call":"abort","participant":"p","recovering":false,"next":{"call":"shelve"}}"#,
    ),
    (
        9,
        r#""answer":[],"bad":true,"joined":true,"saved":true,"rc":"0\"\\\n\u0007\u00E9","bound":false,"recovering":false,"next":{"call":"abort","participant":"p"}}"#,
    ),
];

fn noting(alloc: Global, code: &[u8]) -> Result<Context, EngineError> {
    let mut context = Context::new(alloc);
    match context.put("rc", code) {
        Ok(()) => Ok(context),
        Err(_) => Err(EngineError::OutOfMemory),
    }
}

// Entries 1 to 7: the call that is held is let go, answers RETRY and is aborted.
fn retry(alloc: Global, engine: &mut Engine) -> Result<(), EngineError> {
    hold(alloc, engine)?;
    engine.let_go(0)?;
    engine.clear_break("p")?;
    engine.answered(alloc, 0, 0x02, &Context::new(alloc))?;
    engine.written(6)?;
    engine.told(alloc, 0, None)?;
    Ok(())
}

// Entries 8 to 10: another transaction gets a bad answer, which notes a response code.
fn answer_badly(alloc: Global, engine: &mut Engine) -> Result<(), EngineError> {
    offer(alloc, engine)?;
    engine.take(alloc, 0)?;
    engine.written(9)?;
    let context = noting(alloc, b"0\"\\\n\x07\xe9")?;
    engine.answered(alloc, 0, 0x04, &context)?;
    Ok(())
}

/// The line of JSON that comes after the first `count` entries.
fn json_after(alloc: Global, engine: &Engine, count: usize) -> Result<Option<Vec<u8>>, AllocError> {
    let mut tracer = Tracer::new(alloc, engine);
    if count > 0 {
        let _before = tracer.line_at(alloc, engine, count)?;
    }
    tracer.next_json(alloc, engine)
}

fn ends(alloc: Global, engine: &Engine, count: usize, wanted: &str) -> bool {
    match json_after(alloc, engine, count) {
        Ok(Some(json)) => json.ends_with(wanted.as_bytes()),
        _ => false,
    }
}

#[test]
fn json_that_no_run_writes(rt: HostRuntime) -> Result<(), Fail> {
    let mut engine = opened(rt.alloc())?;
    retry(rt.alloc(), &mut engine)?;
    answer_badly(rt.alloc(), &mut engine)?;
    for (count, wanted) in ENDS {
        assert!(rt; ends(rt.alloc(), &engine, count, wanted), "{wanted}");
    }
    Ok(())
}
