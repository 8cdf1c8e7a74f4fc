//! What the program prints.

use crate::again::TRIES;
use crate::error::TestError;
use crate::runs::Ran;
use crate::watch::Called;
use flow_asm::Code;
use sqlite::MemStore;
use std::alloc::{AllocError, Global};
use std::io::{self, Write};
use sw_context::Context;
use tx_engine::Engine;
use tx_plant::Plant;
use tx_trace::{Hex, Tracer, act_word};

fn write_trace<W: Write>(alloc: Global, engine: &Engine, out: &mut W) -> Result<(), TestError> {
    let mut tracer = Tracer::new(alloc, engine);
    for _ in 0..engine.history().len() {
        if let Some(line) = tracer.next(alloc, engine)? {
            writeln!(out, "{line}")?;
        }
    }
    Ok(())
}

fn write_run<W: Write>(ran: &Ran, out: &mut W) -> io::Result<()> {
    let (from, to) = (ran.from, ran.to);
    writeln!(out, "run {from} {to}")?;
    for (session, numbers) in ran.report.receipts.iter().enumerate() {
        write!(out, "receipts {session}")?;
        for number in numbers.iter() {
            write!(out, " {number}")?;
        }
        writeln!(out)?;
    }
    let (finished, shelved) = (ran.report.finished, ran.report.shelved);
    writeln!(out, "finished {finished}")?;
    writeln!(out, "shelved {shelved}")
}

fn write_called<W: Write>(code: &Code, called: &Called, out: &mut W) -> io::Result<()> {
    let (session, id) = (called.session, called.call.id);
    let word = act_word(called.call.act);
    match code
        .participants()
        .get(usize::from(called.call.participant))
    {
        Some(part) => {
            let name = part.name.as_str();
            writeln!(out, "called {session} {id} {word} {name}")
        }
        None => writeln!(out, "called {session} {id} {word} nobody"),
    }
}

fn write_ended<W: Write>(id: u64, context: &Context, out: &mut W) -> io::Result<()> {
    write!(out, "ended {id}")?;
    for place in 0..context.len() {
        let (name, value) = (context.name_at(place), context.value_at(place));
        let (name, value) = (name.unwrap_or(""), value.unwrap_or(&[]));
        write!(out, " {name}=")?;
        for byte in value {
            let hex = Hex(*byte);
            write!(out, "{hex}")?;
        }
    }
    writeln!(out)
}

// Writes the stations' counts, and the calls that were made.
fn write_calls<W: Write>(
    code: &Code,
    plant: &Plant<MemStore>,
    calls: &[Called],
    out: &mut W,
) -> io::Result<()> {
    for part in code.participants() {
        let name = part.name.as_str();
        let count = plant.calls(name).unwrap_or(0);
        writeln!(out, "calls {name} {count}")?;
    }
    for called in calls {
        write_called(code, called, out)?;
    }
    Ok(())
}

// The trace of a plant's history, its stations' counts, and the calls that were made.
fn all_lines(
    alloc: Global,
    code: &Code,
    plant: &Plant<MemStore>,
    calls: &[Called],
) -> Result<Vec<u8>, TestError> {
    let mut lines = Vec::new(alloc);
    write_trace(alloc, plant.engine(), &mut lines)?;
    write_calls(code, plant, calls, &mut lines)?;
    Ok(lines)
}

/// Writes whether a run was given up, the trace of the last plant's history, its stations' counts, and the calls
/// that were made. If memory is refused, the lines are made again.
pub fn write_again<W: Write>(
    alloc: Global,
    code: &Code,
    plant: &Plant<MemStore>,
    was_given_up: bool,
    calls: &[Called],
    out: &mut W,
) -> Result<(), TestError> {
    for _ in 0..TRIES {
        if let Ok(lines) = all_lines(alloc, code, plant, calls) {
            if was_given_up {
                writeln!(out, "given up")?;
            }
            out.write_all(lines.as_slice())?;
            return Ok(out.flush()?);
        }
    }
    Err(TestError::OutOfMemory(AllocError))
}

/// Writes the trace of the plant's history, its runs, its stations' counts, the calls that were
/// made, and the contexts of the transactions that are done.
pub fn write_all<W: Write>(
    alloc: Global,
    code: &Code,
    plant: &Plant<MemStore>,
    runs: &[Ran],
    calls: &[Called],
    out: &mut W,
) -> Result<(), TestError> {
    write_trace(alloc, plant.engine(), out)?;
    for ran in runs {
        write_run(ran, out)?;
    }
    write_calls(code, plant, calls, out)?;
    for (id, context) in plant.ended() {
        write_ended(*id, context, out)?;
    }
    Ok(out.flush()?)
}
