//! What a plant does until its journal refuses.

ghost use Rattle.tx_plant.specs.Plant.{IsEngine};
ghost use Rattle.tx_plant.specs.Wholes.{engine_of};

use crate::error::TestError;
use crate::lines::write_view;
use cli_io::write_whole;
use cli_script::Actions;
use cli_step::{StepError, run_actions};
use journal_store::JournalError;
use sqlite::Alter;
use std::alloc::Global;
use std::io::Write;
use tx_engine::Engine;
use tx_plant::{Plant, PlantError, Turn};
use tx_trace::{Tracer, line};

// Whether the store of the journal has refused. Any other cause is an error.
fn is_store(cause: JournalError) -> Result<bool, TestError> {
    match cause {
        JournalError::Store(_) | JournalError::Failed => Ok(true),
        other => Err(TestError::Journal(other)),
    }
}

/// Whether a plant's journal has refused.
pub fn is_plant_cut(done: Result<(), PlantError>) -> Result<bool, TestError> {
    match done {
        Ok(()) => Ok(false),
        Err(PlantError::Journal(cause)) => is_store(cause),
        Err(other) => Err(TestError::Plant(other)),
    }
}

fn is_script_cut(done: Result<(), StepError>) -> Result<bool, TestError> {
    match done {
        Ok(()) => Ok(false),
        Err(StepError::Journal { line: _, cause }) => is_store(cause),
        Err(other) => Err(TestError::Step(other)),
    }
}

/// Runs the lines of a script. Returns whether the journal has refused.
pub fn play<S: Alter, W: Write>(
    alloc: Global,
    plant: &mut Plant<S>,
    actions: &mut Actions<'_>,
    out: &mut W,
) -> Result<bool, TestError> {
    let mut tracer = Tracer::new(alloc, plant.engine());
    is_script_cut(run_actions(alloc, plant, &mut tracer, actions, out))
}

// Writes the lines of the history. (It is short here.)
fn write_lines<W: Write>(alloc: Global, engine: &Engine, out: &mut W) -> Result<(), TestError> {
    for before in 0..engine.history().len() {
        if let Some(text) = line(alloc, engine, before + 1)? {
            write_whole(out, text.as_bytes())?;
            write_whole(out, b"\n")?;
        }
    }
    Ok(())
}

/// Writes what the journal had, finishes what it has unfinished, and writes the lines, and what it has then.
/// Returns whether it has refused.
pub fn finish<S: Alter, W: Write>(
    alloc: Global,
    plant: &mut Plant<S>,
    out: &mut W,
) -> Result<bool, TestError>
    requires { IsEngine (engine_of plant.old) }
{
    write_view("found", plant.engine().opened(), out)?;
    let done = plant.recover(alloc);
    write_lines(alloc, plant.engine(), out)?;
    if is_plant_cut(done)? {
        return Ok(true);
    }
    match plant.drive(alloc, &[Turn::Stop]) {
        Ok(_) => {
            write_view("left", plant.engine().opened(), out)?;
            Ok(false)
        }
        Err(fault) => is_plant_cut(Err(fault.cause)),
    }
}
