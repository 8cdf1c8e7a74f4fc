//! Runs that may be refused memory, and what goes on after one was given up.

ghost use Rattle.tx_plant.specs.Plant.{IsEngine};
ghost use Rattle.tx_plant.specs.Wholes.{engine_of};

use crate::error::TestError;
use crate::runs::offers_of;
use journal_store::{Cause, Journal, JournalError};
use sqlite::MemStore;
use std::alloc::{AllocError, Global};
use std::sync::Wait;
use std::thread::Threads;
use sw_participant::Station;
use tx_engine::EngineError;
use tx_intake::Listed;
use tx_plant::Plant;
use tx_pool::{Early, Fault, Gate, Late, Pool, PoolError};

/// How often something is tried again: a test refuses one request for memory, or all from one on.
pub const TRIES: usize = 1_000;

/// What became of a run.
#[derive(Drop)]
pub enum End {
    Done(Plant<MemStore>),
    /// Memory was refused. The journal is opened again.
    GivenUp(Journal<MemStore>, Vec<Station>),
}

fn is_memory(cause: &Fault) -> bool {
    match cause {
        Fault::OutOfMemory | Fault::Engine(EngineError::OutOfMemory) => true,
        Fault::Journal(JournalError::Store(Cause::Memory)) => true,
        Fault::Journal(JournalError::OutOfMemory | JournalError::Failed) => true,
        _ => false,
    }
}

// What was left by a run that was refused memory.
fn left(alloc: Global, late: Late<MemStore>) -> Result<End, TestError> {
    let Late {
        cause,
        journal,
        stations,
    } = late;
    if !is_memory(&cause) {
        return Err(TestError::Late(cause));
    }
    match Journal::open(alloc, journal.into_connection()) {
        Ok(journal) => Ok(End::GivenUp(journal, stations)),
        Err(_) => Err(TestError::Journal),
    }
}

fn offers_again(alloc: Global, count: usize) -> Result<Listed, TestError> {
    for _ in 0..TRIES {
        if let Ok(offers) = offers_of(alloc, count) {
            return Ok(offers);
        }
    }
    Err(TestError::OutOfMemory(AllocError))
}

/// Runs a plant over this many offers, and again if memory is refused before the run begins.
pub fn run_again<G: Gate + Sync, R: Threads + Wait + Sync>(
    rt: &R,
    alloc: Global,
    plant: Plant<MemStore>,
    offers: usize,
    gate: &G,
) -> Result<End, TestError>
    requires { IsEngine (engine_of plant) }
{
    let mut plant = plant;
    for _ in 0..TRIES {
        let source = offers_again(alloc, offers)?;
        plant.engine_is_sound();
        match Pool::run(rt, alloc, plant, source, offers.max(1), gate) {
            Ok((plant, _, _)) => return Ok(End::Done(plant)),
            Err(PoolError::Early(back, Early::OutOfMemory)) => plant = back,
            Err(PoolError::Early(_, cause)) => return Err(TestError::Early(cause)),
            Err(PoolError::Late(late)) => return left(alloc, late),
        }
    }
    Err(TestError::OutOfMemory(AllocError))
}
