//! The runs of a plant, until nothing is on its shelf.

ghost use Rattle.tx_plant.specs.Plant.{IsEngine};
ghost use Rattle.tx_plant.specs.Wholes.{engine_of};

use crate::error::TestError;
use journal_store::Journal;
use sqlite::{Connection, MemStore};
use std::alloc::Global;
use std::sync::Wait;
use std::thread::Threads;
use sw_context::Context;
use tx_intake::Listed;
use tx_plant::{Outcome, Plant, PlantError, Turn};
use tx_pool::{Gate, Pool, PoolError, Report};

/// More runs than the retries of a flow ask for, of which there are at most 100.
const MOST_RUNS: u64 = 102;

/// A run, with how many entries the history had before it and after it.
#[derive(Drop)]
pub struct Ran {
    pub from: usize,
    pub to: usize,
    pub report: Report,
}

/// `count` contexts, each with its number as the entry `offer`.
pub fn offers_of(alloc: Global, count: usize) -> Result<Listed, TestError> {
    let mut contexts = Vec::new(alloc);
    for number in 0..count {
        let text = format!(in alloc; "{number}")?;
        let mut context = Context::new(alloc);
        if context.put("offer", text.as_bytes()).is_err() {
            return Err(TestError::OutOfMemory(std::alloc::AllocError));
        }
        contexts.push(context)?;
    }
    Ok(Listed::new(contexts))
}

/// A new journal in memory.
pub fn new_journal(alloc: Global) -> Result<Journal<MemStore>, TestError> {
    let Ok(conn) = Connection::open_in_memory(alloc) else {
        return Err(TestError::Journal);
    };
    match Journal::open(alloc, conn) {
        Ok(journal) => Ok(journal),
        Err(_) => Err(TestError::Journal),
    }
}

fn run_one<G: Gate + Sync, R: Threads + Wait + Sync>(
    rt: &R,
    alloc: Global,
    plant: Plant<MemStore>,
    source: Listed,
    capacity: usize,
    gate: &G,
) -> Result<(Plant<MemStore>, Ran), TestError>
    requires { IsEngine (engine_of plant) }
{
    let from = plant.engine().history().len();
    match Pool::run(rt, alloc, plant, source, capacity, gate) {
        Ok((plant, _, report)) => {
            let to = plant.engine().history().len();
            Ok((plant, Ran { from, to, report }))
        }
        Err(PoolError::Early(_, cause)) => Err(TestError::Early(cause)),
        Err(PoolError::Late(late)) => Err(TestError::Late(late.cause)),
    }
}

// Acknowledges all advices, releases the shelf, and writes it all.
fn release(alloc: Global, plant: &mut Plant<MemStore>) -> Result<(), TestError>
    requires { IsEngine (engine_of plant.old) }
{
    let mut turns = Vec::new(alloc);
    for ((id, place), _) in plant.engine().advices() {
        turns.push(Turn::Ack(*id, *place))?;
    }
    turns.push(Turn::Release)?;
    turns.push(Turn::Write(None))?;
    match plant.drive(alloc, turns.as_slice()) {
        Ok(outcomes) => {
            for outcome in outcomes {
                if let Outcome::Refused(error) = outcome {
                    return Err(TestError::Plant(PlantError::Engine(error)));
                }
            }
            Ok(())
        }
        Err(fault) => Err(TestError::Plant(fault.cause)),
    }
}

/// Runs the plant over the offers, and then, as long as contexts are on the shelf, over these.
pub fn run_all<G: Gate + Sync, R: Threads + Wait + Sync>(
    rt: &R,
    alloc: Global,
    plant: Plant<MemStore>,
    offers: Listed,
    capacity: usize,
    gate: &G,
) -> Result<(Plant<MemStore>, Vec<Ran>), TestError>
    requires { IsEngine (engine_of plant) }
{
    let mut runs = Vec::new(alloc);
    let (mut plant, first) = run_one(rt, alloc, plant, offers, capacity, gate)?;
    runs.push(first)?;
    for _ in 1..MOST_RUNS {
        if plant.engine().shelved() == 0 {
            return Ok((plant, runs));
        }
        plant.engine_is_sound();
        release(alloc, &mut plant)?;
        plant.engine_is_sound();
        let none = Listed::new(Vec::new(alloc));
        let (next, ran) = run_one(rt, alloc, plant, none, capacity, gate)?;
        plant = next;
        runs.push(ran)?;
    }
    Err(TestError::Endless)
}
