//! Plants, and what is run on them.

use crate::tests::participants::{Deed, station_of};
use flow_asm::{Code, assemble};
use flow_model::{Flow, Group};
use journal_store::Journal;
use sqlite::{Alter, Connection, MemStore};
use std::alloc::{AllocGlobal, Global};
use std::process::Abort;
use std::sync::Wait;
use std::test::*;
use std::thread::Threads;
use sw_context::Context;
use sw_participant::{Kind, Sequence, Station};
use tx_intake::{Listed, Source};
use tx_plant::Plant;
use tx_pool::{Fault, Gate, Late, Open, Pool, PoolError, Report};

/// The runtime of a test.
pub trait Runtime: AllocGlobal + Threads + Wait + Abort + Sync {}

impl<R: AllocGlobal + Threads + Wait + Abort + Sync> Runtime for R {}

/// The code of a flow of these groups.
pub fn code_of(
    alloc: Global,
    retries: u8,
    groups: &[(&str, &[(&str, Kind)])],
) -> Result<Code, Fail> {
    let mut list = Vec::new(alloc);
    for group in groups {
        list.push(Group::of(alloc, group.0, group.1)?)?;
    }
    let flow = Flow {
        retries,
        groups: Sequence::new(list),
    };
    flow.check()?;
    Ok(assemble(alloc, &flow)?)
}

/// The code of a flow whose one group has only this participant.
pub fn code_of_one(alloc: Global, retries: u8, name: &str) -> Result<Code, Fail> {
    code_of(alloc, retries, &[("main", &[(name, Kind::PLAIN)])])
}

/// The code of a flow in which `check` and `send` are prepared.
pub fn code_of_two(alloc: Global) -> Result<Code, Fail> {
    code_of(
        alloc,
        0,
        &[("main", &[("check", Kind::PLAIN), ("send", Kind::PLAIN)])],
    )
}

/// The stations of that flow, which answer 01.
pub fn stations_of_two(alloc: Global) -> Result<Vec<Station>, Fail> {
    let mut stations = Vec::new(alloc);
    stations.push(station_of(alloc, "check", Deed::Answer(0x01))?)?;
    stations.push(station_of(alloc, "send", Deed::Answer(0x01))?)?;
    Ok(stations)
}

/// A new journal in memory.
pub fn new_journal(alloc: Global) -> Result<Journal<MemStore>, Fail> {
    match Journal::open(alloc, Connection::open_in_memory(alloc)?) {
        Ok(journal) => Ok(journal),
        Err(_) => Err(Fail::new("no journal")),
    }
}

/// A plant of these stations over this journal.
pub fn plant_on<S: Alter + Drop>(
    alloc: Global,
    code: &Code,
    journal: Journal<S>,
    stations: Vec<Station>,
    sessions: usize,
) -> Result<Plant<S>, Fail> {
    match Plant::new(alloc, code, journal, stations, sessions) {
        Ok(plant) => Ok(plant),
        Err(_) => Err(Fail::new("no plant")),
    }
}

/// A plant of these stations over a new journal in memory.
pub fn plant_of(
    alloc: Global,
    code: &Code,
    stations: Vec<Station>,
    sessions: usize,
) -> Result<Plant<MemStore>, Fail> {
    plant_on(alloc, code, new_journal(alloc)?, stations, sessions)
}

/// A context whose entry `go` is this text.
pub fn context_of(alloc: Global, go: &str) -> Result<Context, Fail> {
    let mut context = Context::new(alloc);
    context.put("go", go.as_bytes())?;
    Ok(context)
}

/// A source of `count` such contexts.
pub fn listed(alloc: Global, count: usize) -> Result<Listed, Fail> {
    let mut contexts = Vec::new(alloc);
    for _ in 0..count {
        contexts.push(context_of(alloc, "a")?)?;
    }
    Ok(Listed::new(contexts))
}

/// The failure of a test whose run did not end well.
pub fn failed<S: Alter + Drop>(error: &PoolError<S>) -> Fail {
    match error {
        PoolError::Early(_, _) => Fail::new("early"),
        PoolError::Late(late) => match late.cause {
            Fault::Journal(_) => Fail::new("late: journal"),
            Fault::ReceiptMismatch(_) => Fail::new("late: mismatch"),
            Fault::Engine(_) => Fail::new("late: engine"),
            Fault::OutOfMemory => Fail::new("late: out of memory"),
        },
    }
}

/// A run that has to end well.
pub fn run<S: Alter + Drop, O: Source + Send, G: Gate + Sync, R: Runtime>(
    rt: &R,
    plant: Plant<S>,
    source: O,
    capacity: usize,
    gate: &G,
) -> Result<(Plant<S>, O, Report), Fail> {
    plant.engine_is_sound();
    match Pool::run(rt, rt.alloc(), plant, source, capacity, gate) {
        Ok(ran) => Ok(ran),
        Err(error) => Err(failed(&error)),
    }
}

/// A run that has to be given up.
pub fn run_late<S: Alter + Drop, O: Source + Send, R: Runtime>(
    rt: &R,
    plant: Plant<S>,
    source: O,
) -> Result<Late<S>, Fail> {
    plant.engine_is_sound();
    match Pool::run(rt, rt.alloc(), plant, source, 4, &Open) {
        Err(PoolError::Late(late)) => Ok(late),
        Err(PoolError::Early(_, _)) => Err(Fail::new("early")),
        Ok(_) => Err(Fail::new("a run that cannot end well has ended well")),
    }
}
