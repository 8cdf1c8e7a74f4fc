//! Runs that are given up, though the store refused nothing.

use crate::tests::participants::{Deed, station_of};
use crate::tests::plants::{
    Runtime, code_of_one, code_of_two, listed, new_journal, plant_of, plant_on, run, run_late,
    stations_of_two,
};
use crate::tests::sources::Broken;
use flow_asm::Code;
use journal_store::Journal;
use sqlite::{Alter, MemStore};
use std::test::*;
use tx_engine::EngineError;
use tx_plant::Plant;
use tx_pool::{Fault, Late, Open};

// A run was given up for memory. What it left makes a new plant, which recovers, and then runs 5 offers.
fn goes_on<S: Alter + Drop, R: Runtime>(
    rt: &R,
    code: &Code,
    late: Late<S>,
) -> Result<Plant<S>, Fail> {
    let alloc = rt.alloc();
    let Late {
        cause,
        journal,
        stations,
    } = late;
    assert!(rt; matches!(cause, Fault::OutOfMemory));
    assert!(rt; stations.len() == code.participants().len());
    let mut plant = plant_on(alloc, code, journal, stations, 2)?;
    assert!(rt; plant.recover(alloc).is_ok());
    let (plant, _, report) = run(rt, plant, listed(alloc, 5)?, 4, &Open)?;
    assert!(rt; report.finished == 5 && report.shelved == 0);
    Ok(plant)
}

// A participant is refused memory in its third preparation.
fn run_short<R: Runtime>(rt: &R) -> Result<(), Fail> {
    let alloc = rt.alloc();
    let code = code_of_one(alloc, 0, "p")?;
    let mut stations = Vec::new(alloc);
    stations.push(station_of(alloc, "p", Deed::Fail { calls: 2 })?)?;
    let plant = plant_of(alloc, &code, stations, 2)?;
    let late = run_late(rt, plant, listed(alloc, 10)?)?;
    let _ = goes_on(rt, &code, late)?;
    Ok(())
}

// The source is refused memory after its third context.
fn read_short<R: Runtime>(rt: &R) -> Result<(), Fail> {
    let alloc = rt.alloc();
    let code = code_of_two(alloc)?;
    let plant = plant_of(alloc, &code, stations_of_two(alloc)?, 2)?;
    let source = Broken {
        listed: listed(alloc, 3)?,
    };
    let late = run_late(rt, plant, source)?;
    let _ = goes_on(rt, &code, late)?;
    Ok(())
}

#[test]
fn want_of_memory_ends_a_run(rt: HostRuntime) -> Result<(), Fail> {
    for _ in 0..3 {
        run_short(&rt)?;
        read_short(&rt)?;
    }
    Ok(())
}

// A journal whose next id is this one.
fn journal_at<R: Runtime>(rt: &R, next_id: i64) -> Result<Journal<MemStore>, Fail> {
    let alloc = rt.alloc();
    let mut conn = new_journal(alloc)?.into_connection();
    let changed = conn.execute(
        "UPDATE meta SET v = ?1 WHERE k = 2",
        sqlite::params![next_id],
    )?;
    assert!(rt; changed == 1);
    match Journal::open(alloc, conn) {
        Ok(journal) => Ok(journal),
        Err(_) => Err(Fail::new("no journal")),
    }
}

// Two ids are left for three offers.
fn spend_ids<R: Runtime>(rt: &R) -> Result<(), Fail> {
    let alloc = rt.alloc();
    let code = code_of_two(alloc)?;
    let journal = journal_at(rt, i64::MAX - 2)?;
    let plant = plant_on(alloc, &code, journal, stations_of_two(alloc)?, 2)?;
    let late = run_late(rt, plant, listed(alloc, 3)?)?;
    assert!(rt; matches!(&late.cause, Fault::Engine(EngineError::IdsSpent)));
    assert!(rt; late.stations.len() == 2);
    Ok(())
}

#[test]
fn spent_ids_end_a_run(rt: HostRuntime) -> Result<(), Fail> {
    spend_ids(&rt)
}
