//! Runs that do not begin.

use crate::tests::participants::{Deed, station_of};
use crate::tests::plants::{Runtime, code_of_one, context_of, listed, plant_of, run};
use sqlite::MemStore;
use std::alloc::Global;
use std::test::*;
use sw_participant::Text;
use tx_plant::{Plant, Turn};
use tx_pool::{Early, Open, Pool, PoolError};

// A plant of two sessions, with a breakpoint or a session that holds a transaction.
fn plant_with(alloc: Global, breaks: bool, holds: bool) -> Result<Plant<MemStore>, Fail> {
    let mut stations = Vec::new(alloc);
    stations.push(station_of(alloc, "p", Deed::Answer(0x01))?)?;
    let mut plant = plant_of(alloc, &code_of_one(alloc, 0, "p")?, stations, 2)?;
    let mut turns = Vec::new(alloc);
    if breaks {
        turns.push(Turn::Break(Text::from_str(alloc, "p")?))?;
    }
    if holds {
        turns.push(Turn::Offer(context_of(alloc, "a")?))?;
        turns.push(Turn::Take(1))?;
    }
    match plant.drive(alloc, turns.as_slice()) {
        Ok(_) => Ok(plant),
        Err(_) => Err(Fail::new("a turn is refused")),
    }
}

// Ends what keeps the plant from being run.
fn clear<R: Runtime>(rt: &R, plant: &mut Plant<MemStore>, holds: bool) -> Result<(), Fail> {
    let alloc = rt.alloc();
    let mut turns = Vec::new(alloc);
    turns.push(Turn::Clear(Text::from_str(alloc, "p")?))?;
    if holds {
        for _ in 0..2 {
            turns.push(Turn::Write(None))?;
            turns.push(Turn::Step(1))?;
        }
    }
    assert!(rt; plant.drive(alloc, turns.as_slice()).is_ok());
    Ok(())
}

// The plant is refused, and comes back as it was; what it holds can be ended, and then it is run.
fn refuse<R: Runtime>(
    rt: &R,
    breaks: bool,
    holds: bool,
    capacity: usize,
    wanted: Early,
) -> Result<(), Fail> {
    let alloc = rt.alloc();
    let plant = plant_with(alloc, breaks, holds)?;
    let before = plant.engine().history().len();
    plant.engine_is_sound();
    let mut plant = match Pool::run(rt, alloc, plant, listed(alloc, 1)?, capacity, &Open) {
        Err(PoolError::Early(plant, cause)) => {
            assert_eq!(rt; cause, wanted);
            plant
        }
        _ => return Err(Fail::new("the run is not refused early")),
    };
    assert!(rt; plant.engine().history().len() == before && plant.calls("p") == Some(0));
    clear(rt, &mut plant, holds)?;
    let (plant, _, report) = run(rt, plant, listed(alloc, 1)?, 1, &Open)?;
    let all = if holds { 2 } else { 1 };
    assert!(rt; report.finished == 1 && plant.ended().len() == all);
    Ok(())
}

// If two refusals hold, the first of BreakSet, InUse and BadCapacity is reported.
#[test]
fn a_plant_that_may_not_run_comes_back(rt: HostRuntime) -> Result<(), Fail> {
    refuse(&rt, true, false, 4, Early::BreakSet)?;
    refuse(&rt, false, true, 4, Early::InUse)?;
    refuse(&rt, false, false, 0, Early::BadCapacity)?;
    refuse(&rt, false, false, 4_097, Early::BadCapacity)?;
    refuse(&rt, true, true, 4, Early::BreakSet)?;
    refuse(&rt, true, false, 0, Early::BreakSet)?;
    refuse(&rt, false, true, 4_097, Early::InUse)?;
    refuse(&rt, true, true, 0, Early::BreakSet)
}
