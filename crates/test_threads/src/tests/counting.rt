//! Counts that no schedule changes.

use crate::tests::participants::{Deed, station_of};
use crate::tests::plants::{
    Runtime, code_of_one, code_of_two, listed, plant_of, run, stations_of_two,
};
use std::test::*;
use tx_plant::Turn;
use tx_pool::{Open, Report};

// How many receipts all sessions have.
fn receipts_in(report: &Report) -> usize {
    let mut count: usize = 0;
    for own in report.receipts.iter() {
        count = count.saturating_add(own.len());
    }
    count
}

// Of 200 offers over 4 sessions each is checked and sent, and both are committed: so each station
// makes 400 calls, and each transaction has the entries of its offer, its take, two answers and two
// tolds.
fn count<R: Runtime>(rt: &R, capacity: usize) -> Result<(), Fail> {
    let alloc = rt.alloc();
    let plant = plant_of(alloc, &code_of_two(alloc)?, stations_of_two(alloc)?, 4)?;
    let (plant, _, report) = run(rt, plant, listed(alloc, 200)?, capacity, &Open)?;
    assert!(rt; report.finished == 200 && report.shelved == 0);
    assert!(rt; receipts_in(&report) == 1_000 && report.receipts.len() == 4);
    assert!(rt; plant.calls("check") == Some(400) && plant.calls("send") == Some(400));
    assert!(rt; plant.engine().history().len() == 1_200 && plant.engine().mark() == 1_200);
    assert!(rt; plant.engine().queued() == 0 && plant.ended().len() == 200);
    Ok(())
}

#[test]
fn each_offer_is_a_transaction(rt: HostRuntime) -> Result<(), Fail> {
    count(&rt, 64)?;
    count(&rt, 1)?;
    count(&rt, 4_096)
}

// A participant that asks for a retry: of 10 transactions with one try left each goes to the shelf,
// and with none left each is done. The second run has no offer and takes what the shelf had.
fn try_again<R: Runtime>(rt: &R) -> Result<(), Fail> {
    let alloc = rt.alloc();
    let mut stations = Vec::new(alloc);
    stations.push(station_of(alloc, "p", Deed::Answer(0x02))?)?;
    let plant = plant_of(alloc, &code_of_one(alloc, 1, "p")?, stations, 3)?;
    let (mut plant, _, report) = run(rt, plant, listed(alloc, 10)?, 4, &Open)?;
    assert!(rt; report.finished == 0 && report.shelved == 10);
    assert!(rt; receipts_in(&report) == 30 && plant.engine().shelved() == 10);
    assert!(rt; plant.drive(alloc, &[Turn::Release]).is_ok());
    let (plant, _, report) = run(rt, plant, listed(alloc, 0)?, 4, &Open)?;
    assert!(rt; report.finished == 10 && report.shelved == 0);
    assert!(rt; receipts_in(&report) == 30 && plant.engine().shelved() == 0);
    assert!(rt; plant.calls("p") == Some(40) && plant.ended().len() == 10);
    Ok(())
}

#[test]
fn what_waits_is_run_too(rt: HostRuntime) -> Result<(), Fail> {
    for _ in 0..3 {
        try_again(&rt)?;
    }
    Ok(())
}
