//! What a run hands to its sink, and when.

use crate::tests::flags::new_flag;
use crate::tests::gates::Counting;
use crate::tests::meeting::code_of_choice;
use crate::tests::participants::{Deed, station_of};
use crate::tests::plants::{
    Runtime, code_of_two, context_of, failed, listed, plant_of, stations_of_two,
};
use crate::tests::sinks::Recording;
use sqlite::MemStore;
use std::collections::BTreeMap;
use std::test::*;
use sw_context::Context;
use tx_intake::Listed;
use tx_plant::Plant;
use tx_pool::{Fault, Gate, Open, Pool, PoolError, Streams};

// A run to this sink that has to end well.
fn run_to<G: Gate + Sync, R: Runtime>(
    rt: &R,
    plant: Plant<MemStore>,
    source: Listed,
    sink: Recording,
    gate: &G,
) -> Result<(Plant<MemStore>, Recording), Fail> {
    plant.engine_is_sound();
    let streams = Streams { source, sink };
    match Pool::run_into(rt, rt.alloc(), plant, streams, 64, gate) {
        Ok((plant, streams, _)) => Ok((plant, streams.sink)),
        Err((error, _)) => Err(failed(&error)),
    }
}

// Whether these are all that ended, each once, with its context.
fn are_all_that_ended(
    plant: &Plant<MemStore>,
    taken: &[(u64, Context)],
    seen: BTreeMap<u64, ()>,
) -> Result<bool, Fail> {
    let mut seen = seen;
    for (id, context) in taken {
        match plant.ended().get(id) {
            Some(kept) if kept.is_same(context) => {}
            _ => return Ok(false),
        }
        if seen.insert(*id, ())?.is_some() {
            return Ok(false);
        }
    }
    Ok(seen.len() == plant.ended().len())
}

// Of 200 transactions over 4 sessions.
fn take_all<R: Runtime>(rt: &R) -> Result<(), Fail> {
    let alloc = rt.alloc();
    let plant = plant_of(alloc, &code_of_two(alloc)?, stations_of_two(alloc)?, 4)?;
    let sink = Recording::new(alloc, 1_000, new_flag(alloc)?)?;
    let (plant, sink) = run_to(rt, plant, listed(alloc, 200)?, sink, &Open)?;
    assert!(rt; sink.taken().len() == 200);
    assert!(rt; are_all_that_ended(&plant, sink.taken(), BTreeMap::new(alloc))?);
    Ok(())
}

#[test]
fn each_end_is_taken_once(rt: HostRuntime) -> Result<(), Fail> {
    take_all(&rt)
}

// The first transaction is prepared only once the second was taken: both commit.
fn take_while_one_waits<R: Runtime>(rt: &R) -> Result<(), Fail> {
    let alloc = rt.alloc();
    let has_taken = new_flag(alloc)?;
    let waits = Deed::Meet {
        own: new_flag(alloc)?,
        other: has_taken.clone()?,
    };
    let mut stations = Vec::new(alloc);
    stations.push(station_of(alloc, "pick", Deed::Answer(0x41))?)?;
    stations.push(station_of(alloc, "p", waits)?)?;
    stations.push(station_of(alloc, "q", Deed::Answer(0x01))?)?;
    let plant = plant_of(alloc, &code_of_choice(alloc)?, stations, 2)?;
    let mut contexts = Vec::new(alloc);
    contexts.push(context_of(alloc, "a")?)?;
    contexts.push(context_of(alloc, "b")?)?;
    let gate = Counting::new();
    let sink = Recording::new(alloc, 4, has_taken)?;
    let (_, sink) = run_to(rt, plant, Listed::new(contexts), sink, &gate)?;
    assert!(rt; gate.outcomes() == (2, 0));
    let ids = sink.taken().iter().map(|taken| taken.0);
    assert!(rt; ids.eq([2, 1]));
    Ok(())
}

#[test]
fn an_end_is_taken_while_another_transaction_waits(rt: HostRuntime) -> Result<(), Fail> {
    for _ in 0..5 {
        take_while_one_waits(&rt)?;
    }
    Ok(())
}

// A sink that is refused memory for its fourth transaction.
fn take_three<R: Runtime>(rt: &R) -> Result<(), Fail> {
    let alloc = rt.alloc();
    let plant = plant_of(alloc, &code_of_two(alloc)?, stations_of_two(alloc)?, 4)?;
    let sink = Recording::new(alloc, 3, new_flag(alloc)?)?;
    let source = listed(alloc, 20)?;
    plant.engine_is_sound();
    let streams = Streams { source, sink };
    let Err((error, sink)) = Pool::run_into(rt, alloc, plant, streams, 4, &Open) else {
        return Err(Fail::new("a run that cannot end well has ended well"));
    };
    assert!(rt; sink.taken().len() == 3);
    match error {
        PoolError::Late(late) => {
            assert!(rt; matches!(late.cause, Fault::OutOfMemory));
            Ok(())
        }
        PoolError::Early(_, _) => Err(Fail::new("early")),
    }
}

#[test]
fn a_sink_that_refuses_ends_a_run(rt: HostRuntime) -> Result<(), Fail> {
    take_three(&rt)
}
