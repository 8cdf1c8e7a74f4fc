//! Calls that are under way at once.

use crate::tests::flags::new_flag;
use crate::tests::gates::Counting;
use crate::tests::participants::{Deed, station_of};
use crate::tests::plants::{Runtime, code_of, code_of_one, context_of, listed, plant_of, run};
use crate::tests::sources::WaitingSource;
use flow_asm::Code;
use std::alloc::Global;
use std::sync::Arc;
use std::sync::atomic::{AtomicU64, Ordering};
use std::test::*;
use sw_participant::{Kind, Station};
use tx_history::{Entry, Event};
use tx_intake::Listed;
use tx_pool::Open;

// A flow whose selector chooses between `p` and `q`.
pub fn code_of_choice(alloc: Global) -> Result<Code, Fail> {
    code_of(
        alloc,
        0,
        &[
            ("main", &[("pick", Kind::SELECTOR)]),
            ("a", &[("p", Kind::PLAIN)]),
            ("b", &[("q", Kind::PLAIN)]),
        ],
    )
}

// Its stations: `p` and `q` each prepare only while the other is being prepared.
fn stations_that_meet(alloc: Global) -> Result<Vec<Station>, Fail> {
    let one = new_flag(alloc)?;
    let other = new_flag(alloc)?;
    let mut stations = Vec::new(alloc);
    stations.push(station_of(alloc, "pick", Deed::Answer(0x41))?)?;
    let p = Deed::Meet {
        own: one.clone()?,
        other: other.clone()?,
    };
    stations.push(station_of(alloc, "p", p)?)?;
    let q = Deed::Meet {
        own: other,
        other: one,
    };
    stations.push(station_of(alloc, "q", q)?)?;
    Ok(stations)
}

// Whether these are the entries of a take, two answers round a choice, and a told.
fn are_of_one(history: &[Entry], numbers: &[usize]) -> bool {
    let mut place = 0;
    for number in numbers.iter() {
        let Some(entry) = history.get(number.saturating_sub(1)) else {
            return false;
        };
        let is_next = match (place, &entry.event) {
            (0, Event::Taken { .. }) => true,
            (1 | 3, Event::Answered { .. }) => true,
            (2, Event::Chose { .. }) => true,
            (4, Event::Told { .. }) => true,
            _ => false,
        };
        if !is_next {
            return false;
        }
        place += 1;
    }
    place == 5
}

// Two transactions, of which each prepares only while the other is being prepared: both commit.
fn meet<R: Runtime>(rt: &R) -> Result<(), Fail> {
    let alloc = rt.alloc();
    let stations = stations_that_meet(alloc)?;
    let plant = plant_of(alloc, &code_of_choice(alloc)?, stations, 2)?;
    let mut contexts = Vec::new(alloc);
    contexts.push(context_of(alloc, "a")?)?;
    contexts.push(context_of(alloc, "b")?)?;
    let gate = Counting::new();
    let (plant, _, report) = run(rt, plant, Listed::new(contexts), 4, &gate)?;
    assert!(rt;
        gate.most() == 2,
        "both prepares are entered before either is left"
    );
    assert!(rt; gate.outcomes() == (2, 0));
    assert!(rt; report.finished == 2 && report.shelved == 0);
    let history = plant.engine().history();
    assert!(rt; history.len() == 12 && report.receipts.len() == 2);
    for own in report.receipts.iter() {
        assert!(rt; are_of_one(history, own.as_slice()));
    }
    Ok(())
}

#[test]
fn two_sessions_prepare_at_once(rt: HostRuntime) -> Result<(), Fail> {
    for _ in 0..5 {
        meet(&rt)?;
    }
    Ok(())
}

// Transactions that all choose the one participant `p` after `pick`, run by two sessions.
fn run_all_through<R: Runtime>(rt: &R, p: Deed, count: usize) -> Result<Counting, Fail> {
    let alloc = rt.alloc();
    let mut stations = Vec::new(alloc);
    stations.push(station_of(alloc, "pick", Deed::Answer(0x41))?)?;
    stations.push(station_of(alloc, "p", p)?)?;
    stations.push(station_of(alloc, "q", Deed::Answer(0x01))?)?;
    let plant = plant_of(alloc, &code_of_choice(alloc)?, stations, 2)?;
    let mut contexts = Vec::new(alloc);
    for _ in 0..count {
        contexts.push(context_of(alloc, "a")?)?;
    }
    let gate = Counting::new();
    let (_, _, report) = run(rt, plant, Listed::new(contexts), 4, &gate)?;
    assert!(rt; report.finished == count);
    Ok(gate)
}

// Two transactions, of which each prepares only while the other does, in one participant.
#[test]
fn two_sessions_meet_in_one_participant(rt: HostRuntime) -> Result<(), Fail> {
    for _ in 0..5 {
        let began = Arc::new(rt.alloc(), AtomicU64::new(0))?;
        let gate = run_all_through(&rt, Deed::Together { began }, 2)?;
        assert!(rt; gate.most() == 2);
        assert!(rt; gate.outcomes() == (2, 0));
    }
    Ok(())
}

// A participant that is not shared is called by one session at a time.
#[test]
fn sessions_call_a_participant_in_turn(rt: HostRuntime) -> Result<(), Fail> {
    let under_way = Arc::new(rt.alloc(), AtomicU64::new(0))?;
    let gate = run_all_through(&rt, Deed::Alone { under_way }, 32)?;
    assert!(rt; gate.most() == 1);
    assert!(rt; gate.outcomes() == (32, 0));
    Ok(())
}

// A source that gives its second context only once the first was called.
fn wait<R: Runtime>(rt: &R, capacity: usize) -> Result<(), Fail> {
    let alloc = rt.alloc();
    let called = new_flag(alloc)?;
    let other = new_flag(alloc)?;
    other.store(true, Ordering::SeqCst);
    let mut stations = Vec::new(alloc);
    let p = Deed::Meet {
        own: called.clone()?,
        other,
    };
    stations.push(station_of(alloc, "p", p)?)?;
    let plant = plant_of(alloc, &code_of_one(alloc, 0, "p")?, stations, 1)?;
    let source = WaitingSource::new(listed(alloc, 2)?, called);
    let (_, _, report) = run(rt, plant, source, capacity, &Open)?;
    assert!(rt; report.finished == 2);
    Ok(())
}

#[test]
fn the_source_is_read_while_sessions_run(rt: HostRuntime) -> Result<(), Fail> {
    for _ in 0..5 {
        wait(&rt, 1)?;
        wait(&rt, 64)?;
    }
    Ok(())
}
