//! Many legs over one input.

ghost use Rattle.std.specs.Prelude.{◌≡◌};

use crate::tests::flags::new_flag;
use crate::tests::plants::{Runtime, code_of_two, failed, plant_of, stations_of_two};
use crate::tests::sinks::Recording;
use run_input::{Arrivals, Heard, Input, Leg, LegLimits, LegSource, StreamEnd};
use run_watch::Watch;
use sqlite::MemStore;
use std::alloc::Global;
use std::io::{Cursor, Read};
use std::marker::Brand;
use std::sync::Arc;
use std::test::*;
use std::time::Clock;
use tx_plant::{Plant, Turn};
use tx_pool::{Open, Pool, Streams};

/// How many legs there are that give a request.
const LEGS: u64 = 1_000;

/// The frame of a request with STAN 42 (fields 11 and 41).
const FRAME: &[u8] = b"003401000020000000800000000042TERM0001";

/// What is carried from one leg to the next.
#[derive(Drop)]
struct Led<'a, B: Input, R> {
    plant: Plant<MemStore>,
    arrivals: Arrivals<'a, B, R>,
    sink: Recording,
}

// A leg that ends with its first request.
fn lead<'a, B: Input + Send + Sync, L: Leg + Send, R: Runtime + Clock>(
    rt: &'a R,
    led: Led<'a, B, R>,
) -> Result<(Plant<MemStore>, Heard<'a, B, R>, Recording), Fail>
    requires { led.arrivals ≡ L.before }
{
    let Led {
        plant,
        arrivals,
        sink,
    } = led;
    let limits = LegLimits {
        entries: 1_000,
        requests: 1,
        passed: 64,
        time: None,
    };
    let source = LegSource::<B, L, R>::begin(rt.alloc(), arrivals, limits)?;
    plant.engine_is_sound();
    match Pool::run_into(rt, rt.alloc(), plant, Streams { source, sink }, 4, &Open) {
        Ok((plant, streams, _)) => {
            let (source, sink) = streams.into_parts();
            Ok((plant, source.finish(), sink))
        }
        Err((error, _)) => Err(failed(&error)),
    }
}

// The history and the contexts of a leg are dropped before the next one.
fn forget(alloc: Global, plant: &mut Plant<MemStore>) -> Result<(), Fail> {
    let ended = plant.take_ended(alloc);
    if ended.len() > 1 {
        return Err(Fail::new("a leg has more than one request"));
    }
    match plant.drive(alloc, &[Turn::Cut, Turn::Write(None)]) {
        Ok(_) => Ok(()),
        Err(_) => Err(Fail::new("no cut")),
    }
}

// Legs until the input has ended. How many ended before, the plant, and the sink.
fn lead_all<'a, B: Input + Send + Sync, R: Runtime + Clock>(
    rt: &'a R,
    led: Led<'a, B, R>,
) -> Result<(u64, Plant<MemStore>, Recording), Fail> {
    let mut led = led;
    for count in 0..=LEGS {
        led.arrivals.wait();
        let (mut plant, heard, sink) = lead::<B, Brand, R>(rt, led)?;
        let Heard {
            arrivals,
            passed: _,
            end,
        } = heard;
        match end {
            Some(Ok(StreamEnd::Whole)) => return Ok((count, plant, sink)),
            Some(_) => return Err(Fail::new("another end")),
            None => {}
        }
        forget(rt.alloc(), &mut plant)?;
        led = Led {
            plant,
            arrivals,
            sink,
        };
    }
    Err(Fail::new("the input has not ended"))
}

fn take_all<
    B: Input + Send + Sync + 'static,
    I: Read + Drop + Send + 'static,
    R: Runtime + Clock + Copy + Send + 'static,
>(rt: &R, input: I) -> Result<(), Fail>
    requires input { I.remaining input ≡ B.input }
    requires header { B.header ≡ 0 }
{
    let alloc = rt.alloc();
    let watch = Arc::new(alloc, Watch::new())?;
    let led = Led {
        plant: plant_of(alloc, &code_of_two(alloc)?, stations_of_two(alloc)?, 2)?,
        arrivals: Arrivals::<B, R>::open(rt, alloc, input, 0, &watch)?,
        sink: Recording::new(alloc, LEGS as usize, new_flag(alloc)?)?,
    };
    let (count, _plant, sink) = lead_all::<B, R>(rt, led)?;
    assert!(rt; count == LEGS);
    let ids = sink.taken().iter().map(|taken| taken.0);
    assert!(rt; ids.eq(1..=LEGS));
    Ok(())
}

// (Generic in its input, so that what that has can be named.)
fn take_from<I: Read + Drop + Send + 'static, R: Runtime + Clock + Copy + Send + 'static>(
    rt: &R,
    input: I,
) -> Result<(), Fail> {
    take_all::<Brand, I, R>(rt, input)
}

#[test]
fn a_thousand_legs_take_each_request_of_an_input_once(rt: HostRuntime) -> Result<(), Fail> {
    let alloc = rt.alloc();
    let mut text = Vec::new(alloc);
    for _ in 0..LEGS {
        text.extend_from_slice(FRAME)?;
    }
    take_from(&rt, Cursor::new(text))
}
