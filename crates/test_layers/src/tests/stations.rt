//! A participant of one's own at its station: that the call which is made is that of the station's number, and that a
//! station takes no bad name, which no flow has.

use crate::tests::stamp::Stamp;
use std::alloc::{AllocError, Global};
use std::test::Fail;
use sw_context::Context;
use sw_participant::{Act, Call, Reply, Station, StationError, call_station};

fn stamp(alloc: Global, value: &[u8]) -> Result<Stamp, AllocError> {
    Ok(Stamp {
        value: Vec::from_slice(alloc, value)?,
    })
}

fn station(alloc: Global, name: &str, value: &[u8]) -> Result<Station, Fail> {
    Ok(Station::new(alloc, name, Box::new(alloc, stamp(alloc, value)?)?)?)
}

/// Two stations, whose participants stamp A and B.
fn both(alloc: Global) -> Result<Vec<Station>, Fail> {
    let mut stations = Vec::new(alloc);
    stations.push(station(alloc, "first", b"A")?)?;
    stations.push(station(alloc, "second", b"B")?)?;
    Ok(stations)
}

fn is_wanted(act: Act, reply: &Reply) -> bool {
    match act {
        Act::Prepare => matches!(reply, Reply::Answer(0x01)),
        _ => matches!(reply, Reply::Told(None)),
    }
}

// Whether the second station replies as its participant does.
fn replies(stations: &mut Vec<Station>, act: Act, context: &mut Context) -> bool {
    let call = Call {
        id: 1,
        participant: 1,
        act,
    };
    if stations.len() != 2 {
        return false;
    }
    match call_station(stations, &call, context) {
        Ok(reply) => is_wanted(act, &reply),
        Err(_) => false,
    }
}

fn are_called(stations: &[Station], first: u64, second: u64) -> bool {
    match stations {
        [one, other] => one.calls() == first && other.calls() == second,
        _ => false,
    }
}

fn is_stamped(alloc: Global, stations: &mut Vec<Station>) -> bool {
    let mut context = Context::new(alloc);
    let is_put = replies(stations, Act::Prepare, &mut context)
        && context.get("stamp") == Some(b"B".as_slice());
    is_put
        && replies(stations, Act::Abort { recovering: false }, &mut context)
        && context.is_empty()
}

#[test]
fn the_station_of_the_number_is_called(rt: HostRuntime) -> Result<(), Fail> {
    let mut stations = both(rt.alloc())?;
    assert!(rt; is_stamped(rt.alloc(), &mut stations) && are_called(&stations, 0, 2));
    Ok(())
}

fn is_refused(alloc: Global, name: &str) -> Result<bool, Fail> {
    let made = Station::new(alloc, name, Box::new(alloc, stamp(alloc, b"A")?)?);
    Ok(matches!(made, Err(StationError::BadName)))
}

#[test]
fn a_bad_name_is_refused(rt: HostRuntime) -> Result<(), Fail> {
    assert!(rt; is_refused(rt.alloc(), "a b")?);
    Ok(())
}
