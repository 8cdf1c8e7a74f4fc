//! Why no plant was made of the switch's participants.

ghost use Rattle.sw_seating.specs.Seating.{names_of};
ghost use Rattle.run_switch.specs.Errors.{IsCause, IsDouble, IsNoStation};

use crate::error::ServeError;
use flow_asm::Code;
use std::alloc::Global;
use sw_participant::{Station, Text};
use sw_seating::SeatingError;
use tx_engine::EngineError;
use tx_plant::PlantError;

// The error for the participant of this number, which has no station.
fn no_station(alloc: Global, code: &Code, number: usize) -> ServeError
    ensures { IsNoStation code.now number result }
{
    let Some(part) = code.participants().get(number) else {
        return ServeError::Seating(SeatingError::NoStation(number));
    };
    match Text::from_str(alloc, part.name.as_str()) {
        Ok(name) => ServeError::NoStation(name),
        Err(_) => ServeError::OutOfMemory,
    }
}

// The error for the station at this index, which has the name of an earlier one.
fn double_station(alloc: Global, stations: &[Station], index: usize) -> ServeError
    ensures { IsDouble (names_of stations.now) index result }
{
    let Some(station) = stations.get(index) else {
        return ServeError::Seating(SeatingError::DoubleStation(index));
    };
    match Text::from_str(alloc, station.name()) {
        Ok(name) => ServeError::DoubleStation(name),
        Err(_) => ServeError::OutOfMemory,
    }
}

/// Why no plant was made of these stations, with this many sessions.
pub(crate) fn cause_of(
    alloc: Global,
    code: &Code,
    stations: &[Station],
    sessions: usize,
    error: PlantError,
) -> ServeError
    ensures { IsCause code.now (names_of stations.now) sessions error result }
{
    match error {
        PlantError::Seating(SeatingError::NoStation(number)) => no_station(alloc, code, number),
        PlantError::Seating(SeatingError::DoubleStation(index)) => {
            double_station(alloc, stations, index)
        }
        PlantError::Engine(EngineError::BadSessions) => ServeError::BadSessions(sessions),
        other => ServeError::from(other),
    }
}
