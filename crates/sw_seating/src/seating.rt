//! Stations put in the order of the participants.

ghost use Rattle.std.specs.Prelude.{◌≡◌, ◌≤◌, ◌<◌, ◌+◌, [], false, OnErr, OnOk, IfSome, IfNone};
ghost use Rattle.std.specs.Prelude.{take, length, get_or, drop};
ghost use Rattle.std.specs.List.Sorted.{IsPermutation};
ghost use Rattle.sw_base.specs.Refusals.{first_at, refused};
ghost use Rattle.sw_seating.specs.Seating.{AreNumbered, AreSeated, HaveStations, names_of, part_names};
ghost use Rattle.sw_seating.specs.Seating.{double_station, is_among, no_station, seating_refusal};

use flow_model::Part;
use sw_participant::Station;
use thiserror::Error;

/// Why stations do not suit a flow.
#[derive(Clone, Copy, PartialEq, Eq, Debug, Error)]
pub enum SeatingError {
    /// No station has the name of the participant of this number.
    #[error("participant {0} of the flow has no station")]
    NoStation(usize),
    /// The station at this index, from 0, has the name of an earlier one.
    #[error("station {0} has the name of an earlier one")]
    DoubleStation(usize),
}

fn name_at(stations: &[Station], index: usize) -> &str
    requires { index < length stations.now }
    ensures { result.now ≡ get_or (names_of stations.now) index [] }
{
    stations[index].name()
}

// Whether one of the stations before `end` has the name.
fn has_name(stations: &[Station], end: usize, name: &str) -> bool
    requires { end ≤ length stations.now }
    ensures { result ≡ is_among name.now (take end (names_of stations.now)) }
{
    for index in 0..end {
        if name_at(stations, index) == name {
            return true;
        }
    }
    false
}

fn check_missing(stations: &[Station], parts: &[Part]) -> Result<(), SeatingError>
    ensures { result ≡ refused (first_at (no_station (names_of stations.now)) 0 parts.now) }
{
    for (number, part) in parts.iter().enumerate() {
        if !has_name(stations, stations.len(), part.name.as_str()) {
            return Err(SeatingError::NoStation(number));
        }
    }
    Ok(())
}

// A plant is made once, so all pairs may be compared.
fn check_doubles(stations: &[Station]) -> Result<(), SeatingError>
    ensures { result
        ≡ refused (first_at (double_station (names_of stations.now)) 0 (names_of stations.now)) }
{
    for index in 0..stations.len() {
        if has_name(stations, index, name_at(stations, index)) {
            return Err(SeatingError::DoubleStation(index));
        }
    }
    Ok(())
}

// The index, from `from` on, at which a station has this name.
fn find_from(stations: &[Station], from: usize, name: &str) -> Option<usize>
    ensures found { IfSome result (λ at. from ≤ at) }
    ensures there { IfSome result (λ at. at < length stations.now) }
    ensures named { IfSome result (λ at. get_or (names_of stations.now) at [] ≡ name.now) }
    ensures none { IfNone result (is_among name.now (drop from (names_of stations.now)) ≡ false) }
{
    for at in from..stations.len() {
        if name_at(stations, at) == name {
            return Some(at);
        }
    }
    None
}

// Moves the station of participant k to index k.
fn seat_one(stations: &mut Vec<Station>, parts: &[Part], k: usize)
    requires numbered { AreNumbered parts.now }
    requires below { k < length parts.now }
    requires suited { HaveStations (names_of stations.old.items) parts.now }
    requires seated { take k (names_of stations.old.items) ≡ take k (part_names parts.now) }
    ensures same { IsPermutation stations.old.items stations.new.items }
    ensures seated { take (k + 1) (names_of stations.new.items)
        ≡ take (k + 1) (part_names parts.now) }
{
    match find_from(stations.as_slice(), k, parts[k].name.as_str()) {
        Some(at) => stations.swap(k, at),
        None => unreachable!(),
    }
}

fn seat_all(stations: &mut Vec<Station>, parts: &[Part])
    requires numbered { AreNumbered parts.now }
    requires suited { HaveStations (names_of stations.old.items) parts.now }
    ensures same { IsPermutation stations.old.items stations.new.items }
    ensures seated { AreSeated (names_of stations.new.items) parts.now }
{
    for k in 0..parts.len() {
        seat_one(stations, parts, k);
    }
}

/// Puts the stations in the order of the participants' numbers, and after them those that no
/// participant calls for. It refuses, and then has moved nothing, the least participant without a
/// station of its name, then the first station that has the name of an earlier one.
pub fn seat(stations: &mut Vec<Station>, parts: &[Part]) -> Result<(), SeatingError>
    requires numbered { AreNumbered parts.now }
    ensures refused { result ≡ refused (seating_refusal (names_of stations.old.items) parts.now) }
    ensures same { IsPermutation stations.old.items stations.new.items }
    ensures kept { OnErr result (stations.new.items ≡ stations.old.items) }
    ensures seated { OnOk result (AreSeated (names_of stations.new.items) parts.now) }
{
    check_missing(stations.as_slice(), parts)?;
    check_doubles(stations.as_slice())?;
    seat_all(stations, parts);
    Ok(())
}
