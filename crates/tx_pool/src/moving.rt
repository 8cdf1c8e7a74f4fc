//! Stations and sessions, on their way into the threads and back.

ghost use Rattle.std.specs.Prelude.{◌≡◌, ◌≤◌, ◌+◌, true, [], IfOk, length, vec_len, vec_capacity};
ghost use Rattle.std.specs.List.{sum_by};
ghost use Rattle.tx_locked.specs.AllStations.{AllBack, AreReady};

use crate::seat::{Seat, is_at, seat_of, unseat};
use std::alloc::{AllocError, Global};
use std::sync::ledger::Share;
use sw_participant::Caller;
use tx_locked::{MadeCall, Run, Session, StationBack, StationParts, both};

/// The seat of each station, the last one first.
pub(crate) fn seat_stations<K: Run, C: Caller>(
    alloc: Global,
    stations: Vec<StationParts<C>>,
    seats: Vec<Seat<K, C>>,
) -> Vec<Seat<K, C>>
    requires room { vec_len stations ≤ vec_capacity seats }
    requires empty { vec_len seats ≡ 0 }
    requires ready { AreReady K.rule K.objects K.counts K.names (λ s. C.rule s.participant)
        (λ s. C.object s.participant) (λ s. s.calls) (λ s. s.name) stations.items }
    ensures { vec_len result ≡ vec_len stations }
{
    let mut stations = stations;
    let mut seats = seats;
    while let Some(station) = stations.pop() {
        seats.push_reserved(seat_of(alloc, stations.len(), station));
    }
    seats
}

/// Opens a session for each part of the share but one, the last session first.
pub(crate) fn open_sessions<K: Run>(
    alloc: Global,
    count: usize,
    all: &mut Share<K>,
) -> Result<Vec<Session<K>>, AllocError>
    requires parts { all.old.parts ≡ count + 1 }
    requires amount { all.old.amount ≡ 0 }
    ensures count { IfOk result (λ sessions. vec_len sessions ≡ count) }
    ensures parts { IfOk result (λ _. all.new.parts ≡ 1) }
    ensures amount { IfOk result (λ _. all.new.amount ≡ 0) }
{
    let mut sessions = Vec::with_capacity(alloc, count)?;
    for opened in 0..count {
        let share = all.split_off(1, 0);
        sessions.push(Session::new(alloc, count - 1 - opened, share))?;
    }
    Ok(sessions)
}

/// Takes the shares back, and the receipts in the order of the sessions.
pub(crate) fn close_sessions<K: Run>(
    sessions: Vec<Session<K>>,
    all: &mut Share<K>,
    receipts: Vec<Vec<usize>>,
) -> Vec<Vec<usize>>
    requires room { vec_len sessions ≤ vec_capacity receipts }
    requires empty { receipts.items ≡ [] }
    requires amount { all.old.amount ≡ 0 }
    ensures parts { all.new.parts ≡ all.old.parts + vec_len sessions }
    ensures amount { all.new.amount ≡ sum_by vec_len result.items }
    ensures count { vec_len result ≡ vec_len sessions }
{
    let mut sessions = sessions;
    let mut receipts = receipts;
    while let Some(session) = sessions.pop() {
        let Session {
            index: _,
            share,
            receipts: its,
        } = session;
        all.merge(share);
        receipts.push_reserved(its);
    }
    receipts
}

/// What comes back from the stations: their parts, with the calls that each made, and whether each
/// is where it was.
#[derive(Drop)]
pub(crate) struct Back<C: Caller> {
    pub(crate) stations: Vec<StationParts<C>>,
    pub(crate) logs: Vec<Vec<MadeCall>>,
    pub(crate) in_order: bool,
}

/// Takes the stations out of their seats, the first of which is that of the last station.
pub(crate) fn unseat_stations<K: Run, C: Caller>(
    seats: Vec<Seat<K, C>>,
    stations: Vec<StationParts<C>>,
    logs: Vec<Vec<MadeCall>>,
) -> Back<C>
    requires room { vec_len seats ≤ vec_capacity stations }
    requires log_room { vec_len seats ≤ vec_capacity logs }
    requires empty { stations.items ≡ [] }
    requires no_logs { logs.items ≡ [] }
    requires all { vec_len seats ≡ length K.objects }
    ensures count { vec_len result.stations ≡ vec_len seats }
    ensures back { result.in_order ≡ true → AllBack K.rule K.objects K.counts K.names
        (λ s. C.object s.participant) (λ s. s.calls) (λ s. s.name) (λ v. v.items)
        result.stations.items result.logs.items }
{
    let mut seats = seats;
    let mut stations = stations;
    let mut logs = logs;
    let mut in_order = true;
    while let Some(seat) = seats.pop() {
        let StationBack { index, parts, log } = unseat(seat);
        let here = is_at(index, stations.len());
        in_order = both(in_order, here);
        stations.push_reserved(parts);
        logs.push_reserved(log);
    }
    Back {
        stations,
        logs,
        in_order,
    }
}
