//! The seats of a run's stations: where a session finds the participant that it calls.

ghost use Rattle.std.specs.Prelude.{◌≡◌, [], IfSome, Some, get_or, true};
ghost use Rattle.tx_locked.specs.AllStations.{IsBack, IsReady};

use std::alloc::Global;
use std::sync::Mutex;
use sw_participant::Caller;
use tx_locked::{Notes, OpenStation, Run, StationBack, StationLog, StationParts};

/// A station whose participant several sessions call at once. Its notes alone are under a lock.
#[derive(Drop)]
pub(crate) struct OpenSeat<K: Run, C: Caller> {
    pub(crate) station: OpenStation<K, C>,
    pub(crate) notes: Mutex<Notes<K>>,
}

/// The seat of a station.
#[derive(Drop)]
pub(crate) enum Seat<K: Run, C: Caller> {
    /// One session at a time calls the participant.
    Held(Mutex<StationLog<K, C>>),
    /// Several sessions call it at once.
    Open(OpenSeat<K, C>),
}

/// The seat of a station: open if its participant says that it is shared.
pub(crate) fn seat_of<K: Run, C: Caller>(
    alloc: Global,
    index: usize,
    parts: StationParts<C>,
) -> Seat<K, C>
    requires { IsReady (K.rule index) (C.rule parts.participant)
        (get_or K.objects index []) (C.object parts.participant)
        (get_or K.counts index 0) parts.calls (get_or K.names index []) parts.name }
{
    if parts.participant.is_shared() {
        let (station, notes) = OpenStation::new(alloc, index, parts);
        let notes = Mutex::new(notes);
        return Seat::Open(OpenSeat { station, notes });
    }
    Seat::Held(Mutex::new(StationLog::new(alloc, index, parts)))
}

/// What comes back from a seat.
pub(crate) fn unseat<K: Run, C: Caller>(seat: Seat<K, C>) -> StationBack<C>
    ensures back { IfSome result.index (λ k. IsBack (K.rule k) (get_or K.objects k [])
        (get_or K.counts k 0) (get_or K.names k []) result.log.items
        (C.object result.parts.participant) result.parts.calls result.parts.name) }
{
    match seat {
        Seat::Held(lock) => {
            let (index, parts, log) = lock.into_inner().into_parts();
            StationBack {
                index: Some(index),
                parts,
                log,
            }
        }
        Seat::Open(OpenSeat { station, notes }) => station.into_parts(notes.into_inner()),
    }
}

/// Whether this is the place.
pub(crate) fn is_at(index: Option<usize>, place: usize) -> bool
    ensures { result ≡ true → index ≡ Some place }
{
    match index {
        Some(index) => index == place,
        None => false,
    }
}
