//! What the thread of a session does.

use crate::gate::Gate;
use crate::seat::{OpenSeat, Seat};
use crate::shared::Shared;
use std::alloc::Global;
use std::sync::{Mutex, MutexGuard, Wait};
use std::thread::{self, Threads};
use sw_context::Context;
use sw_participant::{Call, Caller, NoMemory};
use tx_locked::{Fault, Locked, Plan, Run, Session, StationLog};

/// What the threads of all sessions work with.
#[derive(Drop)]
struct Attendant<'a, K: Run, C: Caller, G: Gate, R: Wait> {
    rt: &'a R,
    alloc: Global,
    shared: &'a Shared<K, C>,
    gate: &'a G,
}

impl<K: Run, C: Caller, G: Gate, R: Wait> Attendant<'_, K, C, G, R> {
    // Runs one session until it leaves. Each time that it takes the engine's lock, or is woken with it, it
    // makes at most one event.
    fn attend(&self, session: Session<K>) -> Session<K> {
        let shared = self.shared;
        let mut session = session;
        let mut locked = shared.locked.lock(self.rt);
        for _ in self.rt.forever() {
            match locked.plan(self.rt, self.alloc, &shared.intake, &mut session) {
                Plan::Again => {
                    drop(locked);
                    locked = shared.locked.lock(self.rt);
                }
                Plan::Admitted => {
                    drop(locked);
                    shared.room.notify_one();
                    locked = shared.locked.lock(self.rt);
                }
                Plan::AwaitWrite => {
                    shared.tell_keeper(&mut locked);
                    locked = shared.written.wait(self.rt, locked);
                }
                Plan::AwaitOffer => {
                    shared.tell_keeper(&mut locked);
                    locked = shared.offers.wait(self.rt, locked);
                }
                Plan::Leave => {
                    shared.tell_keeper(&mut locked);
                    let is_stopped = locked.is_stopped();
                    drop(locked);
                    if is_stopped {
                        shared.tell_all();
                    }
                    return session;
                }
                Plan::Make(call, context) => {
                    drop(locked);
                    self.make(&mut session, call, context);
                    locked = shared.locked.lock(self.rt);
                }
            }
        }
        session
    }

    // Makes one call, with the context of its transaction, and waits until its entry is written. The engine's lock
    // is not held while the participant is called.
    fn make(&self, session: &mut Session<K>, call: Call, context: Context) {
        let number = usize::from(call.participant);
        let count = self.shared.seats.len();
        if number >= count {
            // Each participant of the flow has its station, so no due call names another one.
            self.shared.contradict(self.rt);
            return;
        }
        match &self.shared.seats[count - 1 - number] {
            Seat::Held(station) => self.make_alone(session, station, call, context),
            Seat::Open(seat) => self.make_beside(session, seat, call, context),
        }
    }

    // The station's lock is held until the reply is recorded, so one session at a time calls the participant.
    fn make_alone(
        &self,
        session: &mut Session<K>,
        station: &Mutex<StationLog<K, C>>,
        call: Call,
        context: Context,
    ) {
        let mut station = station.lock(self.rt);
        self.gate.enter(session.index, &call);
        let made = station.call(&call, context);
        self.gate.leave(session.index, &call);
        let mut locked = self.shared.locked.lock(self.rt);
        let _ = match made {
            Ok((reply, after)) => locked.record(self.alloc, session, &call, reply, after),
            Err(NoMemory) => locked.stop(Fault::OutOfMemory),
        };
        drop(station);
        self.await_write(session, locked);
    }

    // No lock is held while the participant is called. That of the notes is held until the reply is recorded, so
    // that the notes are in the order of the entries.
    fn make_beside(
        &self,
        session: &mut Session<K>,
        seat: &OpenSeat<K, C>,
        call: Call,
        context: Context,
    ) {
        self.gate.enter(session.index, &call);
        let made = seat.station.call(&call, context);
        self.gate.leave(session.index, &call);
        let mut notes = seat.notes.lock(self.rt);
        let noted = match made {
            Ok(made) => seat.station.note(&mut notes, made),
            Err(NoMemory) => Err(NoMemory),
        };
        let mut locked = self.shared.locked.lock(self.rt);
        let _ = match noted {
            Ok(Some((reply, after))) => locked.record(self.alloc, session, &call, reply, after),
            Ok(None) => locked.contradict(),
            Err(NoMemory) => locked.stop(Fault::OutOfMemory),
        };
        drop(notes);
        self.await_write(session, locked);
    }

    // Waits until the session's entry is written, if it is not.
    fn await_write<'b>(&'b self, session: &Session<K>, locked: MutexGuard<'b, Locked<K>>) {
        let mut locked = locked;
        if locked.awaits_write(session) {
            self.shared.tell_keeper(&mut locked);
            drop(self.shared.written.wait(self.rt, locked));
        }
    }
}

/// Runs all sessions, each in a thread. `None` if memory was refused.
pub(crate) fn attend_all<
    K: Run + Send + Sync,
    C: Caller + Send + Sync,
    G: Gate + Sync,
    R: Threads + Wait + Sync,
>(
    rt: &R,
    alloc: Global,
    shared: &Shared<K, C>,
    gate: &G,
    sessions: Vec<Session<K>>,
) -> Option<Vec<Session<K>>> {
    let attendant = Attendant {
        rt,
        alloc,
        shared,
        gate,
    };
    let attended = thread::map_vec(rt, sessions, &|session| { attendant.attend(session) });
    match attended {
        Ok(back) => Some(back),
        Err(_) => {
            shared.stop(rt, Fault::OutOfMemory);
            None
        }
    }
}
