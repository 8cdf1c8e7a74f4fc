//! What all threads of a run share.

ghost use Rattle.std.specs.Prelude.{◌≡◌, map, IfOk};
ghost use Rattle.tx_locked.specs.Finished.{WereKept};

use crate::seat::Seat;
use std::alloc::Global;
use std::sync::atomic::{AtomicU64, Ordering};
use std::sync::{Condvar, Mutex, MutexGuard, Wait};
use std::time::Duration;
use sw_participant::Caller;
use tx_locked::{Fault, Finished, Locked, Run, RunIntake};

/// The longest time that the keeper waits for calls, in milliseconds.
const GATHERING: u64 = 1;

/// What the threads of a run share: the engine under its lock, the seat of each station, the last
/// one first, the intake, and the condition variables of the engine's lock, one for each kind of
/// waiting. A thread that has the lock of a seat, or of its notes, may take the engine's, never the
/// other way round.
///
/// No wake-up is lost. A thread waits only after it found, under the engine's lock, that it has
/// nothing to do, and `wait` releases the lock and falls asleep in one step. What it waits for
/// changes under the same lock, and the thread that changes it notifies afterwards:
///
/// - `work`: the keeper waits while `is_quiet`. A session ends this by an entry that is not an
///   offer's, or by leaving. After such an entry the session makes no call before it waits or
///   leaves, and at each wait and when it leaves it calls `tell_keeper`. An entry that comes
///   while the keeper writes is found by the keeper itself: it tests again before it waits.
/// - `written`: a session waits for the mark to pass its last entry. Only the keeper moves the
///   mark, and it notifies all after that. It will, since the session's entry keeps `is_quiet`
///   false.
/// - `offers`: a session waits while the queue and the intake are empty and the source goes on. The
///   feeder notifies one session after each put, and all at the source's end. Whichever session
///   comes first gets the offer. The one that is woken looks before it waits again, and so does
///   each that was awake: no offer is left while all sessions sleep. What a session admits is
///   taken by itself or by another one.
/// - `room`: the feeder waits while the intake is full. A session that got an offer notifies it.
/// - A fault ends each of these waits. A session or the keeper that finds one leaves, and wakes
///   all others by `tell_all` when it does; so does `stop`.
///
/// `gathered` is not a condition variable: the keeper sleeps on it for a millisecond at most, so a
/// notification that comes too early costs only that.
#[derive(Drop)]
pub(crate) struct Shared<K: Run, C: Caller> {
    pub(crate) locked: Mutex<Locked<K>>,
    /// For the keeper: there is something to write, or the run is over.
    pub(crate) work: Condvar,
    /// For sessions: entries were written.
    pub(crate) written: Condvar,
    /// For sessions: an offer was put, or the source has ended.
    pub(crate) offers: Condvar,
    /// For the feeder: the intake has room.
    pub(crate) room: Condvar,
    /// How often the keeper's wait for calls was ended by a session.
    pub(crate) gathered: AtomicU64,
    pub(crate) seats: Vec<Seat<K, C>>,
    pub(crate) intake: RunIntake<K>,
}

impl<K: Run, C: Caller> Shared<K, C> {
    /// Gives the run up.
    pub(crate) fn stop<R: Wait>(&self, rt: &R, fault: Fault) {
        let _ = self.locked.lock(rt).stop(fault);
        self.tell_all();
    }

    /// Gives the run up, since it contradicts its history.
    pub(crate) fn contradict<R: Wait>(&self, rt: &R) {
        let _ = self.locked.lock(rt).contradict();
        self.tell_all();
    }

    /// Moves the mark over this many entries, which were written and ended these transactions. Gives these,
    /// with copies of the contexts that they ended with.
    pub(crate) fn wrote<R: Wait>(
        &self,
        rt: &R,
        alloc: Global,
        count: usize,
        ids: &[u64],
    ) -> Result<Vec<Finished>, Fault>
        ensures ids { IfOk result (λ list. map (λ f. f.id) list.items ≡ ids.now) }
        ensures kept { IfOk result (λ list. WereKept K.start list.items) }
    {
        let mut locked = self.locked.lock(rt);
        locked.wrote(count);
        let finished = locked.finished(alloc, ids)?;
        drop(locked);
        self.written.notify_all();
        Ok(finished)
    }

    /// Wakes the keeper, if there is something for it to do now that a session waits or has left.
    pub(crate) fn tell_keeper(&self, locked: &mut Locked<K>) {
        if locked.has_gathered() {
            self.gathered.fetch_add(1, Ordering::SeqCst);
            self.gathered.wake_one();
        }
        if !locked.is_quiet() {
            self.work.notify_one();
        }
    }

    /// Waits until no call is due, but not for longer than `GATHERING`.
    pub(crate) fn gather<'a, R: Wait>(
        &'a self,
        rt: &R,
        locked: MutexGuard<'a, Locked<K>>,
    ) -> MutexGuard<'a, Locked<K>> {
        let seen = self.gathered.load(Ordering::SeqCst);
        let most = Duration::from_millis(GATHERING);
        drop(locked);
        self.gathered
            .park_timeout(rt, (seen & 0xffff_ffff) as u32, most);
        self.locked.lock(rt)
    }

    /// Wakes everybody, since the run is given up.
    pub(crate) fn tell_all(&self) {
        self.work.notify_all();
        self.written.notify_all();
        self.offers.notify_all();
        self.room.notify_all();
    }
}
