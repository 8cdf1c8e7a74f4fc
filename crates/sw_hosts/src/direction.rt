//! The two directions of a host.

use crate::shared_moment::SharedMoment;
use std::sync::Wait;
use std::sync::atomic::{AtomicU64, Ordering};
use std::time::Duration;
use sw_wire::{DirectionState, Moment, is_awaited, is_ordered, opened_from};

/// One direction of a host. Links order it to be opened; one thread opens it, uses it and closes it. An order, and
/// whatever else the thread has to look at, rings its bell: the thread reads the bell before it looks, and sleeps
/// only while the bell is unchanged, so that no ring is lost.
#[derive(Drop)]
pub struct Direction {
    state: AtomicU64,
    /// When the last order came; `None` before the first.
    ordered: SharedMoment,
    /// How often it was rung.
    bell: AtomicU64,
    /// How often it was closed.
    closings: AtomicU64,
}

impl Direction {
    /// A closed direction.
    pub fn new() -> Direction {
        Direction {
            state: AtomicU64::new(DirectionState::Closed.word()),
            ordered: SharedMoment::new(),
            bell: AtomicU64::new(0),
            closings: AtomicU64::new(0),
        }
    }

    /// Its state now.
    pub fn state(&self) -> DirectionState {
        DirectionState::of_word(self.state.load(Ordering::SeqCst))
    }

    /// Notes that it was opened; only its thread does so.
    pub fn opened(&self) {
        self.set(DirectionState::Open);
    }

    /// Notes that it was closed, or was not opened; only its thread does so. It is counted first, so that whoever sees
    /// it open again sees that it was closed.
    pub fn closed(&self) {
        self.closings.fetch_add(1, Ordering::SeqCst);
        self.set(DirectionState::Closed);
    }

    fn set(&self, state: DirectionState) {
        self.state.store(state.word(), Ordering::SeqCst);
    }

    /// How often it was closed.
    pub fn closings(&self) -> u64 {
        self.closings.load(Ordering::SeqCst)
    }

    /// Orders the direction to be opened, if it is closed and the last order came at least a second ago.
    pub fn order(&self, now: Moment) {
        if !is_ordered(self.state(), self.ordered.get(), now) {
            return;
        }
        // Before the state, so that who sees it being opened sees when it was ordered. If several links order it
        // at once, one of them does.
        self.ordered.set(Some(now));
        if self.exchange(DirectionState::Closed, DirectionState::Opening) {
            self.ring();
        }
    }

    /// Whether a message waits for it to be opened.
    pub fn is_awaited(&self, now: Moment) -> bool {
        is_awaited(self.state(), self.ordered.get(), now)
    }

    /// The moment from which it is ordered without a message, if it is closed and the host is tested from
    /// `tested_from` on.
    pub fn opened_from(&self, tested_from: Option<Moment>) -> Option<Moment> {
        opened_from(tested_from, self.ordered.get())
    }

    // Sets the state to `to` if it is `from`; whether it was.
    fn exchange(&self, from: DirectionState, to: DirectionState) -> bool {
        let (from, to) = (from.word(), to.word());
        self.state
            .compare_exchange(from, to, Ordering::SeqCst, Ordering::SeqCst)
            .is_ok()
    }

    /// Holds off orders for a second, as if the direction had been ordered now.
    pub fn put_off(&self, now: Moment) {
        self.ordered.set(Some(now));
    }

    /// Makes the direction's thread look again.
    pub fn ring(&self) {
        self.bell.fetch_add(1, Ordering::SeqCst);
        self.bell.wake_one();
    }

    /// How often the bell was rung.
    pub fn rings(&self) -> u64 {
        self.bell.load(Ordering::SeqCst)
    }

    /// Sleeps until the bell has rung more than `rings` times.
    pub fn sleep<R: Wait>(&self, rt: &R, rings: u64) {
        self.bell.park(rt, (rings & 0xffff_ffff) as u32);
    }

    /// Sleeps until the bell has rung more than `rings` times, or the time has passed.
    pub fn sleep_for<R: Wait>(&self, rt: &R, rings: u64, time: Duration) {
        self.bell
            .park_timeout(rt, (rings & 0xffff_ffff) as u32, time);
    }

    /// Waits until the direction is ordered to be opened.
    pub fn await_order<R: Wait>(&self, rt: &R) {
        for _ in rt.forever() {
            let rings = self.rings();
            if self.state() == DirectionState::Opening {
                return;
            }
            self.sleep(rt, rings);
        }
    }
}
