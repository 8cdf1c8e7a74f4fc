//! What the threads of a leg tell one another: a bell, and what is under way.
//!
//! A leg is a run of the pool that answers requests for as long as more come. Its source waits for them, and has to
//! know when nothing is under way; its sink sees what ends; the reader's thread puts what came. All three share a
//! [`Watch`]. No contract says anything of it: its counts decide only when a leg ends.
#![tactic(auto)]

use std::sync::Wait;
use std::sync::atomic::{AtomicU64, Ordering};
use std::time::Duration;

/// A bell, and the counts of a leg. Whoever waits reads the bell before it looks, and sleeps only while the bell is
/// unchanged, so that no ring is lost.
#[derive(Drop)]
pub struct Watch {
    /// How often it was rung.
    bell: AtomicU64,
    /// How many requests were offered since the run began.
    offered: AtomicU64,
    /// How many transactions ended since then, or were put on the shelf.
    ended: AtomicU64,
    /// How many entries were written since the leg began.
    entries: AtomicU64,
    /// 1 if the leg takes no more requests.
    is_over: AtomicU64,
}

impl Watch {
    /// Nothing is under way.
    pub fn new() -> Watch {
        Watch {
            bell: AtomicU64::new(0),
            offered: AtomicU64::new(0),
            ended: AtomicU64::new(0),
            entries: AtomicU64::new(0),
            is_over: AtomicU64::new(0),
        }
    }

    /// Notes that a leg begins. Nothing is under way then.
    pub fn begin(&self) {
        let offered = self.offered.load(Ordering::SeqCst);
        self.ended.store(offered, Ordering::SeqCst);
        self.entries.store(0, Ordering::SeqCst);
        self.is_over.store(0, Ordering::SeqCst);
    }

    /// Notes that a request is offered.
    pub fn offer(&self) {
        self.offered.fetch_add(1, Ordering::SeqCst);
    }

    /// Notes that this many entries were written, which ended this many transactions. Rings if none is under way then.
    pub fn wrote(&self, entries: usize, ended: usize) {
        self.entries.fetch_add(entries as u64, Ordering::SeqCst);
        self.ended.fetch_add(ended as u64, Ordering::SeqCst);
        if self.is_idle() {
            self.ring();
        }
    }

    /// Whether nothing is under way.
    pub fn is_idle(&self) -> bool {
        let ended = self.ended.load(Ordering::SeqCst);
        ended >= self.offered.load(Ordering::SeqCst)
    }

    /// How many entries were written in this leg.
    pub fn entries(&self) -> u64 {
        self.entries.load(Ordering::SeqCst)
    }

    /// Ends the leg: it takes no more requests.
    pub fn stop(&self) {
        self.is_over.store(1, Ordering::SeqCst);
        self.ring();
    }

    /// Whether the leg takes no more requests.
    pub fn is_over(&self) -> bool {
        self.is_over.load(Ordering::SeqCst) > 0
    }

    /// Makes whoever waits look again.
    pub fn ring(&self) {
        self.bell.fetch_add(1, Ordering::SeqCst);
        self.bell.wake_one();
    }

    /// How often it was rung.
    pub fn rings(&self) -> u64 {
        self.bell.load(Ordering::SeqCst)
    }

    /// Sleeps until it was rung more than `rings` times.
    pub fn sleep<R: Wait>(&self, rt: &R, rings: u64) {
        self.bell.park(rt, (rings & 0xffff_ffff) as u32);
    }

    /// Sleeps until it was rung more than `rings` times, or the time has passed.
    pub fn sleep_for<R: Wait>(&self, rt: &R, rings: u64, time: Duration) {
        self.bell
            .park_timeout(rt, (rings & 0xffff_ffff) as u32, time);
    }
}
