//! The counts of a host, which its threads and links share.

use std::sync::atomic::{AtomicU64, Ordering};
use sw_wire::Counts;

/// The counts while threads add to them.
#[derive(Drop)]
pub struct Counters {
    late: AtomicU64,
    unreadable: AtomicU64,
    dropped: AtomicU64,
    unasked: AtomicU64,
    tests: AtomicU64,
    unanswered: AtomicU64,
}

impl Counters {
    pub fn new() -> Counters {
        Counters {
            late: AtomicU64::new(0),
            unreadable: AtomicU64::new(0),
            dropped: AtomicU64::new(0),
            unasked: AtomicU64::new(0),
            tests: AtomicU64::new(0),
            unanswered: AtomicU64::new(0),
        }
    }

    pub fn add_late(&self, count: u64) {
        self.late.fetch_add(count, Ordering::SeqCst);
    }

    pub fn add_unreadable(&self) {
        self.unreadable.fetch_add(1, Ordering::SeqCst);
    }

    pub fn add_dropped(&self, count: u64) {
        self.dropped.fetch_add(count, Ordering::SeqCst);
    }

    pub fn add_unasked(&self) {
        self.unasked.fetch_add(1, Ordering::SeqCst);
    }

    pub fn add_test(&self) {
        self.tests.fetch_add(1, Ordering::SeqCst);
    }

    pub fn add_unanswered(&self, count: u64) {
        self.unanswered.fetch_add(count, Ordering::SeqCst);
    }

    pub fn counts(&self) -> Counts {
        Counts {
            late: self.late.load(Ordering::SeqCst),
            unreadable: self.unreadable.load(Ordering::SeqCst),
            dropped: self.dropped.load(Ordering::SeqCst),
            unasked: self.unasked.load(Ordering::SeqCst),
            tests: self.tests.load(Ordering::SeqCst),
            unanswered: self.unanswered.load(Ordering::SeqCst),
        }
    }
}
