//! A gate of the tests.

use std::sync::atomic::{AtomicU64, Ordering};
use sw_participant::{Act, Call};
use tx_pool::Gate;

/// Counts the preparations that are under way at once, except those of participant 0, and the outcomes.
#[derive(Drop)]
pub struct Counting {
    now: AtomicU64,
    most: AtomicU64,
    commits: AtomicU64,
    aborts: AtomicU64,
}

fn is_counted(call: &Call) -> bool {
    call.act == Act::Prepare && call.participant > 0
}

impl Counting {
    pub fn new() -> Counting {
        Counting {
            now: AtomicU64::new(0),
            most: AtomicU64::new(0),
            commits: AtomicU64::new(0),
            aborts: AtomicU64::new(0),
        }
    }

    /// How many preparations were under way at once.
    pub fn most(&self) -> u64 {
        self.most.load(Ordering::SeqCst)
    }

    /// How many members were notified of the commit, and how many of the abort.
    pub fn outcomes(&self) -> (u64, u64) {
        (
            self.commits.load(Ordering::SeqCst),
            self.aborts.load(Ordering::SeqCst),
        )
    }
}

impl Gate for Counting {
    fn enter(&self, _session: usize, call: &Call) {
        if is_counted(call) {
            let now = self.now.fetch_add(1, Ordering::SeqCst).saturating_add(1);
            let _ = self.most.fetch_max(now, Ordering::SeqCst);
        }
        let _ = match call.act {
            Act::Commit { .. } => self.commits.fetch_add(1, Ordering::SeqCst),
            Act::Abort { .. } => self.aborts.fetch_add(1, Ordering::SeqCst),
            _ => 0,
        };
    }

    fn leave(&self, _session: usize, call: &Call) {
        if is_counted(call) {
            let _ = self.now.fetch_sub(1, Ordering::SeqCst);
        }
    }
}
