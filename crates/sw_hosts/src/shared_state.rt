//! The state of a host, which its threads and links share.

use std::sync::atomic::{AtomicU64, Ordering};
use sw_wire::{HostSign, HostState};

/// More tries than a word needs that few threads change.
const MAX_TRIES: u64 = u64::MAX;

/// The state of a host. No contract says what another thread has put there.
#[derive(Drop)]
pub struct SharedState {
    word: AtomicU64,
}

impl SharedState {
    /// A host of which nothing is known.
    pub fn new() -> SharedState {
        SharedState {
            word: AtomicU64::new(HostState::Reached.word()),
        }
    }

    pub fn get(&self) -> HostState {
        HostState::of_word(self.word.load(Ordering::SeqCst))
    }

    /// Notes a sign. It changes the state that is there, also if another thread notes one at the same time.
    pub fn note(&self, sign: HostSign) {
        for _ in 0..MAX_TRIES {
            let before = self.get();
            match before.news(before.after(sign)) {
                Some(after) if !self.exchange(before, after) => {}
                _ => return,
            }
        }
    }

    // Sets the state to `to` if it is `from`; whether it was.
    fn exchange(&self, from: HostState, to: HostState) -> bool {
        let (from, to) = (from.word(), to.word());
        self.word
            .compare_exchange(from, to, Ordering::SeqCst, Ordering::SeqCst)
            .is_ok()
    }
}
