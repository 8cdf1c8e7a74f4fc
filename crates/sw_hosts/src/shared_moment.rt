//! A moment that threads share.

ghost use Rattle.std.specs.Prelude.{◌≡◌};
ghost use Rattle.sw_hosts.specs.SharedMoments.{moment_in, word_for};

use std::sync::atomic::{AtomicU64, Ordering};
use sw_wire::Moment;

fn word_for(moment: Option<Moment>) -> u64
    ensures { result ≡ word_for moment }
{
    match moment {
        Some(moment) => moment.micros.saturating_add(1),
        None => 0,
    }
}

fn moment_in(word: u64) -> Option<Moment>
    ensures { result ≡ moment_in word }
{
    match word.checked_sub(1) {
        Some(micros) => Some(Moment { micros }),
        None => None,
    }
}

/// A moment that threads share, or none. No contract says what another thread has put there.
#[derive(Drop)]
pub struct SharedMoment {
    word: AtomicU64,
}

impl SharedMoment {
    /// No moment.
    pub fn new() -> SharedMoment {
        SharedMoment {
            word: AtomicU64::new(word_for(None)),
        }
    }

    pub fn get(&self) -> Option<Moment> {
        moment_in(self.word.load(Ordering::SeqCst))
    }

    pub fn set(&self, moment: Option<Moment>) {
        self.word.store(word_for(moment), Ordering::SeqCst);
    }
}
