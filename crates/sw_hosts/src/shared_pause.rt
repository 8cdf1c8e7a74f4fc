//! The pause of a host, which its threads and links share.

use crate::shared_moment::SharedMoment;
use std::sync::atomic::{AtomicU64, Ordering};
use sw_wire::Pause;

/// A pause, or none. No contract says what another thread has put there.
///
/// It is two words, of which `heard` is written first and read last. Whoever reads while one pause follows another
/// may see the earlier `until`, and then the host gets an echo test too early.
#[derive(Drop)]
pub struct SharedPause {
    until: SharedMoment,
    heard: AtomicU64,
}

impl SharedPause {
    /// No pause.
    pub fn new() -> SharedPause {
        SharedPause {
            until: SharedMoment::new(),
            heard: AtomicU64::new(0),
        }
    }

    pub fn get(&self) -> Option<Pause> {
        let until = self.until.get()?;
        let heard = self.heard.load(Ordering::SeqCst);
        Some(Pause { until, heard })
    }

    pub fn begin(&self, pause: Pause) {
        self.heard.store(pause.heard, Ordering::SeqCst);
        self.until.set(Some(pause.until));
    }

    pub fn end(&self) {
        self.until.set(None);
    }
}
