//! Flags by which threads wait for one another.

use std::alloc::Global;
use std::sync::Arc;
use std::sync::atomic::{AtomicBool, AtomicU64, Ordering};
use std::test::*;
use std::thread;

/// How often a thread looks before it gives up. A turn is one look and one yield.
const TURNS: u64 = 1_000_000;

/// A flag that is not set.
pub fn new_flag(alloc: Global) -> Result<Arc<AtomicBool>, Fail> {
    Ok(Arc::new(alloc, AtomicBool::new(false))?)
}

/// Waits until the flag is set, for at most `TURNS` turns. Returns whether it is set.
pub fn is_set_in_time(flag: &AtomicBool) -> bool {
    for _ in 0..TURNS {
        if flag.load(Ordering::SeqCst) {
            return true;
        }
        thread::yield_now();
    }
    false
}

/// Likewise until the number has come to `least`. Returns whether it has.
pub fn reaches_in_time(number: &AtomicU64, least: u64) -> bool {
    for _ in 0..TURNS {
        if number.load(Ordering::SeqCst) >= least {
            return true;
        }
        thread::yield_now();
    }
    false
}
