//! What the program runs on.

use std::alloc::Global;

/// What the program runs on. (Its output and standard error are apart, so that contracts can say what was written there.)
#[derive(Drop)]
pub struct Machine<'a, T> {
    /// What starts threads, and tells the time.
    pub threads: &'a T,
    /// What opens files.
    pub rt: &'a HostRuntime,
    pub alloc: Global,
}
