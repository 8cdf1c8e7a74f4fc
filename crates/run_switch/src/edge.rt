//! What a run has of the outside, besides its input and its output.

use crate::reporter::Reporter;
use std::alloc::Global;

/// The runtime, memory and standard error of a run. (Its output is apart, so that a caller's contract can say what was
/// written there.)
#[derive(Drop)]
pub struct Edge<'a, T, E> {
    /// What starts threads, and tells the time.
    pub rt: &'a T,
    pub alloc: Global,
    pub stderr: Reporter<'a, E, T>,
}
