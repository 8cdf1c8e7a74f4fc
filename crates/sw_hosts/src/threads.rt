//! The threads of a host.

use crate::shared::Shared;
use std::alloc::Global;
use std::sync::Wait;

/// A thread of a host.
#[derive(Drop)]
pub struct HostThread<'a, R: Wait> {
    pub rt: &'a R,
    /// Where it takes its memory.
    pub alloc: Global,
    /// What it shares with the other thread and with the host's links.
    pub shared: &'a Shared,
}
